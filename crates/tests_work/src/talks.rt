//! The frames of some connections with a new core, and the replies to them.

// How many connections there are.
pub const TALKS: u32 = 8;

// The end of the input inside a frame.
const CUT: &[u8] = b"\0\0\0\x03\x81\x10\x03";

// A table is made, a cell is written at timestamp 5, and a batch of two gives it and the end.
const ONE_CELL: &[u8] = b"\0\0\0\x09\x01\0\0\0\x04root\
\0\0\0\x0b\x02\0\0\0\x01t\0\0\0\0\x01\
\0\0\0\x2c\x0a\0\0\0\x01t\0\0\0\x01r\0\0\0\x01\x01\0\0\0\x01f\0\0\0\x01q\0\0\0\0\x01\0\0\0\0\0\0\0\x05\0\0\0\x01v\
\0\0\0\x10\x0b\0\0\0\x01t\0\0\0\0\0\0\0\0\0\0\
\0\0\0\x09\x0c\0\0\0\0\0\0\0\x02";

const ONE_CELL_TOLD: &[u8] = b"\0\0\0\x01\x80\
\0\0\0\x01\x80\
\0\0\0\x01\x80\
\0\0\0\x05\x84\0\0\0\0\
\0\0\0\x21\x82\0\0\0\x01r\0\0\0\x01f\0\0\0\x01q\0\0\0\0\0\0\0\0\0\0\0\x05\0\0\0\x01v\
\0\0\0\x02\x83\x01";

// A session on a new table has the number 0, and its first batch is the end.
const NEW_TABLE: &[u8] = b"\0\0\0\x09\x01\0\0\0\x04root\
\0\0\0\x0b\x02\0\0\0\x01t\0\0\0\0\x01\
\0\0\0\x10\x0b\0\0\0\x01t\0\0\0\0\0\0\0\0\0\0\
\0\0\0\x09\x0c\0\0\0\0\0\0\0\x01";

const NEW_TABLE_TOLD: &[u8] = b"\0\0\0\x01\x80\
\0\0\0\x01\x80\
\0\0\0\x05\x84\0\0\0\0\
\0\0\0\x02\x83\x01";

// A frame of length 0.
const EMPTY: &[u8] = b"\0\0\0\x09\x01\0\0\0\x04root\
\0\0\0\0";

const EMPTY_TOLD: &[u8] = b"\0\0\0\x01\x80\
\0\0\0\x03\x81\x10\x01";

// A frame of 8,388,609 bytes.
const TOO_LONG: &[u8] = b"\0\0\0\x09\x01\0\0\0\x04root\
\0\x80\0\x01";

const TOO_LONG_TOLD: &[u8] = b"\0\0\0\x01\x80\
\0\0\0\x03\x81\x10\x02";

// Three bytes of a length.
const CUT_LENGTH: &[u8] = b"\0\0\0\x09\x01\0\0\0\x04root\
\0\0\0";

const CUT_LENGTH_TOLD: &[u8] = b"\0\0\0\x01\x80\
\0\0\0\x03\x81\x10\x03";

// An opcode that asks nothing, and then one that does.
const UNKNOWN: &[u8] = b"\0\0\0\x09\x01\0\0\0\x04root\
\0\0\0\x01\x7f\
\0\0\0\x0b\x02\0\0\0\x01t\0\0\0\0\x01";

const UNKNOWN_TOLD: &[u8] = b"\0\0\0\x01\x80\
\0\0\0\x03\x81\x10\x04\
\0\0\0\x01\x80";

// Sessions on a new table are numbered in one row, whatever stands between; the connection ends at a frame of length 0.
const TWO_SESSIONS: &[u8] = b"\0\0\0\x09\x01\0\0\0\x04root\
\0\0\0\x0b\x02\0\0\0\x01t\0\0\0\0\x01\
\0\0\0\x10\x0b\0\0\0\x01t\0\0\0\0\0\0\0\0\0\0\
\0\0\0\x01\x18\
\0\0\0\x10\x0b\0\0\0\x01t\0\0\0\0\0\0\0\0\0\0\
\0\0\0\x09\x0c\0\0\0\0\0\0\0\x01\
\0\0\0\0";

const TWO_SESSIONS_TOLD: &[u8] = b"\0\0\0\x01\x80\
\0\0\0\x01\x80\
\0\0\0\x05\x84\0\0\0\0\
\0\0\0\x03\x81\x10\x04\
\0\0\0\x05\x84\0\0\0\x01\
\0\0\0\x02\x83\x01\
\0\0\0\x03\x81\x10\x01";

// A write and then a scan shows the cell, and once more after a second write.
const OWN_WRITES: &[u8] = b"\0\0\0\x09\x01\0\0\0\x04root\
\0\0\0\x0b\x02\0\0\0\x01t\0\0\0\0\x01\
\0\0\0\x2c\x0a\0\0\0\x01t\0\0\0\x01r\0\0\0\x01\x01\0\0\0\x01f\0\0\0\x01q\0\0\0\0\x01\0\0\0\0\0\0\0\x05\0\0\0\x01v\
\0\0\0\x10\x0b\0\0\0\x01t\0\0\0\0\0\0\0\0\0\0\
\0\0\0\x09\x0c\0\0\0\0\0\0\0\x02\
\0\0\0\x2c\x0a\0\0\0\x01t\0\0\0\x01r\0\0\0\x01\x01\0\0\0\x01f\0\0\0\x01q\0\0\0\0\x01\0\0\0\0\0\0\0\x06\0\0\0\x01w\
\0\0\0\x10\x0b\0\0\0\x01t\0\0\0\0\0\0\0\0\0\0\
\0\0\0\x09\x0c\0\0\0\x01\0\0\0\x02";

const OWN_WRITES_TOLD: &[u8] = b"\0\0\0\x01\x80\
\0\0\0\x01\x80\
\0\0\0\x01\x80\
\0\0\0\x05\x84\0\0\0\0\
\0\0\0\x21\x82\0\0\0\x01r\0\0\0\x01f\0\0\0\x01q\0\0\0\0\0\0\0\0\0\0\0\x05\0\0\0\x01v\
\0\0\0\x02\x83\x01\
\0\0\0\x01\x80\
\0\0\0\x05\x84\0\0\0\x01\
\0\0\0\x21\x82\0\0\0\x01r\0\0\0\x01f\0\0\0\x01q\0\0\0\0\0\0\0\0\0\0\0\x06\0\0\0\x01w\
\0\0\0\x02\x83\x01";

// A cell is written into the table that is there, and a batch of two gives it and the end.
pub const WRITES: &[u8] = b"\0\0\0\x09\x01\0\0\0\x04root\
\0\0\0\x2c\x0a\0\0\0\x01t\0\0\0\x01r\0\0\0\x01\x01\0\0\0\x01f\0\0\0\x01q\0\0\0\0\x01\0\0\0\0\0\0\0\x05\0\0\0\x01v\
\0\0\0\x10\x0b\0\0\0\x01t\0\0\0\0\0\0\0\0\0\0\
\0\0\0\x09\x0c\0\0\0\0\0\0\0\x02";

pub const WRITES_TOLD: &[u8] = b"\0\0\0\x01\x80\
\0\0\0\x01\x80\
\0\0\0\x05\x84\0\0\0\0\
\0\0\0\x21\x82\0\0\0\x01r\0\0\0\x01f\0\0\0\x01q\0\0\0\0\0\0\0\0\0\0\0\x05\0\0\0\x01v\
\0\0\0\x02\x83\x01";

// What writes as before, and scans the one row that is written.
pub const READS_ONE_ROW: &[u8] = b"\0\0\0\x09\x01\0\0\0\x04root\
\0\0\0\x2c\x0a\0\0\0\x01t\0\0\0\x01r\0\0\0\x01\x01\0\0\0\x01f\0\0\0\x01q\0\0\0\0\x01\0\0\0\0\0\0\0\x05\0\0\0\x01v\
\0\0\0\x1a\x0b\0\0\0\x01t\x01\0\0\0\x01r\x01\0\0\0\x01r\0\0\0\0\0\0\0\0\
\0\0\0\x09\x0c\0\0\0\0\0\0\0\x02";

// A write that is done and one that is refused, a batch of a session and one of none, ranges of it, and its end.
pub const ASKS_GATES: &[u8] = b"\0\0\0\x09\x01\0\0\0\x04root\
\0\0\0\x0b\x02\0\0\0\x01t\0\0\0\0\x01\
\0\0\0\x2c\x0a\0\0\0\x01t\0\0\0\x01r\0\0\0\x01\x01\0\0\0\x01f\0\0\0\x01q\0\0\0\0\x01\0\0\0\0\0\0\0\x05\0\0\0\x01v\
\0\0\0\x0f\x0a\0\0\0\x01t\0\0\0\x01r\0\0\0\0\
\0\0\0\x10\x0b\0\0\0\x01t\0\0\0\0\0\0\0\0\0\0\
\0\0\0\x09\x0c\0\0\0\0\0\0\0\x02\
\0\0\0\x09\x0c\0\0\0\x07\0\0\0\x01\
\0\0\0\x09\x0d\0\0\0\0\0\0\0\0\
\0\0\0\x05\x0e\0\0\0\0";

pub const ASKS_GATES_TOLD: &[u8] = b"\0\0\0\x01\x80\
\0\0\0\x01\x80\
\0\0\0\x01\x80\
\0\0\0\x02\x81\x08\
\0\0\0\x05\x84\0\0\0\0\
\0\0\0\x21\x82\0\0\0\x01r\0\0\0\x01f\0\0\0\x01q\0\0\0\0\0\0\0\0\0\0\0\x05\0\0\0\x01v\
\0\0\0\x02\x83\x01\
\0\0\0\x06\x81\x0f\0\0\0\x07\
\0\0\0\x02\x83\x01\
\0\0\0\x01\x80";

// A table is made, and the history handed out.
pub const ROTATES: &[u8] = b"\0\0\0\x09\x01\0\0\0\x04root\
\0\0\0\x0b\x02\0\0\0\x01t\0\0\0\0\x01\
\0\0\0\x01\x17";

pub const ROTATES_TOLD: &[u8] = b"\0\0\0\x01\x80\
\0\0\0\x01\x80\
\0\0\0\x01\x80";

// What this connection asks.
pub fn asked(talk: u32) -> &'static [u8] {
    match talk {
        0 => ONE_CELL,
        1 => NEW_TABLE,
        2 => EMPTY,
        3 => TOO_LONG,
        4 => CUT_LENGTH,
        5 => OWN_WRITES,
        6 => UNKNOWN,
        _ => TWO_SESSIONS,
    }
}

// What it is told.
pub fn told(talk: u32) -> &'static [u8] {
    match talk {
        0 => ONE_CELL_TOLD,
        1 => NEW_TABLE_TOLD,
        2 => EMPTY_TOLD,
        3 => TOO_LONG_TOLD,
        4 => CUT_LENGTH_TOLD,
        5 => OWN_WRITES_TOLD,
        6 => UNKNOWN_TOLD,
        _ => TWO_SESSIONS_TOLD,
    }
}

// Whether these bytes are a beginning of what is told, or such a one and the refusal of a frame that is cut.
pub fn is_beginning(told: &[u8], bytes: &[u8]) -> bool {
    if told.starts_with(bytes) {
        return true;
    }
    match bytes.strip_suffix(CUT) {
        Some(front) => told.starts_with(front),
        None => false,
    }
}
