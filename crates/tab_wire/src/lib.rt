//! Frames: what a connection asks and is told, byte by byte.
//!
//! A frame is a length of four bytes, 1 to 8,388,608, and that many bytes: an opcode and its fields. Numbers are big-endian. A field is
//! a length of four bytes and that many bytes, a name a field that a user or a table may be called; a list is a count of four bytes
//! and that many fields, an end of a range 0 for none, or 1 (in the range) or 2 (not in it) and a field. A permission is 0 and the place
//! of a system permission, or 1, the place of a table permission and the table's name.
//!
//! | Opcode | What it asks | Fields |
//! |---|---|---|
//! | 01 | who asks: the first frame, and no other one | user |
//! | 02 | make a table | table, 0 or 1 where it gives the timestamps itself, four bytes of versions: 1 to 1,000 |
//! | 03, 04, 05 | take a table away, make a user, take one away | name |
//! | 06 | give a user these authorizations | user, list |
//! | 07, 08 | grant or revoke a permission | user, permission |
//! | 09 | set a table's constraints | table, four bits, the lowest for constraint 1 |
//! | 0a | apply a mutation | table, row as a field, four bytes of count, updates |
//! | 0b | open a session | table, low end, high end, four bytes of count, columns, list of authorizations |
//! | 0c | the next cells of a session | session, how many: four bytes each |
//! | 0d | some ranges of a session | session, count: four bytes each; pairs of ends |
//! | 0e | close a session | session |
//! | 0f | a minor compaction | table |
//! | 10 | a major compaction | table, 0 for some sorted tables, 1 for all |
//! | 11 | split a tablet | table, row as a field |
//! | 12, 13, 14 | tell the end rows, count what there is, tell one's own rights | table |
//! | 15 | show fewer versions of a table's columns | table, four bytes of versions: 1 to 1,000 |
//! | 16 | raise a table's horizon | table, eight bytes of a timestamp |
//! | 17 | hand out the history so far | |
//!
//! An update is 0 for a delete or 1 for a put, a field each for family, qualifier and label, 0, or 1 and a timestamp of eight bytes, and for
//! a put a field for its value. A column is a field, and 0, or 1 and a field for its qualifier.
//!
//! | Opcode | What it tells | Fields |
//! |---|---|---|
//! | 80 | done | |
//! | 81 | why not | a number, and what goes with it |
//! | 82 | a cell | row, family, qualifier, label, eight bytes of timestamp, value |
//! | 83 | the end of a batch or of a list | 0 where there may be more, else 1 |
//! | 84 | a session | four bytes |
//! | 85 | an end row | field |
//! | 86 | the end of a range | |
//! | 87 | tablets, sources, records | eight bytes each |
//! | 88 | one's own rights | eight bits, five bits, list of authorizations |
//!
//! | File | What |
//! |---|---|
//! | `request`, `reason`, `opcode` | what a frame asks, why one asks nothing, and its first byte |
//! | `parts`, `counted`, `updates` | the parts that frames alone have |
//! | `read` | what a frame asks: `read_request` |
//! | `value` | what a frame is put of |
//! | `refusal`, `reply`, `cell_frame` | the frames of refusals and replies, and of a cell: `write_reply` |
//! | `head`, `frame` | one frame after another, taken of a stream into memory that is used again |
//! | `conn`, `asked` | the server's side of a connection: what is asked next, and what it is told |
//! | `asking`, `sending`, `gathering` | the bytes of requests, of parts that are lent, gathered as a client sends them |
//! | `reply_frame`, `answer` | what one frame of a reply tells, and what all frames of one do |
//! | `client` | the client's side of a connection: `Client` |
//! | `laws` | reading is exactly the forms, and what else the lemmas of `proofs` show of frames, streams and whole connections |
//!
//! In `specs`, `Forms` says what each frame asks, with one form for each opcode, and nothing of how it is read; `Requests` reads it, of the
//! parts in `FrameParts` and `FrameReading` and those of crate `tab_codec`. `Stream` says how bytes are split into frames, `Replies` has
//! the bytes of each reply, `Tells` reads what one of its frames tells, with the law on that in `TellLaws`, `Values` what they are put of,
//! `Gives` and `Updating` say what the code's results stand for, and `Examples` computes examples. `Taking` says what is taken of a stream,
//! `Heard` what is asked and by whom, `Asking` what a connection knows and what comes next on it, and `Talking` what a whole connection
//! comes to, frame by frame: the steps that its bytes spell, the moments that its events take, and what is replied; `TalkLaws` has the law
//! on that. `Sending` has the bytes of each request, of which a client makes its frames. In `proofs`, `FrameLaw`, `WriteLaw` and
//! `RequestLaw` show that reading is exactly the forms, `ReasonLaw` which reason is first, `TellLaw` that a refusal is read as it is
//! written, `NoSlots` that no frame names the slot of a job, `StreamLaw` that a stream is split in one way, `WholeTalks` that a connection
//! makes a legal history; the others have lemmas for the code.
#![tactic(auto)]

mod answer;
mod asked;
mod asking;
mod cell_frame;
mod client;
mod conn;
mod counted;
mod frame;
mod gathering;
mod head;
mod laws;
mod opcode;
mod parts;
mod read;
mod reason;
mod refusal;
mod reply;
mod reply_frame;
mod request;
mod sending;
mod updates;
mod value;

pub use answer::Answer;
pub use asked::Asked;
pub use client::{Client, ReceiveFault, SendFault};
pub use conn::Conn;
pub use gathering::Gathering;
pub use laws::{
    mutations_are_coded, reasons_are_first, refusals_are_told, requests_are_forms,
    requests_in_turn, streams_split_once, talks_stay_legal,
};
pub use opcode::Opcode;
pub use read::{Stop, read_request};
pub use reason::Reason;
pub use refusal::write_bad_frame;
pub use reply::write_reply;
pub use request::Request;
pub use sending::put_act;
pub use value::{Value, put_values};
