//! Bytes of images, in both versions: in the first one no table has a horizon.

/// A new core: root alone, and no table.
pub const SMALLEST: &[u8] =
    b"TABIMG\0\x02\0\0\0\0\0\0\0\0\0\0\0\0\0\0\0\0\0\0\0\x01\0\0\0\x04root\xff\0\0\0\0\0\0\0\0END!";

/// A new core in the first version.
pub const FIRST_SMALLEST: &[u8] =
    b"TABIMG\0\x01\0\0\0\0\0\0\0\0\0\0\0\0\0\0\0\0\0\0\0\x01\0\0\0\x04root\xff\0\0\0\0\0\0\0\0END!";

/// A table t of root's with one put: row r, family f, qualifier q, timestamp 5, value v. The table's horizon is the least one.
pub const ONE_PUT: &[u8] =
    b"TABIMG\0\x02\0\0\0\0\0\0\0\0\0\0\0\0\0\0\0\x01\0\0\0\x01\0\0\0\x04root\xff\0\0\0\0\0\0\0\x01\
\0\0\0\x01t\0\0\0\0\x01\0\x80\0\0\0\0\0\0\0\0\0\0\x01\0\0\0\x04root\x1f\0\0\0\0\0\0\0\0\0\0\0\x01\
\0\0\0\x01r\0\0\0\x01f\0\0\0\x01q\0\0\0\0\0\0\0\0\0\0\0\x05\x01\0\0\0\0\0\0\0\0\0\0\0\0\0\0\0\x01vEND!";

/// That table in the first version.
pub const FIRST_ONE_PUT: &[u8] =
    b"TABIMG\0\x01\0\0\0\0\0\0\0\0\0\0\0\0\0\0\0\x01\0\0\0\x01\0\0\0\x04root\xff\0\0\0\0\0\0\0\x01\
\0\0\0\x01t\0\0\0\0\x01\0\0\0\0\x01\0\0\0\x04root\x1f\0\0\0\0\0\0\0\0\0\0\0\x01\
\0\0\0\x01r\0\0\0\x01f\0\0\0\x01q\0\0\0\0\0\0\0\0\0\0\0\x05\x01\0\0\0\0\0\0\0\0\0\0\0\0\0\0\0\x01vEND!";

/// A second user, bob, with two authorizations; a table s with server time and two constraints; a table t with the horizon 6 and two end
/// rows, and with a marker of the third mutation before a put of the first. The clock is -2.
pub const TWO_TABLES: &[u8] = b"TABIMG\0\x02\xff\xff\xff\xff\xff\xff\xff\xfe\0\0\0\0\0\0\0\x03\
\0\0\0\x02\0\0\0\x03bob\x80\0\0\0\x02\0\0\0\x01A\0\0\0\x01B\0\0\0\x04root\xff\0\0\0\0\
\0\0\0\x02\0\0\0\x01s\x01\0\0\0\x02\x0c\x80\0\0\0\0\0\0\0\0\0\0\0\0\0\0\0\0\0\0\0\0\0\0\0\
\0\0\0\x01t\0\0\0\x03\xe8\0\0\0\0\0\0\0\0\x06\0\0\0\x02\0\0\0\x03bob\x03\0\0\0\x04root\x10\0\0\0\x02\0\0\0\0\0\0\0\x01m\0\0\0\0\0\0\0\x02\
\0\0\0\x01r\0\0\0\0\0\0\0\0\0\0\0\x01A\0\0\0\0\0\0\0\x05\0\0\0\0\0\0\0\0\x02\0\0\x03\xe7\0\0\0\0\
\0\0\0\x01r\0\0\0\0\0\0\0\0\0\0\0\x01A\0\0\0\0\0\0\0\x05\x01\0\0\0\0\0\0\0\0\0\0\0\0\0\0\0\0END!";

/// Where the eight bytes of the horizon of s begin there.
pub const HORIZON_OF_S: usize = 78;

/// Where those of t begin.
pub const HORIZON_OF_T: usize = 113;

/// Those two tables in the first version, where t has the least horizon.
pub const FIRST_TWO_TABLES: &[u8] =
    b"TABIMG\0\x01\xff\xff\xff\xff\xff\xff\xff\xfe\0\0\0\0\0\0\0\x03\
\0\0\0\x02\0\0\0\x03bob\x80\0\0\0\x02\0\0\0\x01A\0\0\0\x01B\0\0\0\x04root\xff\0\0\0\0\
\0\0\0\x02\0\0\0\x01s\x01\0\0\0\x02\x0c\0\0\0\0\0\0\0\0\0\0\0\0\0\0\0\0\
\0\0\0\x01t\0\0\0\x03\xe8\0\0\0\0\x02\0\0\0\x03bob\x03\0\0\0\x04root\x10\0\0\0\x02\0\0\0\0\0\0\0\x01m\0\0\0\0\0\0\0\x02\
\0\0\0\x01r\0\0\0\0\0\0\0\0\0\0\0\x01A\0\0\0\0\0\0\0\x05\0\0\0\0\0\0\0\0\x02\0\0\x03\xe7\0\0\0\0\
\0\0\0\x01r\0\0\0\0\0\0\0\0\0\0\0\x01A\0\0\0\0\0\0\0\x05\x01\0\0\0\0\0\0\0\0\0\0\0\0\0\0\0\0END!";
