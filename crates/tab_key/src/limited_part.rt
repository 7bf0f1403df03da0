//! Parts of an event that have a limit, and the limits.

/// A part of an event that has a limit.
#[derive(Clone, Copy, Debug, PartialEq, Eq)]
pub enum LimitedPart {
    /// The updates of a mutation: at most [`MAX_UPDATES`].
    Updates,
    /// A row: at most [`MAX_PART_LEN`] bytes.
    Row,
    /// A column family: at most [`MAX_PART_LEN`] bytes.
    Family,
    /// A column qualifier: at most [`MAX_PART_LEN`] bytes.
    Qualifier,
    /// A column visibility: at most [`MAX_PART_LEN`] bytes.
    Label,
    /// A value: at most [`MAX_PART_LEN`] bytes.
    Value,
    /// The columns that a scan names: at most [`MAX_COLUMNS`].
    Columns,
    /// A set of authorizations: at most [`MAX_AUTHORIZATIONS`], each of at most [`MAX_AUTHORIZATION_LEN`] bytes.
    Authorizations,
    /// The ranges of one request: at most [`MAX_RANGES`].
    Ranges,
    /// Sessions of one user: at most [`MAX_SESSIONS`] open at once, [`MAX_OPENED`] opened in all.
    Sessions,
    /// The numbers of mutations, which end below 2^64 - 1, and those of tables, users and end rows.
    Numbers,
}

/// The most updates in a mutation.
pub const MAX_UPDATES: usize = 1_000;

/// The most bytes in a row, a family, a qualifier, a label or a value.
pub const MAX_PART_LEN: usize = 1_048_576;

/// The most columns that a scan names.
pub const MAX_COLUMNS: usize = 1_000;

/// The most ranges of one request.
pub const MAX_RANGES: usize = 1_000;

/// The most different authorizations in a set.
pub const MAX_AUTHORIZATIONS: usize = 1_024;

/// The most bytes in one authorization.
pub const MAX_AUTHORIZATION_LEN: usize = 1_024;

/// The most sessions that one user has open at once.
pub const MAX_SESSIONS: usize = 65_536;

/// The most sessions that one user opens in a run or a script.
pub const MAX_OPENED: u64 = 4_294_967_295;

/// The most versions of a cell that a table shows; the least is 1.
pub const MAX_VERSIONS: u32 = 1_000;

/// The most parentheses open at one place of a label.
pub const MAX_LABEL_DEPTH: usize = 64;
