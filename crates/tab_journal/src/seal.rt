//! How the batches of a journal are told from other bytes.

/// What the batches of a journal begin with.
#[derive(Clone, Copy, Debug, PartialEq, Eq)]
pub enum Form {
    /// Nothing of their own: versions 1 and 2, which are read and gone on in, and no more begun.
    Plain,
    /// The journal's salt: versions 3 and 4.
    Tagged,
}

/// By what a batch of a journal is told from other bytes: its tag, and its sum. Nobody is told the salt, so whoever says what is kept can't write
/// bytes that look like a batch.
#[derive(Clone, Copy, Debug, PartialEq, Eq)]
pub struct Seal {
    /// What its batches begin with.
    pub form: Form,
    /// A number by which its tags and sums differ from those of other journals.
    pub salt: u64,
}
