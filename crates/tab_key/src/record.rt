//! Records, packed.
ghost use Rattle.std.specs.Prelude.{◌≡◌, [], IfOk, Some, None, cond};
ghost use Rattle.tab_key.specs.Order.{record_cmp};
ghost use Rattle.tab_key.specs.Kept.{same_column};
ghost use Rattle.tab_key.specs.KeyOf.{key_of};
ghost use Rattle.tab_key.specs.Encoding.{is_short};

use crate::encoding::{append, append_copy, are_short, byte_count};
use crate::{Key, Kind, RecordRef};
use std::alloc::{AllocError, Global};
use std::cmp::Ordering;
use std::marker::Model;

/// A put or a delete marker, with the number of its mutation and its place in it.
///
/// It lies in a body of its own, as `append` puts it there. Its parts are read through [`Record::as_ref`].
pub struct Record {
    body: Vec<u8>,
}

// Written out, so that a crate above needn't prove anew how the parts are dropped.
impl Drop for Record {
    #[inline(always)]
    fn drop(self) {
        let Record { body: _ } = self;
    }
}

impl Model for Record {
    ghost use Rattle.tab_key.specs.Records.{Record as Fields};

    ghost Value = { Fields };

    ghost use Rattle.tab_key.specs.Encoding.{record_at, IsAt};

    ghost view = { λ r. record_at r.body.items 0 };

    ghost invariant = { λ r. IsAt r.body.items 0 };
}

impl Record {
    /// A copy of the parts, in one piece of memory. None says that one of them has over [`MAX_PART_LEN`] bytes.
    pub fn new(
        alloc: Global,
        key: Key<'_>,
        kind: Kind,
        value: &[u8],
        seq: u64,
        idx: u32,
    ) -> Result<Option<Record>, AllocError>
        ensures { IfOk result (λ r. r ≡ cond (is_short (record { key = key_of key.entry; kind = kind; value = value.now; seq = seq; idx = idx })) (Some (record { key = key_of key.entry; kind = kind; value = value.now; seq = seq; idx = idx })) None) }
    {
        if !are_short(key, value) {
            return Ok(None);
        }
        let mut body = Vec::with_capacity(alloc, byte_count(key, value))?;
        append(&mut body, key, kind, value, seq, idx)?;
        Ok(Some(Record { body }))
    }

    /// A copy of the record, in one piece of memory.
    pub fn of(alloc: Global, source: &RecordRef<'_>) -> Result<Record, AllocError>
        ensures { IfOk result (λ r. r ≡ source.now) }
    {
        let mut body = Vec::with_capacity(alloc, source.encoded().len())?;
        append_copy(&mut body, source)?;
        Ok(Record { body })
    }

    /// A copy of the record without its value.
    pub fn without_value(alloc: Global, source: &RecordRef<'_>) -> Result<Record, AllocError>
        ensures { IfOk result (λ r. r ≡ record (source.now) { value = [] }) }
    {
        let bytes = source.encoded().len() - source.value().len();
        let mut body = Vec::with_capacity(alloc, bytes)?;
        append(
            &mut body,
            source.key(),
            source.kind(),
            b"",
            source.seq(),
            source.idx(),
        )?;
        Ok(Record { body })
    }

    /// The record, lent.
    pub fn as_ref(&self) -> RecordRef<'_>
        ensures { result ≡ self.now }
    {
        RecordRef::at(self.body.as_slice(), 0)
    }

    /// The order of records.
    pub fn cmp(&self, other: &Record) -> Ordering
        ensures { result ≡ record_cmp self.now other.now }
    {
        self.as_ref().cmp(&other.as_ref())
    }

    /// Whether the records are of one column.
    pub fn same_column(&self, other: &Record) -> bool
        ensures { result ≡ same_column self.now.key other.now.key }
    {
        self.as_ref().same_column(&other.as_ref())
    }
}

impl Clone for Record {
    ghost is_clone = { λ source copy. copy ≡ source };

    fn clone(&self) -> Result<Record, AllocError> {
        Ok(Record {
            body: self.body.clone()?,
        })
    }
}
