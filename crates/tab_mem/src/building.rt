//! Runs built of what a source has left.
ghost use Rattle.std.specs.Prelude.{◌≡◌, true, IfOk, OnOk, IsErr};

use crate::Run;
use crate::records::Records;
use std::alloc::{AllocError, Global};
use tab_iter::{NoMemory, Source};

// Copies of the records that the source has left, with room from the start for so many in so many bytes.
fn gather<S: Source>(
    alloc: Global,
    source: &mut S,
    count: usize,
    bytes: usize,
) -> Result<Records, NoMemory>
    ensures { IfOk result (λ g. g ≡ S.rest source.old) }
{
    let mut records = Records::with_capacity(alloc, count, bytes)?;
    while let Some(next) = source.top() {
        records.push_copy(&next)?;
        source.advance()?;
    }
    Ok(records)
}

// An error where the source is unpositioned; what it has left stays.
fn see_positioned<S: Source>(source: &mut S) -> Result<(), NoMemory>
    ensures rest { OnOk result (S.rest source.new ≡ S.rest source.old) }
    ensures unpositioned { S.is_unpositioned source.old ≡ true → IsErr result }
{
    if source.top().is_none() {
        source.advance()?;
    }
    Ok(())
}

impl Run {
    /// A run of the records that the source has left, which it reads to its end. Each is copied once.
    ///
    /// There is room from the start for so many records in so many bytes, and what isn't needed of it is given back. Where the source
    /// has more, the run may take twice the memory that it keeps while it grows. A source that want of memory left unpositioned has
    /// no run: the answer is NoMemory once more. After an error, which only want of memory gives, some of the records are passed.
    pub fn build<S: Source>(
        alloc: Global,
        source: &mut S,
        count: usize,
        bytes: usize,
    ) -> Result<Run, NoMemory>
        ensures records { IfOk result (λ r. r ≡ S.rest source.old) }
        ensures unpositioned { S.is_unpositioned source.old ≡ true → IsErr result }
    {
        see_positioned(source)?;
        let mut records = gather(alloc, source, count, bytes)?;
        records.shrink_to_fit();
        Ok(Run::of(records))
    }
}
