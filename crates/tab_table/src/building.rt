//! Tables built of what a source has left.
ghost use Rattle.std.specs.Prelude.{◌≡◌, true, IfOk, OnOk, IsErr};

use crate::SortedTable;
use crate::blocks::{Blocks, blocks_of};
use crate::packed::Packed;
use bytes::Bytes;
use std::alloc::{AllocError, Global};
use tab_iter::{NoMemory, Source};

// An error where the source is unpositioned; what it has left stays.
fn see_positioned<S: Source>(source: &mut S) -> Result<(), NoMemory>
    ensures rest { OnOk result (S.rest source.new ≡ S.rest source.old) }
    ensures unpositioned { S.is_unpositioned source.old ≡ true → IsErr result }
{
    if source.top().is_none() {
        source.advance()?;
    }
    Ok(())
}

impl SortedTable {
    ghost use Rattle.tab_table.specs.SortedTables.{records};

    /// A table of the records that the source has left, which it reads to its end. Each is copied twice.
    ///
    /// There is room from the start for so many records in so many bytes, and what isn't needed of it is given back. Where the source
    /// has more, the table may take twice the memory that it keeps while it grows. A source that want of memory left unpositioned has
    /// no table: the answer is NoMemory once more. After an error, which only want of memory gives, some of the records are passed.
    pub fn build<S: Source>(
        alloc: Global,
        source: &mut S,
        count: usize,
        bytes: usize,
    ) -> Result<SortedTable, NoMemory>
        ensures records { IfOk result (λ t. records t ≡ S.rest source.old) }
        ensures unpositioned { S.is_unpositioned source.old ≡ true → IsErr result }
    {
        see_positioned(source)?;
        let Blocks {
            mut body,
            count,
            mut restarts,
            mut row_index,
        } = blocks_of(alloc, source, count, bytes)?;
        body.shrink_to_fit();
        restarts.shrink_to_fit();
        row_index.shrink_to_fit();
        match Bytes::from_vec(body) {
            Ok(bytes) => {
                let packed = Packed {
                    bytes,
                    count,
                    restarts,
                };
                let last_row = packed.last_row(alloc)?;
                Ok(SortedTable {
                    packed,
                    row_index,
                    last_row,
                })
            }
            Err(_) => Err(AllocError),
        }
    }
}
