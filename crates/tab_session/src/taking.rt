//! The cells of a batch.
ghost use Rattle.std.specs.Prelude.{◌≡◌, map, take, drop, IfOk, OnOk};
ghost use Rattle.tab_key.specs.Records.{cell_of};

use crate::room::Room;
use std::alloc::Global;
use tab_iter::{NoMemory, Source};
use tab_key::Cells;

/// The cells of the first `count` records that the source has left, fewer only at its end. It passes these records.
///
/// The room is taken at once; what the cells need beyond it is taken as they come, whatever the count.
pub(crate) fn take<S: Source>(
    alloc: Global,
    source: &mut S,
    count: u32,
    room: Room,
) -> Result<Cells, NoMemory>
    ensures whole { S.whole source.new ≡ S.whole source.old }
    ensures cells { IfOk result (λ v. v ≡ take count (map cell_of (S.rest source.old))) }
    ensures rest { OnOk result (S.rest source.new ≡ drop count (S.rest source.old)) }
{
    let mut cells = Cells::with_capacity(alloc, room.cells, room.bytes)?;
    for _ in 0..count {
        let Some(record) = source.top() else {
            break;
        };
        cells.push(&record)?;
        source.advance()?;
    }
    Ok(cells)
}
