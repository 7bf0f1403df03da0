//! Records that are put behind others in a body: those of an accepted mutation, and copies.
ghost use Rattle.std.specs.Prelude.{◌≡◌, ◌++◌, ◌<◌, true, int_le, length, take, unwrap_or, IfOk, OnOk};
ghost use Rattle.tab_key.specs.Encoding.{span_at, record_at, records_at, places_from, IsAt, IsShort};
ghost use Rattle.tab_cells.specs.Written.{timed, record_of, mutation_records};
ghost use Rattle.tab_iter.specs.Lists.{latest, HasI64Timestamps};
ghost use Rattle.tab_mem.specs.Lists.{IsFilled};
ghost use Rattle.tab_mem.specs.Parting.{records_in};

use crate::sorting::item::Item;
use std::alloc::AllocError;
use tab_key::{Key, append_joined};
use tab_mutation::{Shaped, UpdateRef};

/// Puts the record of an update at the end of the body, with the number of its mutation, its place there and, where it
/// gives no timestamp, the clock.
fn append_one(
    body: &mut Vec<u8>,
    row: &[u8],
    update: &UpdateRef<'_>,
    seq: u64,
    idx: u32,
    clock: i64,
) -> Result<usize, AllocError>
    requires { IsShort (record_of seq row.now idx (timed clock update.now)) }
    ensures within { IfOk result (λ p. IsAt body.new.items p) }
    ensures front { take (length body.old.items) body.new.items ≡ body.old.items }
    ensures place { IfOk result (λ p. p ≡ length body.old.items) }
    ensures record { IfOk result (λ p. record_at body.new.items p ≡ record_of seq row.now idx (timed clock update.now)) }
    ensures end { IfOk result (λ p. (span_at body.new.items p).end ≡ length body.new.items) }
    ensures timestamp { int_le (timed clock update.now).timestamp latest ≡ true }
{
    let key = Key {
        row,
        family: update.family(),
        qualifier: update.qualifier(),
        label: update.label(),
        timestamp: update.timestamp().unwrap_or(clock),
    };
    append_joined(
        body,
        key,
        update.kind(),
        update.value(),
        update.joined(),
        seq,
        idx,
    )
}

/// Puts the records of a mutation behind so many that the body holds, the last update's first, and says how many there are then. What
/// was there before stays in front, also after an error; then some records may stand behind it.
#[tactic(auto, using(tab_mutation::proofs::Shapes::shaped_few))]
pub(crate) fn append_all(
    body: &mut Vec<u8>,
    mut count: usize,
    mutation: &Shaped<'_>,
    seq: u64,
    clock: i64,
) -> Result<usize, AllocError>
    requires filled { IsFilled body.old.items count }
    ensures bytes { take (length body.old.items) body.new.items ≡ body.old.items }
    ensures filled { IfOk result (λ n. IsFilled body.new.items n) }
    ensures timestamps { OnOk result (HasI64Timestamps (mutation_records seq clock mutation.now)) }
    ensures records { IfOk result (λ n. records_at body.new.items (places_from body.new.items 0 n) ≡ records_at body.old.items (places_from body.old.items 0 count) ++ mutation_records seq clock mutation.now) }
{
    mutation.keeps();
    let mut index = mutation.len();
    while index > 0 {
        index -= 1;
        let update = mutation.update(index);
        append_one(body, mutation.row(), &update, seq, index as u32, clock)?;
        count += 1;
    }
    Ok(count)
}

/// Puts copies of the records of several items behind so many that the body holds, and says how many there are then. What was there
/// before stays in front, also after an error; then some records may stand behind it.
pub(crate) fn append_items(
    body: &mut Vec<u8>,
    mut count: usize,
    items: &[Item<'_>],
) -> Result<usize, AllocError>
    requires { IsFilled body.old.items count }
    ensures bytes { take (length body.old.items) body.new.items ≡ body.old.items }
    ensures filled { IfOk result (λ n. IsFilled body.new.items n) }
    ensures records { IfOk result (λ n. records_in body.new.items n ≡ records_in body.old.items count ++ items.now) }
{
    for item in items {
        item.append_to(body)?;
        count += 1;
    }
    Ok(count)
}
