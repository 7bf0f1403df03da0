//! Records, put in their order.
ghost use Rattle.std.specs.Prelude.{◌≡◌, IfOk};
ghost use Rattle.tab_key.specs.Sorted.{IsDistinct, sorted};

pub(crate) mod classes;
pub(crate) mod column_item;
pub(crate) mod group;
pub(crate) mod grouping;
pub(crate) mod item;
pub(crate) mod leading;
pub(crate) mod one_row;

use crate::records::Records;
use crate::sorting::item::Item;
use std::alloc::{AllocError, Global};

/// Puts lent records in their order. It takes no memory.
pub(crate) fn sort_items(items: &mut Vec<Item<'_>>)
    requires { IsDistinct items.old.items }
    ensures { items.new.items ≡ sorted items.old.items }
{
    items.sort_unstable_by(|a, b| a.cmp(b));
}

/// Gives back the memory that lent records took, and leaves none.
///
/// They shrink first: the C library gives back at once what a large block shrinks by, and keeps more for later the larger the blocks are that
/// it saw freed whole.
pub(crate) fn give_back(items: &mut Vec<Item<'_>>) {
    items.clear();
    items.shrink_to(1);
}

/// Copies of the records, one after another in one body that has room for this many bytes.
pub(crate) fn copied(alloc: Global, items: &[Item<'_>], bytes: usize) -> Result<Records, AllocError>
    ensures { IfOk result (λ p. p ≡ items.now) }
{
    let mut copy = Records::with_capacity(alloc, items.len(), bytes)?;
    copy.push_all(items)?;
    Ok(copy)
}
