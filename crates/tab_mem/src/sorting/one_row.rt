//! Records of one row, sorted and put behind others.
ghost use Rattle.std.specs.Prelude.{◌≡◌, ◌++◌, length, take, OnOk, OnErr};
ghost use Rattle.tab_key.specs.Sorted.{IsDistinct, sorted};
ghost use Rattle.tab_mem.specs.Groups.{IsOfOneRow, HasOneRow};

use crate::records::Records;
use crate::sorting::column_item::ColumnItem;
use std::alloc::AllocError;

/// Sorts lent records of one row, and puts copies of them behind the others; the number is the first 16 bytes of the row. `AllocError`
/// leaves the others as they were.
pub(crate) fn put_row(
    records: &mut Records,
    items: &mut Vec<ColumnItem<'_>>,
    prefix: u128,
) -> Result<(), AllocError>
    requires row { HasOneRow prefix items.old.items }
    requires distinct { IsDistinct items.old.items }
    ensures ok { OnOk result (records.new ≡ records.old ++ sorted items.old.items) }
    ensures err { OnErr result (records.new ≡ records.old) }
{
    sort_row(items);
    let count = records.len();
    match push_row(records, items.as_slice(), prefix) {
        Ok(()) => Ok(()),
        Err(fault) => {
            records.truncate(count);
            Err(fault)
        }
    }
}

// Puts lent records of one row in their order. It takes no memory.
fn sort_row(items: &mut Vec<ColumnItem<'_>>)
    requires row { IsOfOneRow items.old.items }
    requires distinct { IsDistinct items.old.items }
    ensures { items.new.items ≡ sorted items.old.items }
{
    items.sort_unstable_by(|a, b| a.cmp(b));
}

// Puts copies of the records behind the others, in the order in which they are lent. An error may leave the first ones there.
fn push_row(records: &mut Records, items: &[ColumnItem<'_>], prefix: u128) -> Result<(), AllocError>
    requires { HasOneRow prefix items.now }
    ensures ok { OnOk result (records.new ≡ records.old ++ items.now) }
    ensures front { take (length records.old) records.new ≡ records.old }
{
    for item in items {
        records.push_item(&item.with_row(prefix))?;
    }
    Ok(())
}
