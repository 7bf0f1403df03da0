//! Records that lie one after another in a body, lent.
ghost use Rattle.std.specs.Prelude.{◌≡◌, ◌++◌, IfOk, OnOk};
ghost use Rattle.tab_key.specs.Encoding.{span_at, record_at, records_at, places_from, IsAt, AreAt};

use crate::sorting::item::Item;
use std::alloc::{AllocError, Global};
use tab_key::end_of;

/// So many records from the beginning of the body on. Memory is asked for once.
pub(crate) fn items_in(
    alloc: Global,
    body: &[u8],
    count: usize,
) -> Result<Vec<Item<'_>>, AllocError>
    requires { AreAt body.now (places_from body.now 0 count) }
    ensures { IfOk result (λ v. v.items ≡ records_at body.now (places_from body.now 0 count)) }
{
    let mut items = Vec::with_capacity(alloc, count)?;
    lend_in(&mut items, body, count)?;
    Ok(items)
}

/// Puts so many records from the beginning of the body on, lent, behind others. After an error, which only want of memory gives, some of
/// them may stand there.
pub(crate) fn lend_in<'a>(
    items: &mut Vec<Item<'a>>,
    body: &'a [u8],
    count: usize,
) -> Result<(), AllocError>
    requires { AreAt body.now (places_from body.now 0 count) }
    ensures { OnOk result (items.new.items ≡ items.old.items ++ records_at body.now (places_from body.now 0 count)) }
{
    let mut place = 0;
    let mut left = count;
    while left > 0 {
        let end = end_of(body, place);
        items.push(item_at(body, place, end))?;
        place = end;
        left -= 1;
    }
    Ok(())
}

/// Puts the records that begin at these places in the body, lent, behind others. After an error, which only want of memory gives, some of
/// them may stand there.
pub(crate) fn lend_at<'a>(
    items: &mut Vec<Item<'a>>,
    body: &'a [u8],
    places: &[usize],
) -> Result<(), AllocError>
    requires { AreAt body.now places.now }
    ensures { OnOk result (items.new.items ≡ items.old.items ++ records_at body.now places.now) }
{
    for place in places {
        let end = end_of(body, *place);
        items.push(item_at(body, *place, end))?;
    }
    Ok(())
}

/// The record that lies in the body from one place up to another, that one excluded.
pub(crate) fn item_at(body: &[u8], place: usize, end: usize) -> Item<'_>
    requires within { IsAt body.now place }
    requires end { end ≡ (span_at body.now place).end }
    ensures { result ≡ record_at body.now place }
{
    Item::new(&body[place..end])
}
