//! Records that part a body in parts of about one size.
ghost use Rattle.std.specs.Prelude.{◌≡◌};
ghost use Rattle.tab_key.specs.Encoding.{span_at, places_from, IsAt, AreAt};

use crate::partitions::lending::item_at;
use crate::sorting::item::Item;
use std::alloc::{AllocError, Global};
use tab_key::end_of;

/// How many records of a body are looked at, about.
const SAMPLES: usize = 512;

/// Some of so many records from the beginning of the body on, lent, at even distances as they lie: at most 513. Which ones they are no
/// contract says: only speed and memory hang on it.
pub(crate) fn sampled(alloc: Global, body: &[u8], count: usize) -> Result<Vec<Item<'_>>, AllocError>
    requires { AreAt body.now (places_from body.now 0 count) }
{
    let step = count / SAMPLES + 1;
    let mut items = Vec::new(alloc);
    let mut place = 0;
    let mut left = count;
    while left > 0 {
        let end = end_of(body, place);
        push_if(&mut items, body, place, end, left % step == 0)?;
        place = end;
        left -= 1;
    }
    Ok(items)
}

// Puts the record that lies in the body from one place up to another, that one excluded, behind the others, if it is due. Else it isn't
// read.
fn push_if<'a>(
    items: &mut Vec<Item<'a>>,
    body: &'a [u8],
    place: usize,
    end: usize,
    is_due: bool,
) -> Result<(), AllocError>
    requires within { IsAt body.now place }
    requires end { end ≡ (span_at body.now place).end }
{
    if is_due {
        items.push(item_at(body, place, end))?;
    }
    Ok(())
}
