//! Whether what stands behind the batches that were read of a journal is damaged, or torn.
ghost use Rattle.std.specs.Prelude.{◌≡◌, ◌+◌, ◌<◌, ◌≤◌, ◌^◌, ◌↔◌, true, length};
ghost use Rattle.tab_journal.specs.Damage.{IsLaterIn, IsDamagedIn};
ghost use Rattle.tab_journal.specs.declared.seal.Form.TheVariants.{Tagged};

use crate::batch::{take_summed, take_tag};
use crate::seal::{Form, Seal};
use memchr::memmem::Finder;
use tab_codec::take_long;

// How many bytes a sum has.
const SUM: usize = 8;

/// Whether the bytes of a journal with this seal are damaged behind the first so many, which were read: a whole batch stands there, behind the sum
/// before it, that was written when more than these were on the disk. Otherwise they are torn, as a crash leaves them. The window is the sum that
/// ends the bytes that were read, and what stands behind them. It takes no memory. Of tagged batches a place is looked at only where the tag
/// stands, which nobody is told; of others each is, and a sum is made where what stands there says what fits.
pub fn is_damaged(seal: Seal, window: &[u8], read: u64) -> bool
    requires { read + length window.now < 2 ^ 64 + 8 }
    ensures { (result ≡ true) ↔ IsDamagedIn seal read window.now }
{
    match seal.form {
        Form::Plain => is_damaged_plainly(seal, window, read),
        Form::Tagged => is_damaged_at_tags(seal, window, read),
    }
}

// `is_damaged`, each place being looked at.
fn is_damaged_plainly(seal: Seal, window: &[u8], read: u64) -> bool
    requires { read + length window.now < 2 ^ 64 + 8 }
    ensures { (result ≡ true) ↔ IsDamagedIn seal read window.now }
{
    for place in SUM..window.len() {
        if is_later(seal, window, place, read) {
            return true;
        }
    }
    false
}

// `is_damaged`, those places being looked at where the tag stands.
fn is_damaged_at_tags(seal: Seal, window: &[u8], read: u64) -> bool
    requires fits { read + length window.now < 2 ^ 64 + 8 }
    requires tagged { seal.form ≡ Tagged }
    ensures { (result ≡ true) ↔ IsDamagedIn seal read window.now }
{
    let tag = seal.salt.to_be_bytes();
    let tags = Finder::new(&tag);
    let mut from = SUM;
    while from < window.len() {
        let (_, rest) = window.split_at(from);
        let Some(at) = tags.find(rest) else {
            return false;
        };
        if is_later(seal, window, from + at, read) {
            return true;
        }
        from += at + 1;
    }
    false
}

// Whether such a batch begins at this place of the window.
fn is_later(seal: Seal, window: &[u8], place: usize, read: u64) -> bool
    requires fits { read + length window.now < 2 ^ 64 + 8 }
    requires low { 8 ≤ place }
    requires inside { place ≤ length window.now }
    ensures { (result ≡ true) ↔ IsLaterIn seal read window.now place }
{
    let (_, from_sum) = window.split_at(place - SUM);
    let Some((before, from_place)) = take_long(from_sum) else {
        return false;
    };
    let Some(rest) = take_tag(seal, from_place) else {
        return false;
    };
    let Some((settled, _)) = take_long(rest) else {
        return false;
    };
    if settled <= read {
        return false;
    }
    if settled - read > (place - SUM) as u64 {
        return false;
    }
    take_summed(seal.salt, before, rest).is_some()
}
