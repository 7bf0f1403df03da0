//! Entries, read.
ghost use Rattle.std.specs.Prelude.{◌≡◌, IfOk, option_map};
ghost use Rattle.tab_codec.specs.Reading.{is_name, only_if};
ghost use Rattle.tab_journal.specs.Reading.{parts_at, entry_of, entry_of_parts, entry_at};

use std::alloc::{AllocError, Global};
use tab_codec::{take_field, take_signed};
use tab_event_record::read_asked;
use tab_history::Event;
use tab_key::Name;

/// The entry at the front of some bytes, and what stands behind it. `None`: none begins there that is whole. Memory is taken for the event.
pub fn next_entry(alloc: Global, bytes: &[u8]) -> Result<Option<(Event, &[u8])>, AllocError>
    ensures { IfOk result (λ read. option_map (λ x. (x.0, x.1.now)) read ≡ entry_at bytes.now) }
{
    match take_parts(bytes) {
        Some((moment, user, body, rest)) => whole_entry(alloc, moment, user, body, rest),
        None => Ok(None),
    }
}

// The moment, the user's bytes, and the body of the frame that stand at the front of some bytes, and what stands behind them.
#[tactic(auto, unfolding(crate::specs::Reading::parts_at))]
fn take_parts(bytes: &[u8]) -> Option<(i64, &[u8], &[u8], &[u8])>
    ensures { option_map (λ x. (record { moment = x.0; user = x.1.now; body = x.2.now }, x.3.now)) result ≡ parts_at bytes.now }
{
    let (moment, rest) = take_signed(bytes)?;
    let (user, rest) = take_field(rest)?;
    let (body, rest) = take_field(rest)?;
    Some((moment, user, body, rest))
}

// The entry of these parts, and what stands behind it.
fn whole_entry<'a>(
    alloc: Global,
    moment: i64,
    user: &[u8],
    body: &[u8],
    rest: &'a [u8],
) -> Result<Option<(Event, &'a [u8])>, AllocError>
    ensures { IfOk result (λ read. option_map (λ x. (x.0, x.1.now)) read ≡ entry_of_parts (record { moment = moment; user = user.now; body = body.now }, rest.now)) }
{
    match name_of(user) {
        Some(user) => named_entry(alloc, moment, user, body, rest),
        None => Ok(None),
    }
}

// The entry of these parts, where the user's name is known, and what stands behind it.
fn named_entry<'a>(
    alloc: Global,
    moment: i64,
    user: Name,
    body: &[u8],
    rest: &'a [u8],
) -> Result<Option<(Event, &'a [u8])>, AllocError>
    ensures { IfOk result (λ read. option_map (λ x. (x.0, x.1.now)) read ≡ entry_of moment user body.now rest.now) }
{
    match read_asked(alloc, body)? {
        Some(act) => Ok(Some((Event { user, moment, act }, rest))),
        None => Ok(None),
    }
}

// The name of these bytes, where they are one.
fn name_of(text: &[u8]) -> Option<Name>
    ensures { result ≡ only_if is_name text.now }
{
    Name::new(text)
}
