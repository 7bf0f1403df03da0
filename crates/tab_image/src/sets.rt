//! Sets of byte strings, read from an input.
#![tactic(auto, using(crate::proofs::Streams::reading, crate::proofs::SetLemmas::sets))]

ghost use Rattle.std.specs.Prelude.{◌≡◌, ◌<◌, Some, None, cond};
ghost use Rattle.tab_label.specs.Sets.{byte_lists};
ghost use Rattle.tab_image.specs.Reading.{set_at, set_of_list, texts_at};
ghost use Rattle.tab_image.specs.Streams.{Reads, HasRead, Stops, texts_of};
ghost use Rattle.tab_codec.specs.Reading.{u32_at, field_at, parts_at};

use crate::byte_order::rise;
use crate::fields::read_field;
use crate::taking::read_u32;
use crate::unread::Unread;
use std::alloc::Global;
use tab_io::Input;
use tab_label::AuthSet;

/// Takes a set: a list that rises strictly.
#[tactic(auto, using(crate::proofs::Streams::reading), unfolding(crate::specs::Reading::set_at))]
pub(crate) fn read_set<R: Input>(alloc: Global, input: &mut R) -> Result<AuthSet, Unread>
    ensures { Reads R.Input input.old input.new set_at result }
{
    let texts = read_texts(alloc, input)?;
    let Some(set) = set_of(texts) else {
        return Err(Unread::Bad);
    };
    Ok(set)
}

// The set of these byte strings, where they rise strictly.
fn set_of(texts: Vec<Vec<u8>>) -> Option<AuthSet>
    ensures { result ≡ set_of_list (byte_lists texts.items) }
{
    if rise(&texts) {
        Some(AuthSet::new(texts))
    } else {
        None
    }
}

#[tactic(auto, using(crate::proofs::Streams::reading), unfolding(crate::specs::Reading::texts_at, crate::specs::Reading::all_at))]
fn read_texts<R: Input>(alloc: Global, input: &mut R) -> Result<Vec<Vec<u8>>, Unread>
    ensures { Reads R.Input input.old input.new texts_at (texts_of result) }
{
    let count = read_u32(input)?;
    read_so_many(alloc, input, count)
}

fn read_so_many<R: Input>(alloc: Global, input: &mut R, count: u32) -> Result<Vec<Vec<u8>>, Unread>
    ensures { Reads R.Input input.old input.new (parts_at field_at count) (texts_of result) }
{
    let mut texts = Vec::new(alloc);
    for _ in 0..count {
        match read_field(alloc, input) {
            Ok(text) => texts.push(text)?,
            Err(unread) => return Err(unread),
        }
    }
    Ok(texts)
}
