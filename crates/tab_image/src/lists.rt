//! Lists of parts, read from an input.
#![tactic(auto, using(crate::proofs::Streams::reading, crate::proofs::PartsLemmas::lists), unfolding(crate::specs::Reading::all_at))]

ghost use Rattle.std.specs.Prelude.{◌≡◌};
ghost use Rattle.tab_image.specs.Reading.{all_at};
ghost use Rattle.tab_image.specs.Streams.{Reads, HasRead, Stops};
ghost use Rattle.tab_codec.specs.Reading.{u32_at, parts_at};

use crate::taking::read_u32;
use crate::unread::Unread;
use std::alloc::Global;
use tab_io::Input;
use tab_key::Items;

/// How the parts of a list are read.
pub(crate) trait ReadPart<T> {
    ghost use Rattle.tab_codec.specs.Reading.{Reader};

    // How it is read.
    ghost reads: { Self → Reader T };

    /// Takes one.
    fn read<R: Input>(&self, alloc: Global, input: &mut R) -> Result<T, Unread>
        ensures { Reads R.Input input.old input.new (reads self.now) result };
}

/// Takes a count of four bytes, and so many parts. Memory is taken for parts that were read alone.
pub(crate) fn read_list<T: Drop, P: ReadPart<T>, R: Input>(
    alloc: Global,
    input: &mut R,
    how: &P,
) -> Result<Items<T>, Unread>
    ensures { Reads R.Input input.old input.new (all_at u32_at (P.reads how.now)) result }
{
    let count = read_u32(input)?;
    read_parts(alloc, input, how, count)
}

fn read_parts<T: Drop, P: ReadPart<T>, R: Input>(
    alloc: Global,
    input: &mut R,
    how: &P,
    count: u32,
) -> Result<Items<T>, Unread>
    ensures { Reads R.Input input.old input.new (parts_at (P.reads how.now) count) result }
{
    let mut parts = Vec::new(alloc);
    for _ in 0..count {
        match how.read(alloc, input) {
            Ok(part) => parts.push(part)?,
            Err(unread) => return Err(unread),
        }
    }
    Ok(Items::from_vec(parts))
}
