//! Users, read from an input.
#![tactic(auto, using(crate::proofs::Streams::reading))]

ghost use Rattle.std.specs.Prelude.{◌≡◌};
ghost use Rattle.tab_image.specs.Reading.{user_at};
ghost use Rattle.tab_image.specs.Streams.{Reads, HasRead, Stops};

use crate::fields::{read_name, read_system};
use crate::lists::ReadPart;
use crate::sets::read_set;
use crate::unread::Unread;
use crate::user::ImageUser;
use std::alloc::Global;
use tab_io::Input;

/// A user, as a part of a list.
pub(crate) struct User;

impl ReadPart<ImageUser> for User {
    ghost use Rattle.tab_image.specs.Reading.{user_at};

    ghost reads = { λ _. user_at };

    #[tactic(auto, using(crate::proofs::Streams::reading), unfolding(crate::specs::Reading::user_at))]
    fn read<R: Input>(&self, alloc: Global, input: &mut R) -> Result<ImageUser, Unread> {
        let name = read_name(alloc, input)?;
        let system = read_system(input)?;
        let authorizations = read_set(alloc, input)?;
        Ok(ImageUser {
            name,
            system,
            authorizations,
        })
    }
}
