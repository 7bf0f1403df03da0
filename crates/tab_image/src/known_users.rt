//! The users of an image, found by name.
ghost use Rattle.std.specs.Prelude.{◌≡◌, Some, None, cond, map};
ghost use Rattle.tab_key.specs.Bytes.{bytes_cmp};
ghost use Rattle.tab_image.specs.Images.{has_user};
ghost use Rattle.tab_image.specs.Conditions.{rises};

use crate::byte_order::rise;
use crate::user::ImageUser;
use std::marker::Model;
use tab_key::Name;

/// Users that rise by name, lent. A contract sees their list.
#[derive(Drop)]
pub(crate) struct KnownUsers<'a> {
    users: &'a [ImageUser],
}

impl<'a> Model for KnownUsers<'a> {
    ghost use Rattle.std.specs.Prelude.{List};
    ghost use Rattle.tab_image.specs.declared.user.ImageUser.{ImageUser as Fields};

    ghost Value = { List Fields };

    ghost use Rattle.std.specs.Prelude.{◌≡◌, true, map};
    ghost use Rattle.tab_key.specs.Bytes.{bytes_cmp};
    ghost use Rattle.tab_image.specs.Conditions.{rises};

    ghost view = { λ k. k.users.now };

    ghost invariant = { λ k. rises bytes_cmp (map (λ u. u.name) k.users.now) ≡ true };
}

impl<'a> KnownUsers<'a> {
    /// These users; none where they don't rise by name.
    pub(crate) fn of(users: &'a [ImageUser]) -> Option<KnownUsers<'a>>
        ensures { result ≡ cond (rises bytes_cmp (map (λ u. u.name) users.now)) (Some users.now) None }
    {
        if rise(users) {
            Some(KnownUsers { users })
        } else {
            None
        }
    }

    /// Whether there is a user of this name, found by halves.
    pub(crate) fn has(&self, name: &Name) -> bool
        ensures { result ≡ has_user self.now name.now }
    {
        self.users
            .binary_search_by(|user| user.name.as_bytes().cmp(name.as_bytes()))
            .is_ok()
    }
}
