//! The parts of a user.
#![tactic(auto, using(tab_io::proofs::Putting::putting))]

ghost use Rattle.std.specs.List.{flat_map};
ghost use Rattle.tab_io.specs.Writing.{Puts};
ghost use Rattle.tab_policy.specs.Permissions.{all_system};
ghost use Rattle.tab_walk.specs.Walks.{system_text, user_part, user_text};

use crate::visitor::Visitor;
use tab_image::ImageUser;
use tab_io::{Output, WriteFault};
use tab_policy::{SystemPermission, is_root};
use tab_text::{PutItem, put_each};

/// A part of what an image says of a user.
#[derive(Clone, Copy, Debug, PartialEq, Eq)]
pub enum UserPart {
    /// His name.
    Named,
    /// His name, unless he is root, who is there from the first.
    Created,
    /// His authorizations.
    Authorized,
    /// The system permissions that he holds.
    System,
    /// Those, unless he is root, who has all of them from the first.
    Granted,
}

/// Puts these parts of each of the users. It takes no memory, and fails where the output does; then it has put a beginning of the text.
pub fn put_users<V: Visitor, W: Output>(
    output: &mut W,
    users: &[ImageUser],
    parts: &[UserPart],
    visitor: &V,
) -> Result<(), WriteFault>
    ensures { Puts W.Output output.old output.new (flat_map (user_text (V.texts visitor.now) parts.now) users.now) result }
{
    put_each(output, users, &Users { parts, visitor })
}

// These parts of each user.
#[derive(Drop)]
struct Users<'a, V> {
    parts: &'a [UserPart],
    visitor: &'a V,
}

impl<'a, V: Visitor> PutItem<ImageUser> for Users<'a, V> {
    ghost use Rattle.tab_walk.specs.Walks.{user_text};

    ghost text = { λ users user. user_text (V.texts users.visitor.now) users.parts.now user };

    fn put_item<W: Output>(&self, output: &mut W, user: &ImageUser) -> Result<(), WriteFault> {
        put_user(output, user, self.parts, self.visitor)
    }
}

fn put_user<V: Visitor, W: Output>(
    output: &mut W,
    user: &ImageUser,
    parts: &[UserPart],
    visitor: &V,
) -> Result<(), WriteFault>
    ensures { Puts W.Output output.old output.new (user_text (V.texts visitor.now) parts.now user.now) result }
{
    put_each(output, parts, &OneUser { user, visitor })
}

// One user.
#[derive(Drop)]
struct OneUser<'a, V> {
    user: &'a ImageUser,
    visitor: &'a V,
}

impl<'a, V: Visitor> PutItem<UserPart> for OneUser<'a, V> {
    ghost use Rattle.tab_walk.specs.Walks.{user_part};

    ghost text = { λ one part. user_part (V.texts one.visitor.now) one.user.now part };

    fn put_item<W: Output>(&self, output: &mut W, part: &UserPart) -> Result<(), WriteFault> {
        put_part(output, *part, self.user, self.visitor)
    }
}

fn put_part<V: Visitor, W: Output>(
    output: &mut W,
    part: UserPart,
    user: &ImageUser,
    visitor: &V,
) -> Result<(), WriteFault>
    ensures { Puts W.Output output.old output.new (user_part (V.texts visitor.now) user.now part) result }
{
    match part {
        UserPart::Named => visitor.put_user(output, &user.name),
        UserPart::Created if is_root(&user.name) => output.put(b""),
        UserPart::Created => visitor.put_user(output, &user.name),
        UserPart::Authorized => visitor.put_authorizations(output, user),
        UserPart::System => put_system(output, user, visitor),
        UserPart::Granted if is_root(&user.name) => output.put(b""),
        UserPart::Granted => put_system(output, user, visitor),
    }
}

fn put_system<V: Visitor, W: Output>(
    output: &mut W,
    user: &ImageUser,
    visitor: &V,
) -> Result<(), WriteFault>
    ensures { Puts W.Output output.old output.new (flat_map (system_text (V.texts visitor.now) user.now) all_system) result }
{
    put_each(output, &SystemPermission::ALL, &OneUser { user, visitor })
}

impl<'a, V: Visitor> PutItem<SystemPermission> for OneUser<'a, V> {
    ghost use Rattle.tab_walk.specs.Walks.{system_text};

    ghost text = { λ one permission. system_text (V.texts one.visitor.now) one.user.now permission };

    fn put_item<W: Output>(
        &self,
        output: &mut W,
        permission: &SystemPermission,
    ) -> Result<(), WriteFault> {
        if self.user.system.contains(*permission) {
            self.visitor.put_system(output, &self.user.name, permission)
        } else {
            output.put(b"")
        }
    }
}
