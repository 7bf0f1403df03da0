//! What an image says of a user.

use tab_key::Name;
use tab_label::AuthSet;
use tab_policy::SystemPermissions;

/// A user, with his system permissions and his authorizations.
#[derive(Drop)]
pub struct ImageUser {
    /// His name.
    pub name: Name,
    /// His system permissions.
    pub system: SystemPermissions,
    /// His authorizations: at most 1,024, each of at most 1,024 bytes.
    pub authorizations: AuthSet,
}
