//! What a decision says, and what it found.
use crate::permission::Permission;
use crate::sets::{SystemPermissions, TablePermissions};
use tab_key::Name;
use tab_label::AuthSet;

/// What a policy says of an action: what the admitted caller holds, or why he isn't admitted.
pub type Decision<'a> = Result<Caller<'a>, Denial>;

/// Why an action isn't admitted.
#[derive(Clone, Copy, PartialEq, Eq)]
pub enum Denial {
    /// There is no user of the caller's name.
    UnknownUser,
    /// The table that the action names doesn't exist.
    NoTable(Name),
    /// The caller has none of the permissions that admit the action; this is the first of them.
    PermissionDenied(Permission),
}

/// What the policy holds of an admitted caller, lent as it stands.
#[derive(Clone, Copy)]
pub struct Caller<'a> {
    /// The permissions that he has for the whole server, all for `root`.
    pub system: SystemPermissions,
    /// The permissions that he has on the table that the action names, none where it names none.
    pub on_table: TablePermissions,
    /// His authorizations.
    pub authorizations: &'a AuthSet,
}
