//! Who holds what on a table.
ghost use Rattle.std.specs.Prelude.{◌≡◌};
ghost use Rattle.tab_policy.specs.Lives.{name_among};
ghost use Rattle.tab_policy.specs.Holders.{holder_in};

use crate::lives::Lives;
use crate::sets::TablePermissions;
use tab_key::Name;

/// A user who has a permission on a table.
#[derive(Clone, Copy)]
pub struct Holder {
    /// His name.
    pub user: Name,
    /// All his permissions on the table: one at least.
    pub held: TablePermissions,
}

impl Holder {
    // Whoever is in the life, with these permissions; `None` where nobody is in it, or there is no permission.
    pub(crate) fn new(life: u64, held: TablePermissions, lives: &Lives) -> Option<Holder>
        ensures { result ≡ holder_in (name_among lives.now.living.entries life) held }
    {
        if held.is_empty() {
            return None;
        }
        let name = lives.name_of(life)?;
        Some(Holder {
            user: name.to_name(),
            held,
        })
    }
}
