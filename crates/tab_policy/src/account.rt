//! What is kept of a user.
ghost use Rattle.std.specs.Prelude.{◌≡◌, ◌||◌, ◌+◌, ◌-◌, ℕ, List, [], Some, None, OnOk, OnErr, IfOk, false, is_some, length, bytes_eq, if◌then◌else◌};
ghost use Rattle.std.specs.Map.{keys_of};
ghost use Rattle.tab_label.specs.Sets.{IsRising};
ghost use Rattle.tab_policy.specs.Roots.{root};
ghost use Rattle.tab_policy.specs.Sets.{system_contains};
ghost use Rattle.tab_policy.specs.Accounts.{with_auths, with_system};
ghost use Rattle.tab_policy.specs.Entries.{at_name, changed_at};
ghost use Rattle.tab_policy.specs.State.{account_life};
ghost use Rattle.tab_policy.specs.Lives.{life_among};

use crate::decision::Caller;
use crate::name_key::NameKey;
use crate::permission::SystemPermission;
use crate::sets::{SystemPermissions, TablePermissions};
use std::alloc::{AllocError, Global};
use std::collections::BTreeMap;
use tab_key::Name;
use tab_label::AuthSet;

// The life that a user is in, the system permissions that were granted to him, and his authorizations.
pub struct Account {
    pub life: u64,
    pub system: SystemPermissions,
    pub auths: AuthSet,
}

// Written out, so that a crate above needn't prove anew how the parts are dropped.
impl Drop for Account {
    #[inline(always)]
    fn drop(self) {
        let Account {
            life: _,
            system: _,
            auths: _,
        } = self;
    }
}

impl Account {
    // The account of a user at the beginning of his life.
    pub fn new(alloc: Global, life: u64) -> Account
        ensures life { result.life ≡ life }
        ensures system { (p : _) → system_contains result.system p ≡ false }
        ensures auths { result.auths ≡ [] }
    {
        Account {
            life,
            system: SystemPermissions::none(),
            auths: AuthSet::empty(alloc),
        }
    }

    // What the account's user holds, with these permissions on a table. Root has all for the whole server.
    pub fn caller(&self, user: &Name, on_table: TablePermissions) -> Caller<'_>
        ensures system { (p : _) → system_contains result.system p ≡ bytes_eq user.now root || system_contains self.now.system p }
        ensures on_table { result.on_table ≡ on_table }
        ensures authorizations { result.authorizations.now ≡ self.now.auths }
    {
        Caller {
            system: self.system_of(user),
            on_table,
            authorizations: &self.auths,
        }
    }

    // The system permissions of the account's user, all for root.
    pub fn system_of(&self, user: &Name) -> SystemPermissions
        ensures { (p : _) → system_contains result p ≡ bytes_eq user.now root || system_contains self.now.system p }
    {
        if is_root(user) {
            SystemPermissions::all()
        } else {
            self.system
        }
    }
}

impl Clone for Account {
    ghost is_clone = { λ source copy. copy ≡ source };

    fn clone(&self) -> Result<Account, AllocError> {
        Ok(Account {
            life: self.life,
            system: self.system,
            auths: self.auths.clone()?,
        })
    }
}

// The name of the user that is there from the first.
pub fn root_name() -> Name
    ensures { result ≡ root }
{
    Name::new(b"root").unwrap()
}

/// Whether this is `root`, the user that is there from the first.
pub fn is_root(user: &Name) -> bool
    ensures { result ≡ bytes_eq user.now root }
{
    user.as_bytes() == b"root".as_slice()
}

// The life of the user of this name, if there is one.
pub fn life_among(users: &BTreeMap<NameKey, Account>, name: &Name) -> Option<u64>
    ensures { result ≡ life_among users.now.entries name.now }
{
    let account = users.get(name)?;
    Some(account.life)
}

// The names of all users, rising.
pub fn names_of(alloc: Global, users: &BTreeMap<NameKey, Account>) -> Result<Vec<Name>, AllocError>
    ensures names { IfOk result (λ names. names.items ≡ keys_of users.now.entries) }
    ensures rising { IsRising (keys_of users.now.entries) }
{
    users.keys().map(|key| key.to_name()).collect(alloc)
}

// Puts the account under the name, and answers the life of the account that stood there. An error leaves the accounts as they were.
pub fn put_account(
    users: &mut BTreeMap<NameKey, Account>,
    name: NameKey,
    account: Account,
) -> Result<Option<u64>, AllocError>
    ensures names { OnOk result ((q : List ℕ) → at_name q users.new.entries ≡ (if bytes_eq name q then Some account else at_name q users.old.entries)) }
    ensures count { OnOk result (length users.new.entries ≡ (if is_some (at_name name users.old.entries) then length users.old.entries else length users.old.entries + 1)) }
    ensures before { IfOk result (λ life. life ≡ account_life (at_name name users.old.entries)) }
    ensures err { OnErr result (users.new.entries ≡ users.old.entries) }
{
    let before = users.insert(name, account)?;
    Ok(life_of(before))
}

// Takes the account of this name away, and answers its life.
pub fn take_account(users: &mut BTreeMap<NameKey, Account>, name: &Name) -> Option<u64>
    ensures names { (q : List ℕ) → at_name q users.new.entries ≡ (if bytes_eq name.now q then None else at_name q users.old.entries) }
    ensures count { length users.new.entries ≡ (if is_some (at_name name.now users.old.entries) then length users.old.entries - 1 else length users.old.entries) }
    ensures before { result ≡ account_life (at_name name.now users.old.entries) }
{
    life_of(users.remove(name))
}

// The life of the account, if there is one.
fn life_of(account: Option<Account>) -> Option<u64>
    ensures { result ≡ account_life account }
{
    match account {
        Some(account) => Some(account.life),
        None => None,
    }
}

// Gives the user these authorizations, if there is such a user.
pub fn set_auths(users: &mut BTreeMap<NameKey, Account>, user: &Name, auths: AuthSet)
    ensures names { (q : List ℕ) → at_name q users.new.entries ≡ changed_at user.now (with_auths auths) users.old.entries q }
    ensures count { length users.new.entries ≡ length users.old.entries }
{
    if let Some(account) = users.get_mut(user) {
        account.auths = auths;
    }
}

// Gives the user the system permission or takes it from him, if there is such a user.
pub fn set_system(
    users: &mut BTreeMap<NameKey, Account>,
    user: &Name,
    permission: SystemPermission,
    held: bool,
)
    ensures names { (q : List ℕ) → at_name q users.new.entries ≡ changed_at user.now (with_system permission held) users.old.entries q }
    ensures count { length users.new.entries ≡ length users.old.entries }
{
    if let Some(account) = users.get_mut(user) {
        account.system = account.system.set_to(permission, held);
    }
}
