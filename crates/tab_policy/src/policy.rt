//! The users and tables, and what may be done.
ghost use Rattle.std.specs.Prelude.{◌≡◌, ◌+◌, ◌-◌, [], ℕ, List, None, IfOk, OnOk, OnErr, IfSome, true, false, bytes_eq, is_some, is_none, ◌&&◌, if◌then◌else◌};
ghost use Rattle.std.specs.Result.{result_err};
ghost use Rattle.tab_policy.specs.Roots.{root};
ghost use Rattle.tab_policy.specs.Sets.{system_contains, table_contains};

use crate::account::{
    Account, life_among, names_of, put_account, root_name, set_auths, set_system, take_account,
};
use crate::action::Action;
use crate::decision::{Caller, Decision, Denial};
use crate::entries::{put, take_away};
use crate::holder::Holder;
use crate::lives::Lives;
use crate::name_key::NameKey;
use crate::needs::Needs;
use crate::permission::Permission;
use crate::rights::{TableRights, give, take};
use crate::sets::{SystemPermissions, TablePermissions};
use std::alloc::{AllocError, Global};
use std::collections::BTreeMap;
use std::marker::Model;
use tab_key::{Items, Name};
use tab_label::AuthSet;

/// The users with what they hold, and the tables with the rights on them. A contract reads it by the definitions of `State`.
///
/// Each user is in a life of his own, and rights on a table are those of a life. A user who is dropped takes his life with him,
/// so no change looks at other users or tables than those that it names.
pub struct Policy {
    alloc: Global,
    users: BTreeMap<NameKey, Account>,
    tables: BTreeMap<NameKey, TableRights>,
    lives: Lives,
}

// Written out, so that a crate above needn't prove anew how the parts are dropped.
impl Drop for Policy {
    #[inline(always)]
    fn drop(self) {
        let Policy {
            alloc: _,
            users: _,
            tables: _,
            lives: _,
        } = self;
    }
}

impl Model for Policy {
    ghost use Rattle.tab_policy.specs.State.{State};

    ghost Value = { State };

    ghost view = { λ p. record { users = p.users.entries; tables = p.tables.entries } };

    ghost use Rattle.tab_policy.specs.Lives.{AreLived, life_among, name_among, gives_among};

    ghost invariant = { λ p. AreLived (life_among p.users.entries) (name_among p.lives.living.entries) (gives_among p.tables.entries) p.lives.next };
}

impl Policy {
    ghost use Rattle.tab_policy.specs.State.{standing_of, IsCaller};
    ghost use Rattle.tab_policy.specs.Actions.{asked_for, table_named};
    ghost use Rattle.tab_policy.specs.Decisions.{decision};

    /// What the policy says of the action of this user: why he isn't admitted, or else what he holds. It takes no memory.
    pub fn decide(&self, user: &Name, action: &Action<'_>) -> Decision<'_>
        ensures decided { result_err result ≡ decision (standing_of self.now user.now) (asked_for action.now) }
        ensures caller { IfOk result (λ caller. IsCaller caller self.now user.now (table_named (asked_for action.now))) }
    {
        match self.admitted(user, action) {
            Some(caller) => Ok(caller),
            None => self.judged(user, action),
        }
    }

    /// What this user holds, where the action is admitted; [`decide`](Policy::decide) says of any other why it isn't. No place is made here for
    /// that, which takes 152 bytes.
    pub fn admitted(&self, user: &Name, action: &Action<'_>) -> Option<Caller<'_>>
        ensures admits { is_some result ≡ is_none (decision (standing_of self.now user.now) (asked_for action.now)) }
        ensures caller { IfSome result (λ caller. IsCaller caller self.now user.now (table_named (asked_for action.now))) }
    {
        let account = self.users.get(user)?;
        let Some(table) = action.table() else {
            return Needs::of(action).admitted(account.caller(user, TablePermissions::none()));
        };
        let rights = self.tables.get(table)?;
        Needs::of(action).admitted(account.caller(user, rights.of(account.life)))
    }

    // The decision, whatever the action is.
    fn judged(&self, user: &Name, action: &Action<'_>) -> Decision<'_>
        ensures decided { result_err result ≡ decision (standing_of self.now user.now) (asked_for action.now) }
        ensures caller { IfOk result (λ caller. IsCaller caller self.now user.now (table_named (asked_for action.now))) }
    {
        let Some(account) = self.users.get(user) else {
            return Err(Denial::UnknownUser);
        };
        let Some(table) = action.table() else {
            return Needs::of(action).decide(account.caller(user, TablePermissions::none()), None);
        };
        match self.tables.get(table) {
            None => Err(Denial::NoTable(*table)),
            Some(rights) => Needs::of(action).decide(
                account.caller(user, rights.of(account.life)),
                Some(table),
            ),
        }
    }
}

#[tactic(auto, unfolding(crate::specs::State::user_exists, crate::specs::State::user_count, crate::specs::State::auths_of, crate::specs::State::system_granted, crate::specs::State::table_granted, crate::specs::State::table_exists))]
impl Policy {
    ghost use Rattle.tab_policy.specs.State.{readings, user_exists, user_count, auths_of, system_granted, has_system, table_granted, table_exists};
    ghost use Rattle.tab_policy.specs.Granting.{can_hold, is_system_right, is_table_right};
    ghost use Rattle.tab_policy.specs.Holders.{AreUsers, AreHolders};

    /// A policy with the one user `root`, who has all system permissions and no authorizations, and with no table.
    ///
    /// # Errors
    ///
    /// There was no memory for the user.
    pub fn new(alloc: Global) -> Result<Policy, AllocError>
        ensures users { IfOk result (λ s. (n : List ℕ) → user_exists s n ≡ bytes_eq root n) }
        ensures count { IfOk result (λ s. user_count s ≡ 1) }
        ensures auths { IfOk result (λ s. (n : List ℕ) → auths_of s n ≡ []) }
        ensures system { IfOk result (λ s. (n : List ℕ) (p : _) → system_granted s n p ≡ bytes_eq root n) }
        ensures rights { IfOk result (λ s. (n : List ℕ) (p : _) (t : List ℕ) → table_granted s n p t ≡ false) }
        ensures tables { IfOk result (λ s. (t : List ℕ) → table_exists s t ≡ false) }
    {
        let mut lives = Lives::new(alloc);
        let key = NameKey::new(alloc, &root_name())?;
        let kept = NameKey::new(alloc, &root_name())?;
        let mut account = Account::new(alloc, lives.begin(kept)?);
        account.system = SystemPermissions::all();
        let mut users = BTreeMap::new(alloc);
        put_account(&mut users, key, account)?;
        Ok(Policy {
            alloc,
            users,
            tables: BTreeMap::new(alloc),
            lives,
        })
    }

    /// Whether there is a user of this name.
    pub fn user_exists(&self, user: &Name) -> bool
        ensures { result ≡ user_exists self.now user.now }
    {
        self.users.get(user).is_some()
    }

    /// How many users there are.
    pub fn user_count(&self) -> usize
        ensures { result ≡ user_count self.now }
    {
        self.users.len()
    }

    /// Whether there is a table of this name.
    pub fn table_exists(&self, table: &Name) -> bool
        ensures { result ≡ table_exists self.now table.now }
    {
        self.tables.contains_key(table)
    }

    /// The authorizations of the user; `None` where there is no such user.
    pub fn auths_of(&self, user: &Name) -> Option<&AuthSet>
        ensures user { is_some result ≡ user_exists self.now user.now }
        ensures auths { IfSome result (λ set. set.now ≡ auths_of self.now user.now) }
    {
        match self.users.get(user) {
            Some(account) => Some(&account.auths),
            None => None,
        }
    }

    /// The system permissions that the user has, all for `root`; `None` where there is no such user.
    pub fn system_of(&self, user: &Name) -> Option<SystemPermissions>
        ensures user { is_some result ≡ user_exists self.now user.now }
        ensures system { IfSome result (λ set. (p : _) → system_contains set p ≡ has_system self.now user.now p) }
    {
        let account = self.users.get(user)?;
        Some(account.system_of(user))
    }

    /// The permissions that the user has on the table; `None` where there is no such table.
    pub fn rights_on(&self, table: &Name, user: &Name) -> Option<TablePermissions>
        ensures table { is_some result ≡ table_exists self.now table.now }
        ensures rights { IfSome result (λ set. (p : _) → table_contains set p ≡ table_granted self.now user.now p table.now) }
    {
        let rights = self.tables.get(table)?;
        match self.users.get(user) {
            Some(account) => Some(rights.of(account.life)),
            None => Some(TablePermissions::none()),
        }
    }

    /// The names of all users, rising by unsigned bytes.
    ///
    /// # Errors
    ///
    /// There was no memory for the list.
    pub fn users(&self, alloc: Global) -> Result<Items<Name>, AllocError>
        ensures { IfOk result (AreUsers self.now) }
    {
        let names = names_of(alloc, &self.users)?;
        Ok(Items::from_vec(names))
    }

    /// All users who have a permission on the table, rising by name, by unsigned bytes; none where there is no such table.
    ///
    /// It looks at the rights that are kept of this table and at the users who have them, and at no others.
    ///
    /// # Errors
    ///
    /// There was no memory for the list.
    pub fn holders(&self, alloc: Global, table: &Name) -> Result<Items<Holder>, AllocError>
        ensures { IfOk result (AreHolders self.now table.now) }
    {
        let Some(rights) = self.tables.get(table) else {
            return Ok(Items::new(alloc));
        };
        let mut holders = rights.holders(alloc, &self.lives)?;
        holders.sort_unstable_by(|one, other| one.user.cmp(&other.user));
        Ok(Items::from_vec(holders))
    }

    /// Sets the authorizations of the user, in place of those that he held. It takes no memory.
    /// Where there is no such user nothing changes.
    pub fn set_auths(&mut self, user: &Name, auths: AuthSet)
        ensures { readings self.new ≡ record (readings self.old) {
          auths = λ n. if user_exists self.old user.now && bytes_eq user.now n then auths else auths_of self.old n;
        } }
    {
        set_auths(&mut self.users, user, auths);
    }

    /// Makes the table, with all permissions on it for its creator and none for others. What stood under its name is gone.
    /// Where there is no user of the creator's name, nobody has a permission on it.
    ///
    /// # Errors
    ///
    /// There was no memory for the table. The policy is then as it was.
    pub fn create_table(&mut self, creator: &Name, table: &Name) -> Result<(), AllocError>
        ensures ok { OnOk result (readings self.new ≡ record (readings self.old) {
          rights = λ n p t. if bytes_eq table.now t then (user_exists self.old creator.now && bytes_eq creator.now n) else table_granted self.old n p t;
          tables = λ t. if bytes_eq table.now t then true else table_exists self.old t;
        }) }
        ensures err { OnErr result (self.new ≡ self.old) }
    {
        let rights = TableRights::new(self.alloc, life_among(&self.users, creator));
        let key = NameKey::new(self.alloc, table)?;
        put(&mut self.tables, key, rights)
    }

    /// Makes the table, with no permissions on it for anybody. What stood under its name is gone.
    ///
    /// # Errors
    ///
    /// There was no memory for the table. The policy is then as it was.
    pub fn put_table(&mut self, table: &Name) -> Result<(), AllocError>
        ensures ok { OnOk result (readings self.new ≡ record (readings self.old) {
          rights = λ n p t. if bytes_eq table.now t then false else table_granted self.old n p t;
          tables = λ t. if bytes_eq table.now t then true else table_exists self.old t;
        }) }
        ensures err { OnErr result (self.new ≡ self.old) }
    {
        let rights = TableRights::new(self.alloc, None);
        let name = NameKey::new(self.alloc, table)?;
        put(&mut self.tables, name, rights)
    }

    /// Takes the table away, with all rights on it. It takes no memory.
    pub fn drop_table(&mut self, table: &Name)
        ensures { readings self.new ≡ record (readings self.old) {
          rights = λ n p t. if bytes_eq table.now t then false else table_granted self.old n p t;
          tables = λ t. if bytes_eq table.now t then false else table_exists self.old t;
        } }
    {
        take_away(&mut self.tables, table);
    }

    /// Makes the user, with no authorizations and no rights, whoever had the name before.
    ///
    /// # Errors
    ///
    /// There was no memory for the user, or 2^64 - 1 users were made before him. The policy is then as it was.
    pub fn create_user(&mut self, user: &Name) -> Result<(), AllocError>
        ensures ok { OnOk result (readings self.new ≡ record (readings self.old) {
          users = λ n. if bytes_eq user.now n then true else user_exists self.old n;
          count = if user_exists self.old user.now then user_count self.old else user_count self.old + 1;
          auths = λ n. if bytes_eq user.now n then [] else auths_of self.old n;
          system = λ n p. if bytes_eq user.now n then false else system_granted self.old n p;
          rights = λ n p t. if bytes_eq user.now n then false else table_granted self.old n p t;
        }) }
        ensures err { OnErr result (self.new ≡ self.old) }
    {
        let key = NameKey::new(self.alloc, user)?;
        let kept = NameKey::new(self.alloc, user)?;
        let life = self.lives.begin(kept)?;
        match put_account(&mut self.users, key, Account::new(self.alloc, life)) {
            Ok(before) => {
                self.lives.end(before);
                Ok(())
            }
            Err(AllocError) => {
                self.lives.end(Some(life));
                Err(AllocError)
            }
        }
    }

    /// Takes the user away, with his rights and authorizations. It takes no memory.
    pub fn drop_user(&mut self, user: &Name)
        ensures { readings self.new ≡ record (readings self.old) {
          users = λ n. if bytes_eq user.now n then false else user_exists self.old n;
          count = if user_exists self.old user.now then user_count self.old - 1 else user_count self.old;
          auths = λ n. if bytes_eq user.now n then [] else auths_of self.old n;
          system = λ n p. if bytes_eq user.now n then false else system_granted self.old n p;
          rights = λ n p t. if bytes_eq user.now n then false else table_granted self.old n p t;
        } }
    {
        let life = take_account(&mut self.users, user);
        self.lives.end(life);
    }

    /// Grants the permission to the user. Where he or the permission's table doesn't exist, or he has it already, nothing changes.
    ///
    /// # Errors
    ///
    /// There was no memory for the right. The policy is then as it was.
    pub fn grant(&mut self, user: &Name, permission: &Permission) -> Result<(), AllocError>
        ensures ok { OnOk result (readings self.new ≡ record (readings self.old) {
          system = λ n p. if can_hold self.old user.now permission.now && is_system_right user.now permission.now n p then true else system_granted self.old n p;
          rights = λ n p t. if can_hold self.old user.now permission.now && is_table_right user.now permission.now n p t then true else table_granted self.old n p t;
        }) }
        ensures err { OnErr result (self.new ≡ self.old) }
    {
        match permission {
            Permission::OfSystem(granted) => {
                set_system(&mut self.users, user, *granted, true);
                Ok(())
            }
            Permission::OfTable(granted, table) => {
                let Some(account) = self.users.get(user) else {
                    return Ok(());
                };
                give(&mut self.tables, table, account.life, *granted, &self.lives)
            }
        }
    }

    /// Revokes the permission from the user. Where he doesn't have it nothing changes. It takes no memory.
    pub fn revoke(&mut self, user: &Name, permission: &Permission)
        ensures { readings self.new ≡ record (readings self.old) {
          system = λ n p. if is_system_right user.now permission.now n p then false else system_granted self.old n p;
          rights = λ n p t. if is_table_right user.now permission.now n p t then false else table_granted self.old n p t;
        } }
    {
        match permission {
            Permission::OfSystem(taken) => set_system(&mut self.users, user, *taken, false),
            Permission::OfTable(taken, table) => {
                if let Some(account) = self.users.get(user) {
                    take(&mut self.tables, table, account.life, *taken);
                }
            }
        }
    }
}

/// A copy with all users and rights. What changes one of the two later doesn't change the other. It takes memory for each user, each table
/// and each right; what was copied is given back where that lacks.
impl Clone for Policy {
    ghost is_clone = { λ source copy. copy ≡ source };

    fn clone(&self) -> Result<Policy, AllocError> {
        Ok(Policy {
            alloc: self.alloc,
            users: self.users.clone()?,
            tables: self.tables.clone()?,
            lives: self.lives.clone()?,
        })
    }
}
