//! What events on tables, users and permissions do to what a core holds, and what is asked of images.
ghost use Rattle.std.specs.Prelude.{◌≡◌};
ghost use Rattle.tab_history.specs.Answers.{told_of};
ghost use Rattle.tab_store.specs.Stores.{base_of};
ghost use Rattle.tab_core.specs.Holding.{held};
ghost use Rattle.tab_core.specs.Spending.{left_of};
ghost use Rattle.tab_core.specs.Stepping.{Does, IsCore, IsAdmitted, Tells};

use crate::checking::{horizon_refusal, right_refusal, too_many_auths, versions_refusal};
use crate::numbering::next_number;
use crate::reply::Answer;
use crate::store::Store;
use std::alloc::{AllocError, Global};
use std::mem;
use tab_history::{Act, Refusal, Reply, Rights, TimeMode, Versions};
use tab_key::{LimitedPart, Name};
use tab_label::AuthSet;
use tab_policy::{Caller, Permission, is_root};
use tab_rules::ConstraintSet;
use tab_store::Setting;

// How many tables there may be.
const MAX_TABLES: usize = u32::MAX as usize;

impl Store {
    // A new table, with its creator's five rights.
    pub(crate) fn create_table(
        &mut self,
        now: i64,
        user: &Name,
        table: &Name,
        time: TimeMode,
        versions: Versions,
    ) -> Answer
        requires core { IsCore (held self.old) }
        requires admitted { IsAdmitted (base_of (held self.old)) user.now (Act.CreateTable table.now time versions) }
        ensures { Does self.old now user.now (Act.CreateTable table.now time versions) result self.new }
    {
        if self.tables.get(table).is_some() {
            return Reply::Refused(Refusal::TableExists(*table));
        }
        if self.tables.len() >= MAX_TABLES {
            return Reply::Refused(Refusal::TooLarge(LimitedPart::Numbers));
        }
        match self.tables.insert(*table, time, versions, self.tablet) {
            Ok(()) => {}
            Err(AllocError) => return Reply::Refused(Refusal::NoMemory),
        }
        match self.policy.create_table(user, table) {
            Ok(()) => {
                self.tablet = next_number(self.tablet);
                Reply::Done
            }
            Err(AllocError) => {
                self.tables.remove(table);
                Reply::Refused(Refusal::NoMemory)
            }
        }
    }

    // A table taken away, with its records and all rights on it. It takes no memory.
    pub(crate) fn drop_table(&mut self, now: i64, user: &Name, table: &Name) -> Answer
        requires core { IsCore (held self.old) }
        requires admitted { IsAdmitted (base_of (held self.old)) user.now (Act.DropTable table.now) }
        ensures { Does self.old now user.now (Act.DropTable table.now) result self.new }
    {
        self.tables.remove(table);
        self.policy.drop_table(table);
        Reply::Done
    }

    // The table's constraints, which are taken out. It takes no memory.
    pub(crate) fn set_constraints(
        &mut self,
        now: i64,
        user: &Name,
        table: &Name,
        constraints: &mut ConstraintSet,
    ) -> Answer
        requires { IsCore (held self.old) }
        ensures does { Does self.old now user.now (Act.SetConstraints table.now constraints.old) result self.new }
        ensures left { Act.SetConstraints table.now constraints.new ≡ left_of (Act.SetConstraints table.now constraints.old) (told_of result) }
    {
        let given = mem::replace(constraints, ConstraintSet::none());
        if let Some(table) = self.tables.get_mut(table) {
            table.set(Setting::Constraints(given));
        }
        Reply::Done
    }

    // How many versions of a column the table shows, no more than it did. It takes no memory.
    pub(crate) fn set_versions(
        &mut self,
        now: i64,
        user: &Name,
        table: &Name,
        versions: Versions,
    ) -> Answer
        requires { IsCore (held self.old) }
        ensures { Does self.old now user.now (Act.SetVersions table.now versions) result self.new }
    {
        let Some(table) = self.tables.get_mut(table) else {
            return Reply::Done;
        };
        if let Some(refusal) = versions_refusal(table, versions) {
            return Reply::Refused(refusal);
        }
        table.set(Setting::Versions(versions));
        Reply::Done
    }

    // The time below which the table takes no update, no lower than it was. It takes no memory.
    pub(crate) fn set_horizon(
        &mut self,
        now: i64,
        user: &Name,
        table: &Name,
        horizon: i64,
    ) -> Answer
        requires { IsCore (held self.old) }
        ensures { Does self.old now user.now (Act.SetHorizon table.now horizon) result self.new }
    {
        let Some(table) = self.tables.get_mut(table) else {
            return Reply::Done;
        };
        if let Some(refusal) = horizon_refusal(table, horizon) {
            return Reply::Refused(refusal);
        }
        table.set(Setting::Horizon(horizon));
        Reply::Done
    }

    // The authorizations of a user, which are taken out where no check refuses them. It takes no memory.
    pub(crate) fn set_auths(
        &mut self,
        alloc: Global,
        now: i64,
        user: &Name,
        name: &Name,
        auths: &mut AuthSet,
    ) -> Answer
        requires { IsCore (held self.old) }
        ensures does { Does self.old now user.now (Act.SetAuths name.now auths.old) result self.new }
        ensures left { Act.SetAuths name.now auths.new ≡ left_of (Act.SetAuths name.now auths.old) (told_of result) }
    {
        let known = self.policy.user_exists(name);
        if too_many_auths(auths) {
            return Reply::Refused(Refusal::TooLarge(LimitedPart::Authorizations));
        }
        if !known {
            return Reply::Refused(Refusal::NoUser(*name));
        }
        let given = mem::replace(auths, AuthSet::empty(alloc));
        self.policy.set_auths(name, given);
        Reply::Done
    }
}

// How many users there may be.
const MAX_USERS: usize = u32::MAX as usize;

impl Store {
    // A new user, without rights and authorizations.
    pub(crate) fn create_user(&mut self, now: i64, user: &Name, name: &Name) -> Answer
        requires { IsCore (held self.old) }
        ensures { Does self.old now user.now (Act.CreateUser name.now) result self.new }
    {
        if self.policy.user_exists(name) {
            return Reply::Refused(Refusal::UserExists(*name));
        }
        if self.policy.user_count() >= MAX_USERS {
            return Reply::Refused(Refusal::TooLarge(LimitedPart::Numbers));
        }
        match self.policy.create_user(name) {
            Ok(()) => Reply::Done,
            Err(AllocError) => Reply::Refused(Refusal::NoMemory),
        }
    }

    // A user taken away, with his rights and authorizations. It takes no memory.
    pub(crate) fn drop_user(&mut self, now: i64, user: &Name, name: &Name) -> Answer
        requires { IsCore (held self.old) }
        ensures { Does self.old now user.now (Act.DropUser name.now) result self.new }
    {
        if !self.policy.user_exists(name) {
            return Reply::Refused(Refusal::NoUser(*name));
        }
        if is_root(name) {
            return Reply::Refused(Refusal::RootFixed);
        }
        self.policy.drop_user(name);
        Reply::Done
    }
}

impl Store {
    // A permission given to a user.
    pub(crate) fn grant(
        &mut self,
        now: i64,
        user: &Name,
        name: &Name,
        permission: &Permission,
    ) -> Answer
        requires core { IsCore (held self.old) }
        requires admitted { IsAdmitted (base_of (held self.old)) user.now (Act.Grant name.now permission.now) }
        ensures { Does self.old now user.now (Act.Grant name.now permission.now) result self.new }
    {
        let known = self.policy.user_exists(name);
        if let Some(refusal) = right_refusal(known, *name, permission) {
            return Reply::Refused(refusal);
        }
        match self.policy.grant(name, permission) {
            Ok(()) => Reply::Done,
            Err(AllocError) => Reply::Refused(Refusal::NoMemory),
        }
    }

    // A permission taken from a user. It takes no memory.
    pub(crate) fn revoke(
        &mut self,
        now: i64,
        user: &Name,
        name: &Name,
        permission: &Permission,
    ) -> Answer
        requires { IsCore (held self.old) }
        ensures { Does self.old now user.now (Act.Revoke name.now permission.now) result self.new }
    {
        let known = self.policy.user_exists(name);
        if let Some(refusal) = right_refusal(known, *name, permission) {
            return Reply::Refused(refusal);
        }
        self.policy.revoke(name, permission);
        Reply::Done
    }
}

/// What the caller may do, on the table that was named too, and holds.
pub fn rights(caller: Caller<'_>) -> Answer
    ensures { Tells caller.entry result }
{
    match caller.authorizations.clone() {
        Ok(authorizations) => Reply::Rights(Rights {
            system: caller.system,
            table: caller.on_table,
            authorizations,
        }),
        Err(AllocError) => Reply::Refused(Refusal::NoMemory),
    }
}

impl Store {
    // A save. It takes no memory.
    pub(crate) fn save(&self, now: i64, user: &Name) -> Answer
        requires { IsCore (held self.now) }
        ensures { Does self.now now user.now Act.Save result self.now }
    {
        Reply::Done
    }

    // A load. It takes no memory.
    pub(crate) fn load(&self, now: i64, user: &Name) -> Answer
        requires { IsCore (held self.now) }
        ensures { Does self.now now user.now Act.Load result self.now }
    {
        Reply::Done
    }

    // A history to be handed out. It takes no memory.
    pub(crate) fn rotate(&self, now: i64, user: &Name) -> Answer
        requires { IsCore (held self.now) }
        ensures { Does self.now now user.now Act.Rotate result self.now }
    {
        Reply::Done
    }
}
