//! The sessions that a run or a script keeps for its users.
ghost use Rattle.std.specs.Prelude.{◌≡◌, ◌+◌, ℕ, List, [], Some, true, false, nat_le, is_some, OnOk, OnSome};
ghost use Rattle.std.specs.Option.{option_copied_mut};
ghost use Rattle.std.specs.Borrow.{sem};
ghost use Rattle.tab_policy.specs.Entries.{at_name};
ghost use Rattle.tab_core.specs.Lending.{LendsFound, LendsKept};
ghost use Rattle.tab_core.specs.Sessions.{none_kept, is_spent, kept_of, NextIn, ManyIn, CloseIn};

use crate::slots::Slots;
use std::alloc::{AllocError, Global};
use std::collections::BTreeMap;
use std::marker::Model;
use tab_history::{Refusal, Reply};
use tab_key::{Bounds, MAX_OPENED, MAX_SESSIONS, Name};
use tab_policy::NameKey;

/// What is kept for one user: his sessions by their numbers, and how many others were opened, read and closed, which have no number.
#[derive(Drop)]
pub struct UserSessions {
    /// The sessions that have a number.
    pub numbered: Slots,
    scanned: u32,
}

impl UserSessions {
    // Nothing was opened.
    fn new(alloc: Global) -> UserSessions
        ensures { result ≡ none_kept }
    {
        UserSessions {
            numbered: Slots::new(alloc),
            scanned: 0,
        }
    }

    /// Whether no session can be opened any more, with a number or without: 65,536 are open, or 4,294,967,295 were opened.
    pub fn is_spent(&self) -> bool
        ensures { result ≡ is_spent self.now }
    {
        self.numbered.count_open() >= MAX_SESSIONS
            || all_given(self.numbered.numbers_given(), self.scanned)
    }

    /// A session without a number was opened, and closed.
    pub fn count_scan(&mut self)
        requires few { is_spent self.old ≡ false }
        ensures { self.new ≡ record self.old { scanned = self.old.scanned + 1 } }
    {
        self.scanned += 1;
    }
}

// Whether so many sessions and so many more are all that may be opened.
fn all_given(numbered: usize, scanned: u32) -> bool
    ensures { result ≡ nat_le 4294967295 (numbered + scanned) }
{
    let numbered = numbered as u64;
    numbered >= MAX_OPENED || numbered + scanned as u64 >= MAX_OPENED
}

/// What is kept for each user, by his name. For who isn't there nothing was opened.
pub struct Sessions {
    by_user: BTreeMap<NameKey, UserSessions>,
}

// Written out, so that a crate above needn't prove anew how the parts are dropped.
impl Drop for Sessions {
    fn drop(self) {
        let Sessions { by_user: _ } = self;
    }
}

impl Model for Sessions {
    ghost use Rattle.tab_core.specs.Sessions.{Keeping};

    ghost Value = { Keeping };

    ghost view = { λ s. s.by_user.entries };
}

impl Sessions {
    /// Nothing was opened for anybody.
    pub fn new(alloc: Global) -> Sessions
        ensures { result ≡ [] }
    {
        Sessions {
            by_user: BTreeMap::new(alloc),
        }
    }

    /// What is kept for the user, who is one of those for whom something is kept from now on. Without memory for that there is none, and
    /// nothing changes for anybody.
    pub fn kept_for(&mut self, alloc: Global, user: &Name) -> Option<&mut UserSessions>
        ensures* lends { sem 𝓛 (LendsKept self.entry user.now result) }
        ensures value { OnSome result (option_copied_mut result ≡ Some (kept_of self.old user.now)) }
    {
        if self.ready(alloc, user).is_err() {
            return None;
        }
        self.get_mut(user)
    }

    /// What is kept for the user, if he is one of those for whom something is kept. It takes no memory.
    pub fn get_mut(&mut self, user: &Name) -> Option<&mut UserSessions>
        ensures* lends { sem 𝓛 (LendsFound self.entry user.now result) }
        ensures value { option_copied_mut result ≡ at_name user.now self.old }
    {
        self.by_user.get_mut(user)
    }

    /// The next cells of the user's session of this number.
    pub fn next(&mut self, alloc: Global, user: &Name, number: u32, count: u32) -> Reply
        ensures { NextIn self.old user.now number count result self.new }
    {
        match self.get_mut(user) {
            Some(kept) => kept.numbered.next(alloc, number, count),
            None => Reply::Refused(Refusal::NoSession(number)),
        }
    }

    /// The whole answer of the user's session of this number, in each of the ranges. All that is kept stays as it was.
    pub fn many(&mut self, alloc: Global, user: &Name, number: u32, ranges: &[Bounds]) -> Reply
        ensures answers { ManyIn self.old user.now number ranges.now result }
        ensures same { self.new ≡ self.old }
    {
        match self.get_mut(user) {
            Some(kept) => kept.numbered.many(alloc, number, ranges),
            None => Reply::Refused(Refusal::NoSession(number)),
        }
    }

    /// Closes the user's session of this number.
    pub fn close(&mut self, user: &Name, number: u32) -> Reply
        ensures { CloseIn self.old user.now number result self.new }
    {
        match self.get_mut(user) {
            Some(kept) => kept.numbered.close(number),
            None => Reply::Refused(Refusal::NoSession(number)),
        }
    }

    // Makes the user one of those for whom something is kept. Where he isn't one, it is nothing.
    fn ready(&mut self, alloc: Global, user: &Name) -> Result<(), AllocError>
        ensures same { (n : List ℕ) → kept_of self.new n ≡ kept_of self.old n }
        ensures there { OnOk result (is_some (at_name user.now self.new) ≡ true) }
    {
        if self.by_user.get(user).is_some() {
            return Ok(());
        }
        let key = NameKey::new(alloc, user)?;
        self.by_user.insert(key, UserSessions::new(alloc))?;
        Ok(())
    }
}
