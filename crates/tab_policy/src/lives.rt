//! The lives of users.
ghost use Rattle.std.specs.Prelude.{◌≡◌, ◌+◌, ℕ, [], Some, None, IfOk, OnOk, OnErr, is_some, option_copied, if◌then◌else◌};
ghost use Rattle.tab_policy.specs.Entries.{at_life, same_life};
ghost use Rattle.tab_policy.specs.Lives.{is_life};

use crate::entries::{put_at, take_away_at};
use crate::name_key::NameKey;
use std::alloc::{AllocError, Global};
use std::collections::BTreeMap;

// Each time a user is made he begins a life, and he ends it when he is dropped. A life is a number that is given once.
pub struct Lives {
    // Those that began and haven't ended, each with the name of the user who is in it.
    living: BTreeMap<u64, NameKey>,
    // The next one to begin.
    next: u64,
}

// Written out, so that a crate above needn't prove anew how the parts are dropped.
impl Drop for Lives {
    #[inline(always)]
    fn drop(self) {
        let Lives { living: _, next: _ } = self;
    }
}

impl Lives {
    // No life has begun.
    pub fn new(alloc: Global) -> Lives
        ensures next { result.next ≡ 0 }
        ensures living { result.living.entries ≡ [] }
    {
        Lives {
            living: BTreeMap::new(alloc),
            next: 0,
        }
    }

    // Whether the life began and hasn't ended.
    pub fn is_living(&self, life: u64) -> bool
        ensures { result ≡ is_some (at_life life self.now.living.entries) }
    {
        self.living.contains_key(&life)
    }

    // The name of the user who is in the life, if it began and hasn't ended.
    pub fn name_of(&self, life: u64) -> Option<&NameKey>
        ensures { option_copied result ≡ at_life life self.now.living.entries }
    {
        self.living.get(&life)
    }

    // Begins the next life, of the user of this name. An error, for want of memory or of numbers, leaves all as it was.
    pub fn begin(&mut self, name: NameKey) -> Result<u64, AllocError>
        ensures life { IfOk result (λ life. life ≡ self.old.next) }
        ensures next { OnOk result (self.new.next ≡ self.old.next + 1) }
        ensures living { OnOk result ((l : ℕ) → at_life l self.new.living.entries ≡ (if same_life self.old.next l then Some name else at_life l self.old.living.entries)) }
        ensures err { OnErr result ((self.new.next ≡ self.old.next) × (self.new.living.entries ≡ self.old.living.entries)) }
    {
        let life = self.next;
        if life == u64::MAX {
            return Err(AllocError);
        }
        put_at(&mut self.living, life, name)?;
        self.next = life + 1;
        Ok(life)
    }

    // Ends the life, if it is one. It takes no memory.
    pub fn end(&mut self, life: Option<u64>)
        ensures next { self.new.next ≡ self.old.next }
        ensures living { (l : ℕ) → at_life l self.new.living.entries ≡ (if is_life life l then None else at_life l self.old.living.entries) }
    {
        if let Some(life) = life {
            take_away_at(&mut self.living, life);
        }
    }
}

impl Clone for Lives {
    ghost is_clone = { λ source copy. (copy.next ≡ source.next) × (copy.living.entries ≡ source.living.entries) };

    fn clone(&self) -> Result<Lives, AllocError> {
        Ok(Lives {
            living: self.living.clone()?,
            next: self.next,
        })
    }
}
