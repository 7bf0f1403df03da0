//! What a core holds, as data.
ghost use Rattle.std.specs.Prelude.{◌≡◌, ◌∷◌, [], IfOk};
ghost use Rattle.tab_store.specs.Stores.{base_of};
ghost use Rattle.tab_core.specs.Holding.{held};
ghost use Rattle.tab_core.specs.Recording.{RefinesHistory, entry_of};
ghost use Rattle.tab_core.specs.Rotating.{raised};
ghost use Rattle.tab_core.specs.Stepping.{IsCore, asked_at};

use crate::state::Core;
use crate::store::Store;
use std::alloc::{AllocError, Global};
use std::marker::Model;
use tab_history::{Act, Reply};
use tab_key::Name;
use tab_label::KnownLabels;

/// What a core held at a moment: the clock, the number of the next accepted write, users and rights, and the tables, each with what its
/// tablets held. It is what the events of a history are counted from. It shares what tablets hold, and keeps it for as long as it lives.
///
/// Beside what a contract sees it has all that makes a core of it: the end rows of the tablets, their numbers, and the merges under way.
/// It lies apart, so that few bytes are moved where it is handed on.
pub struct Base {
    store: Box<Store>,
}

// Written out, so that a crate above needn't prove anew how the parts are dropped.
impl Drop for Base {
    fn drop(self) {
        let Base { store: _ } = self;
    }
}

impl Model for Base {
    ghost use Rattle.tab_history.specs.Bases.{Base};
    ghost use Rattle.tab_store.specs.Stores.{base_of};
    ghost use Rattle.tab_core.specs.Holding.{held};
    ghost use Rattle.tab_core.specs.Stepping.{IsCore};

    ghost Value = { Base };

    ghost view = { λ b. base_of (held b.store.value) };

    ghost invariant = { λ b. IsCore (held b.store.value) };
}

impl Base {
    // The base of a core that holds this. `AllocError` says that memory for its place lacked.
    fn of(alloc: Global, store: Store) -> Result<Base, AllocError>
        requires { IsCore (held store) }
        ensures { IfOk result (λ base. base ≡ base_of (held store)) }
    {
        let store = Box::new(alloc, store)?;
        Ok(Base { store })
    }

    // What a core of this base holds.
    fn into_store(self) -> Store
        ensures same { base_of (held result) ≡ self }
        ensures core { IsCore (held result) }
    {
        let Base { store } = self;
        Box::into_inner(store)
    }

    /// The greatest moment of all events so far.
    pub fn clock(&self) -> i64
        ensures { result ≡ self.now.clock }
    {
        self.store.clock
    }

    /// Lets the clock be this moment, if that is greater.
    pub fn raise(&mut self, moment: i64)
        ensures { self.new ≡ raised moment self.old }
    {
        self.store.clock = self.store.clock.max(moment);
    }
}

impl Core {
    /// What it holds, as data. Users and rights are copied, and of each tablet what was written to it since its last freeze; all else is
    /// shared. Nothing changes, and no tablet is frozen.
    ///
    /// It takes memory for the copies, for the end rows of tablets, and for a share of each source. `AllocError` says that it lacked.
    pub fn base(&self, alloc: Global) -> Result<Base, AllocError>
        ensures { IfOk result (λ base. base ≡ base_of self.now) }
    {
        let policy = self.store.policy.clone()?;
        let tables = self.store.tables.clone()?;
        let store = Store {
            clock: self.store.clock,
            next: self.store.next,
            policy,
            tables,
            tablet: self.store.tablet,
            job: self.store.job,
        };
        Base::of(alloc, store)
    }

    /// A core that holds what the base tells, and so refines the history without events on it: clock, users, rights and tables are those
    /// of the core that the base was taken of, its tablets end where they did, and numbers go on from there. It takes no memory.
    ///
    /// What is done to it doesn't change the core that the base was taken of. A merge that was under way there may be installed in both.
    pub fn from_base(base: Base) -> Core
        ensures same { base_of result ≡ base }
        ensures refines { RefinesHistory result base [] }
    {
        Core {
            store: base.into_store(),
            known: KnownLabels::none(),
        }
    }

    /// A core that refines one accepted Rotate on a base, and nothing else, refines the history without events on that base, with the
    /// clock at the Rotate's moment where that is greater: nothing is done, and it is known afterwards.
    #[tactic(auto, using(crate::proofs::Rotated::begun_anew))]
    pub fn rotated(&self, _base: &Base, _user: &Name, _moment: i64)
        requires { RefinesHistory self.now _base.now (entry_of (asked_at _user.now _moment Act.Rotate) Reply.Done ∷ []) }
        ensures { RefinesHistory self.now (raised _moment _base.now) [] }
    {}
}
