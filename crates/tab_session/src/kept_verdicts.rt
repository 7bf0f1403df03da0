//! The verdicts on labels that a session keeps from batch to batch.
ghost use Rattle.std.specs.Prelude.{ℕ, List};
ghost use Rattle.tab_iter.specs.Verdicts.{IsSound};
ghost use Rattle.tab_session.specs.KeptVerdicts.{AreSound};

use std::alloc::Global;
use std::mem;
use tab_iter::Verdicts;

/// Verdicts in memory of their own, if any were kept. A session that has read nothing has none: so it is small to move, and an empty scan
/// takes no memory.
#[derive(Drop)]
pub(crate) struct KeptVerdicts {
    kept: Option<Box<Verdicts>>,
}

impl KeptVerdicts {
    /// None, which are right under all authorizations.
    pub(crate) fn none() -> KeptVerdicts
        ensures { (auths : List (List ℕ)) → AreSound auths result }
    {
        KeptVerdicts { kept: None }
    }

    /// Takes them out, and leaves none.
    pub(crate) fn take(&mut self, alloc: Global) -> Verdicts
        ensures taken { (auths : List (List ℕ)) → AreSound auths self.old → IsSound auths result }
        ensures left { (auths : List (List ℕ)) → AreSound auths self.new }
    {
        match &mut self.kept {
            Some(kept) => mem::replace(&mut **kept, Verdicts::none(alloc)),
            None => Verdicts::none(alloc),
        }
    }

    /// Keeps these. Where memory lacks for their place, none are kept.
    pub(crate) fn put(&mut self, alloc: Global, verdicts: Verdicts)
        ensures { (auths : List (List ℕ)) → IsSound auths verdicts → AreSound auths self.new }
    {
        match &mut self.kept {
            Some(kept) => **kept = verdicts,
            None => self.kept = Box::new(alloc, verdicts).ok(),
        }
    }
}
