//! Steps whose history is recorded.
ghost use Rattle.std.specs.Prelude.{◌≡◌, ◌⊎◌, [], Some, None, true};
ghost use Rattle.tab_history.specs.Answers.{told_of, event_answer};
ghost use Rattle.tab_store.specs.Stores.{base_of};
ghost use Rattle.tab_core.specs.ByTablet.{TabletsRefineWorlds};
ghost use Rattle.tab_core.specs.EventReplies.{told_in, is_long};
ghost use Rattle.tab_core.specs.Holding.{held};
ghost use Rattle.tab_core.specs.Spending.{left_of};
ghost use Rattle.tab_core.specs.Stepping.{Acts, IsCore, asked_at, installs_at};
ghost use Rattle.tab_core.specs.Recording.{RefinesHistory, StepsOn};

use crate::event_reply::EventReply;
use crate::policing::named_slot;
use crate::reply::{Answer, move_clock};
use crate::state::{Core, keep_markers, later};
use crate::store::Store;
use std::alloc::{AllocError, Global};
use tab_history::{Act, Event, Refusal, Reply};
use tab_key::Name;
use tab_label::KnownLabels;
use tab_store::FinishedJob;

impl Core {
    /// A core refines the history without events on what it holds: nothing is done, and it is known afterwards.
    #[tactic(auto, using(crate::proofs::Recorded::begun))]
    pub fn begins(&self)
        ensures { RefinesHistory self.now (base_of self.now) [] }
    {
        self.keeps();
    }

    /// In each tablet what is held refines what was accepted in its rows, after every history that the core refines: nothing is done, and it
    /// is known afterwards.
    #[tactic(auto, using(crate::proofs::ByTablet::tablets_refine_worlds))]
    pub fn tablets_refine(&self)
        ensures { TabletsRefineWorlds self.now }
    {
        self.keeps();
    }

    /// Applies one event and answers it as [`Core::step`] does, with a copy of what it is told.
    ///
    /// Where there is no memory for the copy the event is refused for that, and had no effect: only acts that take memory are told what
    /// takes some to copy.
    pub fn step_told(&mut self, alloc: Global, event: Event) -> (Answer, EventReply)
        ensures steps { StepsOn self.old None event result.0 self.new }
        ensures told { told_in result.1 ≡ told_of result.0 }
    {
        let mut event = event;
        self.step_told_lent(alloc, &event.user, event.moment, &mut event.act)
    }

    /// Steps as [`Core::step_told`] does, over an event whose parts are lent, so that none of it is moved. An act that is refused, for want
    /// of memory too, is left as it was; out of any other one the core takes what it keeps, as [`Core::step_lent`] does.
    pub fn step_told_lent(
        &mut self,
        alloc: Global,
        user: &Name,
        moment: i64,
        act: &mut Act,
    ) -> (Answer, EventReply)
        ensures steps { StepsOn self.old None (asked_at user.now moment act.old) result.0 self.new }
        ensures told { told_in result.1 ≡ told_of result.0 }
        ensures left { act.new ≡ left_of act.old (told_of result.0) }
    {
        if let Some((_, slot)) = named_slot(act) {
            return copied(self.no_job(slot));
        }
        keep_markers(act);
        let now = later(self.store.clock, moment);
        let answered = self
            .store
            .answer_told(alloc, now, user, act, &mut self.known);
        move_clock(&mut self.store.clock, now, &answered.0);
        answered
    }

    /// Applies the user's Install of a finished merge into the table and answers it as [`Core::install`] does, with a copy of what it is told.
    pub fn install_told(
        &mut self,
        alloc: Global,
        user: &Name,
        moment: i64,
        table: &Name,
        finished: FinishedJob,
    ) -> (Answer, EventReply)
        ensures steps { StepsOn self.old (Some finished) (installs_at user.now moment table.now finished) result.0 self.new }
        ensures told { told_in result.1 ≡ told_of result.0 }
    {
        copied(self.install(alloc, user, moment, table, finished))
    }
}

impl Store {
    // Answers the event, does what the answer says, and copies what it is told. Where there is no memory for the copy nothing was done, and
    // nothing was taken out of the act.
    fn answer_told(
        &mut self,
        alloc: Global,
        now: i64,
        user: &Name,
        act: &mut Act,
        known: &mut KnownLabels,
    ) -> (Answer, EventReply)
        requires { IsCore (held self.old) }
        ensures acts { Acts (event_answer (base_of (held self.old)) [] now user.now act.old) (held self.old) now None user.now act.old result.0 (held self.new) }
        ensures told { told_in result.1 ≡ told_of result.0 }
        ensures left { act.new ≡ left_of act.old (told_of result.0) }
    {
        copied(self.answer(alloc, now, user, act, known))
    }
}

// The reply, with a copy of what is told. Where there is no memory for the copy, want of memory in its place.
fn copied(reply: Answer) -> (Answer, EventReply)
    ensures reply { (result.0 ≡ reply) ⊎ ((is_long (told_of reply) ≡ true) × (result.0 ≡ Reply.Refused Refusal.NoMemory)) }
    ensures told { told_in result.1 ≡ told_of result.0 }
{
    match EventReply::of(&reply) {
        Ok(told) => (reply, told),
        Err(AllocError) => lacking(reply),
    }
}

// Want of memory, told and copied, in place of the reply.
fn lacking(_reply: Answer) -> (Answer, EventReply)
    ensures reply { result.0 ≡ Reply.Refused Refusal.NoMemory }
    ensures told { told_in result.1 ≡ Reply.Refused Refusal.NoMemory }
{
    (
        Reply::Refused(Refusal::NoMemory),
        EventReply::Refused(Refusal::NoMemory),
    )
}
