//! What a core holds, and what an event does to it.
ghost use Rattle.std.specs.Prelude.{◌≡◌, [], None};
ghost use Rattle.tab_history.specs.Answers.{event_answer, told_of};
ghost use Rattle.tab_store.specs.Stores.{base_of};
ghost use Rattle.tab_core.specs.Holding.{held};
ghost use Rattle.tab_core.specs.Spending.{left_of};
ghost use Rattle.tab_core.specs.Stepping.{Acts, IsCore};

use crate::acts::rights;
use crate::policing::{action_of, horizon_asked, refusal_of};
use crate::reply::Answer;
use crate::scans::open;
use crate::tablets::kind_of;
use crate::writes::write;
use std::alloc::Global;
use tab_cells::Compaction;
use tab_history::{Act, Reply, Scan};
use tab_key::Name;
use tab_label::KnownLabels;
use tab_policy::{Action, Policy, TableAction};
use tab_store::Tables;

/// The clock, the number that the next accepted write gets, users with their rights, tables, and the numbers that the next tablet and the next
/// job get.
#[derive(Drop)]
pub struct Store {
    /// The greatest moment so far.
    pub clock: i64,
    /// The number of the next accepted write.
    pub next: u64,
    /// Users and rights.
    pub policy: Policy,
    /// The tables.
    pub tables: Tables,
    /// The number of the next tablet.
    pub tablet: u64,
    /// The number of the next job.
    pub job: u64,
}

impl Store {
    /// Answers the event, and does what the answer says; the clock is set afterwards. `now` is the clock with the event's moment in it.
    /// What is kept of an act that isn't refused is taken out of it, or copied. An Install came without its merge here, and names no slot.
    /// `known` are labels that were judged before.
    pub fn answer(
        &mut self,
        alloc: Global,
        now: i64,
        user: &Name,
        act: &mut Act,
        known: &mut KnownLabels,
    ) -> Answer
        requires { IsCore (held self.old) }
        ensures acts { Acts (event_answer (base_of (held self.old)) [] now user.now act.old) (held self.old) now None user.now act.old result (held self.new) }
        ensures left { act.new ≡ left_of act.old (told_of result) }
    {
        let caller = match self.policy.decide(user, &action_of(act)) {
            Ok(caller) => caller,
            Err(denial) => return Reply::Refused(refusal_of(*user, denial)),
        };
        // (of a lent act that has a number a pattern binds one part)
        let horizon = horizon_asked(act);
        match act {
            Act::Open(scan) => open(alloc, &mut self.tables, caller.authorizations, scan),
            Act::Write(table, mutation) => {
                let tables = &mut self.tables;
                let next = &mut self.next;
                let auths = caller.authorizations;
                write(alloc, tables, next, auths, known, now, table, mutation)
            }
            Act::CreateTable(table, time, versions) => self.create_table(
                now, user, table, *time, *versions,
            ),
            Act::DropTable(table) => self.drop_table(now, user, table),
            Act::SetConstraints(table, set) => self.set_constraints(now, user, table, set),
            Act::SetVersions(table, versions) => self.set_versions(now, user, table, *versions),
            Act::SetHorizon(table, _) => self.set_horizon(now, user, table, horizon),
            Act::CreateUser(name) => self.create_user(now, user, name),
            Act::DropUser(name) => self.drop_user(now, user, name),
            Act::SetAuths(name, auths) => self.set_auths(alloc, now, user, name, auths),
            Act::Grant(name, permission) => self.grant(now, user, name, permission),
            Act::Revoke(name, permission) => self.revoke(now, user, name, permission),
            Act::Rights(_) => rights(caller),
            Act::Status(table) => self.status(now, user, table),
            Act::Flush(table) => self.compact(alloc, now, user, table, Compaction::Minor),
            Act::Compact(table, extent) => self.compact(alloc, now, user, table, kind_of(*extent)),
            Act::AddSplit(table, row) => self.add_split(alloc, now, user, table, row),
            Act::SplitBySize(table, row, limit) => self.halve(alloc, now, user, table, row, *limit),
            Act::Splits(table) => self.splits(alloc, now, user, table),
            Act::Save => self.save(now, user),
            Act::Load => self.load(now, user),
            Act::Rotate => self.rotate(now, user),
            Act::Begin(table, row, kind) => self.begin(alloc, now, user, table, row, *kind),
            Act::Install(table, given) => self.install_none(now, user, table, *given),
        }
    }

    /// Answers the Open of a scan that is lent as it is, and opens its session.
    #[inline(always)]
    pub fn answer_open(&mut self, alloc: Global, now: i64, user: &Name, scan: &mut Scan) -> Answer
        requires { IsCore (held self.old) }
        ensures acts { Acts (event_answer (base_of (held self.old)) [] now user.now (Act.Open scan.old)) (held self.old) now None user.now (Act.Open scan.old) result (held self.new) }
        ensures left { Act.Open scan.new ≡ left_of (Act.Open scan.old) (told_of result) }
    {
        let action = Action::OnTable(TableAction::Open, &scan.table);
        match self.policy.admitted(user, &action) {
            Some(caller) => open(alloc, &mut self.tables, caller.authorizations, scan),
            None => self.judge_open(alloc, now, user, scan),
        }
    }

    // Judges the Open by the whole decision.
    #[cold]
    #[inline(never)]
    fn judge_open(&mut self, alloc: Global, now: i64, user: &Name, scan: &mut Scan) -> Answer
        requires { IsCore (held self.old) }
        ensures acts { Acts (event_answer (base_of (held self.old)) [] now user.now (Act.Open scan.old)) (held self.old) now None user.now (Act.Open scan.old) result (held self.new) }
        ensures left { Act.Open scan.new ≡ left_of (Act.Open scan.old) (told_of result) }
    {
        let action = Action::OnTable(TableAction::Open, &scan.table);
        match self.policy.decide(user, &action) {
            Ok(caller) => open(alloc, &mut self.tables, caller.authorizations, scan),
            Err(denial) => Reply::Refused(refusal_of(*user, denial)),
        }
    }
}
