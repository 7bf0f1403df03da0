//! What the policy is asked, what its decision refuses, which acts name a slot, and the horizon that one asks for.
ghost use Rattle.std.specs.Prelude.{◌≡◌, Some, IfSome, IfNone};
ghost use Rattle.tab_policy.specs.Actions.{asked_for};
ghost use Rattle.tab_history.specs.Checks.{action_of, denial};
ghost use Rattle.tab_history.specs.Chains.{NamesNoSlot};
ghost use Rattle.tab_core.specs.Stepping.{horizon_asked};

use tab_history::{Act, Given, Refusal};
use tab_key::Name;
use tab_policy::{Action, Denial, ServerAction, TableAction};

/// What the policy is asked for an event.
pub fn action_of(act: &Act) -> Action<'_>
    ensures { asked_for result ≡ action_of act.now }
{
    match act {
        Act::Open(scan) => Action::OnTable(TableAction::Open, &scan.table),
        Act::Write(table, _) => Action::OnTable(TableAction::Write, table),
        Act::CreateTable(_, _, _) => Action::OnServer(ServerAction::CreateTable),
        Act::DropTable(table) => Action::OnTable(TableAction::DropTable, table),
        Act::SetConstraints(table, _) => Action::OnTable(TableAction::SetConstraints, table),
        Act::SetVersions(table, _) => Action::OnTable(TableAction::SetVersions, table),
        Act::SetHorizon(table, _) => Action::OnTable(TableAction::SetHorizon, table),
        Act::CreateUser(_) => Action::OnServer(ServerAction::CreateUser),
        Act::DropUser(_) => Action::OnServer(ServerAction::DropUser),
        Act::SetAuths(_, _) => Action::OnServer(ServerAction::SetAuths),
        Act::Grant(_, permission) => Action::Grant(permission),
        Act::Revoke(_, permission) => Action::Revoke(permission),
        Act::Rights(table) => Action::OnTable(TableAction::Rights, table),
        Act::Status(table) => Action::OnTable(TableAction::Status, table),
        Act::Flush(table) => Action::OnTable(TableAction::Flush, table),
        Act::Compact(table, _) => Action::OnTable(TableAction::Compact, table),
        Act::AddSplit(table, _) => Action::OnTable(TableAction::AddSplit, table),
        Act::SplitBySize(table, _, _) => Action::OnTable(TableAction::SplitBySize, table),
        Act::Splits(table) => Action::OnTable(TableAction::Splits, table),
        Act::Save => Action::OnServer(ServerAction::Save),
        Act::Load => Action::OnServer(ServerAction::Load),
        Act::Rotate => Action::OnServer(ServerAction::Rotate),
        Act::Begin(table, _, _) => Action::OnTable(TableAction::Begin, table),
        Act::Install(table, _) => Action::OnTable(TableAction::Install, table),
    }
}

/// The table and the slot of an Install by a slot.
pub fn named_slot(act: &Act) -> Option<(&Name, u64)>
    ensures some { IfSome result (λ named. act.now ≡ Act.Install named.0.now (Given.InSlot named.1)) }
    ensures none { IfNone result (NamesNoSlot act.now) }
{
    match act {
        Act::Install(table, given) => match given {
            Given::InSlot(slot) => Some((table, *slot)),
            Given::ByHand(_) => None,
        },
        _ => None,
    }
}

/// The horizon that the act asks for, 0 where it asks for none.
pub fn horizon_asked(act: &Act) -> i64
    ensures { result ≡ horizon_asked act.now }
{
    match act {
        Act::SetHorizon(_, horizon) => *horizon,
        _ => 0,
    }
}

/// The refusal of the user's event that the policy doesn't admit.
pub fn refusal_of(user: Name, denied: Denial) -> Refusal
    ensures { Some result ≡ denial user (Some denied) }
{
    match denied {
        Denial::UnknownUser => Refusal::UnknownUser(user),
        Denial::NoTable(table) => Refusal::NoTable(table),
        Denial::PermissionDenied(permission) => Refusal::PermissionDenied(permission),
    }
}
