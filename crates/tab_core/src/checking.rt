//! The checks that are an event's own, and those of a request for ranges.
ghost use Rattle.std.specs.Prelude.{◌≡◌, ◌⊎◌, Some, IfOk};
ghost use Rattle.std.specs.Result.{result_err};
ghost use Rattle.tab_mutation.specs.Shape.{first_some};
ghost use Rattle.tab_history.specs.Checks.{stamped, outdated, violated, mutation_checks, scan_checks, too_many_auths, shape_refusal, right_checks, version_checks, horizon_checks, many_checks, has_bad_range};

use crate::labels::malformed;
use std::alloc::{AllocError, Global};
use tab_history::{Refusal, Scan, TimeMode, Versions};
use tab_key::{
    Bounds, ByteString, Items, LimitedPart, MAX_AUTHORIZATION_LEN, MAX_AUTHORIZATIONS, MAX_COLUMNS,
    MAX_RANGES, Name, is_bad_range,
};
use tab_label::{AuthSet, KnownLabels};
use tab_mutation::{Mutation, ShapeError, Shaped};
use tab_policy::{Permission, SystemPermission, is_root};
use tab_rules::{Violation, check};
use tab_store::Table;

fn shape_refusal(error: ShapeError) -> Refusal
    ensures { result ≡ shape_refusal error }
{
    match error {
        ShapeError::Empty => Refusal::EmptyMutation,
        ShapeError::TooLarge(part) => Refusal::TooLarge(part),
    }
}

// The first update with a timestamp, where the table gives them.
#[tactic(auto, unfolding(tab_history::specs::Checks::stamped), using(tab_mutation::proofs::Shapes::shaped_few))]
fn stamped(table: &Table, mutation: &Shaped<'_>) -> Option<Refusal>
    ensures { result ≡ stamped table.now.settings mutation.now }
{
    if table.time() == TimeMode::Any {
        return None;
    }
    mutation.keeps();
    for index in 0..mutation.len() {
        if mutation.update(index).timestamp().is_some() {
            return Some(Refusal::TimestampNotAllowed(index as u32));
        }
    }
    None
}

// The first update below the table's horizon.
#[tactic(auto, unfolding(tab_history::specs::Checks::outdated), using(tab_mutation::proofs::Shapes::shaped_few))]
fn outdated(table: &Table, now: i64, mutation: &Shaped<'_>) -> Option<Refusal>
    ensures { result ≡ outdated table.now.settings now mutation.now }
{
    let horizon = table.horizon();
    mutation.keeps();
    for index in 0..mutation.len() {
        if mutation.update(index).timestamp().unwrap_or(now) < horizon {
            return Some(Refusal::BelowHorizon(index as u32));
        }
    }
    None
}

fn violated(failing: Items<Violation>) -> Option<Refusal>
    ensures { result ≡ violated failing }
{
    if failing.is_empty() {
        None
    } else {
        Some(Refusal::ConstraintViolation(failing))
    }
}

/// The mutation, lent as one whose shape was accepted, where nothing of this table refuses it of a caller with these authorizations. Short
/// labels that are found to be labels are known afterwards.
///
/// # Errors
///
/// Why it is refused, or that memory lacked.
pub fn checked<'a>(
    alloc: Global,
    table: &Table,
    auths: &AuthSet,
    known: &mut KnownLabels,
    now: i64,
    mutation: &'a Mutation,
) -> Result<Shaped<'a>, Refusal>
    ensures answers { (result_err result ≡ first_some (mutation_checks (Some table.now.settings) auths.now now mutation.now)) ⊎ (result_err result ≡ Some Refusal.NoMemory) }
    ensures same { IfOk result (λ s. s ≡ mutation.now) }
{
    let shaped = mutation.shaped().map_err(shape_refusal)?;
    if let Some(refusal) = malformed(&shaped, auths, known) {
        return Err(refusal);
    }
    if let Some(refusal) = stamped(table, &shaped) {
        return Err(refusal);
    }
    if let Some(refusal) = outdated(table, now, &shaped) {
        return Err(refusal);
    }
    match check(alloc, table.constraints(), &shaped, auths) {
        Ok(failing) => match violated(failing) {
            Some(refusal) => Err(refusal),
            None => Ok(shaped),
        },
        Err(AllocError) => Err(Refusal::NoMemory),
    }
}

/// Why the table isn't set to show so many versions.
pub fn versions_refusal(table: &Table, versions: Versions) -> Option<Refusal>
    ensures { result ≡ first_some (version_checks (Some table.now.settings) versions) }
{
    let shown = table.versions().get();
    if versions.get() > shown {
        return Some(Refusal::VersionsRaised(shown));
    }
    None
}

/// Why the table isn't set to this horizon.
pub fn horizon_refusal(table: &Table, horizon: i64) -> Option<Refusal>
    ensures { result ≡ first_some (horizon_checks (Some table.now.settings) horizon) }
{
    if table.time() == TimeMode::Server {
        return Some(Refusal::ServerTime);
    }
    let present = table.horizon();
    if horizon < present {
        return Some(Refusal::HorizonLowered(present));
    }
    None
}

/// Whether there are over 1,024 authorizations, or one of over 1,024 bytes.
pub fn too_many_auths(auths: &AuthSet) -> bool
    ensures { result ≡ too_many_auths auths.now }
{
    auths.len() > MAX_AUTHORIZATIONS || auths.has_longer(MAX_AUTHORIZATION_LEN)
}

/// Why a scan by a caller with these authorizations is refused, or that memory lacked.
pub fn scan_refusal(alloc: Global, held: &AuthSet, scan: &Scan) -> Option<Refusal>
    ensures { (result ≡ first_some (scan_checks held.now scan.now)) ⊎ (result ≡ Some Refusal.NoMemory) }
{
    if scan.columns.len() > MAX_COLUMNS {
        return Some(Refusal::TooLarge(LimitedPart::Columns));
    }
    if too_many_auths(&scan.authorizations) {
        return Some(Refusal::TooLarge(LimitedPart::Authorizations));
    }
    if is_bad_range(&scan.bounds.low, &scan.bounds.high) {
        return Some(Refusal::BadRange);
    }
    match scan.authorizations.first_missing(held) {
        None => None,
        Some(term) => match ByteString::from_slice(alloc, term) {
            Ok(term) => Some(Refusal::BadAuthorizations(term)),
            Err(AllocError) => Some(Refusal::NoMemory),
        },
    }
}

/// Why a request for the ranges is refused.
pub fn ranges_refusal(ranges: &[Bounds]) -> Option<Refusal>
    ensures { result ≡ first_some (many_checks ranges.now) }
{
    if ranges.len() > MAX_RANGES {
        return Some(Refusal::TooLarge(LimitedPart::Ranges));
    }
    if has_bad_range(ranges) {
        return Some(Refusal::BadRange);
    }
    None
}

// Whether some of the bounds leave no range.
fn has_bad_range(ranges: &[Bounds]) -> bool
    ensures { result ≡ has_bad_range ranges.now }
{
    ranges.iter().any(|rows| rows.is_bad())
}

/// Why granting the permission to the user, or revoking it from him, is refused; `known` says whether he exists.
pub fn right_refusal(known: bool, user: Name, permission: &Permission) -> Option<Refusal>
    ensures { result ≡ first_some (right_checks known user permission.now) }
{
    let fixed = match permission {
        Permission::OfSystem(SystemPermission::Grant) => return Some(Refusal::GrantInvalid),
        Permission::OfSystem(_) => is_root(&user),
        Permission::OfTable(_, _) => false,
    };
    if !known {
        Some(Refusal::NoUser(user))
    } else if fixed {
        Some(Refusal::RootFixed)
    } else {
        None
    }
}
