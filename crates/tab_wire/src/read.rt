//! What a frame asks.
ghost use Rattle.std.specs.Prelude.{Some};
ghost use Rattle.tab_codec.specs.Reading.{whole};
ghost use Rattle.tab_text.specs.Gives.{Gives};
ghost use Rattle.tab_wire.specs.Gives.{Asks, bytes_left};
ghost use Rattle.tab_wire.specs.Requests.{create_table_at, set_auths_at, grant_at, revoke_at, set_constraints_at, write_at, open_at, next_at, many_at, close_at, compact_at, add_split_at, set_versions_at, set_horizon_at, fields_at, or_field, request_of};

use crate::counted::{a_list, some_columns, some_ranges};
use crate::parts::{a_permission, an_extent};
use crate::updates::a_mutation;
use crate::{Opcode, Reason, Request};
use std::alloc::Global;
use tab_codec::{
    Fields, a_byte_string, a_constraint_set, a_name, a_number, a_range, a_signed_number, a_time,
    a_version_count,
};
use tab_history::{Act, Scan};
use tab_label::AuthSet;
use tab_text::ParseError;

/// Why no request was read of a frame.
#[derive(Clone, Copy, Debug, PartialEq, Eq)]
pub enum Stop {
    /// The frame asks nothing.
    Bad(Reason),
    /// An allocation failed. Nothing is said of the frame, and reading it again may succeed.
    NoMemory,
}

// Each of these takes the fields of one opcode.
#[tactic(auto, unfolding(crate::specs::Requests::create_table_at))]
fn create_table(fields: &mut Fields) -> Result<Request, ParseError>
    ensures { Gives (λ x. (x, bytes_left fields.new)) result (create_table_at (bytes_left fields.old)) }
{
    let table = a_name(fields)?;
    let time = a_time(fields)?;
    let versions = a_version_count(fields)?;
    Ok(Request::Act(Act::CreateTable(table, time, versions)))
}

#[tactic(auto, unfolding(crate::specs::Requests::set_auths_at))]
fn set_auths(alloc: Global, fields: &mut Fields) -> Result<Request, ParseError>
    ensures { Gives (λ x. (x, bytes_left fields.new)) result (set_auths_at (bytes_left fields.old)) }
{
    let user = a_name(fields)?;
    let auths = AuthSet::new(a_list(alloc, fields)?);
    Ok(Request::Act(Act::SetAuths(user, auths)))
}

#[tactic(auto, unfolding(crate::specs::Requests::grant_at))]
fn grant(fields: &mut Fields) -> Result<Request, ParseError>
    ensures { Gives (λ x. (x, bytes_left fields.new)) result (grant_at (bytes_left fields.old)) }
{
    let user = a_name(fields)?;
    let permission = a_permission(fields)?;
    Ok(Request::Act(Act::Grant(user, permission)))
}

#[tactic(auto, unfolding(crate::specs::Requests::revoke_at))]
fn revoke(fields: &mut Fields) -> Result<Request, ParseError>
    ensures { Gives (λ x. (x, bytes_left fields.new)) result (revoke_at (bytes_left fields.old)) }
{
    let user = a_name(fields)?;
    let permission = a_permission(fields)?;
    Ok(Request::Act(Act::Revoke(user, permission)))
}

#[tactic(auto, unfolding(crate::specs::Requests::set_constraints_at))]
fn set_constraints(alloc: Global, fields: &mut Fields) -> Result<Request, ParseError>
    ensures { Gives (λ x. (x, bytes_left fields.new)) result (set_constraints_at (bytes_left fields.old)) }
{
    let table = a_name(fields)?;
    let constraints = a_constraint_set(alloc, fields)?;
    Ok(Request::Act(Act::SetConstraints(table, constraints)))
}

#[tactic(auto, unfolding(crate::specs::Requests::write_at))]
fn write(alloc: Global, fields: &mut Fields) -> Result<Request, ParseError>
    ensures { Gives (λ x. (x, bytes_left fields.new)) result (write_at (bytes_left fields.old)) }
{
    let table = a_name(fields)?;
    let mutation = a_mutation(alloc, fields)?;
    Ok(Request::Act(Act::Write(table, mutation)))
}

#[tactic(auto, unfolding(crate::specs::Requests::open_at))]
fn open_scan(alloc: Global, fields: &mut Fields) -> Result<Request, ParseError>
    ensures { Gives (λ x. (x, bytes_left fields.new)) result (open_at (bytes_left fields.old)) }
{
    let table = a_name(fields)?;
    let bounds = a_range(alloc, fields)?;
    let columns = some_columns(alloc, fields)?;
    let members = a_list(alloc, fields)?;
    let authorizations = AuthSet::new(members);
    Ok(Request::Act(Act::Open(Scan {
        table,
        bounds,
        columns,
        authorizations,
    })))
}

#[tactic(auto, unfolding(crate::specs::Requests::next_at))]
fn next(fields: &mut Fields) -> Result<Request, ParseError>
    ensures { Gives (λ x. (x, bytes_left fields.new)) result (next_at (bytes_left fields.old)) }
{
    let slot = a_number(fields)?;
    let count = a_number(fields)?;
    Ok(Request::Next { slot, count })
}

#[tactic(auto, unfolding(crate::specs::Requests::many_at))]
fn many(alloc: Global, fields: &mut Fields) -> Result<Request, ParseError>
    ensures { Gives (λ x. (x, bytes_left fields.new)) result (many_at (bytes_left fields.old)) }
{
    let slot = a_number(fields)?;
    let ranges = some_ranges(alloc, fields)?;
    Ok(Request::Many { slot, ranges })
}

#[tactic(auto, unfolding(crate::specs::Requests::close_at))]
fn close(fields: &mut Fields) -> Result<Request, ParseError>
    ensures { Gives (λ x. (x, bytes_left fields.new)) result (close_at (bytes_left fields.old)) }
{
    let slot = a_number(fields)?;
    Ok(Request::Close { slot })
}

#[tactic(auto, unfolding(crate::specs::Requests::compact_at))]
fn compact(fields: &mut Fields) -> Result<Request, ParseError>
    ensures { Gives (λ x. (x, bytes_left fields.new)) result (compact_at (bytes_left fields.old)) }
{
    let table = a_name(fields)?;
    let extent = an_extent(fields)?;
    Ok(Request::Act(Act::Compact(table, extent)))
}

#[tactic(auto, unfolding(crate::specs::Requests::add_split_at))]
fn add_split(alloc: Global, fields: &mut Fields) -> Result<Request, ParseError>
    ensures { Gives (λ x. (x, bytes_left fields.new)) result (add_split_at (bytes_left fields.old)) }
{
    let table = a_name(fields)?;
    let row = a_byte_string(alloc, fields)?;
    Ok(Request::Act(Act::AddSplit(table, row)))
}

#[tactic(auto, unfolding(crate::specs::Requests::set_versions_at))]
fn set_versions(fields: &mut Fields) -> Result<Request, ParseError>
    ensures { Gives (λ x. (x, bytes_left fields.new)) result (set_versions_at (bytes_left fields.old)) }
{
    let table = a_name(fields)?;
    let versions = a_version_count(fields)?;
    Ok(Request::Act(Act::SetVersions(table, versions)))
}

#[tactic(auto, unfolding(crate::specs::Requests::set_horizon_at))]
fn set_horizon(fields: &mut Fields) -> Result<Request, ParseError>
    ensures { Gives (λ x. (x, bytes_left fields.new)) result (set_horizon_at (bytes_left fields.old)) }
{
    let table = a_name(fields)?;
    let horizon = a_signed_number(fields)?;
    Ok(Request::Act(Act::SetHorizon(table, horizon)))
}

// Takes the fields of the opcode.
fn request(alloc: Global, opcode: Opcode, fields: &mut Fields) -> Result<Request, ParseError>
    ensures { Gives (λ x. (x, bytes_left fields.new)) result (fields_at opcode (bytes_left fields.old)) }
{
    match opcode {
        Opcode::Hello => Ok(Request::Hello(a_name(fields)?)),
        Opcode::CreateTable => create_table(fields),
        Opcode::DropTable => Ok(Request::Act(Act::DropTable(a_name(fields)?))),
        Opcode::CreateUser => Ok(Request::Act(Act::CreateUser(a_name(fields)?))),
        Opcode::DropUser => Ok(Request::Act(Act::DropUser(a_name(fields)?))),
        Opcode::SetAuths => set_auths(alloc, fields),
        Opcode::Grant => grant(fields),
        Opcode::Revoke => revoke(fields),
        Opcode::SetConstraints => set_constraints(alloc, fields),
        Opcode::Write => write(alloc, fields),
        Opcode::Open => open_scan(alloc, fields),
        Opcode::Next => next(fields),
        Opcode::Many => many(alloc, fields),
        Opcode::Close => close(fields),
        Opcode::Flush => Ok(Request::Act(Act::Flush(a_name(fields)?))),
        Opcode::Compact => compact(fields),
        Opcode::AddSplit => add_split(alloc, fields),
        Opcode::Splits => Ok(Request::Act(Act::Splits(a_name(fields)?))),
        Opcode::Status => Ok(Request::Act(Act::Status(a_name(fields)?))),
        Opcode::Rights => Ok(Request::Act(Act::Rights(a_name(fields)?))),
        Opcode::SetVersions => set_versions(fields),
        Opcode::SetHorizon => set_horizon(fields),
        Opcode::Rotate => Ok(Request::Act(Act::Rotate)),
    }
}

// No byte may be left.
fn with_nothing_left(request: Request, fields: &Fields) -> Result<Request, Stop>
    ensures { Asks result (or_field (whole (Some (request, bytes_left fields.now)))) }
{
    if fields.left() == 0 {
        Ok(request)
    } else {
        Err(Stop::Bad(Reason::Field))
    }
}

// All bytes behind the opcode, or the one reason that is left.
fn whole_request(alloc: Global, opcode: Opcode, bytes: &[u8]) -> Result<Request, Stop>
    ensures { Asks result (or_field (whole (fields_at opcode bytes.now))) }
{
    let mut fields = Fields::of(bytes);
    match request(alloc, opcode, &mut fields) {
        Ok(request) => with_nothing_left(request, &fields),
        Err(ParseError::Malformed) => Err(Stop::Bad(Reason::Field)),
        Err(ParseError::NoMemory) => Err(Stop::NoMemory),
    }
}

/// What a frame asks, after Hello or before it. The bytes are those of one frame, without its length.
///
/// `Err(Bad)` tells the first reason that there is: an unknown opcode, then the order, then the fields. A frame without bytes is
/// `Empty`. `Err(NoMemory)` where an allocation failed: then nothing is said of the frame. No memory is taken for a count that the rest
/// of the frame can't hold, and nothing is kept after an error.
#[tactic(auto, unfolding(crate::specs::Requests::request_of))]
pub fn read_request(alloc: Global, greeted: bool, frame: &[u8]) -> Result<Request, Stop>
    ensures { Asks result (request_of greeted frame.now) }
{
    let [byte, fields @ ..] = frame else {
        return Err(Stop::Bad(Reason::Empty));
    };
    let Some(opcode) = Opcode::from_byte(*byte) else {
        return Err(Stop::Bad(Reason::Opcode));
    };
    if !opcode.is_in_turn(greeted) {
        return Err(Stop::Bad(Reason::Order));
    }
    whole_request(alloc, opcode, fields)
}
