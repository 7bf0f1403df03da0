//! What the frames of replies tell, read.
ghost use Rattle.tab_codec.specs.Reading.{u8_at, picked, tagged};
ghost use Rattle.tab_text.specs.Gives.{Gives};
ghost use Rattle.tab_wire.specs.Gives.{bytes_left};
ghost use Rattle.tab_wire.specs.Tells.{part_of, reason_of, split_fault_of, constraint_of, end_of, table_of, violation_at, malformed_at, horizon_by, refusal_by, refused_at, cell_at, counts_at, rights_at, told_by, told_in};

use crate::counted::{a_list, some_violations};
use crate::parts::a_permission;
use crate::reason::Reason;
use std::alloc::Global;
use tab_codec::{
    Fields, a_byte, a_byte_string, a_field, a_long_number, a_name, a_number, a_signed_number,
    system_in, table_in,
};
use tab_history::{Counts, Refusal, Rights, SplitFault};
use tab_key::{ByteString, Key, Kind, LimitedPart, Record};
use tab_label::AuthSet;
use tab_policy::TablePermissions;
use tab_rules::{Constraint, Violation};
use tab_text::ParseError;

/// What one frame of a reply tells.
#[derive(Drop)]
pub enum ReplyFrame {
    /// The request was done.
    Done,
    /// It was refused.
    Refused(Refusal),
    /// Its frame asked nothing, for this reason.
    BadFrame(Reason),
    /// A cell, as a put.
    Cell(Record),
    /// The end of a list.
    End,
    /// A session was opened, and has this number.
    Opened(u32),
    /// An end row.
    Row(ByteString),
    /// The end of the cells of one range.
    RangeEnd,
    /// What a table's tablets hold.
    Counted(Counts),
    /// What the asker may do and holds.
    Rights(Rights),
}

/// What the frame tells; the bytes are those of one frame, without its length. `Field` where no reply has such a frame.
#[tactic(auto, unfolding(crate::specs::Tells::told_in))]
pub fn read_told(alloc: Global, frame: &[u8]) -> Result<ReplyFrame, ParseError>
    ensures { Gives (λ x. x) result (told_in frame.now) }
{
    let mut fields = Fields::of(frame);
    let told = opcode_and_fields(alloc, &mut fields)?;
    if fields.left() > 0 {
        return Err(ParseError::Malformed);
    }
    Ok(told)
}

// Takes an opcode, and its fields.
fn opcode_and_fields(alloc: Global, fields: &mut Fields) -> Result<ReplyFrame, ParseError>
    ensures { Gives (λ x. (x, bytes_left fields.new)) result (tagged told_by (bytes_left fields.old)) }
{
    match a_byte(fields)? {
        0x80 => Ok(ReplyFrame::Done),
        0x81 => a_refused(alloc, fields),
        0x82 => Ok(ReplyFrame::Cell(a_cell(alloc, fields)?)),
        0x83 => an_end(fields),
        0x84 => Ok(ReplyFrame::Opened(a_number(fields)?)),
        0x85 => Ok(ReplyFrame::Row(a_byte_string(alloc, fields)?)),
        0x86 => Ok(ReplyFrame::RangeEnd),
        0x87 => Ok(ReplyFrame::Counted(some_counts(fields)?)),
        0x88 => Ok(ReplyFrame::Rights(some_rights(alloc, fields)?)),
        _ => Err(ParseError::Malformed),
    }
}

// Takes the byte of an end.
fn an_end(fields: &mut Fields) -> Result<ReplyFrame, ParseError>
    ensures { Gives (λ x. (x, bytes_left fields.new)) result (picked end_of u8_at (bytes_left fields.old)) }
{
    match a_byte(fields)? {
        0 | 1 => Ok(ReplyFrame::End),
        _ => Err(ParseError::Malformed),
    }
}

#[tactic(auto, unfolding(crate::specs::Tells::cell_at))]
fn a_cell(alloc: Global, fields: &mut Fields) -> Result<Record, ParseError>
    ensures { Gives (λ x. (x, bytes_left fields.new)) result (cell_at (bytes_left fields.old)) }
{
    let row = a_field(fields)?;
    let family = a_field(fields)?;
    let qualifier = a_field(fields)?;
    let label = a_field(fields)?;
    let timestamp = a_signed_number(fields)?;
    let value = a_field(fields)?;
    let key = Key {
        row,
        family,
        qualifier,
        label,
        timestamp,
    };
    match Record::new(alloc, key, Kind::Put, value, 0, 0)? {
        Some(record) => Ok(record),
        None => Err(ParseError::Malformed),
    }
}

#[tactic(auto, unfolding(crate::specs::Tells::counts_at))]
fn some_counts(fields: &mut Fields) -> Result<Counts, ParseError>
    ensures { Gives (λ x. (x, bytes_left fields.new)) result (counts_at (bytes_left fields.old)) }
{
    let tablets = a_long_number(fields)?;
    let sources = a_long_number(fields)?;
    let records = a_long_number(fields)?;
    Ok(Counts {
        tablets,
        sources,
        records,
    })
}

#[tactic(auto, unfolding(crate::specs::Tells::rights_at))]
fn some_rights(alloc: Global, fields: &mut Fields) -> Result<Rights, ParseError>
    ensures { Gives (λ x. (x, bytes_left fields.new)) result (rights_at (bytes_left fields.old)) }
{
    let system = system_in(a_byte(fields)?);
    let table = some_table_rights(fields)?;
    let authorizations = AuthSet::new(a_list(alloc, fields)?);
    Ok(Rights {
        system,
        table,
        authorizations,
    })
}

fn some_table_rights(fields: &mut Fields) -> Result<TablePermissions, ParseError>
    ensures { Gives (λ x. (x, bytes_left fields.new)) result (picked table_of u8_at (bytes_left fields.old)) }
{
    let bits = a_byte(fields)?;
    if bits < 32 {
        Ok(table_in(bits))
    } else {
        Err(ParseError::Malformed)
    }
}

// Takes the number of a refusal, and what it tells.
#[tactic(auto, unfolding(crate::specs::Tells::refused_at))]
fn a_refused(alloc: Global, fields: &mut Fields) -> Result<ReplyFrame, ParseError>
    ensures { Gives (λ x. (x, bytes_left fields.new)) result (refused_at (bytes_left fields.old)) }
{
    let number = a_byte(fields)?;
    if number == 16 {
        return Ok(ReplyFrame::BadFrame(a_reason(fields)?));
    }
    Ok(ReplyFrame::Refused(a_refusal(alloc, number, fields)?))
}

// Takes what goes with the number of a refusal.
fn a_refusal(alloc: Global, number: u8, fields: &mut Fields) -> Result<Refusal, ParseError>
    ensures { Gives (λ x. (x, bytes_left fields.new)) result (refusal_by number (bytes_left fields.old)) }
{
    match number {
        1 => Ok(Refusal::UnknownUser(a_name(fields)?)),
        2 => Ok(Refusal::NoTable(a_name(fields)?)),
        3 => Ok(Refusal::PermissionDenied(a_permission(fields)?)),
        4 => Ok(Refusal::BadAuthorizations(a_byte_string(alloc, fields)?)),
        5 => a_malformed_visibility(fields),
        6 => Ok(Refusal::ConstraintViolation(some_violations(alloc, fields)?)),
        7 => Ok(Refusal::TimestampNotAllowed(a_number(fields)?)),
        8 => Ok(Refusal::EmptyMutation),
        9 => Ok(Refusal::TooLarge(a_part(fields)?)),
        10 => Ok(Refusal::TableExists(a_name(fields)?)),
        11 => Ok(Refusal::UserExists(a_name(fields)?)),
        12 => Ok(Refusal::NoUser(a_name(fields)?)),
        13 => Ok(Refusal::BadRange),
        14 => Ok(Refusal::Stale(a_long_number(fields)?)),
        15 => Ok(Refusal::NoSession(a_number(fields)?)),
        17 => Ok(Refusal::NoMemory),
        18 => Ok(Refusal::RootFixed),
        19 => Ok(Refusal::GrantInvalid),
        20 => Ok(Refusal::BadSplit(a_split_fault(fields)?)),
        21 => Ok(Refusal::VersionsRaised(a_number(fields)?)),
        22 => a_refusal_by_horizon(fields),
        _ => Err(ParseError::Malformed),
    }
}

#[tactic(auto, unfolding(crate::specs::Tells::malformed_at))]
fn a_malformed_visibility(fields: &mut Fields) -> Result<Refusal, ParseError>
    ensures { Gives (λ x. (x, bytes_left fields.new)) result (malformed_at (bytes_left fields.old)) }
{
    let update = a_number(fields)?;
    let offset = a_number(fields)?;
    Ok(Refusal::MalformedVisibility(update, offset))
}

fn a_refusal_by_horizon(fields: &mut Fields) -> Result<Refusal, ParseError>
    ensures { Gives (λ x. (x, bytes_left fields.new)) result (tagged horizon_by (bytes_left fields.old)) }
{
    match a_byte(fields)? {
        0 => Ok(Refusal::HorizonLowered(a_signed_number(fields)?)),
        1 => Ok(Refusal::BelowHorizon(a_number(fields)?)),
        2 => Ok(Refusal::ServerTime),
        _ => Err(ParseError::Malformed),
    }
}

/// Takes what fails: a constraint's number, the code, and the update.
#[tactic(auto, unfolding(crate::specs::Tells::violation_at))]
pub fn a_violation(fields: &mut Fields) -> Result<Violation, ParseError>
    ensures { Gives (λ x. (x, bytes_left fields.new)) result (violation_at (bytes_left fields.old)) }
{
    let constraint = a_constraint(fields)?;
    let code = a_byte(fields)?;
    let update = a_number(fields)?;
    Ok(Violation {
        constraint,
        code,
        update,
    })
}

fn a_constraint(fields: &mut Fields) -> Result<Constraint, ParseError>
    ensures { Gives (λ x. (x, bytes_left fields.new)) result (picked constraint_of u8_at (bytes_left fields.old)) }
{
    match a_byte(fields)? {
        1 => Ok(Constraint::KeySize),
        2 => Ok(Constraint::Alphanumeric),
        3 => Ok(Constraint::Numeric),
        4 => Ok(Constraint::Visibility),
        _ => Err(ParseError::Malformed),
    }
}

fn a_part(fields: &mut Fields) -> Result<LimitedPart, ParseError>
    ensures { Gives (λ x. (x, bytes_left fields.new)) result (picked part_of u8_at (bytes_left fields.old)) }
{
    match a_byte(fields)? {
        1 => Ok(LimitedPart::Updates),
        2 => Ok(LimitedPart::Row),
        3 => Ok(LimitedPart::Family),
        4 => Ok(LimitedPart::Qualifier),
        5 => Ok(LimitedPart::Label),
        6 => Ok(LimitedPart::Value),
        7 => Ok(LimitedPart::Columns),
        8 => Ok(LimitedPart::Authorizations),
        9 => Ok(LimitedPart::Ranges),
        10 => Ok(LimitedPart::Sessions),
        11 => Ok(LimitedPart::Numbers),
        _ => Err(ParseError::Malformed),
    }
}

fn a_reason(fields: &mut Fields) -> Result<Reason, ParseError>
    ensures { Gives (λ x. (x, bytes_left fields.new)) result (picked reason_of u8_at (bytes_left fields.old)) }
{
    match a_byte(fields)? {
        1 => Ok(Reason::Empty),
        2 => Ok(Reason::TooLong),
        3 => Ok(Reason::Cut),
        4 => Ok(Reason::Opcode),
        5 => Ok(Reason::Field),
        6 => Ok(Reason::Order),
        _ => Err(ParseError::Malformed),
    }
}

fn a_split_fault(fields: &mut Fields) -> Result<SplitFault, ParseError>
    ensures { Gives (λ x. (x, bytes_left fields.new)) result (picked split_fault_of u8_at (bytes_left fields.old)) }
{
    match a_byte(fields)? {
        0 => Ok(SplitFault::Present),
        1 => Ok(SplitFault::Small),
        2 => Ok(SplitFault::OneRow),
        _ => Err(ParseError::Malformed),
    }
}
