//! The frames of refusals.
#![tactic(auto, using(tab_io::proofs::Putting::putting))]

ghost use Rattle.std.specs.Prelude.{◌≡◌, ◌%◌, ◌^◌, [], ◌∷◌, ◌++◌, length};
ghost use Rattle.std.specs.List.{flat_map};
ghost use Rattle.tab_io.specs.Writing.{Puts};
ghost use Rattle.tab_policy.specs.Permissions.{system_place, table_place};
ghost use Rattle.tab_wire.specs.Replies as sent;
ghost use Rattle.tab_wire.specs.Replies.{u32, u64, i64, field, frame, part_number, reason_number, split_number, permission_bytes, violation_bytes, refusal_bytes, sent_bytes};

use crate::Reason;
use crate::value::{Value, put_frame};
use tab_codec::low;
use tab_history::{Refusal, SplitFault};
use tab_io::{Output, WriteFault};
use tab_key::LimitedPart;
use tab_policy::{Permission, SystemPermission, TablePermission};
use tab_rules::Violation;

// The opcode of a refusal.
const REFUSED: u8 = 0x81;

/// Writes the frame of a refusal: its number, and what it tells. It takes no memory.
pub fn put_refusal<W: Output>(output: &mut W, refusal: &Refusal) -> Result<(), WriteFault>
    ensures { Puts W.Output output.old output.new (frame (129 ∷ refusal_bytes refusal.now)) result }
{
    match refusal {
        Refusal::UnknownUser(user) => put_text(output, 1, user.as_bytes()),
        Refusal::NoTable(table) => put_text(output, 2, table.as_bytes()),
        Refusal::PermissionDenied(permission) => put_denied(output, permission),
        Refusal::BadAuthorizations(term) => put_text(output, 4, term.as_bytes()),
        Refusal::MalformedVisibility(update, offset) => put_malformed(output, *update, *offset),
        Refusal::ConstraintViolation(violations) => put_violated(output, violations.as_slice()),
        Refusal::TimestampNotAllowed(update) => put_told(output, 7, *update),
        Refusal::EmptyMutation => put_bare(output, 8),
        Refusal::TooLarge(part) => put_code(output, 9, part_number(*part)),
        Refusal::TableExists(table) => put_text(output, 10, table.as_bytes()),
        Refusal::UserExists(user) => put_text(output, 11, user.as_bytes()),
        Refusal::NoUser(user) => put_text(output, 12, user.as_bytes()),
        Refusal::BadRange => put_bare(output, 13),
        Refusal::Stale(count) => put_stale(output, *count),
        Refusal::NoSession(slot) => put_told(output, 15, *slot),
        Refusal::NoJob(slot) => put_no_job(output, *slot),
        Refusal::NoMemory => put_bare(output, 17),
        Refusal::RootFixed => put_bare(output, 18),
        Refusal::GrantInvalid => put_bare(output, 19),
        Refusal::BadSplit(fault) => put_code(output, 20, split_number(*fault)),
        Refusal::VersionsRaised(present) => put_told(output, 21, *present),
        Refusal::HorizonLowered(present) => put_lowered(output, *present),
        Refusal::BelowHorizon(update) => put_below(output, *update),
        Refusal::ServerTime => put_code(output, 22, 2),
    }
}

/// Writes the frame that tells why a frame asks nothing. It takes no memory.
pub fn write_bad_frame<W: Output>(output: &mut W, reason: Reason) -> Result<(), WriteFault>
    ensures { Puts W.Output output.old output.new (sent_bytes (sent.BadFrame reason)) result }
{
    put_code(output, 16, reason_number(reason))
}

// A refusal that tells nothing else.
fn put_bare<W: Output>(output: &mut W, number: u8) -> Result<(), WriteFault>
    ensures { Puts W.Output output.old output.new (frame (129 ∷ number ∷ [])) result }
{
    put_frame(output, &[Value::Byte(REFUSED), Value::Byte(number)])
}

// A refusal that tells one byte.
fn put_code<W: Output>(output: &mut W, number: u8, code: u8) -> Result<(), WriteFault>
    ensures { Puts W.Output output.old output.new (frame (129 ∷ number ∷ code ∷ [])) result }
{
    put_frame(
        output,
        &[Value::Byte(REFUSED), Value::Byte(number), Value::Byte(code)],
    )
}

// A refusal that tells a number.
fn put_told<W: Output>(output: &mut W, number: u8, told: u32) -> Result<(), WriteFault>
    ensures { Puts W.Output output.old output.new (frame (129 ∷ number ∷ u32 told)) result }
{
    put_frame(
        output,
        &[
            Value::Byte(REFUSED),
            Value::Byte(number),
            Value::Number(told),
        ],
    )
}

fn put_stale<W: Output>(output: &mut W, count: u64) -> Result<(), WriteFault>
    ensures { Puts W.Output output.old output.new (frame (129 ∷ 14 ∷ u64 count)) result }
{
    put_frame(
        output,
        &[Value::Byte(REFUSED), Value::Byte(14), Value::Long(count)],
    )
}

// What four bytes hold of the job's number: no connection is told of one.
fn put_no_job<W: Output>(output: &mut W, slot: u64) -> Result<(), WriteFault>
    ensures { Puts W.Output output.old output.new (frame (129 ∷ 15 ∷ u32 (slot % 2 ^ 32))) result }
{
    let slot = low(slot as usize);
    put_told(output, 15, slot)
}

// A refusal that tells a name or a term.
fn put_text<W: Output>(output: &mut W, number: u8, text: &[u8]) -> Result<(), WriteFault>
    ensures { Puts W.Output output.old output.new (frame (129 ∷ number ∷ field text.now)) result }
{
    put_frame(
        output,
        &[
            Value::Byte(REFUSED),
            Value::Byte(number),
            Value::Field(text),
        ],
    )
}

fn put_malformed<W: Output>(output: &mut W, update: u32, offset: u32) -> Result<(), WriteFault>
    ensures { Puts W.Output output.old output.new (frame (129 ∷ 5 ∷ (u32 update ++ u32 offset))) result }
{
    put_frame(
        output,
        &[
            Value::Byte(REFUSED),
            Value::Byte(5),
            Value::Number(update),
            Value::Number(offset),
        ],
    )
}

fn put_violated<W: Output>(output: &mut W, violations: &[Violation]) -> Result<(), WriteFault>
    ensures { Puts W.Output output.old output.new (frame (129 ∷ 6 ∷ (u32 (length violations.now) ++ flat_map violation_bytes violations.now))) result }
{
    put_frame(
        output,
        &[
            Value::Byte(REFUSED),
            Value::Byte(6),
            Value::Violations(violations),
        ],
    )
}

fn put_lowered<W: Output>(output: &mut W, present: i64) -> Result<(), WriteFault>
    ensures { Puts W.Output output.old output.new (frame (129 ∷ 22 ∷ 0 ∷ i64 present)) result }
{
    put_frame(
        output,
        &[
            Value::Byte(REFUSED),
            Value::Byte(22),
            Value::Byte(0),
            Value::Signed(present),
        ],
    )
}

fn put_below<W: Output>(output: &mut W, update: u32) -> Result<(), WriteFault>
    ensures { Puts W.Output output.old output.new (frame (129 ∷ 22 ∷ 1 ∷ u32 update)) result }
{
    put_frame(
        output,
        &[
            Value::Byte(REFUSED),
            Value::Byte(22),
            Value::Byte(1),
            Value::Number(update),
        ],
    )
}

fn put_denied<W: Output>(output: &mut W, permission: &Permission) -> Result<(), WriteFault>
    ensures { Puts W.Output output.old output.new (frame (129 ∷ 3 ∷ permission_bytes permission.now)) result }
{
    match permission {
        Permission::OfSystem(permission) => put_system(output, *permission),
        Permission::OfTable(permission, table) => put_table(output, *permission, table.as_bytes()),
    }
}

fn put_system<W: Output>(output: &mut W, permission: SystemPermission) -> Result<(), WriteFault>
    ensures { Puts W.Output output.old output.new (frame (129 ∷ 3 ∷ 0 ∷ system_place permission ∷ [])) result }
{
    let place = system_place(permission);
    put_frame(
        output,
        &[
            Value::Byte(REFUSED),
            Value::Byte(3),
            Value::Byte(0),
            Value::Byte(place),
        ],
    )
}

fn put_table<W: Output>(
    output: &mut W,
    permission: TablePermission,
    table: &[u8],
) -> Result<(), WriteFault>
    ensures { Puts W.Output output.old output.new (frame (129 ∷ 3 ∷ 1 ∷ table_place permission ∷ field table.now)) result }
{
    let place = table_place(permission);
    put_frame(
        output,
        &[
            Value::Byte(REFUSED),
            Value::Byte(3),
            Value::Byte(1),
            Value::Byte(place),
            Value::Field(table),
        ],
    )
}

/// The place of the permission among all of its kind, counted from 0.
pub fn system_place(permission: SystemPermission) -> u8
    ensures { result ≡ system_place permission }
{
    match permission {
        SystemPermission::Grant => 0,
        SystemPermission::CreateTable => 1,
        SystemPermission::DropTable => 2,
        SystemPermission::AlterTable => 3,
        SystemPermission::CreateUser => 4,
        SystemPermission::DropUser => 5,
        SystemPermission::AlterUser => 6,
        SystemPermission::System => 7,
    }
}

/// The place of the permission among all of its kind, counted from 0.
pub fn table_place(permission: TablePermission) -> u8
    ensures { result ≡ table_place permission }
{
    match permission {
        TablePermission::Read => 0,
        TablePermission::Write => 1,
        TablePermission::AlterTable => 2,
        TablePermission::Grant => 3,
        TablePermission::DropTable => 4,
    }
}

fn part_number(part: LimitedPart) -> u8
    ensures { result ≡ part_number part }
{
    match part {
        LimitedPart::Updates => 1,
        LimitedPart::Row => 2,
        LimitedPart::Family => 3,
        LimitedPart::Qualifier => 4,
        LimitedPart::Label => 5,
        LimitedPart::Value => 6,
        LimitedPart::Columns => 7,
        LimitedPart::Authorizations => 8,
        LimitedPart::Ranges => 9,
        LimitedPart::Sessions => 10,
        LimitedPart::Numbers => 11,
    }
}

fn split_number(fault: SplitFault) -> u8
    ensures { result ≡ split_number fault }
{
    match fault {
        SplitFault::Present => 0,
        SplitFault::Small => 1,
        SplitFault::OneRow => 2,
    }
}

fn reason_number(reason: Reason) -> u8
    ensures { result ≡ reason_number reason }
{
    match reason {
        Reason::Empty => 1,
        Reason::TooLong => 2,
        Reason::Cut => 3,
        Reason::Opcode => 4,
        Reason::Field => 5,
        Reason::Order => 6,
    }
}
