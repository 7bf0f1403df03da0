//! The bytes of requests, put as a client sends them.
#![tactic(auto, using(tab_io::proofs::Putting::putting))]

ghost use Rattle.std.specs.Prelude.{◌≡◌, [], ◌∷◌, ◌++◌};
ghost use Rattle.std.specs.List.{flat_map};
ghost use Rattle.tab_io.specs.Writing.{Puts};
ghost use Rattle.tab_codec.specs.Parts.{constraint_bits, time_byte};
ghost use Rattle.tab_policy.specs.Permissions.{system_place, table_place};
ghost use Rattle.tab_wire.specs.FrameParts.{extent_byte};
ghost use Rattle.tab_wire.specs.Replies.{u32, i64, field, list, permission_bytes};
ghost use Rattle.tab_wire.specs.Sending.{act_bytes, request_bytes, scan_bytes, bounds_bytes, column_bytes, mutation_bytes, counted};

use crate::Request;
use crate::asking::{put_bounds, put_column, put_updates};
use crate::refusal::{system_place, table_place};
use crate::value::{Value, put_terms, put_values};
use tab_codec::{constraint_bits, put_field, put_length, put_number, time_byte};
use tab_history::{Act, Extent, Scan, TimeMode};
use tab_io::{Output, WriteFault, put_byte};
use tab_key::{Bounds, Column};
use tab_label::AuthSet;
use tab_mutation::Mutation;
use tab_policy::{Permission, SystemPermission, TablePermission};
use tab_text::{PutItem, put_each};

/// Puts the bytes of a request: its opcode and its fields, without the length of the frame. Nothing is put of a split by size, of a
/// compaction in three parts, of a save or of a load, which no frame asks.
pub fn put_request<W: Output>(output: &mut W, request: &Request) -> Result<(), WriteFault>
    ensures { Puts W.Output output.old output.new (request_bytes request.now) result }
{
    match request {
        Request::Hello(user) => put_named(output, 0x01, user.as_bytes()),
        Request::Act(act) => put_act(output, act),
        Request::Next { slot, count } => put_two(output, 0x0c, *slot, *count),
        Request::Many { slot, ranges } => put_many(output, *slot, ranges.as_slice()),
        Request::Close { slot } => put_numbered(output, 0x0e, *slot),
    }
}

/// Puts the body of the frame that asks the act. Nothing is put of a split by size, of a compaction in three parts, of a save or of a load.
pub fn put_act<W: Output>(output: &mut W, act: &Act) -> Result<(), WriteFault>
    ensures { Puts W.Output output.old output.new (act_bytes act.now) result }
{
    match act {
        Act::Open(scan) => put_open(output, scan),
        Act::Write(table, mutation) => put_write(output, table.as_bytes(), mutation),
        Act::CreateTable(table, time, versions) => {
            put_create(output, table.as_bytes(), *time, versions.get())
        }
        Act::DropTable(table) => put_named(output, 0x03, table.as_bytes()),
        Act::SetConstraints(table, constraints) => {
            put_marked(output, 0x09, table.as_bytes(), constraint_bits(constraints))
        }
        Act::SetVersions(table, versions) => put_versions(output, table.as_bytes(), versions.get()),
        Act::SetHorizon(table, horizon) => put_horizon(output, table.as_bytes(), *horizon),
        Act::CreateUser(user) => put_named(output, 0x04, user.as_bytes()),
        Act::DropUser(user) => put_named(output, 0x05, user.as_bytes()),
        Act::SetAuths(user, auths) => put_auths(output, user.as_bytes(), auths),
        Act::Grant(user, permission) => put_right(output, 0x07, user.as_bytes(), permission),
        Act::Revoke(user, permission) => put_right(output, 0x08, user.as_bytes(), permission),
        Act::Rights(table) => put_named(output, 0x14, table.as_bytes()),
        Act::Status(table) => put_named(output, 0x13, table.as_bytes()),
        Act::Flush(table) => put_named(output, 0x0f, table.as_bytes()),
        Act::Compact(table, extent) => {
            put_marked(output, 0x10, table.as_bytes(), extent_byte(*extent))
        }
        Act::AddSplit(table, row) => put_row(output, table.as_bytes(), row.as_bytes()),
        Act::Splits(table) => put_named(output, 0x12, table.as_bytes()),
        Act::Rotate => put_byte(output, 0x17),
        Act::SplitBySize(..) | Act::Save | Act::Load | Act::Begin(..) | Act::Install(..) => {
            output.put(b"")
        }
    }
}

// Puts an opcode and a name.
fn put_named<W: Output>(output: &mut W, opcode: u8, name: &[u8]) -> Result<(), WriteFault>
    ensures { Puts W.Output output.old output.new (opcode ∷ field name.now) result }
{
    put_byte(output, opcode)?;
    put_field(output, name)
}

// Puts an opcode, a name and a byte.
fn put_marked<W: Output>(
    output: &mut W,
    opcode: u8,
    name: &[u8],
    mark: u8,
) -> Result<(), WriteFault>
    ensures { Puts W.Output output.old output.new (opcode ∷ (field name.now ++ mark ∷ [])) result }
{
    put_values(
        output,
        &[Value::Byte(opcode), Value::Field(name), Value::Byte(mark)],
    )
}

// An opcode and a number.
fn put_numbered<W: Output>(output: &mut W, opcode: u8, number: u32) -> Result<(), WriteFault>
    ensures { Puts W.Output output.old output.new (opcode ∷ u32 number) result }
{
    put_byte(output, opcode)?;
    put_number(output, number)
}

// An opcode and two numbers.
fn put_two<W: Output>(output: &mut W, opcode: u8, number: u32, other: u32) -> Result<(), WriteFault>
    ensures { Puts W.Output output.old output.new (opcode ∷ (u32 number ++ u32 other)) result }
{
    put_values(
        output,
        &[
            Value::Byte(opcode),
            Value::Number(number),
            Value::Number(other),
        ],
    )
}

// Puts what asks that a tablet of the table be split at a row.
fn put_row<'a, W: Output>(output: &mut W, table: &'a [u8], row: &'a [u8]) -> Result<(), WriteFault>
    ensures { Puts W.Output output.old output.new (17 ∷ (field table.now ++ field row.now)) result }
{
    put_values(
        output,
        &[Value::Byte(0x11), Value::Field(table), Value::Field(row)],
    )
}

// Puts what asks for a new table.
fn put_create<W: Output>(
    output: &mut W,
    table: &[u8],
    time: TimeMode,
    versions: u32,
) -> Result<(), WriteFault>
    ensures { Puts W.Output output.old output.new (2 ∷ (field table.now ++ time_byte time ∷ u32 versions)) result }
{
    put_values(
        output,
        &[
            Value::Byte(0x02),
            Value::Field(table),
            Value::Byte(time_byte(time)),
            Value::Number(versions),
        ],
    )
}

// Puts what asks that the table show so many versions.
fn put_versions<W: Output>(output: &mut W, table: &[u8], versions: u32) -> Result<(), WriteFault>
    ensures { Puts W.Output output.old output.new (21 ∷ (field table.now ++ u32 versions)) result }
{
    put_values(
        output,
        &[
            Value::Byte(0x15),
            Value::Field(table),
            Value::Number(versions),
        ],
    )
}

// Puts what asks for a horizon of the table.
fn put_horizon<W: Output>(output: &mut W, table: &[u8], horizon: i64) -> Result<(), WriteFault>
    ensures { Puts W.Output output.old output.new (22 ∷ (field table.now ++ i64 horizon)) result }
{
    put_values(
        output,
        &[
            Value::Byte(0x16),
            Value::Field(table),
            Value::Signed(horizon),
        ],
    )
}

// Puts what asks for new authorizations of the user.
fn put_auths<'a, W: Output>(
    output: &mut W,
    user: &'a [u8],
    auths: &'a AuthSet,
) -> Result<(), WriteFault>
    ensures { Puts W.Output output.old output.new (6 ∷ (field user.now ++ list auths.now)) result }
{
    put_values(
        output,
        &[
            Value::Byte(0x06),
            Value::Field(user),
            Value::Terms(auths.terms()),
        ],
    )
}

fn put_right<W: Output>(
    output: &mut W,
    opcode: u8,
    user: &[u8],
    permission: &Permission,
) -> Result<(), WriteFault>
    ensures { Puts W.Output output.old output.new (opcode ∷ (field user.now ++ permission_bytes permission.now)) result }
{
    match permission {
        Permission::OfSystem(permission) => put_system(output, opcode, user, *permission),
        Permission::OfTable(permission, table) => {
            put_table(output, opcode, user, *permission, table.as_bytes())
        }
    }
}

// Puts an opcode, a user, and a permission for the whole server.
fn put_system<W: Output>(
    output: &mut W,
    opcode: u8,
    user: &[u8],
    permission: SystemPermission,
) -> Result<(), WriteFault>
    ensures { Puts W.Output output.old output.new (opcode ∷ (field user.now ++ 0 ∷ system_place permission ∷ [])) result }
{
    put_values(
        output,
        &[
            Value::Byte(opcode),
            Value::Field(user),
            Value::Byte(0),
            Value::Byte(system_place(permission)),
        ],
    )
}

// Puts an opcode, a user, and a permission for a table.
fn put_table<'a, W: Output>(
    output: &mut W,
    opcode: u8,
    user: &'a [u8],
    permission: TablePermission,
    table: &'a [u8],
) -> Result<(), WriteFault>
    ensures { Puts W.Output output.old output.new (opcode ∷ (field user.now ++ 1 ∷ table_place permission ∷ field table.now)) result }
{
    put_values(
        output,
        &[
            Value::Byte(opcode),
            Value::Field(user),
            Value::Byte(1),
            Value::Byte(table_place(permission)),
            Value::Field(table),
        ],
    )
}

fn extent_byte(extent: Extent) -> u8
    ensures { result ≡ extent_byte extent }
{
    match extent {
        Extent::Partial => 0,
        Extent::Full => 1,
    }
}

// Puts what asks for a mutation of the table.
fn put_write<W: Output>(output: &mut W, table: &[u8], mutation: &Mutation) -> Result<(), WriteFault>
    ensures { Puts W.Output output.old output.new (10 ∷ (field table.now ++ mutation_bytes mutation.now)) result }
{
    put_byte(output, 0x0a)?;
    put_written(output, table, mutation)
}

// The table, and what is written into it.
fn put_written<W: Output>(
    output: &mut W,
    table: &[u8],
    mutation: &Mutation,
) -> Result<(), WriteFault>
    ensures { Puts W.Output output.old output.new (field table.now ++ mutation_bytes mutation.now) result }
{
    put_field(output, table)?;
    put_mutation(output, mutation)
}

fn put_mutation<W: Output>(output: &mut W, mutation: &Mutation) -> Result<(), WriteFault>
    ensures { Puts W.Output output.old output.new (mutation_bytes mutation.now) result }
{
    put_field(output, mutation.row())?;
    put_updates(output, mutation)
}

fn put_open<W: Output>(output: &mut W, scan: &Scan) -> Result<(), WriteFault>
    ensures { Puts W.Output output.old output.new (11 ∷ scan_bytes scan.now) result }
{
    put_byte(output, 0x0b)?;
    put_scan(output, scan)
}

fn put_scan<W: Output>(output: &mut W, scan: &Scan) -> Result<(), WriteFault>
    ensures { Puts W.Output output.old output.new (scan_bytes scan.now) result }
{
    put_field(output, scan.table.as_bytes())?;
    put_asked(output, scan)
}

// What is asked of the table.
fn put_asked<W: Output>(output: &mut W, scan: &Scan) -> Result<(), WriteFault>
    ensures { Puts W.Output output.old output.new (bounds_bytes scan.now.bounds ++ (counted column_bytes scan.now.columns ++ list scan.now.authorizations)) result }
{
    put_bounds(output, &scan.bounds)?;
    put_shown(output, scan.columns.as_slice(), &scan.authorizations)
}

// What is shown of the rows.
fn put_shown<W: Output>(
    output: &mut W,
    columns: &[Column],
    auths: &AuthSet,
) -> Result<(), WriteFault>
    ensures { Puts W.Output output.old output.new (counted column_bytes columns.now ++ list auths.now) result }
{
    put_columns(output, columns)?;
    put_terms(output, auths.terms())
}

fn put_columns<W: Output>(output: &mut W, columns: &[Column]) -> Result<(), WriteFault>
    ensures { Puts W.Output output.old output.new (counted column_bytes columns.now) result }
{
    put_length(output, columns.len())?;
    put_each(output, columns, &ColumnBytes)
}

struct ColumnBytes;

impl PutItem<Column> for ColumnBytes {
    ghost use Rattle.tab_wire.specs.Sending.{column_bytes};

    ghost text = { λ _ column. column_bytes column };

    fn put_item<W: Output>(&self, output: &mut W, column: &Column) -> Result<(), WriteFault> {
        put_column(output, column)
    }
}

fn put_many<W: Output>(output: &mut W, slot: u32, ranges: &[Bounds]) -> Result<(), WriteFault>
    ensures { Puts W.Output output.old output.new (13 ∷ (u32 slot ++ counted bounds_bytes ranges.now)) result }
{
    put_byte(output, 0x0d)?;
    put_slot_and_ranges(output, slot, ranges)
}

fn put_slot_and_ranges<W: Output>(
    output: &mut W,
    slot: u32,
    ranges: &[Bounds],
) -> Result<(), WriteFault>
    ensures { Puts W.Output output.old output.new (u32 slot ++ counted bounds_bytes ranges.now) result }
{
    put_number(output, slot)?;
    put_ranges(output, ranges)
}

fn put_ranges<W: Output>(output: &mut W, ranges: &[Bounds]) -> Result<(), WriteFault>
    ensures { Puts W.Output output.old output.new (counted bounds_bytes ranges.now) result }
{
    put_length(output, ranges.len())?;
    put_each(output, ranges, &BoundsBytes)
}

struct BoundsBytes;

impl PutItem<Bounds> for BoundsBytes {
    ghost use Rattle.tab_wire.specs.Sending.{bounds_bytes};

    ghost text = { λ _ bounds. bounds_bytes bounds };

    fn put_item<W: Output>(&self, output: &mut W, bounds: &Bounds) -> Result<(), WriteFault> {
        put_bounds(output, bounds)
    }
}
