//! The words of what was asked.
#![tactic(auto, using(tab_io::proofs::Putting::putting))]

ghost use Rattle.std.specs.Prelude.{◌≡◌, [], ◌∷◌, codes};
ghost use Rattle.tab_io.specs.Writing.{Puts};
ghost use Rattle.tab_text.specs.Words.{word};
ghost use Rattle.tab_text.specs.Lines.{line_text};
ghost use Rattle.tab_lines.specs.Forms.{time_name, extent_name, compaction_name};
ghost use Rattle.tab_audit.specs.Pieces.{piece_text};
ghost use Rattle.tab_audit.specs.Words.{job_number, right_words, act_words};

use crate::piece::Piece::{Bytes, Constraints, Number, Signed, Terms, Text};
use crate::piece::{Piece, put_line};
use crate::updates::put_mutation;
use tab_cells::Compaction;
use tab_history::{Act, Extent, Given, Scan, TimeMode, Versions};
use tab_io::{Output, WriteFault};
use tab_key::Name;
use tab_policy::Permission;

/// Puts what was asked as one line: the words of a line of a script, parted by one space, and a line feed. It takes no memory, and fails
/// where the output does, and has put a beginning of the line then.
pub fn put_act<W: Output>(output: &mut W, act: &Act) -> Result<(), WriteFault>
    ensures { Puts W.Output output.old output.new (line_text (act_words act.now)) result }
{
    match act {
        Act::Open(scan) => put_scan(output, scan),
        Act::Write(table, mutation) => put_mutation(output, table, mutation),
        Act::CreateTable(table, time, many) => put_table(output, table, *time, *many),
        Act::DropTable(table) => put_name(output, b"droptable", table),
        Act::SetConstraints(table, set) => put_two(output, b"constraints", table, Constraints(set)),
        Act::SetVersions(table, many) => {
            put_two(output, b"versions", table, Number(many.get() as u64))
        }
        Act::SetHorizon(table, low) => put_two(output, b"horizon", table, Signed(*low)),
        Act::CreateUser(user) => put_name(output, b"createuser", user),
        Act::DropUser(user) => put_name(output, b"dropuser", user),
        Act::SetAuths(user, auths) => put_two(output, b"setauths", user, Terms(auths)),
        Act::Grant(user, permission) => put_right(output, b"grant", user, permission),
        Act::Revoke(user, permission) => put_right(output, b"revoke", user, permission),
        Act::Rights(table) => put_name(output, b"rights", table),
        Act::Status(table) => put_name(output, b"status", table),
        Act::Flush(table) => put_name(output, b"flush", table),
        Act::Compact(table, extent) => {
            put_two(output, b"compact", table, Text(extent_name(*extent)))
        }
        Act::AddSplit(table, row) => put_two(output, b"addsplit", table, Bytes(row.as_bytes())),
        Act::SplitBySize(table, row, limit) => {
            put_three(output, b"splitsize", table, row.as_bytes(), Number(*limit))
        }
        Act::Splits(table) => put_name(output, b"splits", table),
        Act::Save => put_line(output, b"save", &[]),
        Act::Load => put_line(output, b"load", &[]),
        Act::Rotate => put_line(output, b"rotate", &[]),
        Act::Begin(table, row, kind) => {
            let kind = Text(compaction_name(*kind));
            put_three(output, b"begin", table, row.as_bytes(), kind)
        }
        Act::Install(table, given) => {
            put_two(output, b"install", table, Number(job_number(*given)))
        }
    }
}

// A command and a name.
fn put_name<W: Output>(output: &mut W, command: &[u8], name: &Name) -> Result<(), WriteFault>
    ensures { Puts W.Output output.old output.new (line_text (command.now ∷ word name.now ∷ [])) result }
{
    put_line(output, command, &[Piece::Bytes(name.as_bytes())])
}

// A command, a name and one more word.
fn put_two<'a, W: Output>(
    output: &mut W,
    command: &[u8],
    name: &'a Name,
    last: Piece<'a>,
) -> Result<(), WriteFault>
    ensures { Puts W.Output output.old output.new (line_text (command.now ∷ word name.now ∷ piece_text last.entry ∷ [])) result }
{
    put_line(output, command, &[Piece::Bytes(name.as_bytes()), last])
}

// A command, a table, a row and one more word.
fn put_three<'a, W: Output>(
    output: &mut W,
    command: &[u8],
    table: &'a Name,
    row: &'a [u8],
    last: Piece<'a>,
) -> Result<(), WriteFault>
    ensures { Puts W.Output output.old output.new (line_text (command.now ∷ word table.now ∷ word row.now ∷ piece_text last.entry ∷ [])) result }
{
    put_line(
        output,
        command,
        &[Piece::Bytes(table.as_bytes()), Piece::Bytes(row), last],
    )
}

// A new table with its settings.
fn put_table<W: Output>(
    output: &mut W,
    table: &Name,
    time: TimeMode,
    many: Versions,
) -> Result<(), WriteFault>
    ensures { Puts W.Output output.old output.new (line_text (act_words (Act.CreateTable table.now time many))) result }
{
    put_line(
        output,
        b"createtable",
        &[
            Piece::Bytes(table.as_bytes()),
            Piece::Text(time_name(time)),
            Piece::Versions(many.get()),
        ],
    )
}

// What a session is opened on.
fn put_scan<W: Output>(output: &mut W, scan: &Scan) -> Result<(), WriteFault>
    ensures { Puts W.Output output.old output.new (line_text (act_words (Act.Open scan.now))) result }
{
    put_line(
        output,
        b"open",
        &[
            Piece::Bytes(scan.table.as_bytes()),
            Piece::Terms(&scan.authorizations),
            Piece::End(&scan.bounds.low),
            Piece::End(&scan.bounds.high),
            Piece::Columns(&scan.columns),
        ],
    )
}

// A user and a permission.
fn put_right<W: Output>(
    output: &mut W,
    command: &[u8],
    user: &Name,
    permission: &Permission,
) -> Result<(), WriteFault>
    ensures { Puts W.Output output.old output.new (line_text (command.now ∷ word user.now ∷ right_words permission.now)) result }
{
    match permission {
        Permission::OfSystem(right) => put_two(output, command, user, Piece::Text(right.name())),
        Permission::OfTable(right, table) => put_line(
            output,
            command,
            &[
                Piece::Bytes(user.as_bytes()),
                Piece::Text(right.name()),
                Piece::Bytes(table.as_bytes()),
            ],
        ),
    }
}

fn time_name(time: TimeMode) -> &'static [u8]
    ensures { result.now ≡ time_name time }
{
    match time {
        TimeMode::Any => b"time=any",
        TimeMode::Server => b"time=server",
    }
}

fn extent_name(extent: Extent) -> &'static [u8]
    ensures { result.now ≡ extent_name extent }
{
    match extent {
        Extent::Partial => b"partial",
        Extent::Full => b"full",
    }
}

fn compaction_name(kind: Compaction) -> &'static [u8]
    ensures { result.now ≡ compaction_name kind }
{
    match kind {
        Compaction::Minor => b"minor",
        Compaction::Partial => b"partial",
        Compaction::Full => b"full",
    }
}

// The number of a job.
fn job_number(given: Given) -> u64
    ensures { result ≡ job_number given }
{
    match given {
        Given::InSlot(slot) => slot,
        Given::ByHand(job) => job,
    }
}
