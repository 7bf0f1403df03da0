//! The body of a record, put.
#![tactic(auto, using(tab_io::proofs::Putting::putting))]

ghost use Rattle.std.specs.Prelude.{◌≡◌, ◌<◌, ◌^◌, ◌∷◌, ◌++◌, [], IfOk, length};
ghost use Rattle.tab_io.specs.Writing.{Puts};
ghost use Rattle.tab_codec.specs.Parts.{IsBytes};
ghost use Rattle.tab_codec.specs.Spelling.{u8, u64, field};
ghost use Rattle.tab_event_record.specs.Records.{kind_number, given_bytes, body_bytes};

use std::alloc::{AllocError, Global};
use tab_cells::Compaction;
use tab_history::{Act, Given};
use tab_io::{Output, WriteFault};
use tab_key::{ByteString, Name};
use tab_wire::{Gathering, Value, put_act, put_values};

/// The body of the act's record. `AllocError`: memory lacks, or it would have 2^32 bytes or more.
pub fn body_of(alloc: Global, act: &Act) -> Result<ByteString, AllocError>
    ensures bytes { IfOk result (λ body. body ≡ body_bytes act.now) }
    ensures short { IfOk result (λ body. length body < 2 ^ 32) }
    ensures fits { IfOk result (λ body. IsBytes body) }
{
    let mut gathered = Gathering::with_room(alloc, 128)?;
    match put_body(&mut gathered, act) {
        Ok(()) => {}
        Err(_) => return Err(AllocError),
    }
    let mut bytes = gathered.into_bytes();
    if bytes.len() > 0xffff_ffff {
        return Err(AllocError);
    }
    bytes.shrink_to_fit();
    bytes_fit(&bytes);
    Ok(ByteString::from_vec(bytes))
}

/// Each is a byte. Nothing is done.
pub fn bytes_fit(_bytes: &[u8])
    ensures { IsBytes _bytes.now }
{}

// Puts the body.
fn put_body<W: Output>(output: &mut W, act: &Act) -> Result<(), WriteFault>
    ensures { Puts W.Output output.old output.new (body_bytes act.now) result }
{
    match act {
        Act::SplitBySize(table, row, limit) => put_split(output, table, row, *limit),
        Act::Save => output.put(&[0, 2]),
        Act::Load => output.put(&[0, 3]),
        Act::Begin(table, row, kind) => put_begin(output, table, row, *kind),
        Act::Install(table, given) => put_install(output, table, *given),
        _ => put_act(output, act),
    }
}

fn put_split<'a, W: Output>(
    output: &mut W,
    table: &'a Name,
    row: &'a ByteString,
    limit: u64,
) -> Result<(), WriteFault>
    ensures { Puts W.Output output.old output.new (0 ∷ 1 ∷ (field table.now ++ (field row.now ++ u64 limit))) result }
{
    put_values(
        output,
        &[
            Value::Byte(0),
            Value::Byte(1),
            Value::Field(table.as_bytes()),
            Value::Field(row.as_bytes()),
            Value::Long(limit),
        ],
    )
}

fn put_begin<'a, W: Output>(
    output: &mut W,
    table: &'a Name,
    row: &'a ByteString,
    kind: Compaction,
) -> Result<(), WriteFault>
    ensures { Puts W.Output output.old output.new (0 ∷ 4 ∷ (field table.now ++ (field row.now ++ u8 (kind_number kind)))) result }
{
    put_values(
        output,
        &[
            Value::Byte(0),
            Value::Byte(4),
            Value::Field(table.as_bytes()),
            Value::Field(row.as_bytes()),
            Value::Byte(kind_number(kind)),
        ],
    )
}

fn put_install<W: Output>(output: &mut W, table: &Name, given: Given) -> Result<(), WriteFault>
    ensures { Puts W.Output output.old output.new (0 ∷ 5 ∷ (field table.now ++ given_bytes given)) result }
{
    match given {
        Given::InSlot(slot) => put_numbered(output, table, 0, slot),
        Given::ByHand(job) => put_numbered(output, table, 1, job),
    }
}

fn put_numbered<W: Output>(
    output: &mut W,
    table: &Name,
    mark: u8,
    number: u64,
) -> Result<(), WriteFault>
    ensures { Puts W.Output output.old output.new (0 ∷ 5 ∷ (field table.now ++ mark ∷ u64 number)) result }
{
    put_values(
        output,
        &[
            Value::Byte(0),
            Value::Byte(5),
            Value::Field(table.as_bytes()),
            Value::Byte(mark),
            Value::Long(number),
        ],
    )
}

fn kind_number(kind: Compaction) -> u8
    ensures { result ≡ kind_number kind }
{
    match kind {
        Compaction::Minor => 0,
        Compaction::Partial => 1,
        Compaction::Full => 2,
    }
}
