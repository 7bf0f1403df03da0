//! Records, read from an input.
#![tactic(auto, using(crate::proofs::Streams::reading))]

ghost use Rattle.std.specs.Prelude.{◌≡◌, length};
ghost use Rattle.tab_key.specs.KeyOf.{key_of};
ghost use Rattle.tab_key.specs.RecordSpans.{record_in, IsWithin};
ghost use Rattle.tab_image.specs.Reading.{record_at, records_at};
ghost use Rattle.tab_image.specs.Streams.{Reads, HasRead, Stops};
ghost use Rattle.tab_image.specs.Laying.{span_of, Lays, Adds, AddsFront};
ghost use Rattle.tab_codec.specs.Reading.{u64_at, parts_at};

use crate::fields::{read_kind, read_part};
use crate::lent_record::record_in;
use crate::taking::{read_i64, read_u32, read_u64};
use crate::unread::Unread;
use std::alloc::Global;
use tab_io::Input;
use tab_key::{Key, Kind};
use tab_mem::Records;

/// Where the parts of a record end in a body that holds them alone, one behind another, and what of it isn't bytes.
#[derive(Clone, Copy)]
pub(crate) struct Laid {
    row_end: usize,
    family_end: usize,
    qualifier_end: usize,
    label_end: usize,
    timestamp: i64,
    kind: Kind,
    seq: u64,
    idx: u32,
}

/// Takes a count of eight bytes, and so many records.
#[tactic(auto, using(crate::proofs::Streams::reading), unfolding(crate::specs::Reading::records_at, crate::specs::Reading::all_at))]
pub(crate) fn read_records<R: Input>(alloc: Global, input: &mut R) -> Result<Records, Unread>
    ensures { Reads R.Input input.old input.new records_at result }
{
    let count = read_u64(input)?;
    read_so_many(alloc, input, count)
}

fn read_so_many<R: Input>(alloc: Global, input: &mut R, count: u64) -> Result<Records, Unread>
    ensures { Reads R.Input input.old input.new (parts_at record_at count) result }
{
    let mut records = Records::new(alloc);
    let mut parts = Vec::new(alloc);
    for _ in 0..count {
        match read_record(input, &mut parts, &mut records) {
            Ok(()) => {}
            Err(unread) => return Err(unread),
        }
    }
    Ok(records)
}

// Takes a record, and puts it behind those that are there. One that doesn't lie whole in the bytes that are here, since a read comes in
// between, is gathered first in a body that holds one record at a time.
fn read_record<R: Input>(
    input: &mut R,
    parts: &mut Vec<u8>,
    records: &mut Records,
) -> Result<(), Unread>
    ensures { Adds R.Input input.old input.new records.old records.new result }
{
    if read_front(input, records)? {
        return Ok(());
    }
    let laid = lay(input, parts)?;
    let key = key_in(parts, laid);
    let value = &parts[laid.label_end..];
    records.push(key, laid.kind, value, laid.seq, laid.idx)?;
    Ok(())
}

// Takes the record that lies whole in the bytes that are here, and puts it behind those that are there. The answer is false where none
// does; nothing is taken then.
#[inline]
fn read_front<R: Input>(input: &mut R, records: &mut Records) -> Result<bool, Unread>
    ensures { AddsFront R.Input input.old input.new records.old records.new result }
{
    let front = input.front();
    let Some((record, rest)) = record_in(front) else {
        return Ok(false);
    };
    let count = front.len() - rest.len();
    records.push(
        record.key,
        record.kind,
        record.value,
        record.seq,
        record.idx,
    )?;
    input.consume(count);
    Ok(true)
}

// The key of the record whose parts lie there.
fn key_in(body: &[u8], laid: Laid) -> Key<'_>
    requires { IsWithin body.now (span_of body.now laid) }
    ensures { key_of result ≡ (record_in body.now (span_of body.now laid)).key }
{
    Key {
        row: &body[..laid.row_end],
        family: &body[laid.row_end..laid.family_end],
        qualifier: &body[laid.family_end..laid.qualifier_end],
        label: &body[laid.qualifier_end..laid.label_end],
        timestamp: laid.timestamp,
    }
}

// Takes a record. Its parts come into the body one behind another, in place of what was there; where they end is told.
fn lay<R: Input>(input: &mut R, body: &mut Vec<u8>) -> Result<Laid, Unread>
    ensures { Lays R.Input input.old input.new body.new.items result }
{
    body.clear();
    read_part(input, body)?;
    let row_end = body.len();
    read_part(input, body)?;
    let family_end = body.len();
    read_part(input, body)?;
    let qualifier_end = body.len();
    read_part(input, body)?;
    let label_end = body.len();
    let timestamp = read_i64(input)?;
    let kind = read_kind(input)?;
    let seq = read_u64(input)?;
    let idx = read_u32(input)?;
    read_part(input, body)?;
    Ok(Laid {
        row_end,
        family_end,
        qualifier_end,
        label_end,
        timestamp,
        seq,
        idx,
        kind,
    })
}
