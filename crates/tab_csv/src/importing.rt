//! Each record as the line of a script that does what it means.
#![tactic(auto, using(tab_io::proofs::Putting::putting))]

ghost use Rattle.csv.specs.Records.{fields_of};
ghost use Rattle.tab_io.specs.Writing.{Puts};
ghost use Rattle.tab_csv.specs.Meaning.{meaning};
ghost use Rattle.tab_csv.specs.Parts.{change_in, meant_text, PutsRow};

use crate::header::{Header, HeaderFault, read_header};
use crate::line::put_line_of;
use crate::meaning::{Meant, meaning_of};
use crate::record_fault::RecordFault;
use crate::records::{Next, RecordReader, TextFault};
use csv::ByteRecord;
use std::alloc::Global;
use tab_io::{Input, Output, WriteFault};
use tab_key::Name;
use tab_label::AuthSet;
use thiserror::Error;

/// Whether lines are written.
#[derive(Clone, Copy, Debug, PartialEq, Eq)]
pub enum Mode {
    /// They are.
    Write,
    /// Records are only looked at.
    Check,
}

/// How many records mean something, and how many nothing.
#[derive(Clone, Copy, Debug, PartialEq, Eq)]
pub struct Tally {
    /// Those that do.
    pub good: u64,
    /// Those that don't.
    pub bad: u64,
}

/// Why a text is read no further.
#[derive(Clone, Copy, Debug, PartialEq, Eq, Error)]
pub enum ImportFault {
    /// Its first record names no columns by which others can be read. Nothing is written.
    #[error(transparent)]
    Header(#[from] HeaderFault),
    /// It can't be read. What was read before is written.
    #[error(transparent)]
    Text(#[from] TextFault),
    /// The lines can't be written.
    #[error(transparent)]
    Write(#[from] WriteFault),
}

/// Who is told what is wrong with a record.
pub trait Faults {
    /// The record that begins at this line, counted from 1, means nothing, for this reason.
    fn tell(&mut self, line: u64, fault: &RecordFault);
}

/// Reads a text of CSV, and writes for each record the line of a script that does what it means. `given` is the table's name where no column
/// has it. A record that means nothing is told of, and left out.
///
/// Memory is taken for the longest record. Lines are put, and not flushed.
pub fn import<I: Input + Drop, W: Output, F: Faults>(
    alloc: Global,
    input: I,
    given: &Option<Name>,
    mode: Mode,
    output: &mut W,
    faults: &mut F,
) -> Result<Tally, ImportFault> {
    let mut records = RecordReader::new(alloc, input);
    let header = header(&mut records, given)?;
    let none = AuthSet::empty(alloc);
    let mut tally = Tally { good: 0, bad: 0 };
    for _ in 0..u64::MAX {
        let fault = match records.read()? {
            Next::End => return Ok(tally),
            Next::OpenQuote => Some(RecordFault::OpenQuote),
            Next::Record => put_row(output, mode, &header, given, records.record(), &none)?,
        };
        match fault {
            None => tally.good = tally.good.saturating_add(1),
            Some(fault) => {
                tally.bad = tally.bad.saturating_add(1);
                faults.tell(records.line(), &fault);
            }
        }
    }
    Ok(tally)
}

// Puts the line that does what the record means. Or tells what is wrong with it.
fn put_row<W: Output>(
    output: &mut W,
    mode: Mode,
    header: &Header,
    given: &Option<Name>,
    row: &ByteRecord,
    none: &AuthSet,
) -> Result<Option<RecordFault>, WriteFault>
    ensures { PutsRow W.Output output.old output.new mode (meaning header.now given.now (fields_of row.now)) result }
{
    match meaning_of(header, given, row, none) {
        Err(fault) => Ok(Some(fault)),
        Ok(meant) => {
            put_meant(output, mode, &meant)?;
            Ok(None)
        }
    }
}

fn put_meant<W: Output>(output: &mut W, mode: Mode, meant: &Meant<'_>) -> Result<(), WriteFault>
    ensures { Puts W.Output output.old output.new (meant_text mode (change_in meant.now)) result }
{
    match mode {
        Mode::Write => put_line_of(output, meant),
        Mode::Check => output.put(b""),
    }
}

// Reads the first record.
fn header<I: Input>(
    records: &mut RecordReader<I>,
    given: &Option<Name>,
) -> Result<Header, ImportFault> {
    match records.read()? {
        Next::Record => Ok(read_header(records.record(), given.is_some())?),
        Next::OpenQuote => Err(HeaderFault::OpenQuote.into()),
        Next::End => Err(HeaderFault::Empty.into()),
    }
}
