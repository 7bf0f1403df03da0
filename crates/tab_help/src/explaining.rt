//! A reader that passes bytes along, and explains each line fault on the way.
ghost use Rattle.std.specs.Prelude.{◌≡◌, ◌++◌, decimal};
ghost use Rattle.tab_io.specs.Writing.{Puts};
ghost use Rattle.tab_help.specs.Explaining.{Explains};

use crate::asks::Asks;
use crate::reason::fault;
use std::alloc::{AllocError, Global};
use std::io;
use std::io::Read;
use tab_io::{Output, WriteFault, length_before, put_decimal};
use tab_lines::Words;

/// What was said of a line.
#[derive(Clone, Copy, Debug, PartialEq, Eq)]
pub enum Explanation {
    /// Nothing: it is a line.
    Nothing,
    /// Why it is a line fault.
    Reason,
    /// Nothing, since memory lacked.
    NoMemory,
}

/// Puts one line that says why the line with this number, counted from 1, is a line fault, if it is one. What is expected in its place is
/// one of these lines.
pub fn explain<W: Output>(
    alloc: Global,
    asks: Asks,
    number: u64,
    line: &[u8],
    output: &mut W,
) -> Result<Explanation, WriteFault>
    ensures { Explains W.Output output.old output.new number line.now result }
{
    match fault(alloc, asks, line, number == 1) {
        Ok(Some(reason)) => match format!(in alloc; ": {reason}\n") {
            Ok(text) => {
                match put_numbered(output, b"line ", number, text.as_bytes()) {
                    Ok(()) => Ok(Explanation::Reason),
                    Err(fault) => Err(fault),
                }
            }
            Err(_) => Ok(Explanation::NoMemory),
        },
        Ok(None) => Ok(Explanation::Nothing),
        Err(AllocError) => Ok(Explanation::NoMemory),
    }
}

/// Explains one of the lines that are asked for: one that only a script has is no line of a shell.
pub(crate) fn explain_asked<W: Output>(
    alloc: Global,
    asks: Asks,
    number: u64,
    line: &[u8],
    output: &mut W,
) -> Result<(), WriteFault> {
    let mut words = Words::of(line);
    match words.next() {
        Some(command) if !asks.has(command) => put_script_only(output, number, command),
        _ => match explain(alloc, asks, number, line, output) {
            Ok(_) => Ok(()),
            Err(fault) => Err(fault),
        },
    }
}

// Says that a shell lacks a script's line.
fn put_script_only<W: Output>(
    output: &mut W,
    number: u64,
    command: &[u8],
) -> Result<(), WriteFault> {
    output.put(b"line ")?;
    put_decimal(output, number)?;
    output.put(b": word 1, \"")?;
    output.put(command)?;
    output.put(b"\": expected a line of a shell; this one is a script's alone\n")
}

// Puts the text with the number before it, and this in front.
#[tactic(auto, using(tab_io::proofs::Putting::putting))]
fn put_numbered<W: Output>(
    output: &mut W,
    front: &[u8],
    number: u64,
    text: &[u8],
) -> Result<(), WriteFault>
    ensures { Puts W.Output output.old output.new (front.now ++ (decimal number ++ text.now)) result }
{
    output.put(front)?;
    put_number(output, number, text)
}

// Puts the number, and the text.
#[tactic(auto, using(tab_io::proofs::Putting::putting))]
fn put_number<W: Output>(output: &mut W, number: u64, text: &[u8]) -> Result<(), WriteFault>
    ensures { Puts W.Output output.old output.new (decimal number ++ text.now) result }
{
    put_decimal(output, number)?;
    output.put(text)
}

// The line that was kept; or else the part, which is a whole line.
fn whole<'a>(part: &'a [u8], begun: &'a [u8]) -> &'a [u8] {
    if begun.is_empty() { part } else { begun }
}

// The lines that go by, and where their faults are explained. What of a line has gone by is kept until the line ends; where
// memory lacks for it, the line isn't explained. Faults of the output are passed over.
#[derive(Drop)]
struct Lines<W> {
    alloc: Global,
    asks: Asks,
    begun: Vec<u8>,
    lost: bool,
    ended: u64,
    notes: W,
}

impl<W: Output> Lines<W> {
    // Keeps a part of a line that goes on.
    fn keep(&mut self, part: &[u8]) {
        if self.lost || self.begun.extend_from_slice(part).is_err() {
            self.lost = true;
            self.begun.clear();
        }
    }

    // Explains the line that ends behind this part.
    fn end(&mut self, part: &[u8]) {
        self.ended = self.ended.saturating_add(1);
        if !self.begun.is_empty() {
            self.keep(part);
        }
        if !self.lost {
            let line = whole(part, self.begun.as_slice());
            let _ = explain_asked(self.alloc, self.asks, self.ended, line, &mut self.notes);
        }
        self.begun.clear();
        self.lost = false;
    }

    // Explains the lines that end in these bytes.
    fn pass(&mut self, bytes: &[u8]) {
        let mut rest = bytes;
        for _ in 0..u64::MAX {
            let at = length_before(b'\n', rest);
            if at == rest.len() {
                break;
            }
            self.end(rest.split_at(at).0);
            rest = rest.split_at(at + 1).1;
        }
        self.keep(rest);
        let _ = self.notes.flush();
    }

    // Explains the last line, if it lacks its line feed.
    fn close(&mut self) {
        if !self.begun.is_empty() || self.lost {
            self.end(b"");
        }
        let _ = self.notes.flush();
    }
}

/// A reader that passes the bytes of another one along unchanged, and writes for each line fault in them a line that explains it.
///
/// The line stands in the output before the read returns that ends the faulty line. It takes memory for one line at a time.
#[derive(Drop)]
pub struct Explaining<R, W> {
    inner: R,
    lines: Lines<W>,
}

impl<R: Read, W: Output> Explaining<R, W> {
    /// Reads from the one, and explains on the other what of these lines is a fault.
    pub fn new(alloc: Global, asks: Asks, inner: R, notes: W) -> Explaining<R, W>
        ensures { ⟦<Explaining<R, W> as Read>⟧.remaining result ≡ R.remaining inner }
    {
        Explaining {
            inner,
            lines: Lines {
                alloc,
                asks,
                begun: Vec::new(alloc),
                lost: false,
                ended: 0,
                notes,
            },
        }
    }
}

impl<R: Read, W: Output> Read for Explaining<R, W> {
    ghost remaining = { λ reader. R.remaining reader.inner };

    fn read(&mut self, buf: &mut [u8]) -> io::Result<usize> {
        let count = self.inner.read(buf)?;
        if count == 0 && !buf.is_empty() {
            self.lines.close();
        } else {
            self.lines.pass(&buf[..count]);
        }
        Ok(count)
    }
}
