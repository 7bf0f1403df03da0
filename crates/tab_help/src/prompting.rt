//! A reader that asks for each line by a prompt, and answers lines that ask for help.
ghost use Rattle.std.specs.Prelude.{◌≤◌, length};

use crate::asks::Asks;
use crate::explaining::explain_asked;
use crate::helping::{put_beginning, put_help};
use std::alloc::Global;
use std::io;
use std::io::{Error, ErrorKind, Read};
use tab_io::{BLOCK_LENGTH, Output, WriteFault, length_before};
use tab_key::Name;
use tab_lines::{Line, Words, read_line};
use tab_terminal::{Misquote, Unsent, sent_line};

// The byte that drops what was typed of a line: Ctrl-C, where a terminal hands it on.
const DROPS: u8 = 3;

/// Why no further line is asked for.
#[derive(Clone, Copy, Debug, PartialEq, Eq)]
pub enum PromptEnd {
    /// There is none, or none was wanted.
    Input,
    /// A line wasn't sent, and that ends the lines.
    Unsent,
    /// What is said at a prompt can't be written.
    Unwritten,
}

// Why there is no line now: none follows, or reading failed.
#[derive(Clone, Copy, Debug)]
enum Stop {
    End(PromptEnd),
    Read(Error),
}

impl From<WriteFault> for Stop {
    fn from(_fault: WriteFault) -> Stop {
        Stop::End(PromptEnd::Unwritten)
    }
}

impl From<Error> for Stop {
    fn from(error: Error) -> Stop {
        Stop::Read(error)
    }
}

// What is here of a line.
#[derive(Clone, Copy, Debug, PartialEq, Eq)]
enum Part {
    // A beginning of it.
    Begun,
    // All of it.
    Ended,
    // What was typed before it was dropped.
    Dropped,
}

/// A reader that passes the lines of another one along, one by one, each behind a prompt: the name of who asks, and `>`.
///
/// A line is passed along as `sent_line` has it, with the words that stood in quotes and what isn't ASCII in escapes; one whose quotes say
/// nothing isn't, and it is put to the notes why; a strict reader ends there. A byte 3, as Ctrl-C may be, drops what was typed before it, and
/// the prompt comes again.
///
/// First it is said what this is, and how to get help and out. A line `help` or `help LINE`, or with `?` in its place, isn't passed along: what lines
/// do is put behind the prompt in its place. A line `quit` or `exit` is the end, and so is a prompt that can't be written. Why a line is a line
/// fault is put to the notes once the next line is asked for, so behind the reply. Faults of the notes are passed over.
#[derive(Drop)]
pub struct Prompting<R, W, N> {
    alloc: Global,
    inner: R,
    asks: Asks,
    user: Name,
    strict: bool,
    block: Vec<u8>,
    taken: usize,
    line: Vec<u8>,
    given: usize,
    number: u64,
    end: PromptEnd,
    prompts: W,
    notes: N,
}

impl<R: Read, W: Output, N: Output> Prompting<R, W, N> {
    /// Reads from the one reader, with prompts in this user's name on the first output, and notes on the second one.
    pub fn new(
        alloc: Global,
        inner: R,
        asks: Asks,
        user: Name,
        strict: bool,
        prompts: W,
        notes: N,
    ) -> Prompting<R, W, N> {
        Prompting {
            alloc,
            inner,
            asks,
            user,
            strict,
            block: Vec::new(alloc),
            taken: 0,
            line: Vec::new(alloc),
            given: 0,
            number: 0,
            end: PromptEnd::Input,
            prompts,
            notes,
        }
    }

    /// How many lines were asked for, those among them that weren't passed along.
    pub fn number(&self) -> u64 {
        self.number
    }

    /// Says why the last line was a line fault, if it was one and no further one was asked for. Tells why none is.
    pub fn finish(&mut self) -> PromptEnd {
        let _ = self.explain();
        self.line.clear();
        self.end
    }

    // Asks for the next line to be passed along. Whether there is one.
    fn ask(&mut self) -> io::Result<bool> {
        let stop = match self.next_line() {
            Ok(()) => return Ok(true),
            Err(stop) => stop,
        };
        self.line.clear();
        match stop {
            Stop::Read(error) => Err(error),
            Stop::End(end) => {
                self.end = end;
                Ok(false)
            }
        }
    }

    // Asks for lines until one is no question for help.
    fn next_line(&mut self) -> Result<(), Stop> {
        if self.number == 0 {
            put_beginning(&mut self.prompts, self.asks)?;
        }
        for _ in 0..u64::MAX {
            self.put_prompt()?;
            if !self.take_line()? {
                self.prompts.put(b"\n")?;
                self.prompts.flush()?;
                break;
            }
            if !self.spell()? {
                if self.strict {
                    return Err(Stop::End(PromptEnd::Unsent));
                }
                continue;
            }
            match own_of(self.text()) {
                Own::Quit => break,
                Own::Help => put_help(&mut self.prompts, self.asks, self.line.as_slice())?,
                Own::None => {
                    self.follow();
                    return Ok(());
                }
            }
        }
        Err(Stop::End(PromptEnd::Input))
    }

    // The line without its line feed.
    fn text(&self) -> &[u8] {
        let line = self.line.as_slice();
        line.split_at(length_before(b'\n', line)).0
    }

    fn put_prompt(&mut self) -> Result<(), WriteFault> {
        self.prompts.put(self.user.as_bytes())?;
        self.prompts.put(b"> ")?;
        self.prompts.flush()
    }

    // Takes the next line in place of the last one. Whether there is one.
    fn take_line(&mut self) -> Result<bool, Stop> {
        self.line.clear();
        self.given = 0;
        self.number = self.number.saturating_add(1);
        for _ in 0..u64::MAX {
            if self.taken >= self.block.len() && !self.fill()? {
                return Ok(self.end_line()?);
            }
            match self.take_part()? {
                Part::Begun => {}
                Part::Ended => break,
                Part::Dropped => {
                    self.line.clear();
                    self.prompts.put(b"\n")?;
                    self.put_prompt()?;
                }
            }
        }
        Ok(!self.line.is_empty())
    }

    // Ends the last line, which may lack its line feed. Whether there is one.
    fn end_line(&mut self) -> io::Result<bool> {
        if self.line.is_empty() {
            return Ok(false);
        }
        if self.line.extend_from_slice(b"\n").is_err() {
            return Err(Error::from(ErrorKind::OutOfMemory));
        }
        Ok(true)
    }

    // Reads the next bytes. Whether there are some.
    fn fill(&mut self) -> io::Result<bool> {
        if self.block.resize(BLOCK_LENGTH, 0).is_err() {
            return Err(Error::from(ErrorKind::OutOfMemory));
        }
        self.taken = 0;
        let read = self.inner.read(self.block.as_mut_slice());
        let count = match read {
            Ok(count) => count,
            Err(_) => 0,
        };
        self.block.truncate(count);
        read?;
        Ok(count > 0)
    }

    // Takes what is here of the line.
    fn take_part(&mut self) -> io::Result<Part> {
        let here = self.block.get(self.taken..).unwrap_or(b"");
        let text = here.split_at(length_before(b'\n', here)).0;
        let typed = length_before(DROPS, text);
        if typed < text.len() {
            self.taken = self.taken.saturating_add(typed).saturating_add(1);
            return Ok(Part::Dropped);
        }
        let count = (text.len() + 1).min(here.len());
        if self.line.extend_from_slice(here.split_at(count).0).is_err() {
            return Err(Error::from(ErrorKind::OutOfMemory));
        }
        self.taken = self.taken.saturating_add(count);
        Ok(if text.len() < count {
            Part::Ended
        } else {
            Part::Begun
        })
    }

    // Puts what is sent for the line in its place. Whether its quotes say something: else it is told why they don't.
    fn spell(&mut self) -> io::Result<bool> {
        match sent_line(self.alloc, self.text()) {
            Ok(line) => self.replace(line),
            Err(Unsent::Misquoted(why)) => {
                let _ = put_misquote(self.alloc, &mut self.notes, self.number, why);
                Ok(false)
            }
            Err(Unsent::NoMemory) => Err(Error::from(ErrorKind::OutOfMemory)),
        }
    }

    // This is the line, but for its line feed.
    fn replace(&mut self, line: Vec<u8>) -> io::Result<bool> {
        self.line = line;
        if self.line.extend_from_slice(b"\n").is_err() {
            return Err(Error::from(ErrorKind::OutOfMemory));
        }
        Ok(true)
    }

    // Notes who asks from this line on.
    fn follow(&mut self) {
        if self.asks == Asks::Shell {
            return;
        }
        if let Some(user) = asker(self.alloc, self.text()) {
            self.user = user;
        }
    }

    // Says why the last line was a line fault, if it was one.
    fn explain(&mut self) -> Result<(), WriteFault> {
        let line = self.line.as_slice();
        let text = line.split_at(length_before(b'\n', line)).0;
        explain_asked(self.alloc, self.asks, self.number, text, &mut self.notes)?;
        self.notes.flush()
    }
}

impl<R: Read, W: Output, N: Output> Read for Prompting<R, W, N> {
    fn read(&mut self, buf: &mut [u8]) -> io::Result<usize> {
        if buf.is_empty() {
            return Ok(0);
        }
        if self.given >= self.line.len() {
            let _ = self.explain();
            if !self.ask()? {
                return Ok(0);
            }
        }
        let count = give(self.line.as_slice(), self.given, buf);
        self.given = self.given.saturating_add(count);
        Ok(count)
    }
}

// Copies what is left of the line behind what was given, as far as it fits.
fn give(line: &[u8], given: usize, buf: &mut [u8]) -> usize
    ensures { result ≤ length buf.new }
{
    let rest = match line.get(given..) {
        Some(rest) => rest,
        None => b"",
    };
    let count = rest.len().min(buf.len());
    buf[..count].copy_from_slice(&rest[..count]);
    count
}

// Who asks from this line on, where it says so.
fn asker(alloc: Global, line: &[u8]) -> Option<Name> {
    match read_line(alloc, line) {
        Ok(line) => named(line),
        Err(_) => None,
    }
}

// Who the line says asks from it on.
fn named(line: Line) -> Option<Name> {
    match line {
        Line::As(user) => Some(user),
        _ => None,
    }
}

// Says why the line isn't sent. Where memory lacks nothing is said.
fn put_misquote<W: Output>(
    alloc: Global,
    notes: &mut W,
    number: u64,
    why: Misquote,
) -> Result<(), WriteFault> {
    if let Ok(text) = format!(in alloc; "line {number}: {why}; nothing was sent\n") {
        notes.put(text.as_bytes())?;
    }
    notes.flush()
}

// What a line asks of the prompt itself.
#[derive(Clone, Copy, Debug, PartialEq, Eq)]
enum Own {
    Quit,
    Help,
    None,
}

// What this line asks of it, by its first word.
fn own_of(line: &[u8]) -> Own {
    let mut words = Words::of(line);
    match words.next() {
        Some(b"quit" | b"exit") => Own::Quit,
        Some(b"help" | b"?") => Own::Help,
        _ => Own::None,
    }
}
