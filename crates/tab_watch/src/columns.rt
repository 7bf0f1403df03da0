//! A writer that puts cells into columns.
use crate::kinds::{ReplyKind, kind_of};
use std::alloc::{AllocError, Global};
use std::io::Write;
use std::mem::replace;
use std::{io, str};
use tab_io::{BLOCK_LENGTH, length_before};
use tab_terminal::shown_word;
use unicode_width::UnicodeWidthStr;

// How many words a cell has before its value.
const COLUMNS: usize = 5;

// How wide a column gets at most, as a terminal draws it: a longer word moves the rest of its line.
const WIDEST: usize = 24;

// Spaces to fill a column with.
const SPACES: &[u8] = b"                          ";

/// A writer for a terminal: what is written is handed on once the writer is flushed, or, of the lines that have ended, once there is a block
/// of it, with the words of cells one under the other, block by block, and as `shown_word` has them. What is no cell is handed on as it is;
/// where memory lacks, all is.
#[derive(Drop)]
pub struct Columns<W> {
    alloc: Global,
    inner: W,
    text: Vec<u8>,
    on: bool,
}

impl<W: Write> Columns<W> {
    /// Writes to this one; with no columns where none are wanted.
    pub fn new(alloc: Global, inner: W, on: bool) -> Columns<W> {
        Columns {
            alloc,
            inner,
            text: Vec::new(alloc),
            on,
        }
    }

    // Hands on all that is here.
    fn put(&mut self) -> io::Result<()> {
        let text = replace(&mut self.text, Vec::new(self.alloc));
        self.put_laid(text.as_slice())
    }

    // Hands on the lines that have ended. The beginning of the next one stays here; where memory lacks for it, it is handed on too.
    fn put_lines(&mut self) -> io::Result<()> {
        let count = length_of_lines(self.text.as_slice());
        if count == 0 {
            return Ok(());
        }
        let text = replace(&mut self.text, Vec::new(self.alloc));
        let (lines, begun) = text
            .split_at_checked(count)
            .unwrap_or((text.as_slice(), b""));
        self.put_laid(lines)?;
        if self.text.extend_from_slice(begun).is_err() {
            return self.inner.write_all(begun);
        }
        Ok(())
    }

    // Hands on this text, with the cells in columns.
    fn put_laid(&mut self, text: &[u8]) -> io::Result<()> {
        match lay_out(self.alloc, text) {
            Ok(laid) => self.inner.write_all(laid.as_slice()),
            Err(_) => self.inner.write_all(text),
        }
    }
}

// How many bytes of a text its lines have that have ended.
fn length_of_lines(text: &[u8]) -> usize {
    match text.iter().rposition(|byte| *byte == b'\n') {
        Some(last) => last.saturating_add(1),
        None => 0,
    }
}

// The lines, with their cells in columns.
fn lay_out(alloc: Global, text: &[u8]) -> Result<Vec<u8>, AllocError> {
    let widths = widths_of(alloc, text)?;
    let mut laid = Vec::new(alloc);
    let mut rest = text;
    for _ in 0..u64::MAX {
        let at = length_before(b'\n', rest);
        lay_line(alloc, &mut laid, rest.split_at(at).0, &widths)?;
        if at == rest.len() {
            break;
        }
        laid.extend_from_slice(b"\n")?;
        rest = rest.split_at(at + 1).1;
    }
    Ok(laid)
}

// How wide the columns of the cells in these lines are.
fn widths_of(alloc: Global, text: &[u8]) -> Result<[usize; COLUMNS], AllocError> {
    let mut widths = [0usize; COLUMNS];
    for line in text.split(|byte| *byte == b'\n') {
        if kind_of(line) == ReplyKind::Cell {
            for (word, width) in line.split(|byte| *byte == b' ').zip(widths.iter_mut()) {
                let shown = shown_word(alloc, word)?;
                *width = (*width).max(drawn_width(shown.as_slice()).min(WIDEST));
            }
        }
    }
    Ok(widths)
}

// How many columns of a terminal a text takes.
fn drawn_width(text: &[u8]) -> usize {
    match str::from_utf8(text) {
        Ok(text) => text.width(),
        Err(_) => text.len(),
    }
}

// Puts a line, a cell with its words in columns.
fn lay_line(
    alloc: Global,
    laid: &mut Vec<u8>,
    line: &[u8],
    widths: &[usize; COLUMNS],
) -> Result<(), AllocError> {
    if kind_of(line) != ReplyKind::Cell {
        return laid.extend_from_slice(line);
    }
    let mut widths = widths.iter();
    for word in line.split(|byte| *byte == b' ') {
        let shown = shown_word(alloc, word)?;
        laid.extend_from_slice(shown.as_slice())?;
        if let Some(width) = widths.next() {
            let lacking = width
                .saturating_sub(drawn_width(shown.as_slice()))
                .saturating_add(2);
            laid.extend_from_slice(SPACES.get(..lacking).unwrap_or(b"  "))?;
        }
    }
    Ok(())
}

impl<W: Write> Write for Columns<W> {
    fn write(&mut self, buf: &[u8]) -> io::Result<usize> {
        if !self.on {
            return self.inner.write(buf);
        }
        if self.text.len() >= BLOCK_LENGTH {
            self.put_lines()?;
        }
        if self.text.extend_from_slice(buf).is_err() {
            self.put()?;
            return self.inner.write(buf);
        }
        Ok(buf.len())
    }

    fn flush(&mut self) -> io::Result<()> {
        self.put()?;
        self.inner.flush()
    }
}
