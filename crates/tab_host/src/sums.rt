//! The checksums of images, in files beside them.
use crate::Noting;
use crate::disk::{NotLoaded, unread};
use sha2::{Digest, Sha256};
use std::alloc::{AllocError, Global};
use std::fmt::{Display, Formatter};
use std::fs::File;
use std::io::{ErrorKind, Read, Seek, SeekFrom, Write};
use std::path::Path;
use std::{fmt, fs, io};
use tab_io::{BlockReader, Input, ReadFault, length_before};

// How many digits the text of a checksum has.
const DIGITS: usize = 64;

/// The SHA-256 of an image's bytes. Its text is 64 digits.
#[derive(Clone, Copy, Debug, PartialEq, Eq)]
pub struct Sum([u8; 32]);

impl Display for Sum {
    fn fmt<W: fmt::Write>(&self, f: &mut Formatter<W>) -> fmt::Result {
        for byte in self.0.iter() {
            write!(f, "{byte:02x}")?;
        }
        Ok(())
    }
}

/// A writer that passes bytes along unchanged, and keeps their sum.
#[derive(Drop)]
pub(crate) struct Summing<W> {
    writer: W,
    hasher: Sha256,
}

impl<W: Drop> Summing<W> {
    /// Over this writer, to which nothing went yet.
    pub(crate) fn new(writer: W) -> Summing<W> {
        Summing {
            writer,
            hasher: Sha256::new(),
        }
    }

    /// The writer.
    pub(crate) fn get_ref(&self) -> &W {
        &self.writer
    }

    /// The sum of what went by.
    pub(crate) fn into_sum(self) -> Sum {
        Sum(self.hasher.finalize())
    }
}

impl<W: Write> Write for Summing<W> {
    ghost contents = { λ summing. W.contents summing.writer };

    fn write(&mut self, buf: &[u8]) -> io::Result<usize> {
        let count = self.writer.write(buf)?;
        self.hasher.update(&buf[..count]);
        Ok(count)
    }

    fn flush(&mut self) -> io::Result<()> {
        self.writer.flush()
    }
}

/// The name of the file in which the checksum of the image of this name stands.
pub fn name_of_sum(alloc: Global, name: &str) -> Result<String, AllocError> {
    format!(in alloc; "{name}.sha256").map_err(|_| AllocError)
}

/// The line that stands there, as `sha256sum` writes it.
pub fn line_of_sum(alloc: Global, name: &str, sum: Sum) -> Result<String, AllocError> {
    let last = Path::new(name).file_name().unwrap_or(name);
    let line = if last.contains(['\\', '\n', '\r']) {
        format!(in alloc; "\\{sum}  {}\n", Escaped(last))
    } else {
        format!(in alloc; "{sum}  {last}\n")
    };
    line.map_err(|_| AllocError)
}

// A name on one line.
#[derive(Clone, Copy)]
struct Escaped<'a>(&'a str);

impl Display for Escaped<'_> {
    fn fmt<W: fmt::Write>(&self, f: &mut Formatter<W>) -> fmt::Result {
        for letter in self.0.chars() {
            match letter {
                '\\' => f.write_str("\\\\")?,
                '\n' => f.write_str("\\n")?,
                '\r' => f.write_str("\\r")?,
                letter => f.write_char(letter)?,
            }
        }
        Ok(())
    }
}

/// Sees that the file of this name has the checksum that stands beside it, if one does, and goes back to the file's beginning then.
pub(crate) fn compare(rt: &HostRuntime, name: &str, file: &File) -> Result<(), NotLoaded> {
    let beside = name_of_sum(rt.alloc(), name)?;
    let line = match fs::read(rt, beside.as_str()) {
        Ok(line) => line,
        // (where the name is as long as one may be, nothing can stand beside it)
        Err(error)
            if matches!(
                error.kind(),
                ErrorKind::NotFound | ErrorKind::InvalidFilename
            ) => {
            return Ok(());
        }
        Err(error) if error.kind() == ErrorKind::OutOfMemory => return Err(NotLoaded::NoMemory),
        Err(error) => return Err(NotLoaded::NoSum(error)),
    };
    let sum = sum_of(rt.alloc(), file)?;
    let Ok(text) = format!(in rt.alloc(); "{sum}") else {
        return Err(NotLoaded::NoMemory);
    };
    match digits_in(line.as_slice()) {
        Some(digits) if digits.eq_ignore_ascii_case(text.as_bytes()) => {}
        _ => return Err(NotLoaded::Differs),
    }
    let mut file = file;
    match file.seek(SeekFrom::Start(0)) {
        Ok(_) => Ok(()),
        Err(error) => Err(NotLoaded::Io(error)),
    }
}

// The digits of a checksum on the first line of a text: with the name behind them, as `sha256sum` writes it, or in front, as BSD's `sha256` does
// and `sha256sum --tag`. None where it says none. The name doesn't matter.
fn digits_in(text: &[u8]) -> Option<&[u8]> {
    let line = text.split_at(length_before(b'\n', text)).0;
    let line = line.strip_prefix(b"\\").unwrap_or(line);
    if line.starts_with(b"SHA256 (") {
        let (name, digits) = line.split_at_checked(line.len().checked_sub(DIGITS)?)?;
        return name.ends_with(b") = ").then_some(digits);
    }
    let (digits, name) = line.split_at_checked(DIGITS)?;
    name.starts_with(b" ").then_some(digits)
}

// The sum of what is left of the file.
fn sum_of(alloc: Global, file: &File) -> Result<Sum, NotLoaded> {
    let mut file = Noting::new(file);
    match summed(alloc, &mut file)? {
        Some(sum) => Ok(sum),
        None => Err(unread(file.failure())),
    }
}

// The sum of the file; none where it can't be read.
fn summed<R: Read + Drop>(alloc: Global, file: R) -> Result<Option<Sum>, AllocError> {
    let mut hasher = Sha256::new();
    let mut input = BlockReader::new(alloc, file)?;
    for _ in 0..u64::MAX {
        match has_more(&mut input) {
            Ok(true) => {}
            Ok(false) => break,
            Err(ReadFault) => return Ok(None),
        }
        let count = input.front().len();
        hasher.update(input.front());
        input.consume(count);
    }
    Ok(Some(Sum(hasher.finalize())))
}

// Reads where nothing is here. Whether there is more then.
fn has_more<R: Input>(input: &mut R) -> Result<bool, ReadFault> {
    if !input.front().is_empty() {
        return Ok(true);
    }
    input.fill()
}
