//! The records of a text, one after another, with the lines at which they begin.
use crate::source::LineSource;
use csv::{ByteRecord, ErrorKind, Reader, ReaderBuilder};
use std::alloc::Global;
use tab_io::Input;
use thiserror::Error;

/// What came next in a text.
#[derive(Clone, Copy, Debug, PartialEq, Eq)]
pub(crate) enum Next {
    /// A record.
    Record,
    /// A record with a quote that isn't closed, up to the end.
    OpenQuote,
    /// The end.
    End,
}

/// Why the next record of a text can't be read.
#[derive(Clone, Copy, Debug, PartialEq, Eq, Error)]
pub enum TextFault {
    /// The text can't be read.
    #[error("the input can't be read")]
    Read,
    /// There is no memory for a record.
    #[error("there is no memory")]
    NoMemory,
}

/// A text of CSV, and the record that was read of it last.
#[derive(Drop)]
pub(crate) struct RecordReader<I: Input> {
    reader: Reader<LineSource<I>>,
    record: ByteRecord,
}

impl<I: Input> RecordReader<I> {
    /// Of this text.
    pub(crate) fn new(alloc: Global, input: I) -> RecordReader<I> {
        let reader = ReaderBuilder::new()
            .has_headers(false)
            .flexible(true)
            .from_reader(alloc, LineSource::new(input));
        RecordReader {
            reader,
            record: ByteRecord::new(alloc),
        }
    }

    /// Reads the next record.
    pub(crate) fn read(&mut self) -> Result<Next, TextFault> {
        match self.reader.read_byte_record(&mut self.record) {
            Ok(false) => Ok(Next::End),
            Ok(true) if self.reader.get_ref().is_ended() => Ok(Next::OpenQuote),
            Ok(true) => Ok(Next::Record),
            Err(error) => match error.kind() {
                ErrorKind::OutOfMemory => Err(TextFault::NoMemory),
                _ => Err(TextFault::Read),
            },
        }
    }

    /// The record that was read last.
    pub(crate) fn record(&self) -> &ByteRecord {
        &self.record
    }

    /// The number of the line at which that record begins: its last line's, but for the line feeds in its fields.
    pub(crate) fn line(&self) -> u64 {
        let bytes = self.record.as_slice();
        let within = bytes.iter().filter(|byte| **byte == b'\n').count();
        self.reader.get_ref().line().saturating_sub(within as u64)
    }
}
