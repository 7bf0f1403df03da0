//! Answers that nobody hears.
use std::io;
use std::io::Write;

// What a line is told for which there is no memory.
const LACK: &[u8] = b"refused 17 NoMemory";

/// A writer for the answers to lines that are replayed, which go nowhere. It sees whether a line lacked memory.
#[derive(Drop)]
pub struct Unheard {
    // how many bytes of a line are those of that refusal so far; none where others came
    alike: Option<usize>,
    has_lacked: bool,
}

impl Unheard {
    /// Nothing was answered yet.
    pub fn new() -> Unheard {
        Unheard {
            alike: Some(0),
            has_lacked: false,
        }
    }

    /// Whether a line was refused for want of memory.
    pub fn has_lacked(&self) -> bool {
        self.has_lacked
    }

    // Sees the next byte of the answers.
    fn see(&mut self, byte: u8) {
        if byte == b'\n' {
            self.has_lacked = self.has_lacked || self.alike == Some(LACK.len());
            self.alike = Some(0);
        } else {
            self.alike = longer(self.alike, byte);
        }
    }
}

impl Write for Unheard {
    fn write(&mut self, buf: &[u8]) -> io::Result<usize> {
        for byte in buf {
            self.see(*byte);
        }
        Ok(buf.len())
    }

    fn flush(&mut self) -> io::Result<()> {
        Ok(())
    }
}

// How many bytes of a line are those of the refusal, with this one behind so many.
fn longer(alike: Option<usize>, byte: u8) -> Option<usize> {
    let count = alike?;
    match LACK.get(count) {
        Some(next) if *next == byte => count.checked_add(1),
        _ => None,
    }
}
