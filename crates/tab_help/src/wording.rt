//! The text of a reason.
use crate::asks::Asks;
use crate::fitting::Misfit;
use crate::forms::{LINES, meaning, parted};
use crate::reason::LineReason;
use std::fmt;
use std::fmt::{Display, Formatter};

/// How many bytes of a word are shown.
const SHOWN: usize = 60;

// A word's first bytes, each as it stands or as `\x` and two digits.
#[derive(Clone, Copy)]
struct Shown<'a>(&'a [u8]);

impl Display for Shown<'_> {
    fn fmt<W: fmt::Write>(&self, f: &mut Formatter<W>) -> fmt::Result {
        for byte in self.0.iter().take(SHOWN) {
            if b' ' < *byte && *byte <= b'~' {
                f.write_char(*byte as char)?;
            } else {
                write!(f, "\\x{byte:02x}")?;
            }
        }
        f.write_str(if self.0.len() > SHOWN { ".." } else { "" })
    }
}

// The commands of these lines, each once.
#[derive(Clone, Copy)]
struct Commands(Asks);

impl Display for Commands {
    fn fmt<W: fmt::Write>(&self, f: &mut Formatter<W>) -> fmt::Result {
        let mut last = b"".as_slice();
        for row in LINES.lines() {
            let (command, _) = parted(row);
            if command.as_bytes() != last && self.0.has(command.as_bytes()) {
                write!(f, " {command}")?;
            }
            last = command.as_bytes();
        }
        Ok(())
    }
}

impl Misfit<'_> {
    // What fits in place of the word: kinds with what they are, and the end.
    fn expected<W: fmt::Write>(&self, f: &mut Formatter<W>) -> fmt::Result {
        if let Some(kind) = self.kind {
            write!(f, "{kind} ({})", meaning(kind))?;
        }
        if let Some(other) = self.other {
            write!(f, " or {other} ({})", meaning(other))?;
        }
        match (self.end, self.kind) {
            (false, _) => Ok(()),
            (true, None) => f.write_str("the end of the line"),
            (true, Some(_)) => f.write_str(" or the end of the line"),
        }
    }
}

impl Display for Misfit<'_> {
    fn fmt<W: fmt::Write>(&self, f: &mut Formatter<W>) -> fmt::Result {
        let place = self.place;
        match self.word {
            Some(word) => write!(f, "word {place}, \"{}\": expected ", Shown(word))?,
            None => write!(f, "word {place} is missing: expected ")?,
        }
        self.expected(f)
    }
}

impl Display for LineReason<'_> {
    fn fmt<W: fmt::Write>(&self, f: &mut Formatter<W>) -> fmt::Result {
        match self {
            LineReason::Mark(word) => write!(
                f,
                "word 1, \"{}\": expected no byte order mark (\\xef\\xbb\\xbf) at the beginning",
                Shown(word)
            ),
            LineReason::Return(place, word) => write!(
                f,
                "word {place}, \"{}\": expected no carriage return (\\x0d) at the end of the line",
                Shown(word)
            ),
            LineReason::Command(asks, word) => write!(
                f,
                "word 1, \"{}\": expected a command, one of{}",
                Shown(word),
                Commands(*asks)
            ),
            LineReason::Near(word, command) => write!(
                f,
                "word 1, \"{}\": expected a command: did you mean {command}?",
                Shown(word)
            ),
            LineReason::Word(misfit) => Display::fmt(misfit, f),
            LineReason::Form => f.write_str("expected a line of another form"),
        }
    }
}
