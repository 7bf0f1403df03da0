//! What of the table is for the lines that are asked for.
use crate::asks::Asks;
use crate::forms::{KINDS, LINES, UPDATES, parted};
use std::fmt;
use std::fmt::{Display, Formatter};

/// The forms of these lines, a row each.
#[derive(Clone, Copy)]
pub struct Forms(pub Asks);

impl Display for Forms {
    fn fmt<W: fmt::Write>(&self, f: &mut Formatter<W>) -> fmt::Result {
        for row in LINES.lines() {
            let (command, _) = parted(row);
            if self.0.has(command.as_bytes()) {
                writeln!(f, "{row}")?;
            }
        }
        Ok(())
    }
}

/// The kinds of the words of these lines and of updates, and what each is, a row each.
#[derive(Clone, Copy)]
pub struct Kinds(pub Asks);

impl Display for Kinds {
    fn fmt<W: fmt::Write>(&self, f: &mut Formatter<W>) -> fmt::Result {
        for row in KINDS.lines() {
            let (kind, _) = parted(row);
            if names(self.0, kind) {
                writeln!(f, "{row}")?;
            }
        }
        Ok(())
    }
}

// Whether a form of these lines, or of an update, has a word of this kind.
fn names(asks: Asks, kind: &str) -> bool {
    for row in LINES.lines() {
        let (command, rest) = parted(row);
        if asks.has(command.as_bytes()) && has_kind(rest, kind) {
            return true;
        }
    }
    UPDATES.lines().any(|row| has_kind(row, kind))
}

/// Whether the form has a word of this kind.
pub(crate) fn has_kind(form: &str, kind: &str) -> bool {
    for word in form.split(' ') {
        let name = word
            .trim_start_matches('[')
            .trim_end_matches('.')
            .trim_end_matches(']');
        if name == kind {
            return true;
        }
    }
    false
}
