//! What the batches of a journal keep, and by which mark that is told.
ghost use Rattle.std.specs.Prelude.{◌≡◌};
ghost use Rattle.tab_journal.specs.Journals.{mark};
ghost use Rattle.tab_journal.specs.Reading.{kind_of};

use crate::seal::Form;

/// What the batches of a journal keep.
#[derive(Clone, Copy, Debug, PartialEq, Eq)]
pub enum Format {
    /// Lines of a script: version 1 or 3.
    Lines,
    /// Entries of a history: version 2 or 4.
    Events,
}

/// What a journal of this format and form begins with: six bytes and the version.
pub fn mark_of(format: Format, form: Form) -> [u8; 8]
    ensures { result ≡ mark format form }
{
    match (format, form) {
        (Format::Lines, Form::Plain) => *b"TABJRN\x00\x01",
        (Format::Events, Form::Plain) => *b"TABJRN\x00\x02",
        (Format::Lines, Form::Tagged) => *b"TABJRN\x00\x03",
        (Format::Events, Form::Tagged) => *b"TABJRN\x00\x04",
    }
}

/// The format and the form of a journal that begins so.
pub fn kind_of(mark: &[u8]) -> Option<(Format, Form)>
    ensures { result ≡ kind_of mark.now }
{
    if mark == b"TABJRN\x00\x01".as_slice() {
        return Some((Format::Lines, Form::Plain));
    }
    if mark == b"TABJRN\x00\x02".as_slice() {
        return Some((Format::Events, Form::Plain));
    }
    if mark == b"TABJRN\x00\x03".as_slice() {
        return Some((Format::Lines, Form::Tagged));
    }
    if mark == b"TABJRN\x00\x04".as_slice() {
        return Some((Format::Events, Form::Tagged));
    }
    None
}
