//! The header of a journal: its text, and what is read of it.
ghost use Rattle.std.specs.Prelude.{◌≡◌, IfOk, option_map};
ghost use Rattle.tab_journal.specs.Journals.{sum_of, header_summed};
ghost use Rattle.tab_journal.specs.Reading.{header_at, mark_at};
ghost use Rattle.tab_journal.specs.Said.{header_in};
ghost use Rattle.tab_journal.specs.Spelling.{header_bytes};
ghost use Rattle.tab_journal.specs.declared.seal.Form.TheVariants.{Tagged};

use crate::format::{Format, kind_of, mark_of};
use crate::seal::{Form, Seal};
use crate::sums::header_sum;
use std::alloc::{AllocError, Global};
use tab_codec::{take_long, take_signed};

/// What a journal begins with.
#[derive(Clone, Copy, Debug, PartialEq, Eq)]
pub struct Header {
    /// What the batches keep.
    pub format: Format,
    /// Which journal it is.
    pub generation: u64,
    /// The number of the next mutation of the core that it goes on from.
    pub next: u64,
    /// The clock of that core.
    pub clock: i64,
    /// By what its batches are told from other bytes.
    pub seal: Seal,
    /// Its sum, which the first batch has before it.
    pub sum: u64,
}

impl Header {
    /// A header of tagged batches with these numbers, and its sum.
    pub fn new(format: Format, generation: u64, next: u64, clock: i64, salt: u64) -> Header
        ensures numbers { result ≡ record { format = format; generation = generation; next = next; clock = clock; seal = record { form = Tagged; salt = salt }; sum = result.sum } }
        ensures right { result.sum ≡ sum_of (header_summed result.format result.generation result.next result.clock result.seal) }
    {
        let seal = Seal {
            form: Form::Tagged,
            salt,
        };
        Header {
            format,
            generation,
            next,
            clock,
            seal,
            sum: header_sum(format, generation, next, clock, seal),
        }
    }
}

/// The text of a header, 48 bytes.
pub fn header_text(alloc: Global, header: Header) -> Result<Vec<u8>, AllocError>
    ensures { IfOk result (λ text. text.items ≡ header_bytes (header_in header)) }
{
    let mut text = Vec::new(alloc);
    text.extend_from_slice(&mark_of(header.format, header.seal.form))?;
    text.extend_from_slice(&header.generation.to_be_bytes())?;
    text.extend_from_slice(&header.next.to_be_bytes())?;
    text.extend_from_slice(&header.clock.to_be_bytes())?;
    text.extend_from_slice(&header.seal.salt.to_be_bytes())?;
    text.extend_from_slice(&header.sum.to_be_bytes())?;
    Ok(text)
}

/// The header at the beginning of some bytes, and what stands behind it. `None`: they begin with none that is whole and has its sum.
#[tactic(auto, unfolding(crate::specs::Reading::header_at))]
pub fn take_header(bytes: &[u8]) -> Option<(Header, &[u8])>
    ensures { option_map (λ x. (header_in x.0, x.1.now)) result ≡ header_at bytes.now }
{
    let (format, form, rest) = take_mark(bytes)?;
    let (generation, rest) = take_long(rest)?;
    let (next, rest) = take_long(rest)?;
    let (clock, rest) = take_signed(rest)?;
    let (salt, rest) = take_long(rest)?;
    let (sum, rest) = take_long(rest)?;
    let seal = Seal { form, salt };
    if sum != header_sum(format, generation, next, clock, seal) {
        return None;
    }
    Some((
        Header {
            format,
            generation,
            next,
            clock,
            seal,
            sum,
        },
        rest,
    ))
}

// The format and the form whose mark stands in front, and what stands behind it.
#[tactic(auto, unfolding(crate::specs::Reading::mark_at))]
fn take_mark(bytes: &[u8]) -> Option<(Format, Form, &[u8])>
    ensures { option_map (λ x. ((x.0, x.1), x.2.now)) result ≡ mark_at bytes.now }
{
    if bytes.len() < 8 {
        return None;
    }
    let (mark, rest) = bytes.split_at(8);
    let (format, form) = kind_of(mark)?;
    Some((format, form, rest))
}
