//! Bytes between double quotes.
#![tactic(auto, using(tab_io::proofs::Putting::putting))]

ghost use Rattle.std.specs.Prelude.{◌∷◌, codes};
ghost use Rattle.tab_io.specs.Writing.{Puts};
ghost use Rattle.tab_accumulo.specs.Words.{shell_byte, shell_bytes, term_byte, term_bytes, quoted, listed};
ghost use Rattle.tab_accumulo.specs.Parts.{quoted_part};

use tab_io::{Output, WriteFault, put_byte};
use tab_label::AuthSet;
use tab_text::{PutItem, put_each, put_word};

/// What stands between quotes, and the quotes.
#[derive(Clone, Copy)]
pub(crate) enum QuotedPart<'a> {
    /// What is no byte of the text.
    Fixed(&'a [u8]),
    /// Bytes of it.
    Bytes(&'a [u8]),
    /// An authorization.
    Term(&'a [u8]),
    /// Authorizations, each behind a comma.
    Later(&'a [Vec<u8>]),
}

/// Puts the bytes between double quotes.
pub(crate) fn put_quoted<W: Output>(output: &mut W, bytes: &[u8]) -> Result<(), WriteFault>
    ensures { Puts W.Output output.old output.new (quoted bytes.now) result }
{
    let parts = [
        QuotedPart::Fixed(b"\""),
        QuotedPart::Bytes(bytes),
        QuotedPart::Fixed(b"\""),
    ];
    put_each(output, &parts, &QuotedParts)
}

/// Puts the option that says which authorizations there are.
pub(crate) fn put_authorizations<W: Output>(
    output: &mut W,
    auths: &AuthSet,
) -> Result<(), WriteFault>
    ensures { Puts W.Output output.old output.new (listed term_bytes auths.now) result }
{
    put_terms(output, auths.terms())
}

fn put_terms<W: Output>(output: &mut W, terms: &[Vec<u8>]) -> Result<(), WriteFault>
    ensures { Puts W.Output output.old output.new (listed (λ v. term_bytes v.items) terms.now) result }
{
    if terms.is_empty() {
        return output.put(b"-c");
    }
    put_some(output, &terms[0], terms.split_at(1).1)
}

fn put_some<'a, W: Output>(
    output: &mut W,
    first: &'a Vec<u8>,
    later: &'a [Vec<u8>],
) -> Result<(), WriteFault>
    ensures { Puts W.Output output.old output.new (listed (λ v. term_bytes v.items) (first.now ∷ later.now)) result }
{
    let parts = [
        QuotedPart::Fixed(b"-s \""),
        QuotedPart::Term(first.as_slice()),
        QuotedPart::Later(later),
        QuotedPart::Fixed(b"\""),
    ];
    put_each(output, &parts, &QuotedParts)
}

struct QuotedParts;

impl<'a> PutItem<QuotedPart<'a>> for QuotedParts {
    ghost use Rattle.tab_accumulo.specs.Parts.{quoted_part};

    ghost text = { λ _ part. quoted_part part };

    fn put_item<W: Output>(&self, output: &mut W, part: &QuotedPart<'a>) -> Result<(), WriteFault> {
        put_part(output, part)
    }
}

fn put_part<W: Output>(output: &mut W, part: &QuotedPart<'_>) -> Result<(), WriteFault>
    ensures { Puts W.Output output.old output.new (quoted_part part.now) result }
{
    match *part {
        QuotedPart::Fixed(text) => output.put(text),
        QuotedPart::Bytes(bytes) => put_bytes(output, bytes),
        QuotedPart::Term(term) => put_term(output, term),
        QuotedPart::Later(terms) => put_each(output, terms, &AfterComma),
    }
}

// A byte between double quotes.
struct ShellByte;

impl PutItem<u8> for ShellByte {
    ghost use Rattle.tab_accumulo.specs.Words.{shell_byte};

    ghost text = { λ _ byte. shell_byte byte };

    fn put_item<W: Output>(&self, output: &mut W, byte: &u8) -> Result<(), WriteFault> {
        put_shell_byte(output, *byte)
    }
}

fn put_shell_byte<W: Output>(output: &mut W, byte: u8) -> Result<(), WriteFault>
    ensures { Puts W.Output output.old output.new (shell_byte byte) result }
{
    if byte == b'"' {
        output.put(b"\\x22")
    } else {
        put_word(output, &[byte])
    }
}

// A byte of an authorization.
struct TermByte;

impl PutItem<u8> for TermByte {
    ghost use Rattle.tab_accumulo.specs.Words.{term_byte};

    ghost text = { λ _ byte. term_byte byte };

    fn put_item<W: Output>(&self, output: &mut W, byte: &u8) -> Result<(), WriteFault> {
        put_term_byte(output, *byte)
    }
}

fn put_term_byte<W: Output>(output: &mut W, byte: u8) -> Result<(), WriteFault>
    ensures { Puts W.Output output.old output.new (term_byte byte) result }
{
    if byte == b',' {
        output.put(b"\\x2c")
    } else {
        put_shell_byte(output, byte)
    }
}

// An authorization behind a comma.
struct AfterComma;

impl PutItem<Vec<u8>> for AfterComma {
    ghost use Rattle.std.specs.Prelude.{◌∷◌};
    ghost use Rattle.tab_accumulo.specs.Words.{term_bytes};

    ghost text = { λ _ term. 44 ∷ term_bytes term.items };

    fn put_item<W: Output>(&self, output: &mut W, term: &Vec<u8>) -> Result<(), WriteFault> {
        put_after_comma(output, term.as_slice())
    }
}

fn put_after_comma<W: Output>(output: &mut W, term: &[u8]) -> Result<(), WriteFault>
    ensures { Puts W.Output output.old output.new (44 ∷ term_bytes term.now) result }
{
    put_byte(output, b',')?;
    put_term(output, term)
}

fn put_term<W: Output>(output: &mut W, term: &[u8]) -> Result<(), WriteFault>
    ensures { Puts W.Output output.old output.new (term_bytes term.now) result }
{
    put_each(output, term, &TermByte)
}

fn put_bytes<W: Output>(output: &mut W, bytes: &[u8]) -> Result<(), WriteFault>
    ensures { Puts W.Output output.old output.new (shell_bytes bytes.now) result }
{
    put_each(output, bytes, &ShellByte)
}
