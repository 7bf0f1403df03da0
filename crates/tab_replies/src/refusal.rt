//! The texts of refusals.
#![tactic(auto, using(tab_io::proofs::Putting::putting))]

ghost use Rattle.std.specs.Prelude.{◌≡◌, ◌++◌, [], ◌∷◌, map, codes, decimal};
ghost use Rattle.tab_io.specs.Writing.{Puts};
ghost use Rattle.tab_text.specs.Words.{word};
ghost use Rattle.tab_text.specs.Lines.{line_text, after_spaces, word_text};
ghost use Rattle.tab_replies.specs.Texts.{part_name, split_word, permission_words, violation_word, refusal_text};

use tab_history::{Refusal, SplitFault};
use tab_io::{Output, WriteFault, put_byte, put_decimal};
use tab_key::{LimitedPart, Name};
use tab_policy::Permission;
use tab_rules::Violation;
use tab_text::{PutItem, Word, put_each, put_line};

/// Writes the number, the name and the words of a refusal. It takes no memory.
pub fn put_refusal<W: Output>(output: &mut W, refusal: &Refusal) -> Result<(), WriteFault>
    ensures { Puts W.Output output.old output.new (refusal_text refusal.now) result }
{
    match refusal {
        Refusal::UnknownUser(user) => put_name(output, b"1", b"UnknownUser", user),
        Refusal::NoTable(table) => put_name(output, b"2", b"NoTable", table),
        Refusal::PermissionDenied(permission) => put_denied(output, permission),
        Refusal::BadAuthorizations(term) => put_named(
            output,
            b"4",
            b"BadAuthorizations",
            Word::Bytes(term.as_bytes()),
        ),
        Refusal::MalformedVisibility(update, offset) => put_malformed(output, *update, *offset),
        Refusal::ConstraintViolation(violations) => put_violation(output, violations.as_slice()),
        Refusal::TimestampNotAllowed(update) => {
            put_number(output, b"7", b"TimestampNotAllowed", *update as u64)
        }
        Refusal::EmptyMutation => put_bare(output, b"8", b"EmptyMutation"),
        Refusal::TooLarge(part) => put_text(output, b"9", b"TooLarge", part_name(*part)),
        Refusal::TableExists(table) => put_name(output, b"10", b"TableExists", table),
        Refusal::UserExists(user) => put_name(output, b"11", b"UserExists", user),
        Refusal::NoUser(user) => put_name(output, b"12", b"NoUser", user),
        Refusal::BadRange => put_bare(output, b"13", b"BadRange"),
        Refusal::Stale(count) => put_number(output, b"14", b"Stale", *count),
        Refusal::NoSession(slot) => put_number(output, b"15", b"NoSession", *slot as u64),
        Refusal::NoJob(slot) => put_number(output, b"15", b"NoSession", *slot),
        Refusal::NoMemory => put_bare(output, b"17", b"NoMemory"),
        Refusal::RootFixed => put_bare(output, b"18", b"RootFixed"),
        Refusal::GrantInvalid => put_bare(output, b"19", b"GrantInvalid"),
        Refusal::BadSplit(fault) => put_text(output, b"20", b"BadSplit", split_word(*fault)),
        Refusal::VersionsRaised(present) => {
            put_number(output, b"21", b"VersionsRaised", *present as u64)
        }
        Refusal::HorizonLowered(present) => {
            put_named(output, b"22", b"HorizonLowered", Word::Signed(*present))
        }
        Refusal::BelowHorizon(update) => put_number(output, b"22", b"BelowHorizon", *update as u64),
        Refusal::ServerTime => put_bare(output, b"22", b"ServerTime"),
    }
}

// A refusal that names a user or a table.
fn put_name<'a, W: Output>(
    output: &mut W,
    number: &'a [u8],
    name: &'a [u8],
    named: &'a Name,
) -> Result<(), WriteFault>
    ensures { Puts W.Output output.old output.new (line_text (codes "refused" ∷ number.now ∷ name.now ∷ word named.now ∷ [])) result }
{
    put_named(output, number, name, Word::Bytes(named.as_bytes()))
}

// A refusal with one word of the texts' own.
fn put_text<'a, W: Output>(
    output: &mut W,
    number: &'a [u8],
    name: &'a [u8],
    text: &'a [u8],
) -> Result<(), WriteFault>
    ensures { Puts W.Output output.old output.new (line_text (codes "refused" ∷ number.now ∷ name.now ∷ text.now ∷ [])) result }
{
    put_named(output, number, name, Word::Text(text))
}

// A refusal with one number.
fn put_number<'a, W: Output>(
    output: &mut W,
    number: &'a [u8],
    name: &'a [u8],
    told: u64,
) -> Result<(), WriteFault>
    ensures { Puts W.Output output.old output.new (line_text (codes "refused" ∷ number.now ∷ name.now ∷ decimal told ∷ [])) result }
{
    put_named(output, number, name, Word::Number(told))
}

// A refusal without words.
fn put_bare<'a, W: Output>(
    output: &mut W,
    number: &'a [u8],
    name: &'a [u8],
) -> Result<(), WriteFault>
    ensures { Puts W.Output output.old output.new (line_text (codes "refused" ∷ number.now ∷ name.now ∷ [])) result }
{
    put_line(
        output,
        &[Word::Text(b"refused"), Word::Text(number), Word::Text(name)],
    )
}

// A refusal with one word.
fn put_named<'a, W: Output>(
    output: &mut W,
    number: &'a [u8],
    name: &'a [u8],
    word: Word<'a>,
) -> Result<(), WriteFault>
    ensures { Puts W.Output output.old output.new (line_text (codes "refused" ∷ number.now ∷ name.now ∷ word_text word.entry ∷ [])) result }
{
    put_line(
        output,
        &[
            Word::Text(b"refused"),
            Word::Text(number),
            Word::Text(name),
            word,
        ],
    )
}

fn put_malformed<W: Output>(output: &mut W, update: u32, offset: u32) -> Result<(), WriteFault>
    ensures { Puts W.Output output.old output.new (line_text (codes "refused" ∷ codes "5" ∷ codes "MalformedVisibility" ∷ decimal update ∷ decimal offset ∷ [])) result }
{
    put_line(
        output,
        &[
            Word::Text(b"refused"),
            Word::Text(b"5"),
            Word::Text(b"MalformedVisibility"),
            Word::Number(update as u64),
            Word::Number(offset as u64),
        ],
    )
}

fn put_denied<W: Output>(output: &mut W, permission: &Permission) -> Result<(), WriteFault>
    ensures { Puts W.Output output.old output.new (line_text (codes "refused" ∷ codes "3" ∷ codes "PermissionDenied" ∷ permission_words permission.now)) result }
{
    match permission {
        Permission::OfSystem(permission) => put_named(
            output,
            b"3",
            b"PermissionDenied",
            Word::Qualified(b"System", permission.name()),
        ),
        Permission::OfTable(permission, table) => put_line(
            output,
            &[
                Word::Text(b"refused"),
                Word::Text(b"3"),
                Word::Text(b"PermissionDenied"),
                Word::Qualified(b"Table", permission.name()),
                Word::Bytes(table.as_bytes()),
            ],
        ),
    }
}

// As many words as constraints fail.
fn put_violation<W: Output>(output: &mut W, violations: &[Violation]) -> Result<(), WriteFault>
    ensures { Puts W.Output output.old output.new (codes "refused 6 ConstraintViolation" ++ (after_spaces (map violation_word violations.now) ++ 10 ∷ [])) result }
{
    match output.put(b"refused 6 ConstraintViolation") {
        Ok(()) => put_violation_line(output, violations),
        Err(fault) => Err(fault),
    }
}

fn put_violation_line<W: Output>(output: &mut W, violations: &[Violation]) -> Result<(), WriteFault>
    ensures { Puts W.Output output.old output.new (after_spaces (map violation_word violations.now) ++ 10 ∷ []) result }
{
    put_violation_words(output, violations)?;
    put_byte(output, b'\n')
}

fn put_violation_words<W: Output>(
    output: &mut W,
    violations: &[Violation],
) -> Result<(), WriteFault>
    ensures { Puts W.Output output.old output.new (after_spaces (map violation_word violations.now)) result }
{
    put_each(output, violations, &ViolationWord)
}

// What fails, behind a space.
struct ViolationWord;

impl PutItem<Violation> for ViolationWord {
    ghost use Rattle.std.specs.Prelude.{◌∷◌};
    ghost use Rattle.tab_replies.specs.Texts.{violation_word};

    ghost text = { λ _ violation. 32 ∷ violation_word violation };

    fn put_item<W: Output>(&self, output: &mut W, violation: &Violation) -> Result<(), WriteFault> {
        match put_byte(output, b' ') {
            Ok(()) => put_one_violation(output, violation),
            Err(fault) => Err(fault),
        }
    }
}

// The constraint's number, the code and the update, parted by colons.
fn put_one_violation<W: Output>(output: &mut W, violation: &Violation) -> Result<(), WriteFault>
    ensures { Puts W.Output output.old output.new (violation_word violation.now) result }
{
    put_decimal(output, violation.constraint.number() as u64)?;
    put_code_and_update(output, violation.code as u64, violation.update as u64)
}

fn put_code_and_update<W: Output>(output: &mut W, code: u64, update: u64) -> Result<(), WriteFault>
    ensures { Puts W.Output output.old output.new ((58 ∷ decimal code) ++ (58 ∷ decimal update)) result }
{
    match put_after_colon(output, code) {
        Ok(()) => put_after_colon(output, update),
        Err(fault) => Err(fault),
    }
}

fn put_after_colon<W: Output>(output: &mut W, number: u64) -> Result<(), WriteFault>
    ensures { Puts W.Output output.old output.new (58 ∷ decimal number) result }
{
    put_byte(output, b':')?;
    put_decimal(output, number)
}

fn split_word(fault: SplitFault) -> &'static [u8]
    ensures { result.now ≡ split_word fault }
{
    match fault {
        SplitFault::Present => b"present",
        SplitFault::Small => b"small",
        SplitFault::OneRow => b"onerow",
    }
}

fn part_name(part: LimitedPart) -> &'static [u8]
    ensures { result.now ≡ part_name part }
{
    match part {
        LimitedPart::Updates => b"updates",
        LimitedPart::Row => b"row",
        LimitedPart::Family => b"family",
        LimitedPart::Qualifier => b"qualifier",
        LimitedPart::Label => b"label",
        LimitedPart::Value => b"value",
        LimitedPart::Columns => b"columns",
        LimitedPart::Authorizations => b"authorizations",
        LimitedPart::Ranges => b"ranges",
        LimitedPart::Sessions => b"sessions",
        LimitedPart::Numbers => b"numbers",
    }
}
