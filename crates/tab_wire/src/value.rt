//! The values that a frame is put of, and the frame round them.
#![tactic(auto, using(tab_io::proofs::Putting::putting))]

ghost use Rattle.std.specs.Prelude.{◌≡◌, ◌%◌, ◌^◌, ◌++◌, ◌∷◌, map, length};
ghost use Rattle.std.specs.List.{flat_map};
ghost use Rattle.tab_label.specs.Sets.{byte_lists};
ghost use Rattle.tab_io.specs.Writing.{Puts};
ghost use Rattle.tab_wire.specs.Replies.{u32, field, list, frame, violation_bytes};
ghost use Rattle.tab_wire.specs.Values.{value_bytes, joined};

use tab_codec::{low, put_field, put_length, put_long, put_number, put_signed};
use tab_io::{Output, WriteFault, put_byte};
use tab_rules::Violation;
use tab_text::{PutItem, put_each};

/// One value in a frame.
#[derive(Clone, Copy)]
pub enum Value<'a> {
    /// One byte.
    Byte(u8),
    /// Four bytes.
    Number(u32),
    /// Eight bytes.
    Long(u64),
    /// Eight bytes, with a sign.
    Signed(i64),
    /// A length of four bytes, and these.
    Field(&'a [u8]),
    /// A count of four bytes, and a field for each.
    Terms(&'a [Vec<u8>]),
    /// A count of four bytes, and six bytes for each.
    Violations(&'a [Violation]),
}

// How many bytes a field has, as four bytes hold it.
#[tactic(auto, using(crate::proofs::Lengths::held_field))]
fn length_of_field(text: &[u8]) -> u32
    ensures { result ≡ length (field text.now) % 2 ^ 32 }
{
    low(text.len()).wrapping_add(4)
}

// How many bytes the fields of the terms have, as four bytes hold it.
fn length_of_terms(terms: &[Vec<u8>]) -> u32
    ensures { result ≡ length (flat_map field (byte_lists terms.now)) % 2 ^ 32 }
{
    let mut length: u32 = 0;
    for term in terms {
        length = length.wrapping_add(length_of_field(term.as_slice()));
    }
    length
}

// How many bytes the terms have with their count.
#[tactic(auto, using(crate::proofs::Lengths::held_counted))]
fn length_of_list(terms: &[Vec<u8>]) -> u32
    ensures { result ≡ length (list (byte_lists terms.now)) % 2 ^ 32 }
{
    length_of_terms(terms).wrapping_add(4)
}

// How many bytes what is violated takes, as four bytes hold it.
#[tactic(auto, using(crate::proofs::Lengths::held_violations))]
fn length_of_violations(violations: &[Violation]) -> u32
    ensures { result ≡ length (u32 (length violations.now) ++ flat_map violation_bytes violations.now) % 2 ^ 32 }
{
    low(violations.len()).wrapping_mul(6).wrapping_add(4)
}

// How many bytes the value has, as four bytes hold it.
#[tactic(auto, unfolding(tab_codec::specs::Spelling::u32, tab_codec::specs::Spelling::u64, tab_codec::specs::Spelling::i64))]
fn length_of(value: &Value<'_>) -> u32
    ensures { result ≡ length (value_bytes value.now) % 2 ^ 32 }
{
    match *value {
        Value::Byte(_) => 1,
        Value::Number(_) => 4,
        Value::Long(_) => 8,
        Value::Signed(_) => 8,
        Value::Field(text) => length_of_field(text),
        Value::Terms(terms) => length_of_list(terms),
        Value::Violations(violations) => length_of_violations(violations),
    }
}

// How many bytes all of them have, as four bytes hold it.
fn total(values: &[Value<'_>]) -> u32
    ensures { result ≡ length (flat_map value_bytes values.now) % 2 ^ 32 }
{
    let mut total: u32 = 0;
    for value in values {
        total = total.wrapping_add(length_of(value));
    }
    total
}

/// Puts a frame of these values: its length, and they one after another. It takes no memory.
pub fn put_frame<W: Output>(output: &mut W, values: &[Value<'_>]) -> Result<(), WriteFault>
    ensures { Puts W.Output output.old output.new (frame (joined (map value_bytes values.now))) result }
{
    put_total(output, values)?;
    put_values(output, values)
}

fn put_total<W: Output>(output: &mut W, values: &[Value<'_>]) -> Result<(), WriteFault>
    ensures { Puts W.Output output.old output.new (u32 (length (joined (map value_bytes values.now)))) result }
{
    put_number(output, total(values))
}

/// Puts these values one after another. It takes no memory.
pub fn put_values<W: Output>(output: &mut W, values: &[Value<'_>]) -> Result<(), WriteFault>
    ensures { Puts W.Output output.old output.new (joined (map value_bytes values.now)) result }
{
    put_each(output, values, &InFrame)
}

// A value, as it stands in a frame.
struct InFrame;

impl<'a> PutItem<Value<'a>> for InFrame {
    ghost use Rattle.tab_wire.specs.Values.{value_bytes};

    ghost text = { λ _ value. value_bytes value };

    fn put_item<W: Output>(&self, output: &mut W, value: &Value<'a>) -> Result<(), WriteFault> {
        put_value(output, value)
    }
}

fn put_value<W: Output>(output: &mut W, value: &Value<'_>) -> Result<(), WriteFault>
    ensures { Puts W.Output output.old output.new (value_bytes value.now) result }
{
    match *value {
        Value::Byte(byte) => put_byte(output, byte),
        Value::Number(number) => put_number(output, number),
        Value::Long(number) => put_long(output, number),
        Value::Signed(number) => put_signed(output, number),
        Value::Field(text) => put_field(output, text),
        Value::Terms(terms) => put_terms(output, terms),
        Value::Violations(violations) => put_violations(output, violations),
    }
}

/// Puts a count of terms, and a field for each.
pub fn put_terms<W: Output>(output: &mut W, terms: &[Vec<u8>]) -> Result<(), WriteFault>
    ensures { Puts W.Output output.old output.new (list (byte_lists terms.now)) result }
{
    put_count_of_terms(output, terms)?;
    put_each_term(output, terms)
}

fn put_count_of_terms<W: Output>(output: &mut W, terms: &[Vec<u8>]) -> Result<(), WriteFault>
    ensures { Puts W.Output output.old output.new (u32 (length (byte_lists terms.now))) result }
{
    put_length(output, terms.len())
}

fn put_each_term<W: Output>(output: &mut W, terms: &[Vec<u8>]) -> Result<(), WriteFault>
    ensures { Puts W.Output output.old output.new (flat_map field (byte_lists terms.now)) result }
{
    put_each(output, terms, &TermField)
}

// A term, as a field.
struct TermField;

impl PutItem<Vec<u8>> for TermField {
    ghost use Rattle.tab_wire.specs.Replies.{field};

    ghost text = { λ _ term. field term.items };

    fn put_item<W: Output>(&self, output: &mut W, term: &Vec<u8>) -> Result<(), WriteFault> {
        put_field(output, term.as_slice())
    }
}

fn put_violations<W: Output>(output: &mut W, violations: &[Violation]) -> Result<(), WriteFault>
    ensures { Puts W.Output output.old output.new (u32 (length violations.now) ++ flat_map violation_bytes violations.now) result }
{
    put_length(output, violations.len())?;
    put_each(output, violations, &SixBytes)
}

// What fails: the constraint's number, the code, and the update.
struct SixBytes;

impl PutItem<Violation> for SixBytes {
    ghost use Rattle.tab_wire.specs.Replies.{violation_bytes};

    ghost text = { λ _ violation. violation_bytes violation };

    fn put_item<W: Output>(&self, output: &mut W, violation: &Violation) -> Result<(), WriteFault> {
        put_violation(output, violation)
    }
}

fn put_violation<W: Output>(output: &mut W, violation: &Violation) -> Result<(), WriteFault>
    ensures { Puts W.Output output.old output.new (violation_bytes violation.now) result }
{
    put_six_bytes(
        output,
        violation.constraint.number(),
        violation.code,
        violation.update,
    )
}

fn put_six_bytes<W: Output>(
    output: &mut W,
    number: u8,
    code: u8,
    update: u32,
) -> Result<(), WriteFault>
    ensures { Puts W.Output output.old output.new (number ∷ code ∷ u32 update) result }
{
    put_byte(output, number)?;
    put_code_and_update(output, code, update)
}

fn put_code_and_update<W: Output>(output: &mut W, code: u8, update: u32) -> Result<(), WriteFault>
    ensures { Puts W.Output output.old output.new (code ∷ u32 update) result }
{
    put_byte(output, code)?;
    put_number(output, update)
}
