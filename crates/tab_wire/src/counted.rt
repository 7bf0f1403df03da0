//! A count, and that many parts of a frame.
ghost use Rattle.std.specs.Prelude.{◌≡◌, map};
ghost use Rattle.tab_label.specs.Sets.{byte_lists, set_of};
ghost use Rattle.tab_codec.specs.Reading.{u32_at, parts_at, counted_at, list_at};
ghost use Rattle.tab_text.specs.Gives.{Gives};
ghost use Rattle.tab_wire.specs.Gives.{bytes_left};
ghost use Rattle.tab_wire.specs.FrameReading.{columns_at, ranges_at};
ghost use Rattle.tab_wire.specs.Tells.{violations_at};

use crate::parts::a_column;
use crate::reply_frame::a_violation;
use std::alloc::Global;
use tab_codec::{Fields, a_field, a_number, a_range};
use tab_key::{Bounds, Column, Items};
use tab_rules::Violation;
use tab_text::ParseError;

/// What can stand behind a count.
pub trait Countable: Drop {
    ghost use Rattle.std.specs.Prelude.{ℕ, List, Option};
    ghost use Rattle.tab_codec.specs.Reading.{Reader};

    // What contracts see of a part.
    ghost Meaning: { Type 0 };

    ghost meaning_of: { Self → Meaning };

    // What is read at the front of some bytes.
    ghost reads: { Reader Meaning };

    /// Takes one part.
    fn take(alloc: Global, fields: &mut Fields) -> Result<Self, ParseError>
        ensures { Gives (λ x. (meaning_of x, bytes_left fields.new)) result (reads (bytes_left fields.old)) };
}

impl Countable for Vec<u8> {
    ghost use Rattle.std.specs.Prelude.{ℕ, List};
    ghost use Rattle.tab_codec.specs.Reading.{field_at};

    ghost Meaning = { List ℕ };

    ghost meaning_of = { λ v. v.items };

    ghost reads = { field_at };

    fn take(alloc: Global, fields: &mut Fields) -> Result<Vec<u8>, ParseError> {
        let text = a_field(fields)?;
        Ok(Vec::from_slice(alloc, text)?)
    }
}

impl Countable for Column {
    ghost use Rattle.tab_key.specs.declared.column.Column.{Column as Named};
    ghost use Rattle.tab_wire.specs.FrameReading.{column_at};

    ghost Meaning = { Named };

    ghost meaning_of = { λ c. c };

    ghost reads = { column_at };

    fn take(alloc: Global, fields: &mut Fields) -> Result<Column, ParseError> {
        a_column(alloc, fields)
    }
}

impl Countable for Bounds {
    ghost use Rattle.tab_key.specs.declared.range.Bounds.{Bounds as Ends};
    ghost use Rattle.tab_codec.specs.Reading.{bounds_at};

    ghost Meaning = { Ends };

    ghost meaning_of = { λ b. b };

    ghost reads = { bounds_at };

    fn take(alloc: Global, fields: &mut Fields) -> Result<Bounds, ParseError> {
        a_range(alloc, fields)
    }
}

impl Countable for Violation {
    ghost use Rattle.tab_rules.specs.declared.violation.Violation.{Violation as Failing};
    ghost use Rattle.tab_wire.specs.Tells.{violation_at};

    ghost Meaning = { Failing };

    ghost meaning_of = { λ v. v };

    ghost reads = { violation_at };

    fn take(_alloc: Global, fields: &mut Fields) -> Result<Violation, ParseError> {
        a_violation(fields)
    }
}

// Takes that many parts.
fn parts<T: Countable>(alloc: Global, count: u32, fields: &mut Fields) -> Result<Vec<T>, ParseError>
    ensures { Gives (λ x. (map T.meaning_of x.items, bytes_left fields.new)) result (parts_at T.reads count (bytes_left fields.old)) }
{
    let mut parts = Vec::new(alloc);
    for _ in 0..count {
        parts.push(T::take(alloc, fields)?)?;
    }
    Ok(parts)
}

// Takes a count, and that many parts of at least so many bytes each. A count that the rest can't hold takes no memory.
fn counted<T: Countable>(
    alloc: Global,
    least: u8,
    fields: &mut Fields,
) -> Result<Vec<T>, ParseError>
    ensures { Gives (λ x. (map T.meaning_of x.items, bytes_left fields.new)) result (counted_at u32_at least T.reads (bytes_left fields.old)) }
{
    let count = a_number(fields)?;
    if fields.left() < count as usize * least as usize {
        return Err(ParseError::Malformed);
    }
    parts(alloc, count, fields)
}

/// Takes a list of byte strings.
#[tactic(auto, unfolding(tab_codec::specs::Reading::list_at))]
pub fn a_list(alloc: Global, fields: &mut Fields) -> Result<Vec<Vec<u8>>, ParseError>
    ensures { Gives (λ x. (byte_lists x.items, bytes_left fields.new)) result (list_at (bytes_left fields.old)) }
{
    counted(alloc, 4, fields)
}

// Takes a count of columns, and that many of them.
#[tactic(auto, unfolding(crate::specs::FrameReading::columns_at), using(crate::proofs::Seen::seen_whole))]
fn columns(alloc: Global, fields: &mut Fields) -> Result<Vec<Column>, ParseError>
    ensures { Gives (λ x. (x.items, bytes_left fields.new)) result (columns_at (bytes_left fields.old)) }
{
    counted(alloc, 5, fields)
}

// Takes a count of ranges, and that many of them.
#[tactic(auto, unfolding(crate::specs::FrameReading::ranges_at), using(crate::proofs::Seen::seen_whole))]
fn ranges(alloc: Global, fields: &mut Fields) -> Result<Vec<Bounds>, ParseError>
    ensures { Gives (λ x. (x.items, bytes_left fields.new)) result (ranges_at (bytes_left fields.old)) }
{
    counted(alloc, 2, fields)
}

// Takes a count of what fails, and that much of it.
#[tactic(auto, unfolding(crate::specs::Tells::violations_at), using(crate::proofs::Seen::seen_whole))]
fn violations(alloc: Global, fields: &mut Fields) -> Result<Vec<Violation>, ParseError>
    ensures { Gives (λ x. (x.items, bytes_left fields.new)) result (violations_at (bytes_left fields.old)) }
{
    counted(alloc, 6, fields)
}

/// Takes a list of columns.
pub fn some_columns(alloc: Global, fields: &mut Fields) -> Result<Items<Column>, ParseError>
    ensures { Gives (λ x. (x, bytes_left fields.new)) result (columns_at (bytes_left fields.old)) }
{
    Ok(Items::from_vec(columns(alloc, fields)?))
}

/// Takes a list of ranges.
pub fn some_ranges(alloc: Global, fields: &mut Fields) -> Result<Items<Bounds>, ParseError>
    ensures { Gives (λ x. (x, bytes_left fields.new)) result (ranges_at (bytes_left fields.old)) }
{
    Ok(Items::from_vec(ranges(alloc, fields)?))
}

/// Takes a list of what fails.
pub fn some_violations(alloc: Global, fields: &mut Fields) -> Result<Items<Violation>, ParseError>
    ensures { Gives (λ x. (x, bytes_left fields.new)) result (violations_at (bytes_left fields.old)) }
{
    Ok(Items::from_vec(violations(alloc, fields)?))
}
