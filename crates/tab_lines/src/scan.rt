//! What a scan asks.
ghost use Rattle.std.specs.Prelude.{◌≡◌, ℕ, List, [], ◌∷◌, Some, IfSome};
ghost use Rattle.std.specs.Option.{option_map};
ghost use Rattle.tab_text.specs.Gives.{Gives};
ghost use Rattle.tab_text.specs.Reading.{bytes_of};
ghost use Rattle.tab_lines.specs.Gives.{optional};
ghost use Rattle.tab_lines.specs.Words.{words_left};
ghost use Rattle.tab_lines.specs.Fields.{columns_of, is_name, only_if};
ghost use Rattle.tab_lines.specs.Lines.{bounds_of, scan_words, commanded, line_of};

use crate::bounds::bound_of;
use crate::command::Command;
use crate::fields::{a_bound, a_list, ends};
use crate::lists::columns_of;
use crate::names::checked_name;
use crate::spelling::spelling_of;
use crate::words::Words;
use std::alloc::Global;
use tab_history::Scan;
use tab_key::{Bound, Bounds, Column, Items};
use tab_label::AuthSet;
use tab_text::ParseError;

/// The words behind the command of a whole scan, where the line begins with that command and a space. Of any other line nothing is said.
#[tactic(auto, using(crate::proofs::ScanLemmas::begins))]
pub fn words_of_scan(line: &[u8]) -> Option<Words<'_>>
    ensures { IfSome result (λ words. line_of line.now ≡ commanded Command.Scan (words_left words)) }
{
    if line.len() < 5 {
        return None;
    }
    let (command, words) = line.split_at(5);
    if command != b"scan ".as_slice() {
        return None;
    }
    Some(Words::of(words))
}

// Takes both bounds, or none where no word is left.
fn bounds(alloc: Global, words: &mut Words) -> Result<Bounds, ParseError>
    ensures { Gives (λ x. (x, words_left words.new)) result (bounds_of (words_left words.old)) }
{
    let Some(word) = words.next() else {
        return Ok(Bounds {
            low: Bound::Unbounded,
            high: Bound::Unbounded,
        });
    };
    let low = bound_of(alloc, word)?;
    let high = a_bound(alloc, words)?;
    Ok(Bounds { low, high })
}

// Takes the columns, all where no word is left.
fn any_columns(alloc: Global, words: &mut Words) -> Result<Items<Column>, ParseError>
    ensures { Gives (λ x. (x, words_left words.new)) result (optional [] columns_of (words_left words.old)) }
{
    let Some(word) = words.next() else {
        return Ok(Items::new(alloc));
    };
    Ok(Items::from_vec(columns_of(alloc, word)?))
}

/// Takes all that is left: what a scan asks. It takes memory for its authorizations, for its bounds and for its columns.
pub fn read_scan(alloc: Global, words: &mut Words) -> Result<Scan, ParseError>
    ensures { Gives (λ x. x) result (scan_words (words_left words.old)) }
{
    let Some(word) = words.next() else {
        return Err(ParseError::Malformed);
    };
    let table = spelling_of(alloc, word)?;
    scan_of(alloc, table.as_bytes(), words)
}

// Takes what a scan asks behind the word that spells the table's name. The name is made last, so that it isn't copied where it is handed
// on.
fn scan_of(alloc: Global, table: &[u8], words: &mut Words) -> Result<Scan, ParseError>
    ensures { (word : List ℕ) → bytes_of word ≡ Some table.now → Gives (λ x. x) result (scan_words (word ∷ words_left words.old)) }
{
    let members = a_list(alloc, words)?;
    let bounds = bounds(alloc, words)?;
    let columns = any_columns(alloc, words)?;
    ends(words)?;
    of_table(table, bounds, columns, AuthSet::new(members))
}

// The scan of the table of this name, if it is one.
fn of_table(
    table: &[u8],
    bounds: Bounds,
    columns: Items<Column>,
    authorizations: AuthSet,
) -> Result<Scan, ParseError>
    ensures { Gives (λ x. x) result (option_map (λ name. record { table = name; bounds = bounds; columns = columns; authorizations = authorizations }) (only_if is_name table.now)) }
{
    match checked_name(table) {
        Some(table) => Ok(Scan {
            table,
            bounds,
            columns,
            authorizations,
        }),
        None => Err(ParseError::Malformed),
    }
}
