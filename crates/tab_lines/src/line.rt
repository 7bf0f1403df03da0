//! What a line says.
ghost use Rattle.tab_text.specs.Gives.{Gives};
ghost use Rattle.tab_lines.specs.Gives.{optional};
ghost use Rattle.tab_lines.specs.Words.{words_left};
ghost use Rattle.tab_lines.specs.Fields.{constraints_of, versions_word};
ghost use Rattle.tab_lines.specs.Lines.{settings, createtable_of, setauths_of, constraints_line_of, versions_line_of, horizon_of, insert_of, delete_line_of, mutate_of, next_of, ranges_of, many_of, close_of, compact_of, begin_of, merge_of, install_of, addsplit_of, splitsize_of, file_of, rotate_of, at_of, commanded, said, line_of};

use crate::bounds::bound_of;
use crate::command::{Command, command_of};
use crate::fields::{
    a_bound, a_byte_string, a_compaction, a_file_name, a_list, a_name, a_number, a_small,
    a_version_count, an_extent, an_unsigned, ends,
};
use crate::file_line::{FileKind, FileLine};
use crate::lists::constraints_of;
use crate::named::{
    as_user, createuser, droptable, dropuser, flush, grant, revoke, rights, splits, status,
};
use crate::names::time_word;
use crate::numbers::versions_word;
use crate::scan::read_scan;
use crate::updates::{TimestampForm, a_row, add_delete, add_put, add_updates};
use crate::words::Words;
use std::alloc::Global;
use tab_history::{Act, Given, Scan, TimeMode, Versions};
use tab_key::{Bounds, Items, Name};
use tab_label::AuthSet;
use tab_rules::ConstraintSet;
use tab_text::ParseError;

/// What a line of a script says.
#[derive(Drop)]
pub enum Line {
    /// Nothing: the line is empty, has spaces alone, or is a comment.
    Blank,
    /// The user who asks from now on.
    As(Name),
    /// The moment of later events.
    At(i64),
    /// One event.
    Act(Act),
    /// A whole scan: its session is opened, read to its end and closed.
    Scan(Scan),
    /// A session is opened and kept.
    Open(Scan),
    /// The next batch of the session that has this number, of so many cells.
    Next(u32, u32),
    /// The whole answer of the session that has this number, in each of these ranges.
    Many(u32, Items<Bounds>),
    /// The session that has this number is closed.
    Close(u32),
    /// The merge of the job that has this number is made.
    Merge(u64),
    /// An image is saved to a file, or loaded from one.
    File(FileLine),
}

// Takes the number of versions, 1 where no word is left.
fn any_versions(words: &mut Words) -> Result<Versions, ParseError>
    ensures { Gives (λ x. (x, words_left words.new)) result (optional 1 versions_word (words_left words.old)) }
{
    let Some(word) = words.next() else {
        return Ok(Versions::one());
    };
    versions_word(word)
}

// Takes the settings of a new table.
fn settings(words: &mut Words) -> Result<(TimeMode, Versions), ParseError>
    ensures { Gives (λ x. x) result (settings (words_left words.old)) }
{
    let Some(word) = words.next() else {
        return Ok((TimeMode::Any, Versions::one()));
    };
    match time_word(word) {
        Some(time) => {
            let versions = any_versions(words)?;
            ends(words)?;
            Ok((time, versions))
        }
        None => {
            let versions = versions_word(word)?;
            ends(words)?;
            Ok((TimeMode::Any, versions))
        }
    }
}

// Each of these takes the words behind its command.
#[inline(never)]
#[tactic(auto, unfolding(crate::specs::Lines::createtable_of))]
fn createtable(alloc: Global, words: &mut Words) -> Result<Line, ParseError>
    ensures { Gives (λ x. x) result (createtable_of (words_left words.old)) }
{
    let table = a_name(alloc, words)?;
    let (time, versions) = settings(words)?;
    Ok(Line::Act(Act::CreateTable(table, time, versions)))
}

#[inline(never)]
#[tactic(auto, unfolding(crate::specs::Lines::setauths_of))]
fn setauths(alloc: Global, words: &mut Words) -> Result<Line, ParseError>
    ensures { Gives (λ x. x) result (setauths_of (words_left words.old)) }
{
    let user = a_name(alloc, words)?;
    let members = a_list(alloc, words)?;
    ends(words)?;
    let auths = AuthSet::new(members);
    Ok(Line::Act(Act::SetAuths(user, auths)))
}

#[inline(never)]
#[tactic(auto, unfolding(crate::specs::Lines::constraints_line_of))]
fn constraints(alloc: Global, words: &mut Words) -> Result<Line, ParseError>
    ensures { Gives (λ x. x) result (constraints_line_of (words_left words.old)) }
{
    let table = a_name(alloc, words)?;
    let Some(word) = words.next() else {
        return Err(ParseError::Malformed);
    };
    let named = constraints_of(alloc, word)?;
    ends(words)?;
    let constraints = ConstraintSet::of(&named);
    Ok(Line::Act(Act::SetConstraints(table, constraints)))
}

#[inline(never)]
#[tactic(auto, unfolding(crate::specs::Lines::versions_line_of))]
fn versions(alloc: Global, words: &mut Words) -> Result<Line, ParseError>
    ensures { Gives (λ x. x) result (versions_line_of (words_left words.old)) }
{
    let table = a_name(alloc, words)?;
    let count = a_version_count(words)?;
    ends(words)?;
    Ok(Line::Act(Act::SetVersions(table, count)))
}

#[inline(never)]
#[tactic(auto, unfolding(crate::specs::Lines::horizon_of))]
fn horizon(alloc: Global, words: &mut Words) -> Result<Line, ParseError>
    ensures { Gives (λ x. x) result (horizon_of (words_left words.old)) }
{
    let table = a_name(alloc, words)?;
    let timestamp = a_number(words)?;
    ends(words)?;
    Ok(Line::Act(Act::SetHorizon(table, timestamp)))
}

#[inline(never)]
#[tactic(auto, unfolding(crate::specs::Lines::insert_of))]
fn insert(alloc: Global, words: &mut Words) -> Result<Line, ParseError>
    ensures { Gives (λ x. x) result (insert_of (words_left words.old)) }
{
    let table = a_name(alloc, words)?;
    let mut mutation = a_row(alloc, words)?;
    add_put(alloc, TimestampForm::Optional, words, &mut mutation)?;
    ends(words)?;
    Ok(Line::Act(Act::Write(table, mutation)))
}

#[inline(never)]
#[tactic(auto, unfolding(crate::specs::Lines::delete_line_of))]
fn delete(alloc: Global, words: &mut Words) -> Result<Line, ParseError>
    ensures { Gives (λ x. x) result (delete_line_of (words_left words.old)) }
{
    let table = a_name(alloc, words)?;
    let mut mutation = a_row(alloc, words)?;
    add_delete(alloc, TimestampForm::Optional, words, &mut mutation)?;
    ends(words)?;
    Ok(Line::Act(Act::Write(table, mutation)))
}

#[inline(never)]
#[tactic(auto, unfolding(crate::specs::Lines::mutate_of))]
fn mutate(alloc: Global, words: &mut Words) -> Result<Line, ParseError>
    ensures { Gives (λ x. x) result (mutate_of (words_left words.old)) }
{
    let table = a_name(alloc, words)?;
    let mut mutation = a_row(alloc, words)?;
    add_updates(alloc, words, &mut mutation)?;
    Ok(Line::Act(Act::Write(table, mutation)))
}

#[inline(never)]
#[tactic(auto, unfolding(crate::specs::Lines::next_of))]
fn next(words: &mut Words) -> Result<Line, ParseError>
    ensures { Gives (λ x. x) result (next_of (words_left words.old)) }
{
    let session = a_small(words)?;
    let count = a_small(words)?;
    ends(words)?;
    Ok(Line::Next(session, count))
}

// Takes all that is left: pairs of bounds.
fn ranges(alloc: Global, words: &mut Words) -> Result<Vec<Bounds>, ParseError>
    ensures { Gives (λ x. x.items) result (ranges_of (words_left words.old)) }
{
    let mut ranges = Vec::new(alloc);
    while let Some(word) = words.next() {
        let low = bound_of(alloc, word)?;
        let high = a_bound(alloc, words)?;
        ranges.push(Bounds { low, high })?;
    }
    Ok(ranges)
}

#[inline(never)]
#[tactic(auto, unfolding(crate::specs::Lines::many_of))]
fn many(alloc: Global, words: &mut Words) -> Result<Line, ParseError>
    ensures { Gives (λ x. x) result (many_of (words_left words.old)) }
{
    let session = a_small(words)?;
    let ranges = ranges(alloc, words)?;
    Ok(Line::Many(session, Items::from_vec(ranges)))
}

#[inline(never)]
#[tactic(auto, unfolding(crate::specs::Lines::close_of))]
fn close(words: &mut Words) -> Result<Line, ParseError>
    ensures { Gives (λ x. x) result (close_of (words_left words.old)) }
{
    let session = a_small(words)?;
    ends(words)?;
    Ok(Line::Close(session))
}

#[inline(never)]
#[tactic(auto, unfolding(crate::specs::Lines::compact_of))]
fn compact(alloc: Global, words: &mut Words) -> Result<Line, ParseError>
    ensures { Gives (λ x. x) result (compact_of (words_left words.old)) }
{
    let table = a_name(alloc, words)?;
    let extent = an_extent(words)?;
    ends(words)?;
    Ok(Line::Act(Act::Compact(table, extent)))
}

#[inline(never)]
#[tactic(auto, unfolding(crate::specs::Lines::begin_of))]
fn begin(alloc: Global, words: &mut Words) -> Result<Line, ParseError>
    ensures { Gives (λ x. x) result (begin_of (words_left words.old)) }
{
    let table = a_name(alloc, words)?;
    let row = a_byte_string(alloc, words)?;
    let kind = a_compaction(words)?;
    ends(words)?;
    Ok(Line::Act(Act::Begin(table, row, kind)))
}

#[inline(never)]
#[tactic(auto, unfolding(crate::specs::Lines::merge_of))]
fn merge(words: &mut Words) -> Result<Line, ParseError>
    ensures { Gives (λ x. x) result (merge_of (words_left words.old)) }
{
    let job = an_unsigned(words)?;
    ends(words)?;
    Ok(Line::Merge(job))
}

#[inline(never)]
#[tactic(auto, unfolding(crate::specs::Lines::install_of))]
fn install(alloc: Global, words: &mut Words) -> Result<Line, ParseError>
    ensures { Gives (λ x. x) result (install_of (words_left words.old)) }
{
    let table = a_name(alloc, words)?;
    let job = an_unsigned(words)?;
    ends(words)?;
    Ok(Line::Act(Act::Install(table, Given::InSlot(job))))
}

#[inline(never)]
#[tactic(auto, unfolding(crate::specs::Lines::addsplit_of))]
fn addsplit(alloc: Global, words: &mut Words) -> Result<Line, ParseError>
    ensures { Gives (λ x. x) result (addsplit_of (words_left words.old)) }
{
    let table = a_name(alloc, words)?;
    let row = a_byte_string(alloc, words)?;
    ends(words)?;
    Ok(Line::Act(Act::AddSplit(table, row)))
}

#[inline(never)]
#[tactic(auto, unfolding(crate::specs::Lines::splitsize_of))]
fn splitsize(alloc: Global, words: &mut Words) -> Result<Line, ParseError>
    ensures { Gives (λ x. x) result (splitsize_of (words_left words.old)) }
{
    let table = a_name(alloc, words)?;
    let row = a_byte_string(alloc, words)?;
    let limit = an_unsigned(words)?;
    ends(words)?;
    Ok(Line::Act(Act::SplitBySize(table, row, limit)))
}

#[inline(never)]
#[tactic(auto, unfolding(crate::specs::Lines::file_of))]
fn file(alloc: Global, kind: FileKind, words: &mut Words) -> Result<Line, ParseError>
    ensures { Gives (λ x. x) result (file_of kind (words_left words.old)) }
{
    let name = a_file_name(alloc, words)?;
    ends(words)?;
    Ok(Line::File(FileLine { kind, name }))
}

#[inline(never)]
#[tactic(auto, unfolding(crate::specs::Lines::rotate_of))]
fn rotate(words: &mut Words) -> Result<Line, ParseError>
    ensures { Gives (λ x. x) result (rotate_of (words_left words.old)) }
{
    ends(words)?;
    Ok(Line::Act(Act::Rotate))
}

#[inline(never)]
#[tactic(auto, unfolding(crate::specs::Lines::at_of))]
fn at(words: &mut Words) -> Result<Line, ParseError>
    ensures { Gives (λ x. x) result (at_of (words_left words.old)) }
{
    let moment = a_number(words)?;
    ends(words)?;
    Ok(Line::At(moment))
}

// A scan whose session is read to its end, and one whose session is kept.
#[inline(never)]
fn whole_scan(alloc: Global, words: &mut Words) -> Result<Line, ParseError>
    ensures { Gives (λ x. x) result (commanded Command.Scan (words_left words.old)) }
{
    Ok(Line::Scan(read_scan(alloc, words)?))
}

#[inline(never)]
fn open(alloc: Global, words: &mut Words) -> Result<Line, ParseError>
    ensures { Gives (λ x. x) result (commanded Command.Open (words_left words.old)) }
{
    Ok(Line::Open(read_scan(alloc, words)?))
}

// What the words behind a command say. Each command is a function that isn't inlined: room for what a line says is filled with zeros
// where a function is entered, so all commands in one would pay for all of them.
fn commanded(alloc: Global, command: Command, words: &mut Words) -> Result<Line, ParseError>
    ensures { Gives (λ x. x) result (commanded command (words_left words.old)) }
{
    match command {
        Command::As => as_user(alloc, words),
        Command::At => at(words),
        Command::CreateTable => createtable(alloc, words),
        Command::DropTable => droptable(alloc, words),
        Command::CreateUser => createuser(alloc, words),
        Command::DropUser => dropuser(alloc, words),
        Command::SetAuths => setauths(alloc, words),
        Command::Grant => grant(alloc, words),
        Command::Revoke => revoke(alloc, words),
        Command::Rights => rights(alloc, words),
        Command::Constraints => constraints(alloc, words),
        Command::Versions => versions(alloc, words),
        Command::Horizon => horizon(alloc, words),
        Command::Insert => insert(alloc, words),
        Command::Delete => delete(alloc, words),
        Command::Mutate => mutate(alloc, words),
        Command::Scan => whole_scan(alloc, words),
        Command::Open => open(alloc, words),
        Command::Next => next(words),
        Command::Many => many(alloc, words),
        Command::Close => close(words),
        Command::Flush => flush(alloc, words),
        Command::Compact => compact(alloc, words),
        Command::Begin => begin(alloc, words),
        Command::Merge => merge(words),
        Command::Install => install(alloc, words),
        Command::Status => status(alloc, words),
        Command::AddSplit => addsplit(alloc, words),
        Command::SplitSize => splitsize(alloc, words),
        Command::Splits => splits(alloc, words),
        Command::Save => file(alloc, FileKind::Save, words),
        Command::Load => file(alloc, FileKind::Load, words),
        Command::Rotate => rotate(words),
    }
}

// What the words of a line say.
fn said(alloc: Global, words: &mut Words) -> Result<Line, ParseError>
    ensures { Gives (λ x. x) result (said (words_left words.old)) }
{
    let Some(word) = words.next() else {
        return Ok(Line::Blank);
    };
    let Some(command) = command_of(word) else {
        return Err(ParseError::Malformed);
    };
    commanded(alloc, command, words)
}

/// What the line says. The text is one line without its line feed; it may hold any other bytes, and be of any length.
///
/// `Err(Fault)` exactly where the text is none of the lines of this crate. `Err(NoMemory)` where an allocation failed:
/// then nothing is said of the text, and reading it again may succeed. Nothing is kept after an error.
pub fn read_line(alloc: Global, text: &[u8]) -> Result<Line, ParseError>
    ensures { Gives (λ x. x) result (line_of text.now) }
{
    match text {
        [b'#', ..] => Ok(Line::Blank),
        _ => said(alloc, &mut Words::of(text)),
    }
}
