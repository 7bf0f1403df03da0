//! Judging a text under authorizations in one pass, without memory.
ghost use Rattle.std.specs.Prelude.{◌≡◌, ◌<◌, ◌≤◌, ◌+◌, [], length, slice_index};
ghost use Rattle.tab_label.specs.Holding.{judged, label_holds};
ghost use Rattle.tab_label.specs.Judging as judging;
ghost use Rattle.tab_label.specs.JudgeViews.{levels_held, judgement_at, phase_at, BeganBy, LeadsTo, or_length};

use crate::auths::AuthSet;
use crate::joiner::Joiner;
use crate::levels::{Level, Levels};
use crate::steps::is_term_byte;

/// Where in the open level the judge stands: before an operand, inside a term that began at an index of the text, or behind an operand, with its value.
/// A quoted term begins behind its quote.
#[derive(Clone, Copy)]
pub enum JudgePhase {
    /// An operand has to begin.
    Awaiting,
    /// Inside an unquoted term that began here.
    InPlain(usize),
    /// Between quotes, in a term that began here.
    InQuotes(usize),
    /// Behind an escaping `\`, in a quoted term that began here.
    Escaping(usize),
    /// Behind an operand of this value.
    Behind(bool),
}

/// The open level, and where in it the judge stands.
#[derive(Clone, Copy)]
pub struct OpenLevel {
    /// What the level comes to so far.
    pub level: Level,
    /// Where in it the judge stands.
    pub phase: JudgePhase,
}

/// Whether a text is a label that holds for one who has these authorizations, or the offset of a text that is no label:
/// the length, in bytes, of its longest front with which some label begins.
///
/// Takes no memory: one pass over the text, with a stack of `MAX_LABEL_DEPTH` levels in place. A term costs its length times the logarithm of the set's.
pub fn judge(text: &[u8], auths: &AuthSet) -> Result<bool, usize>
    ensures { result ≡ judged text.now auths.now }
{
    let mut below = Levels::new();
    let mut innermost = OpenLevel {
        level: Level::Empty,
        phase: JudgePhase::Awaiting,
    };
    for i in 0..text.len() {
        match step(text, auths, &mut below, innermost, i) {
            Some(next) => innermost = next,
            None => return Err(i),
        }
    }
    ending(text, auths, &below, innermost)
}

/// Whether one who has these authorizations sees what has this label; what is no label nobody sees.
pub fn is_visible(text: &[u8], auths: &AuthSet) -> bool
    ensures { result ≡ label_holds text.now auths.now }
{
    judge(text, auths).unwrap_or(false)
}

/// Takes the byte at this index, or finds that no label goes on so.
#[tactic(auto, using(crate::proofs::Slices::range_more), unfolding(crate::specs::Judging::step))]
fn step(
    text: &[u8],
    auths: &AuthSet,
    below: &mut Levels,
    innermost: OpenLevel,
    i: usize,
) -> Option<OpenLevel>
    requires within { i < length text.now }
    requires began { BeganBy i innermost.phase }
    ensures { LeadsTo text.now (i + 1) result (levels_held below.new)
        (judging.step auths.now (judgement_at text.now i (levels_held below.old) innermost) (slice_index text.now i)) }
{
    let b = text[i];
    let level = innermost.level;
    match innermost.phase {
        JudgePhase::Awaiting => awaiting(text, below, level, i),
        JudgePhase::InPlain(start) => {
            if is_term_byte(b) {
                Some(innermost)
            } else {
                after(below, level, auths.contains(&text[start..i]), b)
            }
        }
        JudgePhase::InQuotes(start) => in_quotes(text, auths, level, start, i),
        JudgePhase::Escaping(start) => {
            if b == b'"' || b == b'\\' {
                Some(OpenLevel {
                    level,
                    phase: JudgePhase::InQuotes(start),
                })
            } else {
                None
            }
        }
        JudgePhase::Behind(value) => after(below, level, value, b),
    }
}

/// Takes the byte at this index, where an operand has to begin, whatever the authorizations.
fn awaiting(text: &[u8], below: &mut Levels, level: Level, i: usize) -> Option<OpenLevel>
    requires { i < length text.now }
    ensures { LeadsTo text.now (i + 1) result (levels_held below.new)
        (judging.step_in [] (levels_held below.old) level judging.Awaiting (slice_index text.now i)) }
{
    let b = text[i];
    if is_term_byte(b) {
        return Some(OpenLevel {
            level,
            phase: JudgePhase::InPlain(i),
        });
    }
    if b == b'"' {
        return Some(OpenLevel {
            level,
            phase: JudgePhase::InQuotes(i + 1),
        });
    }
    if b == b'(' && below.has_room() {
        below.push(level);
        return Some(OpenLevel {
            level: Level::Empty,
            phase: JudgePhase::Awaiting,
        });
    }
    None
}

/// Takes the byte at this index, between quotes.
#[tactic(auto, using(crate::proofs::Slices::range_more))]
fn in_quotes(
    text: &[u8],
    auths: &AuthSet,
    level: Level,
    start: usize,
    i: usize,
) -> Option<OpenLevel>
    requires within { i < length text.now }
    requires began { start ≤ i }
    ensures { (below : _) → LeadsTo text.now (i + 1) result below
        (judging.step_in auths.now below level (phase_at text.now i (JudgePhase.InQuotes start)) (slice_index text.now i)) }
{
    let b = text[i];
    if b == b'\\' {
        return Some(OpenLevel {
            level,
            phase: JudgePhase::Escaping(start),
        });
    }
    if b != b'"' {
        return Some(OpenLevel {
            level,
            phase: JudgePhase::InQuotes(start),
        });
    }
    if start == i {
        return None;
    }
    Some(OpenLevel {
        level,
        phase: JudgePhase::Behind(auths.contains_quoted(&text[start..i])),
    })
}

/// Takes a byte behind an operand of this value.
fn after(below: &mut Levels, level: Level, value: bool, b: u8) -> Option<OpenLevel>
    ensures { (text : _) (i : _) → LeadsTo text i result (levels_held below.new) (judging.after (levels_held below.old) level value b) }
{
    match b {
        b'&' => Some(OpenLevel {
            level: joined(Joiner::And, level, value)?,
            phase: JudgePhase::Awaiting,
        }),
        b'|' => Some(OpenLevel {
            level: joined(Joiner::Or, level, value)?,
            phase: JudgePhase::Awaiting,
        }),
        b')' => {
            let outer = below.pop()?;
            Some(OpenLevel {
                level: outer,
                phase: JudgePhase::Behind(closed(level, value)),
            })
        }
        _ => None,
    }
}

/// The level's value, with a last operand of this value.
fn closed(level: Level, value: bool) -> bool
    ensures { result ≡ judging.closed level value }
{
    match level {
        Level::Empty => value,
        Level::Joined(joiner, before) => match joiner {
            Joiner::And => before && value,
            Joiner::Or => before || value,
        },
    }
}

/// The level with one more operand and a joiner behind it.
fn joined(joiner: Joiner, level: Level, value: bool) -> Option<Level>
    ensures { result ≡ judging.joined joiner level value }
{
    match (level, joiner) {
        (Level::Empty, _) => Some(Level::Joined(joiner, value)),
        (Level::Joined(Joiner::And, before), Joiner::And) => {
            Some(Level::Joined(Joiner::And, before && value))
        }
        (Level::Joined(Joiner::Or, before), Joiner::Or) => {
            Some(Level::Joined(Joiner::Or, before || value))
        }
        _ => None,
    }
}

/// The value of the whole text, if a label may end here, or its length.
#[tactic(auto, unfolding(crate::specs::Judging::ending))]
fn ending(text: &[u8], auths: &AuthSet, below: &Levels, innermost: OpenLevel) -> Result<bool, usize>
    requires { BeganBy (length text.now) innermost.phase }
    ensures { result ≡ or_length (judging.ending auths.now (judgement_at text.now (length text.now) (levels_held below.now) innermost)) (length text.now) }
{
    let unfinished = Err(text.len());
    if !below.is_empty() {
        return unfinished;
    }
    match innermost.phase {
        JudgePhase::Awaiting => match innermost.level {
            Level::Empty => Ok(true),
            Level::Joined(_, _) => unfinished,
        },
        JudgePhase::InPlain(start) => Ok(closed(innermost.level, auths.contains(&text[start..]))),
        JudgePhase::InQuotes(_) => unfinished,
        JudgePhase::Escaping(_) => unfinished,
        JudgePhase::Behind(value) => Ok(closed(innermost.level, value)),
    }
}
