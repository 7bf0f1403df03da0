//! Lines that say one name, or a user and a permission. Each takes the words behind its command.
ghost use Rattle.tab_text.specs.Gives.{Gives};
ghost use Rattle.tab_lines.specs.Words.{words_left};
ghost use Rattle.tab_lines.specs.Lines.{commanded};
ghost use Rattle.tab_lines.specs.declared.command.Command.TheVariants as command;

use crate::Line;
use crate::fields::name_alone;
use crate::permissions::a_grant;
use crate::words::Words;
use std::alloc::Global;
use tab_history::Act;
use tab_text::ParseError;

/// `as U`
#[inline(never)]
pub fn as_user(alloc: Global, words: &mut Words) -> Result<Line, ParseError>
    ensures { Gives (λ x. x) result (commanded command.As (words_left words.old)) }
{
    Ok(Line::As(name_alone(alloc, words)?))
}

/// `droptable T`
#[inline(never)]
pub fn droptable(alloc: Global, words: &mut Words) -> Result<Line, ParseError>
    ensures { Gives (λ x. x) result (commanded command.DropTable (words_left words.old)) }
{
    Ok(Line::Act(Act::DropTable(name_alone(alloc, words)?)))
}

/// `createuser U`
#[inline(never)]
pub fn createuser(alloc: Global, words: &mut Words) -> Result<Line, ParseError>
    ensures { Gives (λ x. x) result (commanded command.CreateUser (words_left words.old)) }
{
    Ok(Line::Act(Act::CreateUser(name_alone(alloc, words)?)))
}

/// `dropuser U`
#[inline(never)]
pub fn dropuser(alloc: Global, words: &mut Words) -> Result<Line, ParseError>
    ensures { Gives (λ x. x) result (commanded command.DropUser (words_left words.old)) }
{
    Ok(Line::Act(Act::DropUser(name_alone(alloc, words)?)))
}

/// `rights T`
#[inline(never)]
pub fn rights(alloc: Global, words: &mut Words) -> Result<Line, ParseError>
    ensures { Gives (λ x. x) result (commanded command.Rights (words_left words.old)) }
{
    Ok(Line::Act(Act::Rights(name_alone(alloc, words)?)))
}

/// `flush T`
#[inline(never)]
pub fn flush(alloc: Global, words: &mut Words) -> Result<Line, ParseError>
    ensures { Gives (λ x. x) result (commanded command.Flush (words_left words.old)) }
{
    Ok(Line::Act(Act::Flush(name_alone(alloc, words)?)))
}

/// `status T`
#[inline(never)]
pub fn status(alloc: Global, words: &mut Words) -> Result<Line, ParseError>
    ensures { Gives (λ x. x) result (commanded command.Status (words_left words.old)) }
{
    Ok(Line::Act(Act::Status(name_alone(alloc, words)?)))
}

/// `splits T`
#[inline(never)]
pub fn splits(alloc: Global, words: &mut Words) -> Result<Line, ParseError>
    ensures { Gives (λ x. x) result (commanded command.Splits (words_left words.old)) }
{
    Ok(Line::Act(Act::Splits(name_alone(alloc, words)?)))
}

/// `grant U P [T]`
#[inline(never)]
pub fn grant(alloc: Global, words: &mut Words) -> Result<Line, ParseError>
    ensures { Gives (λ x. x) result (commanded command.Grant (words_left words.old)) }
{
    let (user, permission) = a_grant(alloc, words)?;
    Ok(Line::Act(Act::Grant(user, permission)))
}

/// `revoke U P [T]`
#[inline(never)]
pub fn revoke(alloc: Global, words: &mut Words) -> Result<Line, ParseError>
    ensures { Gives (λ x. x) result (commanded command.Revoke (words_left words.old)) }
{
    let (user, permission) = a_grant(alloc, words)?;
    Ok(Line::Act(Act::Revoke(user, permission)))
}
