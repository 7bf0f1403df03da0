//! The entries of a journal, done again.
ghost use Rattle.std.specs.Prelude.{◌≡◌, IfOk, IfErr, Ok, Err};
ghost use Rattle.tab_history.specs.Answers.{told_of};
ghost use Rattle.tab_recovery.specs.Recovering.{Recovers};
ghost use Rattle.tab_recovery.specs.Redoing.{judged, Redoes, TakesNext};

use crate::ReplayFault;
use std::alloc::Global;
use tab_core::{Answer, Core};
use tab_history::{Event, Refusal, Reply};
use tab_journal::next_entry;

/// Does the entries again that these bytes are, each at its moment, and tells how many there were. The bytes are those of the batches of a
/// journal, one behind the other, and the core is the one that the journal goes on from. Memory is taken for one entry at a time, and for what
/// the core keeps.
///
/// # Errors
///
/// `Unfit`: an entry is told something else than `Done`; nothing behind it is done. `Bad`: what stands behind the last entry is none; all
/// before it is done. `NoMemory`: memory lacked, for an entry or in the core; what stands before that entry is done.
pub fn replay(alloc: Global, core: &mut Core, body: &[u8]) -> Result<u64, ReplayFault>
    ensures { Recovers core.old body.now result core.new }
{
    let mut count = 0;
    let mut rest = body;
    while !rest.is_empty() {
        match redo_next(alloc, core, rest) {
            Ok(behind) => rest = behind,
            Err(fault) => return Err(fault),
        }
        count += 1;
    }
    Ok(count)
}

// Does the entry at the front of some bytes again, and gives what stands behind it.
fn redo_next<'a>(alloc: Global, core: &mut Core, bytes: &'a [u8]) -> Result<&'a [u8], ReplayFault>
    ensures done { IfOk result (λ rest. TakesNext core.old bytes.now core.new (Ok rest.now)) }
    ensures failed { IfErr result (λ fault. TakesNext core.old bytes.now core.new (Err fault)) }
{
    match next_entry(alloc, bytes) {
        Ok(Some((event, rest))) => redo_before(alloc, core, event, rest),
        Ok(None) => Err(ReplayFault::Bad),
        Err(_) => Err(ReplayFault::NoMemory),
    }
}

// Does the event again, and gives these bytes.
fn redo_before<'a>(
    alloc: Global,
    core: &mut Core,
    event: Event,
    rest: &'a [u8],
) -> Result<&'a [u8], ReplayFault>
    ensures same { IfOk result (λ bytes. bytes.now ≡ rest.now) }
    ensures done { IfOk result (λ _. Redoes core.old event core.new (Ok tt)) }
    ensures failed { IfErr result (λ fault. Redoes core.old event core.new (Err fault)) }
{
    match redo(alloc, core, event) {
        Ok(()) => Ok(rest),
        Err(fault) => Err(fault),
    }
}

// Does the event again.
fn redo(alloc: Global, core: &mut Core, event: Event) -> Result<(), ReplayFault>
    ensures { Redoes core.old event core.new result }
{
    let answer = core.step(alloc, event);
    judge(&answer)
}

// What came of an event that was answered so.
fn judge(answer: &Answer) -> Result<(), ReplayFault>
    ensures { result ≡ judged (told_of answer.now) }
{
    match answer {
        Reply::Done => Ok(()),
        Reply::Refused(refusal) => Err(why(refusal)),
        _ => Err(ReplayFault::Unfit),
    }
}

// Why an event isn't done that was refused so.
fn why(refusal: &Refusal) -> ReplayFault
    ensures { Err result ≡ judged (Reply.Refused refusal.now) }
{
    match refusal {
        Refusal::NoMemory => ReplayFault::NoMemory,
        _ => ReplayFault::Unfit,
    }
}
