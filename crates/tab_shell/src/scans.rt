//! The sessions that lines open: read at once, or kept.
ghost use Rattle.std.specs.Prelude.{◌≡◌, false};
ghost use Rattle.tab_core.specs.Sessions.{is_spent};
ghost use Rattle.tab_history.specs.Answers.{told_of};
ghost use Rattle.tab_io.specs.Writing.{Puts};
ghost use Rattle.tab_replies.specs.Texts.{refusal_text, reply_text};
ghost use Rattle.tab_shell.specs.Progress.{PrintsFor};
ghost use Rattle.tab_shell.specs.Batches.{PutsScan};

use crate::batches::put_session;
use std::alloc::Global;
use std::mem;
use tab_core::{Answer, Core, UserSessions, told};
use tab_history::{Refusal, Reply, Scan};
use tab_io::{Output, WriteFault};
use tab_key::{LimitedPart, Name};
use tab_lines::Line;
use tab_replies::{put_opened, put_refusal, write_reply};

/// A scan: one line and several steps, an Open, batches until one isn't full, and a Close. Its session is read to the end, or until memory
/// lacks, and dropped.
#[inline(always)]
pub fn scan_now<W: Output>(
    alloc: Global,
    core: &mut Core,
    kept: &mut UserSessions,
    user: &Name,
    moment: i64,
    scan: &mut Scan,
    output: &mut W,
) -> Result<(), WriteFault>
    ensures { PrintsFor W.Output core.old kept.old user.now moment (Ok (Line.Scan scan.old)) core.new kept.new output.old output.new result }
{
    if kept.is_spent() {
        return write_refused(output, Refusal::TooLarge(LimitedPart::Sessions));
    }
    let mut reply = core.open_lent(alloc, user, moment, scan);
    put_scan(alloc, kept, &mut reply, output)
}

// Writes what a scan is answered. A session that it opened is read to its end where it lies, and counts as one of the user's.
fn put_scan<W: Output>(
    alloc: Global,
    kept: &mut UserSessions,
    reply: &mut Answer,
    output: &mut W,
) -> Result<(), WriteFault>
    requires room { is_spent kept.old ≡ false }
    ensures { PutsScan W.Output output.old output.new kept.old kept.new reply.old result }
{
    match reply {
        Reply::Opened(session) => {
            kept.count_scan();
            put_session(alloc, session, output)
        }
        reply => write_told(output, mem::replace(reply, Reply::Done)),
    }
}

/// Opens a session and keeps it under the user's next number.
pub fn open_numbered<W: Output>(
    alloc: Global,
    core: &mut Core,
    kept: &mut UserSessions,
    user: &Name,
    moment: i64,
    scan: &mut Scan,
    output: &mut W,
) -> Result<(), WriteFault>
    ensures { PrintsFor W.Output core.old kept.old user.now moment (Ok (Line.Open scan.old)) core.new kept.new output.old output.new result }
{
    if kept.is_spent() {
        return write_refused(output, Refusal::TooLarge(LimitedPart::Sessions));
    }
    let number = kept.numbered.numbers_given() as u64;
    let reply = kept.numbered.open(alloc, core, user, moment, scan);
    put_opened(output, number, &reply)
}

/// Writes the refusal of a scan or an Open, which isn't done.
pub fn write_refused<W: Output>(output: &mut W, refusal: Refusal) -> Result<(), WriteFault>
    ensures { Puts W.Output output.old output.new (refusal_text refusal) result }
{
    put_refusal(output, &refusal)
}

// Writes what is told of the reply.
fn write_told<W: Output>(output: &mut W, reply: Answer) -> Result<(), WriteFault>
    ensures { Puts W.Output output.old output.new (reply_text (told_of reply)) result }
{
    let reply = told(reply);
    write_reply(output, &reply)
}
