//! The lines of an entry.
#![tactic(auto, using(tab_io::proofs::Putting::putting))]

ghost use Rattle.std.specs.Prelude.{◌≡◌, ◌++◌, [], ◌∷◌, codes};
ghost use Rattle.std.specs.Int.{int_max};
ghost use Rattle.std.specs.Fmt.{signed_decimal};
ghost use Rattle.tab_io.specs.Writing.{Puts};
ghost use Rattle.tab_text.specs.Words.{word};
ghost use Rattle.tab_text.specs.Lines.{line_text};
ghost use Rattle.tab_history.specs.declared.event.Step.TheVariants.{Event as IsEvent};
ghost use Rattle.tab_history.specs.Histories.{clock_after};
ghost use Rattle.tab_core.specs.EventReplies.{told_in};
ghost use Rattle.tab_audit.specs.Words.{act_words};
ghost use Rattle.tab_audit.specs.Entries.{is_change, is_replayed, mark, told_text, entry_text};

use crate::act::put_act;
use tab_core::EventReply;
use tab_history::{Act, Event, Refusal};
use tab_io::{Output, WriteFault};
use tab_key::LimitedPart;
use tab_replies::put_refusal;
use tab_text::{Word, put_line};

/// Puts the lines of an entry: the clock that the event had, who asked, what was asked, and what was told. The clock is the one before
/// the event. It takes no memory, and fails where the output does, and has put a beginning of the lines then.
pub fn put_entry<W: Output>(
    output: &mut W,
    clock: i64,
    event: &Event,
    told: &EventReply,
) -> Result<(), WriteFault>
    ensures { Puts W.Output output.old output.new (entry_text clock event.now (told_in told.now)) result }
{
    put_moment(output, clock, event)?;
    put_from_user(output, event, told)
}

/// The clock behind an entry, for the next one. What was refused for want of memory, for a full list of sessions or for a job that isn't
/// there didn't move it.
pub fn clock_behind(clock: i64, event: &Event, told: &EventReply) -> i64
    ensures { result ≡ clock_after (IsEvent event.now) (told_in told.now) clock }
{
    match told {
        EventReply::Refused(Refusal::NoMemory) => clock,
        EventReply::Refused(Refusal::TooLarge(LimitedPart::Sessions)) => clock,
        EventReply::Refused(Refusal::NoSession(_)) => clock,
        EventReply::Refused(Refusal::NoJob(_)) => clock,
        _ => clock.max(event.moment),
    }
}

// The clock that the event had.
fn put_moment<W: Output>(output: &mut W, clock: i64, event: &Event) -> Result<(), WriteFault>
    ensures { Puts W.Output output.old output.new (line_text (codes "at" ∷ signed_decimal (int_max clock event.now.moment) ∷ [])) result }
{
    put_clock(output, clock.max(event.moment))
}

fn put_clock<W: Output>(output: &mut W, clock: i64) -> Result<(), WriteFault>
    ensures { Puts W.Output output.old output.new (line_text (codes "at" ∷ signed_decimal clock ∷ [])) result }
{
    put_line(output, &[Word::Text(b"at"), Word::Signed(clock)])
}

fn put_from_user<W: Output>(
    output: &mut W,
    event: &Event,
    told: &EventReply,
) -> Result<(), WriteFault>
    ensures { Puts W.Output output.old output.new (line_text (codes "as" ∷ word event.now.user ∷ []) ++ (mark (is_replayed event.now.act (told_in told.now)) ++ (line_text (act_words event.now.act) ++ (codes "# " ++ told_text (told_in told.now))))) result }
{
    put_user(output, event)?;
    put_from_mark(output, &event.act, told)
}

fn put_user<W: Output>(output: &mut W, event: &Event) -> Result<(), WriteFault>
    ensures { Puts W.Output output.old output.new (line_text (codes "as" ∷ word event.now.user ∷ [])) result }
{
    put_line(
        output,
        &[Word::Text(b"as"), Word::Bytes(event.user.as_bytes())],
    )
}

fn put_from_mark<W: Output>(output: &mut W, act: &Act, told: &EventReply) -> Result<(), WriteFault>
    ensures { Puts W.Output output.old output.new (mark (is_replayed act.now (told_in told.now)) ++ (line_text (act_words act.now) ++ (codes "# " ++ told_text (told_in told.now)))) result }
{
    put_mark(output, is_replayed(act, told))?;
    put_from_act(output, act, told)
}

fn put_mark<W: Output>(output: &mut W, replayed: bool) -> Result<(), WriteFault>
    ensures { Puts W.Output output.old output.new (mark replayed) result }
{
    if replayed {
        output.put(b"")
    } else {
        output.put(b"# ")
    }
}

fn put_from_act<W: Output>(output: &mut W, act: &Act, told: &EventReply) -> Result<(), WriteFault>
    ensures { Puts W.Output output.old output.new (line_text (act_words act.now) ++ (codes "# " ++ told_text (told_in told.now))) result }
{
    put_act(output, act)?;
    put_comment(output, told)
}

fn put_comment<W: Output>(output: &mut W, told: &EventReply) -> Result<(), WriteFault>
    ensures { Puts W.Output output.old output.new (codes "# " ++ told_text (told_in told.now)) result }
{
    output.put(b"# ")?;
    put_told(output, told)
}

fn put_told<W: Output>(output: &mut W, told: &EventReply) -> Result<(), WriteFault>
    ensures { Puts W.Output output.old output.new (told_text (told_in told.now)) result }
{
    match told {
        EventReply::Refused(refusal) => put_refusal(output, refusal),
        EventReply::Nothing => output.put(b"nothing\n"),
        _ => output.put(b"ok\n"),
    }
}

/// Whether a script's run replays the entry: it was done, and a script can do it again.
pub fn is_replayed(act: &Act, told: &EventReply) -> bool
    ensures { result ≡ is_replayed act.now (told_in told.now) }
{
    match told {
        EventReply::Done => is_change(act),
        _ => false,
    }
}

// Whether a script can do it again.
fn is_change(act: &Act) -> bool
    ensures { result ≡ is_change act.now }
{
    match act {
        Act::Open(_) | Act::Rights(_) | Act::Status(_) | Act::Splits(_) => false,
        Act::Save | Act::Load | Act::Begin(_, _, _) | Act::Install(_, _) => false,
        _ => true,
    }
}
