//! Replies with and without what they hand out.
ghost use Rattle.std.specs.Prelude.{◌≡◌, cond};
ghost use Rattle.tab_history.specs.Answers.{told_of, session_of, job_of};
ghost use Rattle.tab_core.specs.Stepping.{moves_clock};

use crate::Session;
use tab_history::{Refusal, Reply};
use tab_key::LimitedPart;
use tab_store::TabletJob;

/// What an event is answered, with the session or the job that is handed out.
pub type Answer = Reply<Session, TabletJob>;

/// The reply without what it hands out.
pub fn told(reply: Answer) -> Reply
    ensures { result ≡ told_of reply }
{
    match reply {
        // what most events are told: nothing of it is moved
        Reply::Done => Reply::Done,
        other => other.into_parts().0,
    }
}

/// The reply without what it hands out, and the session where there is one.
pub fn with_session(answer: Answer) -> (Reply, Option<Session>)
    ensures told { result.0 ≡ told_of answer }
    ensures session { result.1 ≡ session_of answer }
{
    let (reply, session, _job) = answer.into_parts();
    (reply, session)
}

/// The reply without what it hands out, and the job where there is one.
pub fn with_job(answer: Answer) -> (Reply, Option<TabletJob>)
    ensures told { result.0 ≡ told_of answer }
    ensures job { result.1 ≡ job_of answer }
{
    let (reply, _session, job) = answer.into_parts();
    (reply, job)
}

// Whether the reply moves the clock. Want of memory and a refusal by a list of sessions or by that of jobs say that there was no event.
fn moves_clock(reply: &Answer) -> bool
    ensures { result ≡ moves_clock (told_of reply.now) }
{
    !matches!(
        reply,
        Reply::Refused(Refusal::NoMemory)
            | Reply::Refused(Refusal::TooLarge(LimitedPart::Sessions))
            | Reply::Refused(Refusal::NoSession(_))
            | Reply::Refused(Refusal::NoJob(_))
    )
}

/// Sets the clock to this moment, if what is told moves it.
pub fn move_clock(clock: &mut i64, now: i64, told: &Answer)
    ensures { clock.new ≡ cond (moves_clock (told_of told.now)) now clock.old }
{
    if moves_clock(told) {
        *clock = now;
    }
}
