//! How events ended.
ghost use Rattle.std.specs.Prelude.{◌≡◌};
ghost use Rattle.tab_history.specs.declared.reply.Reply.TheVariants.{Refused};
ghost use Rattle.tab_core.specs.EventReplies.{told_in};
ghost use Rattle.tab_book.specs.RecordedReplies.{reply_in};
ghost use Rattle.tab_book.specs.Slices.{outcome_of};

use crate::recorded_reply::RecordedReply;
use tab_core::EventReply;
use tab_event_record::Outcome;
use tab_history::Refusal;
use tab_key::LimitedPart;

impl RecordedReply {
    // How the event ended that was told so.
    pub(crate) fn outcome(&self) -> Outcome
        ensures { result ≡ outcome_of (reply_in self.now) }
    {
        match self {
            RecordedReply::Done => Outcome::Answered,
            RecordedReply::Opened => Outcome::Answered,
            RecordedReply::Other(told) => outcome_told(told),
        }
    }
}

// How the event ended that was told this.
fn outcome_told(told: &EventReply) -> Outcome
    ensures { result ≡ outcome_of (told_in told.now) }
{
    match told {
        EventReply::Refused(refusal) => outcome_refused(refusal),
        _ => Outcome::Answered,
    }
}

// How the event ended that was refused so.
fn outcome_refused(refusal: &Refusal) -> Outcome
    ensures { result ≡ outcome_of (Refused refusal.now) }
{
    match refusal {
        Refusal::NoMemory => Outcome::Void,
        Refusal::NoSession(_) => Outcome::Void,
        Refusal::NoJob(_) => Outcome::Void,
        Refusal::TooLarge(LimitedPart::Sessions) => Outcome::Void,
        _ => Outcome::Refused,
    }
}
