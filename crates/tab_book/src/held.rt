//! What an event hands out.
ghost use Rattle.std.specs.Prelude.{◌≡◌, Some};
ghost use Rattle.tab_book.specs.HandedOut.{handed, session_in, job_in};

use tab_core::{Session, TabletJob};

/// What an event hands out beside its reply.
#[derive(Drop)]
pub enum Held {
    /// The session of an Open.
    Session(Session),
    /// The job of a Begin: its merge can be made.
    Job(TabletJob),
}

impl Held {
    // The session, or the job where there is none.
    pub(crate) fn of(session: Option<Session>, job: Option<TabletJob>) -> Option<Held>
        ensures { result ≡ handed session job }
    {
        match session {
            Some(session) => Some(Held::Session(session)),
            None => job.map(Held::Job),
        }
    }

    /// The session, if it is one. A job is dropped.
    pub fn into_session(self) -> Option<Session>
        ensures { result ≡ session_in (Some self) }
    {
        match self {
            Held::Session(session) => Some(session),
            Held::Job(_) => None,
        }
    }

    /// The job, if it is one. A session is dropped.
    pub fn into_job(self) -> Option<TabletJob>
        ensures { result ≡ job_in (Some self) }
    {
        match self {
            Held::Session(_) => None,
            Held::Job(job) => Some(job),
        }
    }
}
