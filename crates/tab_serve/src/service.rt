//! What answers the requests of a connection.
ghost use Rattle.std.specs.Prelude.{◌≡◌, ◌<◌, ℕ, List, Some, true};
ghost use Rattle.tab_history.specs.Answers.{Told};
ghost use Rattle.tab_wire.specs.Asking.{opens, opened_by};
ghost use Rattle.tab_wire.specs.Requests.{request_in};
ghost use Rattle.tab_wire.specs.declared.request.Request.{Request as Asks};

use tab_history::Reply;
use tab_key::Name;
use tab_wire::{Asked, Request};

/// What answers the requests of one connection, and keeps the sessions that it opens for it. It lends its replies from where they lie.
///
/// Each frame is heard before it is told anything; what is a request of the connection's user is answered then.
pub trait Service {
    // How many sessions it opened.
    ghost opened: { Self → ℕ };

    // What it told last.
    ghost told: { Self → Told };

    // What has to be known of its type before it answers. Where several threads make an answer, that they may share what it holds.
    ghost ready: { Type 0 };

    // What it may tell the user of this request, and the service after it.
    ghost answers: { Self → List ℕ → Asks → Told → Self → Type 0 };

    /// Hears what was read as a frame. Nothing is asked of it here, and by default nothing is done.
    fn hear(&self, _asked: &Asked) {}

    /// Answers the request of this user, which the frame of these bytes asks. Hello is a request too. What is kept of the request may be taken
    /// out of it.
    fn answer(&mut self, user: &Name, request: &mut Request, frame: &[u8])
        requires ready { ready }
        requires framed { request_in frame.now ≡ Some request.old }
        ensures answers { answers self.old user.now request.old (told self.new) self.new }
        ensures room { opens (told self.new) ≡ true → opened self.old < u32.MAX }
        ensures opened { opened self.new ≡ opened_by (opened self.old) (told self.new) };

    /// What it told last.
    fn reply(&self) -> &Reply
        ensures { result.now ≡ told self.now };
}
