//! One side of a connection: what is asked next, and what it is told.
ghost use Rattle.std.specs.Prelude.{◌≡◌, ◌<◌, true, is_some, Some, option_copied, IfOk, IfSome, OnErr};
ghost use Rattle.tab_io.specs.Streams.{FailsByFault};
ghost use Rattle.tab_io.specs.Writing.{Puts};
ghost use Rattle.tab_wire.specs.Asking.{new_conn, IsRead, IsBy, IsFramed, Stays, MayAsk, Hears, Asks, Knows, opens, opened_by};
ghost use Rattle.tab_wire.specs.Heard.{heard_by, next_by};
ghost use Rattle.tab_wire.specs.Replies.{sent_bytes, sent_of};
ghost use Rattle.tab_wire.specs.Stream.{Frame};
ghost use Rattle.tab_wire.specs.Taking.{TakesPart, Costs};

use crate::frame::{FrameBuffer, Taken};
use crate::read::read_request;
use crate::reply::write_reply;
use crate::{Asked, Request, Stop};
use std::alloc::Global;
use std::marker::Model;
use tab_history::Reply;
use tab_io::{Input, Output, ReadFault, WriteFault};
use tab_key::Name;

/// Who said Hello on a connection, and how many sessions were opened on it. Their numbers count from 0.
///
/// It reads each frame into memory that it uses again for the next one, and keeps no session.
#[derive(Drop)]
pub struct Conn {
    user: Option<Name>,
    opened: u32,
    frame: FrameBuffer,
}

impl Model for Conn {
    ghost use Rattle.tab_wire.specs.Asking.{ConnState};
    ghost use Rattle.tab_wire.specs.Taking.{frame_in};

    ghost Value = { ConnState };

    ghost view = { λ c. record { user = c.user; opened = c.opened; frame = frame_in c.frame } };
}

impl Conn {
    /// A connection on which nothing was said yet. It takes no memory yet.
    pub fn new(alloc: Global) -> Conn
        ensures { result ≡ new_conn }
    {
        Conn {
            user: None,
            opened: 0,
            frame: FrameBuffer::new(alloc),
        }
    }

    /// The user who said Hello, and asks from then on. `None`: nobody did.
    pub fn user(&self) -> Option<&Name>
        ensures { option_copied result ≡ self.now.user }
    {
        self.user.as_ref()
    }

    /// The bytes of the frame that was read last.
    pub fn frame(&self) -> &[u8]
        ensures { result.now ≡ self.now.frame }
    {
        self.frame.bytes()
    }

    /// Reads the next frame. `None`: the input has ended between two frames.
    ///
    /// A request is one of the connection's user, who is known by then: Hello has named him, or names him.
    ///
    /// How the input is cut into reads makes no difference. A frame for which memory lacks is read to its end. After an error a
    /// beginning of a frame may be lost, no whole one is, and nothing more can be asked.
    pub fn ask<R: Input>(
        &mut self,
        alloc: Global,
        input: &mut R,
    ) -> Result<Option<Asked>, ReadFault>
        ensures ahead { IfOk result (λ asked. IfSome (R.remaining input.old) (λ ahead. Asks (is_some self.old.user) ahead (next_by self.new.user asked) (R.remaining input.new))) }
        ensures ok { IfOk result (λ asked. Knows self.old (next_by self.new.user asked) self.new) }
        ensures err { OnErr result (Stays self.old self.new) }
        ensures frame { IfOk result (λ asked. IsFramed self.new.frame asked) }
        ensures left { OnErr result (TakesPart (R.remaining input.old) (R.remaining input.new)) }
        ensures faults { FailsByFault result (R.faults input.old) (R.faults input.new) (R.budget input.new) }
        ensures costs { IfOk result (λ _. Costs R.Input input.old input.new) }
    {
        match self.frame.take(input)? {
            Taken::End => Ok(None),
            Taken::Broken(reason) => Ok(Some(Asked::Broken(reason))),
            Taken::NoMemory => Ok(Some(Asked::NoMemory)),
            Taken::Frame => Ok(Some(asked(alloc, &mut self.user, self.frame.bytes()))),
        }
    }

    /// Writes the frames of the reply. It takes no memory. `count` is how many cells were asked for, where that was a batch.
    ///
    /// A session that the reply opens gets the next number. After an error a beginning of the frames may have been written.
    pub fn answer<W: Output>(
        &mut self,
        count: u32,
        reply: &Reply,
        output: &mut W,
    ) -> Result<(), WriteFault>
        requires { opens reply.now ≡ true → self.old.opened < u32.MAX }
        ensures bytes { Puts W.Output output.old output.new (sent_bytes (sent_of self.old.opened count reply.now)) result }
        ensures user { self.new.user ≡ self.old.user }
        ensures opened { self.new.opened ≡ opened_by self.old.opened reply.now }
        ensures frame { self.new.frame ≡ self.old.frame }
    {
        let number = self.opened;
        if let Reply::Opened(_) = reply {
            self.opened += 1;
        }
        write_reply(output, number, count, reply)
    }
}

// What the frame asks, and who asks.
fn asked(alloc: Global, user: &mut Option<Name>, frame: &[u8]) -> Asked
    ensures read { IsRead (is_some user.old) (Frame frame.now) (heard_by user.new result) }
    ensures by { Hears user.old (heard_by user.new result) user.new }
    ensures framed { IsFramed frame.now (Some result) }
{
    match read_request(alloc, user.is_some(), frame) {
        Ok(request) => {
            greet(user, &request);
            Asked::Request(request)
        }
        Err(Stop::Bad(reason)) => Asked::Bad(reason),
        Err(Stop::NoMemory) => Asked::NoMemory,
    }
}

// Hello says who asks from now on; all else is asked by the one who said it.
fn greet(user: &mut Option<Name>, request: &Request)
    requires { MayAsk user.old request.now }
    ensures known { is_some user.new ≡ true }
    ensures by { IfSome user.new (λ name. IsBy user.old name request.now) }
{
    match request {
        Request::Hello(name) => *user = Some(*name),
        _ => {}
    }
}
