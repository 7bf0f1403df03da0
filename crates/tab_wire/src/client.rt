//! The client's side of a connection: it writes requests, and reads their replies.
ghost use Rattle.std.specs.Prelude.{◌≡◌, [], ◌++◌, true, false};
ghost use Rattle.tab_io.specs.Writing.{Puts};
ghost use Rattle.tab_wire.specs.Replies.{frame};
ghost use Rattle.tab_wire.specs.Sending.{Sends, Greets, IsGathered, PutsFrame, hello_before, request_bytes};

use crate::Request;
use crate::answer::{Answer, ReplySoFar};
use crate::frame::{FrameBuffer, MAX_FRAME, Taken};
use crate::gathering::Gathering;
use crate::reply_frame::{ReplyFrame, read_told};
use crate::sending::put_request;
use crate::value::{Value, put_frame};
use std::alloc::{AllocError, AllocFailed, Global};
use tab_codec::put_field;
use tab_history::Reply;
use tab_io::{Input, Output, ReadFault, WriteFault};
use tab_key::Name;
use tab_text::ParseError;

/// Why a request wasn't sent.
#[derive(Clone, Copy, Debug, PartialEq, Eq, thiserror::Error)]
pub enum SendFault {
    /// The writer failed. A beginning of the request may be sent: nothing more can be.
    #[error("the request can't be sent")]
    Write,
    /// A split by size, a compaction in three parts, a save or a load: no frame asks it. Nothing was sent.
    #[error("no frame asks this")]
    NoForm,
    /// The request has over 8,388,608 bytes. Nothing was sent.
    #[error("the request is too long for a frame")]
    TooLong,
    /// There was no memory for the request. Nothing was sent.
    #[error("there is no memory")]
    NoMemory,
}

/// Why no reply was received. Behind it nothing more can be received.
#[derive(Clone, Copy, Debug, PartialEq, Eq, thiserror::Error)]
pub enum ReceiveFault {
    /// The reader failed.
    #[error("the reply can't be received")]
    Read,
    /// The server has ended the connection before the reply, or in it.
    #[error("the server has ended the connection")]
    Ended,
    /// What was received is no reply: the server isn't one of these frames.
    #[error("the server's reply isn't understood")]
    Bad,
    /// There was no memory for the reply.
    #[error("there is no memory")]
    NoMemory,
}

impl From<ReadFault> for ReceiveFault {
    ghost use Rattle.std.specs.Prelude.{◌≡◌};
    ghost use Rattle.tab_wire.specs.declared.client.ReceiveFault.TheVariants.{Read};

    ghost from_gives = { λ _ e. e ≡ Read };

    fn from(_e: ReadFault) -> ReceiveFault {
        ReceiveFault::Read
    }
}

impl From<AllocError> for ReceiveFault {
    ghost use Rattle.std.specs.Prelude.{◌≡◌};
    ghost use Rattle.tab_wire.specs.declared.client.ReceiveFault.TheVariants.{NoMemory};

    ghost from_gives = { λ _ e. e ≡ NoMemory };

    fn from(_e: AllocError) -> ReceiveFault {
        ReceiveFault::NoMemory
    }
}

impl<T: Drop> From<AllocFailed<T>> for ReceiveFault {
    ghost use Rattle.std.specs.Prelude.{◌≡◌};
    ghost use Rattle.tab_wire.specs.declared.client.ReceiveFault.TheVariants.{NoMemory};

    ghost from_gives = { λ _ e. e ≡ NoMemory };

    fn from(_e: AllocFailed<T>) -> ReceiveFault {
        ReceiveFault::NoMemory
    }
}

impl From<ParseError> for ReceiveFault {
    ghost use Rattle.std.specs.Prelude.{⊤};

    ghost from_gives = { λ _ _. ⊤ };

    fn from(why: ParseError) -> ReceiveFault {
        match why {
            ParseError::Malformed => ReceiveFault::Bad,
            ParseError::NoMemory => ReceiveFault::NoMemory,
        }
    }
}

/// Who asks on a connection, and what was said on it.
///
/// Each request is sent as one frame, and each reply is received whole, in the order of the requests. A request is gathered in memory that
/// is used again, and so is each frame of a reply. Several requests may be sent before the first reply is received; a server may then
/// wait for its replies to be read before it reads on.
#[derive(Drop)]
pub struct Client {
    user: Name,
    greeted: bool,
    heard: bool,
    request: Gathering,
    frame: FrameBuffer,
}

impl Client {
    /// Who asks; nothing was sent yet. It takes no memory yet.
    pub fn new(alloc: Global, user: Name) -> Client
        ensures user { result.user ≡ user }
        ensures greeted { result.greeted ≡ false }
    {
        Client {
            user,
            greeted: false,
            heard: false,
            request: Gathering::new(alloc),
            frame: FrameBuffer::new(alloc),
        }
    }

    /// Puts the frame of the request, and before the first one Hello. The output isn't flushed.
    ///
    /// All errors but [`SendFault::Write`] leave the output as it was, and the next request can be sent.
    pub fn send<W: Output>(&mut self, writer: &mut W, request: &Request) -> Result<(), SendFault>
        ensures bytes { Sends W.Output self.old.greeted self.old.user request.now writer.old writer.new result }
        ensures greeted { Greets self.old.greeted self.new.greeted result }
        ensures user { self.new.user ≡ self.old.user }
    {
        self.gather(request)?;
        self.put(writer)
    }

    // Gathers the bytes of the request.
    fn gather(&mut self, request: &Request) -> Result<(), SendFault>
        ensures bytes { IsGathered request.now self.new.request.bytes.items result }
        ensures user { self.new.user ≡ self.old.user }
        ensures greeted { self.new.greeted ≡ self.old.greeted }
    {
        self.request.clear();
        if put_request(&mut self.request, request).is_err() {
            return Err(SendFault::NoMemory);
        }
        let length = self.request.bytes().len();
        if length == 0 {
            return Err(SendFault::NoForm);
        }
        if length > MAX_FRAME as usize {
            return Err(SendFault::TooLong);
        }
        Ok(())
    }

    // Puts Hello, where it wasn't said, and the frame that was gathered.
    fn put<W: Output>(&mut self, writer: &mut W) -> Result<(), SendFault>
        ensures bytes { PutsFrame W.Output self.old.greeted self.old.user self.old.request.bytes.items writer.old writer.new result }
        ensures greeted { self.new.greeted ≡ true }
        ensures user { self.new.user ≡ self.old.user }
    {
        let greeted = self.greeted;
        self.greeted = true;
        match put_asked(writer, greeted, &self.user, self.request.bytes()) {
            Ok(()) => Ok(()),
            Err(_) => Err(SendFault::Write),
        }
    }

    /// Receives the reply to the request that was sent first of those without one; before the first reply, that to Hello.
    ///
    /// It reads no byte behind the reply.
    pub fn receive<R: Input>(
        &mut self,
        alloc: Global,
        reader: &mut R,
    ) -> Result<Answer, ReceiveFault> {
        if !self.heard {
            self.hear(alloc, reader)?;
        }
        self.answer(alloc, reader)
    }

    // Receives the reply to Hello, which is never refused.
    fn hear<R: Input>(&mut self, alloc: Global, reader: &mut R) -> Result<(), ReceiveFault> {
        match self.next_told(alloc, reader)? {
            ReplyFrame::Done => {
                self.heard = true;
                Ok(())
            }
            _ => Err(ReceiveFault::Bad),
        }
    }

    // Receives the frames of one reply.
    fn answer<R: Input>(&mut self, alloc: Global, reader: &mut R) -> Result<Answer, ReceiveFault> {
        let mut listed = ReplySoFar::new(alloc);
        for _ in 0..u64::MAX {
            let told = self.next_told(alloc, reader)?;
            if let Some(answer) = listed.add(told)? {
                return Ok(answer);
            }
        }
        Err(ReceiveFault::Bad)
    }

    // Receives one frame.
    fn next_told<R: Input>(
        &mut self,
        alloc: Global,
        reader: &mut R,
    ) -> Result<ReplyFrame, ReceiveFault> {
        match self.frame.take(reader)? {
            Taken::Frame => Ok(read_told(alloc, self.frame.bytes())?),
            Taken::End => Err(ReceiveFault::Ended),
            Taken::Broken(crate::Reason::Cut) => Err(ReceiveFault::Ended),
            Taken::Broken(_) => Err(ReceiveFault::Bad),
            Taken::NoMemory => Err(ReceiveFault::NoMemory),
        }
    }
}

// Puts these bytes as a frame, and Hello before it, where it wasn't said.
#[tactic(auto, using(tab_io::proofs::Putting::putting))]
fn put_asked<W: Output>(
    writer: &mut W,
    greeted: bool,
    user: &Name,
    bytes: &[u8],
) -> Result<(), WriteFault>
    ensures { Puts W.Output writer.old writer.new (hello_before greeted user.now ++ frame bytes.now) result }
{
    put_hello_before(writer, greeted, user)?;
    put_field(writer, bytes)
}

// Puts the frame of Hello, where it wasn't said.
#[tactic(auto, using(tab_io::proofs::Putting::putting))]
fn put_hello_before<W: Output>(writer: &mut W, greeted: bool, user: &Name) -> Result<(), WriteFault>
    ensures { Puts W.Output writer.old writer.new (hello_before greeted user.now) result }
{
    if greeted {
        return writer.put(b"");
    }
    put_frame(writer, &[Value::Byte(0x01), Value::Field(user.as_bytes())])
}
