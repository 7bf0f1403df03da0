//! One request after another, each with its reply.

use crate::shelling::ShellFault;
use std::alloc::Global;
use tab_history::{Refusal, Reply};
use tab_io::{Input, Output};
use tab_key::Name;
use tab_wire::{Answer, Client, Reason, ReceiveFault, Request, SendFault};

/// Who asks, and the two sides of a connection to a server.
#[derive(Drop)]
pub(crate) struct Asking<'a, R, W> {
    alloc: Global,
    client: Client,
    reader: &'a mut R,
    writer: &'a mut W,
}

impl<'a, R: Input, W: Output> Asking<'a, R, W> {
    /// Nothing was asked yet.
    pub(crate) fn new(
        alloc: Global,
        user: Name,
        reader: &'a mut R,
        writer: &'a mut W,
    ) -> Asking<'a, R, W> {
        Asking {
            alloc,
            client: Client::new(alloc, user),
            reader,
            writer,
        }
    }

    /// Sends the request, and receives its reply. One that isn't sent, since it is too long or memory lacks, is refused here.
    pub(crate) fn ask(&mut self, request: &Request) -> Result<Answer, ShellFault> {
        match self.client.send(self.writer, request) {
            Ok(()) => self.receive(),
            Err(SendFault::Write) => Err(ShellFault::Send),
            Err(SendFault::TooLong) => Ok(Answer::BadFrame(Reason::TooLong)),
            Err(SendFault::NoForm) => Ok(Answer::BadFrame(Reason::Opcode)),
            Err(SendFault::NoMemory) => Ok(Answer::Reply(Reply::Refused(Refusal::NoMemory))),
        }
    }

    // Receives the reply to what was sent.
    fn receive(&mut self) -> Result<Answer, ShellFault> {
        if self.writer.flush().is_err() {
            return Err(ShellFault::Send);
        }
        match self.client.receive(self.alloc, self.reader) {
            Ok(answer) => Ok(answer),
            Err(ReceiveFault::Read) => Err(ShellFault::Receive),
            Err(ReceiveFault::Ended) => Err(ShellFault::Ended),
            Err(ReceiveFault::Bad) => Err(ShellFault::Bad),
            Err(ReceiveFault::NoMemory) => Err(ShellFault::NoMemory),
        }
    }
}
