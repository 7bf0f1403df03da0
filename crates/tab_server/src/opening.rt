//! The first frame of a connection that has waited for a worker.
ghost use Rattle.std.specs.Io.{ReadsAtMost};

use std::io;
use std::io::Read;
use tab_socket::Stream;

// How many bytes a frame's head has, which say how many follow.
const HEAD: usize = 4;

/// What reads a connection. One that has waited, so that its peer may have gone meanwhile, is read up to the end of its first frame; that
/// is answered, since whoever reads writes what there is before it reads on, and then the peer has to be there still.
///
/// A peer that has only ended its own side takes the answer, and is served. From one that has closed its socket the system tells a fault,
/// at once over a socket file, and over a port once something was written.
#[derive(Drop)]
pub(crate) struct Opening<'a, S> {
    stream: &'a S,
    // whether the peer is there, as far as anybody asks
    is_there: bool,
    // how much was read of the first frame, and its head
    read: usize,
    head: [u8; HEAD],
}

impl<'a, S: Stream> Opening<'a, S> {
    /// What reads this connection, whose peer may have gone, or hasn't.
    pub(crate) fn new(stream: &'a S, may_have_gone: bool) -> Opening<'a, S> {
        Opening {
            stream,
            is_there: !may_have_gone,
            read: 0,
            head: [0; HEAD],
        }
    }

    // How many bytes of the first frame are still to come, as far as its head is known.
    fn left(&self) -> usize {
        let length = if self.read < HEAD {
            HEAD
        } else {
            HEAD.saturating_add(u32::from_be_bytes(self.head) as usize)
        };
        length.saturating_sub(self.read)
    }

    // Fails where the system knows that the peer has closed its socket. Nothing is sent.
    fn see_peer(&self) -> io::Result<()> {
        let _ = self.stream.send(&[])?;
        Ok(())
    }

    // So many bytes of the first frame were read, which stand there.
    fn pass(&mut self, buf: &[u8], count: usize) {
        for byte in buf.iter().take(count) {
            if let Some(place) = self.head.get_mut(self.read) {
                *place = *byte;
            }
            self.read = self.read.saturating_add(1);
        }
    }
}

// Reads so many bytes at most.
fn receive_some<S: Stream>(stream: &S, buf: &mut [u8], most: usize) -> io::Result<usize>
    ensures { ReadsAtMost result buf.new }
{
    let most = most.min(buf.len());
    stream.receive(&mut buf[..most])
}

impl<S: Stream> Read for Opening<'_, S> {
    fn read(&mut self, buf: &mut [u8]) -> io::Result<usize> {
        if self.is_there {
            return self.stream.receive(buf);
        }
        let left = self.left();
        if left == 0 || self.read == 0 {
            self.see_peer()?;
        }
        if left == 0 {
            self.is_there = true;
            return self.stream.receive(buf);
        }
        let outcome = receive_some(self.stream, buf, left);
        if let Ok(count) = outcome {
            self.pass(buf, count);
        }
        outcome
    }
}
