//! What stands between a connection and its stream: nothing is told before what it rests on is kept.

use crate::backoff::Backoff;
use crate::handed::{Handed, Mark};
use crate::log::Log;
use crate::{NotKept, Store};
use std::cell::Cell;
use std::io::{Error, ErrorKind, Write};
use std::sync::Wait;
use std::sync::ledger::Ledger;
use std::time::{Clock, Duration};
use std::{io, thread};
use tab_history::{Act, Reply};
use tab_wire::{Asked, Request};
use tab_work::Gate;

// What can't be kept now is tried again so often, after pauses from so many milliseconds up to so many: for ten seconds.
const TRIES: u32 = 26;

const FIRST_PAUSE: u64 = 5;

const LONGEST_PAUSE: u64 = 500;

// How often it's looked whether the history was taken up to a rotation, and how many milliseconds lie between two looks: for a minute.
const LOOKS: u32 = 30_000;

const LOOK: u64 = 2;

/// What a worker's connection has asked of which its replies may tell.
#[derive(Drop)]
pub(crate) struct Marks {
    // the number behind that of its last event's entry
    event: Cell<u64>,
    // of a rotation of it that was done
    rotation: Cell<Option<Mark>>,
}

impl Marks {
    /// It has asked nothing.
    pub(crate) fn new() -> Marks {
        Marks {
            event: Cell::new(0),
            rotation: Cell::new(None),
        }
    }
}

/// A writer that sees all entries below its connection's mark kept before it writes any byte, and behind a rotation all of the history up
/// to there taken.
///
/// What can't be kept now is tried again for ten seconds, and the history is waited for for a minute; then the write fails, as it does
/// where that can't be done at all.
#[derive(Drop)]
pub(crate) struct Settled<'a, 'l, L: Ledger, R, D, W> {
    rt: &'a R,
    log: &'a Log<'l, L, D>,
    handed: &'a Handed,
    marks: &'a Marks,
    writer: W,
}

impl<'a, 'l, L: Ledger, R: Wait + Clock, D: Store, W> Settled<'a, 'l, L, R, D, W> {
    /// Over this writer, for the connection with these marks.
    pub(crate) fn new(
        rt: &'a R,
        log: &'a Log<'l, L, D>,
        handed: &'a Handed,
        marks: &'a Marks,
        writer: W,
    ) -> Settled<'a, 'l, L, R, D, W> {
        Settled {
            rt,
            log,
            handed,
            marks,
            writer,
        }
    }

    // Waits until all is kept on which a reply may rest.
    fn settle(&self) -> io::Result<()> {
        let mut backoff = Backoff::new(FIRST_PAUSE, LONGEST_PAUSE);
        for _ in 0..TRIES {
            match self.log.settle(self.rt, self.marks.event.get()) {
                Ok(()) => return Ok(()),
                Err(NotKept::Failed) => return Err(Error::from(ErrorKind::Other)),
                Err(NotKept::Later) => thread::sleep(self.rt, backoff.pause()),
            }
        }
        Err(Error::from(ErrorKind::TimedOut))
    }

    // Waits until the history was taken up to the rotation that was done, if one was.
    fn wait_for_rotation(&self) -> io::Result<()> {
        let Some(mark) = self.marks.rotation.get() else {
            return Ok(());
        };
        for _ in 0..LOOKS {
            match self.handed.has_taken(mark) {
                Some(true) => {
                    self.marks.rotation.set(None);
                    return Ok(());
                }
                Some(false) => return Err(Error::from(ErrorKind::Other)),
                None => thread::sleep(self.rt, Duration::from_millis(LOOK)),
            }
        }
        Err(Error::from(ErrorKind::TimedOut))
    }
}

impl<L: Ledger, R: Wait + Clock, D: Store, W: Write> Write for Settled<'_, '_, L, R, D, W> {
    fn write(&mut self, buf: &[u8]) -> io::Result<usize> {
        self.settle()?;
        self.wait_for_rotation()?;
        self.writer.write(buf)
    }

    fn flush(&mut self) -> io::Result<()> {
        self.writer.flush()
    }
}

/// The gate of a worker's connection, over another one. It sets the marks behind each of its events: what is told from then on may rest on
/// all entries up to that one's. What a session that was opened before shows rests on no later one.
#[derive(Drop)]
pub(crate) struct Marking<'a, G> {
    gate: &'a G,
    handed: &'a Handed,
    marks: &'a Marks,
    // whether a rotation was asked last
    rotates: Cell<bool>,
}

impl<'a, G> Marking<'a, G> {
    /// That of the connection with these marks.
    pub(crate) fn new(gate: &'a G, handed: &'a Handed, marks: &'a Marks) -> Marking<'a, G> {
        Marking {
            gate,
            handed,
            marks,
            rotates: Cell::new(false),
        }
    }

    // A rotation was done.
    fn mark_rotation(&self) {
        let rotation = &self.marks.rotation;
        rotation.set(self.handed.mark(rotation.get(), self.marks.event.get()));
    }
}

impl<G: Gate> Gate for Marking<'_, G> {
    fn before_merge(&self) {
        self.gate.before_merge();
    }

    fn before_batch(&self) {
        self.gate.before_batch();
    }

    fn after_write(&self) {
        self.gate.after_write();
    }

    fn after_event(&self, number: u64) {
        self.marks.event.set(number.saturating_add(1));
        self.gate.after_event(number);
    }

    fn after_install(&self) {
        self.gate.after_install();
    }

    fn hear(&self, asked: &Asked) {
        self.rotates.set(is_rotation(asked));
        self.gate.hear(asked);
    }

    fn after_reply(&self, reply: &Reply) {
        if self.rotates.get() && is_done(reply) {
            self.mark_rotation();
        }
        self.gate.after_reply(reply);
    }
}

// Whether a rotation is asked.
fn is_rotation(asked: &Asked) -> bool {
    matches!(asked, Asked::Request(Request::Act(Act::Rotate)))
}

// Whether an event was done.
fn is_done(reply: &Reply) -> bool {
    matches!(reply, Reply::Done)
}
