//! What is asked of a run, and where it stands.
use std::cell::Cell;
use std::fmt;
use std::fmt::{Display, Formatter};

/// What is asked of a run.
#[derive(Clone, Copy, Debug, PartialEq, Eq)]
pub struct RunOptions {
    /// Whether it stops at the first fault or refusal.
    pub strict: bool,
    /// Whether it prints only what isn't `ok`.
    pub quiet: bool,
}

impl RunOptions {
    /// Whether anything is asked.
    pub fn is_on(self) -> bool {
        self.strict || self.quiet
    }
}

/// How many lines were answered `ok`, by a refusal, and by a fault.
#[derive(Clone, Copy, Debug, PartialEq, Eq)]
pub struct LineCounts {
    pub done: u64,
    pub refused: u64,
    pub faults: u64,
}

impl Display for LineCounts {
    fn fmt<W: fmt::Write>(&self, f: &mut Formatter<W>) -> fmt::Result {
        let (done, refused, faults) = (self.done, self.refused, self.faults);
        let ending = if faults == 1 { "" } else { "s" };
        write!(f, "{done} ok, {refused} refused, {faults} fault{ending}")
    }
}

/// Where a run stands: the line that is being answered, counted from 1, whether more was read behind it, and whether the run has stopped.
/// Its reader and its writer share it.
#[derive(Drop)]
pub struct Course {
    watch: RunOptions,
    line: Cell<u64>,
    more: Cell<bool>,
    stopped: Cell<bool>,
}

impl Course {
    /// The course of a run of which this is asked. No line was read yet.
    pub fn new(watch: RunOptions) -> Course {
        Course {
            watch,
            line: Cell::new(0),
            more: Cell::new(false),
            stopped: Cell::new(false),
        }
    }

    /// What is asked of the run.
    pub fn watch(&self) -> RunOptions {
        self.watch
    }

    /// The line that is being answered, or 0 before the first.
    pub fn line(&self) -> u64 {
        self.line.get()
    }

    /// Whether the run has stopped at that line.
    pub fn has_stopped(&self) -> bool {
        self.stopped.get()
    }

    /// The line that is being answered has this number, as whoever asks for lines counts them: not each of them is handed on.
    pub fn set_line(&self, number: u64) {
        self.line.set(number);
    }

    /// The run stops at this line.
    pub fn stop(&self) {
        self.stopped.set(true);
    }

    /// Whether the run goes on with what was read already: nothing is waited for before the next answer.
    pub(crate) fn has_more(&self) -> bool {
        self.more.get() && !self.stopped.get()
    }

    /// Whether more was read than was handed on.
    pub(crate) fn set_more(&self, more: bool) {
        self.more.set(more);
    }

    /// The next line is read.
    pub(crate) fn step(&self) {
        self.line.set(self.line.get().saturating_add(1));
    }
}
