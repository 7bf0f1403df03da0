//! The entries of a stretch of a history, gathered for a batch.
ghost use Rattle.std.specs.Prelude.{◌≡◌, ◌==◌, ◌∷◌, ◌++◌, [], OnOk, OnErr, length, true};
ghost use Rattle.std.specs.Int.{int_max};
ghost use Rattle.tab_lasting.specs.Lasting.{leaves_trace};
ghost use Rattle.tab_codec.specs.Parts.{IsBytes};
ghost use Rattle.tab_wire.specs.Replies.{i64, field};
ghost use Rattle.tab_io.specs.Writing.{Puts};
ghost use Rattle.tab_journal.specs.Journals.{AreEntries};
ghost use Rattle.tab_journal.specs.Stretches.{begun, kept_behind};
ghost use Rattle.tab_journal.specs.Outcomes.{clock_by, kept_by, gathers_by};

use crate::lasting::leaves_trace;
use std::alloc::{AllocError, Global};
use std::marker::Model;
use tab_event_record::{EventRecord, Outcome};
use tab_io::{Output, WriteFault};
use tab_wire::{Gathering, Value, put_values};

/// The entries of a stretch of a history that are to outlive a crash, as the body of a batch.
///
/// Entries are added in the order of the history, the oldest first. Of one that was refused, or leaves nothing, no byte is kept: it moves the
/// clock, and later ones are kept at the clock that they met. A contract sees the clock, the entries that are kept, and their bytes.
#[derive(Drop)]
pub struct Gathered {
    clock: i64,
    text: Gathering,
}

impl Model for Gathered {
    ghost use Rattle.tab_journal.specs.Gathering.{stretch_in, IsStretch};
    ghost use Rattle.tab_journal.specs.Stretches.{Stretch};

    ghost Value = { Stretch };

    ghost view = { stretch_in };

    ghost invariant = { IsStretch };
}

impl Gathered {
    /// Nothing yet, at this clock. It takes no memory.
    pub fn new(alloc: Global, clock: i64) -> Gathered
        ensures { result ≡ begun clock }
    {
        Gathered {
            clock,
            text: Gathering::new(alloc),
        }
    }

    /// One more entry of the history, behind those that were added before.
    ///
    /// # Errors
    ///
    /// There is no memory. Nothing was added then, and the clock stands.
    pub fn add(&mut self, event: &EventRecord, outcome: Outcome) -> Result<(), AllocError>
        ensures ok { OnOk result (self.new ≡ gathers_by self.old event.now outcome) }
        ensures err { OnErr result (self.new ≡ self.old) }
    {
        let met = later(self.clock, event.moment());
        self.keep(met, event, outcome)?;
        self.pass(met, outcome);
        Ok(())
    }

    // What is to be kept of an entry that met this clock.
    fn keep(&mut self, clock: i64, event: &EventRecord, outcome: Outcome) -> Result<(), AllocError>
        ensures ok { OnOk result (self.new ≡ kept_behind self.old self.old.clock (kept_by outcome clock event.now)) }
        ensures err { OnErr result (self.new ≡ self.old) }
    {
        match outcome {
            Outcome::Answered if leaves_trace(event) => self.put(clock, event),
            _ => Ok(()),
        }
    }

    // An event that leaves something, at this clock.
    fn put(&mut self, clock: i64, event: &EventRecord) -> Result<(), AllocError>
        requires { leaves_trace event.now.act ≡ true }
        ensures ok { OnOk result (self.new ≡ kept_behind self.old self.old.clock (record event.now { moment = clock } ∷ [])) }
        ensures err { OnErr result (self.new ≡ self.old) }
    {
        gather_entry(&mut self.text, clock, event.user(), event.body())?;
        Ok(())
    }

    // The clock goes on, where the outcome says so.
    fn pass(&mut self, clock: i64, outcome: Outcome)
        ensures { self.new ≡ record self.old { clock = clock_by outcome clock self.old.clock } }
    {
        match outcome {
            Outcome::Void => {}
            _ => self.clock = clock,
        }
    }

    /// The clock behind all that was added.
    pub fn clock(&self) -> i64
        ensures { result ≡ self.now.clock }
    {
        self.clock
    }

    /// The bytes of the entries that are kept, one behind the other.
    pub fn body(&self) -> &[u8]
        ensures bytes { result.now ≡ self.now.bytes }
        ensures read { AreEntries self.now.bytes self.now.entries }
    {
        self.text.bytes()
    }

    /// How many bytes these are.
    pub fn len(&self) -> usize
        ensures { result ≡ length self.now.bytes }
    {
        self.text.bytes().len()
    }

    /// Whether nothing is kept.
    pub fn is_empty(&self) -> bool
        ensures { result ≡ (length self.now.bytes == 0) }
    {
        self.text.bytes().is_empty()
    }

    /// Forgets what is kept. The clock stays, and so does the memory.
    pub fn clear(&mut self)
        ensures { self.new ≡ begun self.old.clock }
    {
        self.text.clear();
    }
}

// The entry of this clock, this user and this act, behind what was gathered. An error leaves that as it was.
fn gather_entry(text: &mut Gathering, clock: i64, user: &[u8], act: &[u8]) -> Result<(), AllocError>
    ensures ok { OnOk result (text.new.bytes.items ≡ text.old.bytes.items ++ (i64 clock ++ (field user.now ++ field act.now))) }
    ensures err { OnErr result (text.new.bytes.items ≡ text.old.bytes.items) }
    ensures fits { IsBytes act.now }
{
    let before = text.bytes().len();
    match put_entry(text, clock, user, act) {
        Ok(()) => Ok(()),
        Err(_) => {
            text.cut(before);
            Err(AllocError)
        }
    }
}

// The later of two moments.
fn later(a: i64, b: i64) -> i64
    ensures { result ≡ int_max a b }
{
    if b < a { a } else { b }
}

// Puts the entry of an event: the clock that it met, its user, and its body.
#[tactic(auto, using(tab_io::proofs::Putting::putting))]
fn put_entry<'a, W: Output>(
    output: &mut W,
    clock: i64,
    user: &'a [u8],
    body: &'a [u8],
) -> Result<(), WriteFault>
    ensures { Puts W.Output output.old output.new (i64 clock ++ (field user.now ++ field body.now)) result }
{
    put_values(
        output,
        &[Value::Signed(clock), Value::Field(user), Value::Field(body)],
    )
}
