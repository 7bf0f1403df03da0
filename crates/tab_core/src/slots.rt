//! The sessions of one user in a run or a script, each in the slot that is its number.
ghost use Rattle.std.specs.Prelude.{◌≡◌, ◌⊎◌, ◌<◌, List, [], ◌∷◌, ◌++◌, Option, None, IfOk, OnOk, OnErr, length, count_by, is_some, vec_len, vec_capacity};
ghost use Rattle.tab_cells.specs.SessionState.{SessionState, batch, gave, in_ranges as cells_in};
ghost use Rattle.tab_key.specs.declared.limited_part.TheConstants.{MAX_SESSIONS};
ghost use Rattle.tab_history.specs.Answers.{ranges_told, many_answer};
ghost use Rattle.tab_core.specs.Slots.{are_full, NextFrom, ManyFrom, CloseFrom};
ghost use Rattle.tab_core.specs.Owners.{kept_with, OpensIn};
ghost use Rattle.tab_core.specs.Spending.{left_of};
ghost use Rattle.tab_core.specs.Stepping.{asked_at};

use crate::Session;
use crate::checking::ranges_refusal;
use crate::ranges_reader::{ByThreads, OneByOne, RangesReader};
use crate::reply::with_session;
use crate::state::Core;
use std::alloc::{AllocError, Global};
use std::marker::Model;
use std::mem;
use std::thread::Threads;
use tab_history::{Act, Refusal, Reply, Scan};
use tab_key::{Bounds, Cells, Items, LimitedPart, MAX_OPENED, MAX_SESSIONS, Name};

// A session in its slot. A contract sees its list and how many of its cells were given, which is what histories know of it, and not
// whether it is done.
#[derive(Drop)]
struct KeptSession {
    session: Session,
}

impl Model for KeptSession {
    ghost use Rattle.tab_cells.specs.SessionState.{SessionState};

    ghost Value = { SessionState };

    ghost view = { λ k. k.session.state };
}

impl KeptSession {
    // A session that was handed out.
    fn of(session: Session) -> KeptSession
        ensures { result ≡ session.state }
    {
        KeptSession { session }
    }

    // The next cells. Where memory lacks, the session is as before.
    fn next_batch(&mut self, alloc: Global, count: u32) -> Result<Cells, AllocError>
        ensures ok { IfOk result (λ cells. cells ≡ batch self.old count) }
        ensures after { OnOk result (self.new ≡ gave (length (batch self.old count)) self.old) }
        ensures err { OnErr result (self.new ≡ self.old) }
    {
        self.session.next_batch(alloc, count)
    }

    // The whole answer in each of the ranges.
    fn scan<R: RangesReader>(
        &mut self,
        reader: &R,
        alloc: Global,
        ranges: &[Bounds],
    ) -> Result<Items<Cells>, AllocError>
        requires { R.ready }
        ensures cells { IfOk result (λ cells. cells ≡ cells_in self.old ranges.now) }
        ensures same { self.new ≡ self.old }
    {
        reader.read(alloc, &mut self.session, ranges)
    }
}

/// One user's sessions by their numbers; none where it was closed. A number is given out once.
///
/// A session is found by its number in constant time, and whether there is room for another one is known without a count.
#[derive(Drop)]
pub struct Slots {
    // by number
    slots: Vec<Option<KeptSession>>,
    // how many of them hold a session
    open: usize,
}

impl Model for Slots {
    ghost use Rattle.std.specs.Prelude.{◌≡◌, List, Option, count_by, is_some};
    ghost use Rattle.tab_cells.specs.SessionState.{SessionState};

    ghost Value = { List (Option SessionState) };

    ghost view = { λ s. s.slots.items };

    ghost invariant = { λ s. s.open ≡ count_by is_some s.slots.items };
}

impl Slots {
    /// No session.
    pub fn new(alloc: Global) -> Slots
        ensures { result ≡ [] }
    {
        Slots {
            slots: Vec::new(alloc),
            open: 0,
        }
    }

    /// Whether no session can be opened any more: 65,536 are open, or 4,294,967,295 were opened.
    pub fn are_full(&self) -> bool
        ensures { result ≡ are_full self.now }
    {
        self.count_open() >= MAX_SESSIONS || self.slots.len() as u64 >= MAX_OPENED
    }

    /// How many sessions are open.
    pub fn count_open(&self) -> usize
        ensures { result ≡ count_by is_some self.now }
    {
        self.open
    }

    /// How many numbers were given out.
    pub fn numbers_given(&self) -> usize
        ensures { result ≡ length self.now }
    {
        self.slots.len()
    }

    /// The core answers the user's Open at this moment, and a session that it hands out is kept in the next slot. Where no session can be
    /// opened any more the event doesn't happen, and neither where there is no memory for the slot. A scan that is refused is left as it was;
    /// out of any other one the core takes what it keeps, as [`Core::open_lent`] does.
    pub fn open(
        &mut self,
        alloc: Global,
        core: &mut Core,
        user: &Name,
        moment: i64,
        scan: &mut Scan,
    ) -> Reply
        ensures opens { OpensIn core.old self.old (asked_at user.now moment (Act.Open scan.old)) result core.new self.new }
        ensures left { Act.Open scan.new ≡ left_of (Act.Open scan.old) result }
    {
        if self.are_full() {
            return Reply::Refused(Refusal::TooLarge(LimitedPart::Sessions));
        }
        if self.slots.reserve(1).is_err() {
            return Reply::Refused(Refusal::NoMemory);
        }
        let (reply, session) = with_session(core.open_lent(alloc, user, moment, scan));
        keep(&mut self.slots, &mut self.open, session);
        reply
    }

    /// A new slot that holds no session, for one that is opened elsewhere.
    pub fn prepare(&mut self) -> Result<(), AllocError>
        ensures ok { OnOk result (self.new ≡ self.old ++ None ∷ []) }
        ensures err { OnErr result (self.new ≡ self.old) }
    {
        self.slots.reserve(1)?;
        self.slots.push_reserved(None);
        Ok(())
    }

    /// Keeps the session in the last slot, which holds none; without a session that slot is taken away. It takes no memory.
    pub fn keep(&mut self, session: Option<Session>)
        requires few { count_by is_some self.old < MAX_SESSIONS }
        requires prepared { (slots : List (Option SessionState)) × (self.old ≡ slots ++ None ∷ []) }
        ensures { (slots : List (Option SessionState)) → self.old ≡ slots ++ None ∷ [] → self.new ≡ kept_with slots session }
    {
        let _ = self.slots.pop();
        keep(&mut self.slots, &mut self.open, session);
    }

    /// The next cells of the session in the slot.
    pub fn next(&mut self, alloc: Global, slot: u32, count: u32) -> Reply
        ensures { NextFrom self.old slot count result self.new }
    {
        let at = slot as usize;
        if at >= self.slots.len() {
            return Reply::Refused(Refusal::NoSession(slot));
        }
        match mem::replace(&mut self.slots[at], None) {
            None => Reply::Refused(Refusal::NoSession(slot)),
            Some(mut session) => {
                let cells = session.next_batch(alloc, count);
                let _ = mem::replace(&mut self.slots[at], Some(session));
                match cells {
                    Ok(cells) => Reply::Batch(cells),
                    Err(AllocError) => Reply::Refused(Refusal::NoMemory),
                }
            }
        }
    }

    /// The whole answer of the session in the slot, in each of the ranges. The slots stay as they were.
    pub fn many(&mut self, alloc: Global, slot: u32, ranges: &[Bounds]) -> Reply
        ensures answers { ManyFrom self.old slot ranges.now result }
        ensures same { self.new ≡ self.old }
    {
        self.many_by(&OneByOne, alloc, slot, ranges)
    }

    /// The answer of [`Slots::many`], read by several threads where [`Session::scan_many`] does. Where memory lacks in one of them, it's
    /// the whole request that it lacks for.
    pub fn many_by_threads(
        &mut self,
        rt: &(impl Threads + Sync),
        alloc: Global,
        slot: u32,
        ranges: &[Bounds],
    ) -> Reply
        ensures answers { ManyFrom self.old slot ranges.now result }
        ensures same { self.new ≡ self.old }
    {
        self.many_by(&ByThreads { rt }, alloc, slot, ranges)
    }

    // The whole answer in each of the ranges, read by this reader.
    fn many_by<R: RangesReader>(
        &mut self,
        reader: &R,
        alloc: Global,
        slot: u32,
        ranges: &[Bounds],
    ) -> Reply
        requires { R.ready }
        ensures answers { ManyFrom self.old slot ranges.now result }
        ensures same { self.new ≡ self.old }
    {
        let at = slot as usize;
        if at >= self.slots.len() {
            return Reply::Refused(Refusal::NoSession(slot));
        }
        many_at(reader, alloc, &mut self.slots[at], slot, ranges)
    }

    /// Closes the session in the slot.
    pub fn close(&mut self, slot: u32) -> Reply
        ensures { CloseFrom self.old slot result self.new }
    {
        let at = slot as usize;
        if at >= self.slots.len() {
            return Reply::Refused(Refusal::NoSession(slot));
        }
        if self.slots[at].is_none() {
            return Reply::Refused(Refusal::NoSession(slot));
        }
        put(&mut self.slots[at], None);
        self.open -= 1;
        Reply::Done
    }
}

// Keeps the session in a new slot, if there is one. There is room for the slot.
fn keep(slots: &mut Vec<Option<KeptSession>>, open: &mut usize, session: Option<Session>)
    requires room { vec_len slots.old < vec_capacity slots.old }
    requires few { open.old < MAX_SESSIONS }
    ensures slots { slots.new.items ≡ kept_with slots.old.items session }
    ensures counted { open.old ≡ count_by is_some slots.old.items → open.new ≡ count_by is_some slots.new.items }
{
    if let Some(session) = session {
        slots.push_reserved(Some(KeptSession::of(session)));
        *open += 1;
    }
}

// The whole answer of the session at the slot's place, in each of the ranges.
fn many_at<R: RangesReader>(
    reader: &R,
    alloc: Global,
    place: &mut Option<KeptSession>,
    slot: u32,
    ranges: &[Bounds],
) -> Reply
    requires { R.ready }
    ensures answers { (result ≡ many_answer place.old slot ranges.now) ⊎ (result ≡ Reply.Refused Refusal.NoMemory) }
    ensures same { place.new ≡ place.old }
{
    match place {
        None => Reply::Refused(Refusal::NoSession(slot)),
        Some(session) => in_ranges(reader, alloc, session, ranges),
    }
}

// The session's whole answer in each of the ranges, or what is wrong with these.
fn in_ranges<R: RangesReader>(
    reader: &R,
    alloc: Global,
    session: &mut KeptSession,
    ranges: &[Bounds],
) -> Reply
    requires { R.ready }
    ensures answers { (result ≡ ranges_told session.old ranges.now) ⊎ (result ≡ Reply.Refused Refusal.NoMemory) }
    ensures same { session.new ≡ session.old }
{
    if let Some(refusal) = ranges_refusal(ranges) {
        return Reply::Refused(refusal);
    }
    match session.scan(reader, alloc, ranges) {
        Ok(cells) => Reply::Ranges(cells),
        Err(AllocError) => Reply::Refused(Refusal::NoMemory),
    }
}

// Puts the value into the place, and drops what stood there.
pub(crate) fn put<T: Drop>(place: &mut T, value: T)
    ensures { place.new ≡ value }
{
    let _ = mem::replace(place, value);
}
