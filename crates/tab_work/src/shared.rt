//! A book that threads share.
ghost use Rattle.std.specs.Prelude.{◌≡◌, ◌≤◌, ◌<◌, Some, IfOk, IfErr, OnErr, IfSome, sum_by};
ghost use Rattle.std.specs.Sync.Mutex.{mutex_guard_value};
ghost use Rattle.tab_book.specs.Entries.{next_of};
ghost use Rattle.tab_book.specs.HandedOut.{session_in};
ghost use Rattle.tab_book.specs.Installs.{event_of};
ghost use Rattle.tab_book.specs.Receipts.{Receives};
ghost use Rattle.tab_serve.specs.Serves.{asked_at};
ghost use Rattle.tab_wire.specs.Requests.{request_in};
ghost use Rattle.tab_wire.specs.declared.request.Request.TheVariants as Request;
ghost use Rattle.tab_work.specs.Dues.{AreDue, IsDue};
ghost use Rattle.tab_work.specs.Receiving.{HandsOut};
ghost use Rattle.tab_work.specs.Slicing.{IsShared};
ghost use Rattle.tab_work.specs.Basing.{IsTaken};

use crate::dues::{due_in, due_list_in};
use std::alloc::{AllocError, Global};
use std::sync::atomic::{AtomicUsize, Ordering};
use std::sync::ledger::Ledger;
use std::sync::{Mutex, MutexGuard, Wait};
use std::thread;
use tab_book::{Book, Installation, Receipt, Reservation, Seat, SeatsOut, Slice, book_is_legal};
use tab_core::{Base, Due};
use tab_history::{Act, Event};
use tab_key::{ByteString, Name};

// What lies under the lock: a book to which no seat came back yet.
#[derive(Drop)]
pub(crate) struct LockedBook<L: Ledger> {
    pub(crate) book: Book<L>,
    // how often it was locked for an event since its history was handed out
    pub(crate) events: u64,
    ghost fresh: { book.back ≡ 0 },
}

// Has the book do what the user asks at the moment.
fn apply_to<L: Ledger>(
    alloc: Global,
    book: &mut Book<L>,
    seat: &mut Seat<L>,
    user: &Name,
    moment: i64,
    act: &mut Act,
    memory: Reservation,
) -> Result<Receipt<L>, AllocError>
    requires ready { seat.old.seen ≤ next_of book.old }
    requires fits { memory ≡ asked_at user.now moment act.old }
    ensures ok { IfOk result (λ r. Receives seat.old (asked_at user.now moment act.old) r seat.new) }
    ensures hands { IfOk result (λ r. HandsOut act.old (session_in r.held)) }
    ensures err { OnErr result ((seat.new ≡ seat.old) × (act.new ≡ act.old)) }
    ensures back { book.new.back ≡ book.old.back }
{
    book_is_legal(book);
    book.apply_reserved(alloc, seat, user, moment, act, memory)
}

// Has the book install the finished merge.
fn install_to<L: Ledger>(
    alloc: Global,
    book: &mut Book<L>,
    seat: &mut Seat<L>,
    asked: Installation,
    memory: Reservation,
) -> Result<Receipt<L>, (Installation, AllocError)>
    requires ready { seat.old.seen ≤ next_of book.old }
    requires fits { memory ≡ event_of asked }
    ensures ok { IfOk result (λ r. Receives seat.old (event_of asked) r seat.new) }
    ensures err { IfErr result (λ r. (r.0 ≡ asked) × (seat.new ≡ seat.old)) }
    ensures back { book.new.back ≡ book.old.back }
{
    book.install_reserved(alloc, seat, asked, memory)
}

/// A book under a lock. Each event of each thread is one step of the book; nothing is read, written, merged or waited for while it is
/// locked.
///
/// A contract sees nothing of what lies under the lock, since other threads may change it at any time: which book that is, how many seats
/// it has given, and what its core holds. What isn't said for that reason is said by the calls of the book that are made there.
#[derive(Drop)]
pub struct Shared<L: Ledger> {
    pub(crate) locked: Mutex<LockedBook<L>>,
    // how many of those who share it read ranges of a session at the moment
    readers: AtomicUsize,
    // whether one of those who share it hands its history on
    recorded: bool,
}

impl<L: Ledger> Shared<L> {
    /// Puts a book, to which no seat came back yet, under a lock.
    pub fn new(book: Book<L>) -> Shared<L>
        requires { book.back ≡ 0 }
    {
        Shared::over(book, false)
    }

    /// Puts a book under a lock whose history one of those who share it hands on, as a server's recorder does: a rotation that a connection
    /// asks for is an entry, behind which [`Shared::is_long`] holds, and hands nothing out.
    pub fn recorded(book: Book<L>) -> Shared<L>
        requires { book.back ≡ 0 }
    {
        Shared::over(book, true)
    }

    // Puts a book under a lock whose history is handed on by one of those who share it, or not.
    fn over(book: Book<L>, recorded: bool) -> Shared<L>
        requires { book.back ≡ 0 }
    {
        Shared {
            locked: Mutex::new(LockedBook { book, events: 0 }),
            readers: AtomicUsize::new(0),
            recorded,
        }
    }

    // Whether one of those who share it hands its history on.
    pub(crate) fn is_recorded(&self) -> bool {
        self.recorded
    }

    // Whether nobody of those who share it reads ranges at the moment. Whoever asks does from now on, until `end_ranges`.
    pub(crate) fn begin_ranges(&self) -> bool {
        self.readers.fetch_add(1, Ordering::Relaxed) == 0
    }

    // Whoever read ranges doesn't any more.
    pub(crate) fn end_ranges(&self) {
        let _ = self.readers.fetch_sub(1, Ordering::Relaxed);
    }

    /// A new seat, which has seen nothing and has no entry. There are 4,294,967,295 of them, and none behind the last: that there is one
    /// until then isn't said here, but by [`Book::join`].
    pub fn join(&self, rt: &impl Wait) -> Option<Seat<L>>
        ensures { IfSome result (λ s. (s.seen ≡ 0) × (s.count ≡ 0)) }
    {
        let mut locked = self.locked.lock(rt);
        locked.book.join()
    }

    // The book, locked, once its next entry's number is above all that the seat has seen. So it always is.
    pub(crate) fn ready<'a, R: Wait>(
        &'a self,
        rt: &R,
        seat: &Seat<L>,
    ) -> MutexGuard<'a, LockedBook<L>>
        ensures { seat.now.seen ≤ next_of (mutex_guard_value result).book }
    {
        for _ in rt.forever() {
            let mut locked = self.locked.lock(rt);
            if locked.book.ready(seat) {
                locked.events = locked.events.saturating_add(1);
                return locked;
            }
            drop(locked);
            thread::yield_now();
        }
        unreachable!()
    }

    /// Does an event, and gives its receipt: it names this seat and this event, and its number is above all that the seat has seen. What
    /// was handed out, a session by an Open alone, is untouched. Where the book's history can't grow the event is handed back, and nothing
    /// was done or counted. The memory for the entry is found before the book is locked.
    pub fn apply<R: Wait>(
        &self,
        rt: &R,
        alloc: Global,
        seat: &mut Seat<L>,
        event: Event,
    ) -> Result<Receipt<L>, (Event, AllocError)>
        ensures ok { IfOk result (λ r. Receives seat.old event r seat.new) }
        ensures hands { IfOk result (λ r. HandsOut event.act (session_in r.held)) }
        ensures err { IfErr result (λ r. (r.0 ≡ event) × (seat.new ≡ seat.old)) }
    {
        let mut event = event;
        let (user, moment, act) = (&event.user, event.moment, &mut event.act);
        match self.apply_lent(rt, alloc, seat, user, moment, act) {
            Ok(receipt) => Ok(receipt),
            Err(AllocError) => Err((event, AllocError)),
        }
    }

    /// Does what the user asks at the moment, as [`Shared::apply`] does that event, and may take parts out of the act. Where the book's
    /// history can't grow nothing was done or counted, and the act is as it was.
    pub fn apply_lent<R: Wait>(
        &self,
        rt: &R,
        alloc: Global,
        seat: &mut Seat<L>,
        user: &Name,
        moment: i64,
        act: &mut Act,
    ) -> Result<Receipt<L>, AllocError>
        ensures ok { IfOk result (λ r. Receives seat.old (asked_at user.now moment act.old) r seat.new) }
        ensures hands { IfOk result (λ r. HandsOut act.old (session_in r.held)) }
        ensures err { OnErr result ((seat.new ≡ seat.old) × (act.new ≡ act.old)) }
    {
        let memory = Reservation::of_lent(alloc, user, moment, act)?;
        let mut locked = self.ready(rt, seat);
        apply_to(alloc, &mut locked.book, seat, user, moment, act, memory)
    }

    /// Does what the user asks at the moment by a frame of this body, as [`Shared::apply_lent`] does that act. Of a Write the history keeps
    /// the body as it came.
    pub fn apply_asked<R: Wait>(
        &self,
        rt: &R,
        alloc: Global,
        seat: &mut Seat<L>,
        user: &Name,
        moment: i64,
        act: &mut Act,
        frame: &[u8],
    ) -> Result<Receipt<L>, AllocError>
        requires { request_in frame.now ≡ Some (Request.Act act.old) }
        ensures ok { IfOk result (λ r. Receives seat.old (asked_at user.now moment act.old) r seat.new) }
        ensures hands { IfOk result (λ r. HandsOut act.old (session_in r.held)) }
        ensures err { OnErr result ((seat.new ≡ seat.old) × (act.new ≡ act.old)) }
    {
        let kept = Reservation::of_asked(alloc, user, moment, act, frame)?;
        let mut locked = self.ready(rt, seat);
        apply_to(alloc, &mut locked.book, seat, user, moment, act, kept)
    }

    /// Installs a finished merge, as [`Shared::apply`] does an event. Where the book's history can't grow the Install is handed back with
    /// its merge, and nothing was done or counted.
    pub fn install<R: Wait>(
        &self,
        rt: &R,
        alloc: Global,
        seat: &mut Seat<L>,
        asked: Installation,
    ) -> Result<Receipt<L>, (Installation, AllocError)>
        ensures ok { IfOk result (λ r. Receives seat.old (event_of asked) r seat.new) }
        ensures err { IfErr result (λ r. (r.0 ≡ asked) × (seat.new ≡ seat.old)) }
    {
        let Ok(memory) = Reservation::of(alloc, &asked.event()) else {
            return Err((asked, AllocError));
        };
        let mut locked = self.ready(rt, seat);
        install_to(alloc, &mut locked.book, seat, asked, memory)
    }

    /// What is due first, with the table and the least row of its tablet: none where nothing is. It takes time linear in the tablets, and
    /// memory for the row alone.
    ///
    /// It is what is due in the book's own core at some moment of the call. Here it is said of a core that refines a history, legal from what
    /// the book's core held at first: that this is the book's isn't.
    pub fn due(
        &self,
        rt: &impl Wait,
        alloc: Global,
    ) -> Result<Option<(Due, Name, ByteString)>, AllocError>
        ensures { IfOk result (λ found. IsDue found) }
    {
        let locked = self.locked.lock(rt);
        due_in(alloc, &locked.book)
    }

    /// What is due first, so many works at most and at most one for each tablet, each with the table and the least row of its tablet: the
    /// first of them is the one of [`Shared::due`]. It takes time linear in the tablets for each kind of work and for each target, and memory
    /// for the list and the rows.
    ///
    /// It is what is due in the book's own core at some moment of the call, as far as that is said of [`Shared::due`].
    pub fn due_list(
        &self,
        rt: &impl Wait,
        alloc: Global,
        max: usize,
    ) -> Result<Vec<(Due, Name, ByteString)>, AllocError>
        ensures { IfOk result (λ found. AreDue max found.items) }
    {
        let locked = self.locked.lock(rt);
        due_list_in(alloc, &locked.book, max)
    }

    /// Ends it, where all seats are back. The book has as many entries as they counted. Else all comes back, with the number of seats that
    /// are out: that there are some is said here, and by [`Book::end`] how many.
    pub fn end(self, seats: Vec<Seat<L>>) -> Result<Book<L>, (Shared<L>, Vec<Seat<L>>, SeatsOut)>
        ensures ok { IfOk result (λ b. next_of b ≡ sum_by (λ s. s.count) seats.items) }
        ensures err { IfErr result (λ r. (r.1 ≡ seats) × (0 < r.2.0)) }
    {
        let Shared {
            locked,
            recorded,
            ..
        } = self;
        let LockedBook { book, .. } = locked.into_inner();
        match book.end(seats) {
            Ok(book) => Ok(book),
            Err((book, seats, out)) => Err((Shared::over(book, recorded), seats, out)),
        }
    }
}

// The entries of the book.
fn slice_in<L: Ledger>(
    alloc: Global,
    book: &Book<L>,
    from: u64,
    most: u64,
) -> Result<Slice<L>, AllocError>
    ensures { IfOk result (λ slice. IsShared from most slice) }
{
    book_is_legal(book);
    book.slice(alloc, from, most)
}

impl<L: Ledger> Shared<L> {
    /// The entries from this number on that are in the book's history at some moment of the call, at most so many, as [`Book::slice`] gives
    /// them. Each is shared with the book: nothing is copied while it is locked but where they lie, 16 bytes an entry.
    ///
    /// Here they are said to be of some legal history: that this is the book's isn't.
    pub fn slice(
        &self,
        rt: &impl Wait,
        alloc: Global,
        from: u64,
        most: u64,
    ) -> Result<Slice<L>, AllocError>
        ensures { IfOk result (λ slice. IsShared from most slice) }
    {
        let locked = self.locked.lock(rt);
        slice_in(alloc, &locked.book, from, most)
    }
}

// What the book's core holds, and the number of its next entry.
fn base_in<L: Ledger>(alloc: Global, book: &Book<L>) -> Result<(Base, u64), AllocError>
    ensures { IfOk result (λ taken. IsTaken taken.0 taken.1) }
{
    book_is_legal(book);
    Ok((book.core().base(alloc)?, book.next()))
}

impl<L: Ledger> Shared<L> {
    /// What the book's core holds at some moment of the call, and the number of the entry that is next then: all entries below it were done, and
    /// none from it on. The book is locked while the base is taken ([`tab_core::Core::base`] says what that copies).
    ///
    /// Here it is said of a core that refines a legal history: that this is the book's isn't.
    pub fn base(&self, rt: &impl Wait, alloc: Global) -> Result<(Base, u64), AllocError>
        ensures { IfOk result (λ taken. IsTaken taken.0 taken.1) }
    {
        let locked = self.locked.lock(rt);
        base_in(alloc, &locked.book)
    }
}
