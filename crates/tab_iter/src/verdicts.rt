//! What is kept of labels that were judged, where and why.
//!
//! That a short byte string is a label, whoever asks, is kept in `KnownLabels` of `tab_label`: for writes, and for images that are read.
//! Whether a label holds under a scan's authorizations is kept in [`Verdicts`]:
//!
//! - `kept`: up to 1,024 labels of 65,536 bytes in their order, each with its verdict, so that each is judged once a session;
//! - `numbers`: for 128 slots the last verdict on a short label, found by its number, so that no byte is compared;
//! - `places`: for 256 slots where a longer label was found last, so that one is compared in place of a search by halves;
//! - `guesses`: by the head of a record whether its label holds, so that what follows needn't wait until that is read.
//!
//! Only `kept` and `numbers` are relied on (`IsSound`): where a place or a guess is used, it is seen whether it was right. One hash finds
//! the slots of all, `label_slot` of `tab_label`.
ghost use Rattle.std.specs.Prelude.{◌≡◌, ◌≤◌, ◌<◌, ◌^◌, List, ℕ, IfSome, IsTrue, length};
ghost use Rattle.tab_key.specs.Words.{IsWord};
ghost use Rattle.tab_label.specs.Holding.{label_holds};
ghost use Rattle.tab_iter.specs.Verdicts.{label_in, told_number, AreSound, AreTold, IsIn, IsSound, Tells};

use crate::NoMemory;
use std::alloc::Global;
use tab_label::label_slot;

// How many verdicts are kept at most.
const MOST_KEPT: usize = 1024;

// How many bytes of labels are kept at most.
const MOST_BYTES: usize = 65_536;

// How many verdicts on short labels are found by number at most.
const SHORT_SLOTS: usize = 128;

// How many places of longer labels are remembered.
const LONG_SLOTS: usize = 256;

// So many guesses are remembered in the bits of one number.
const GUESS_BITS: usize = 64;

const GUESS_NUMBERS: usize = 256 / GUESS_BITS;

/// Where a label lies that was judged, and whether it holds.
#[derive(Clone, Copy)]
pub(crate) struct Verdict {
    pub(crate) start: usize,
    pub(crate) end: usize,
    pub(crate) holds: bool,
}

/// Verdicts on labels under one set of authorizations, with which a scan goes on in its next batch: so each label is judged once a
/// session, as long as there are no more than 1,024 of 65,536 bytes in all. Of more it remembers those that came first.
///
/// The labels lie one after another in one body: none has memory of its own. The last verdicts on short labels are found by their
/// numbers too, and where those on longer ones were found last is remembered. A label that isn't found so may have been judged all the
/// same.
pub struct Verdicts {
    pub(crate) body: Vec<u8>,
    // in the order of the labels' bytes
    pub(crate) kept: Vec<Verdict>,
    // by slot: twice the number of a short label, and one more where it holds; 0 where there is no verdict
    pub(crate) numbers: Vec<u64>,
    // by slot: where among those kept a longer label was found; labels of one slot share it
    places: Vec<u8>,
    // a bit for each guess: whether the last label held at which it was made
    guesses: [u64; GUESS_NUMBERS],
}

// Written out, so that a crate above needn't prove anew how the parts are dropped.
impl Drop for Verdicts {
    #[inline(always)]
    fn drop(self) {
        let Verdicts {
            body: _,
            kept: _,
            numbers: _,
            places: _,
            guesses: _,
        } = self;
    }
}

impl Verdicts {
    /// None, which are right under all authorizations. It takes no memory.
    pub fn none(alloc: Global) -> Verdicts
        ensures { (auths : List (List ℕ)) → IsSound auths result }
    {
        Verdicts {
            body: Vec::new(alloc),
            kept: Vec::new(alloc),
            numbers: Vec::new(alloc),
            places: Vec::new(alloc),
            guesses: [0; GUESS_NUMBERS],
        }
    }

    /// Whether it is remembered of the short label of this number that it holds, or that it doesn't.
    #[inline]
    pub(crate) fn is_known(&self, word: u64, holds: bool) -> bool
        requires { word < 2 ^ 57 }
        ensures { IsTrue result → (auths : List (List ℕ)) (label : List ℕ) → IsSound auths self.now → IsWord word label → holds ≡ label_holds label auths }
    {
        match self.numbers.get(short_slot(word)) {
            Some(number) => *number == told_number(word, holds),
            None => false,
        }
    }

    /// Whether the short label of this number holds, if that is remembered.
    pub(crate) fn known(&self, word: u64) -> Option<bool>
        requires { word < 2 ^ 57 }
        ensures { IfSome result (λ b. (auths : List (List ℕ)) (label : List ℕ) → IsSound auths self.now → IsWord word label → b ≡ label_holds label auths) }
    {
        if self.is_known(word, true) {
            return Some(true);
        }
        if self.is_known(word, false) {
            return Some(false);
        }
        None
    }

    /// Remembers whether the short label of this number holds. The error comes only from want of memory, and leaves the verdicts as they
    /// were.
    pub(crate) fn note(&mut self, word: u64, holds: bool) -> Result<(), NoMemory>
        requires { word < 2 ^ 57 }
        ensures { (auths : List (List ℕ)) (label : List ℕ) → IsWord word label → holds ≡ label_holds label auths → IsSound auths self.old → IsSound auths self.new }
    {
        make_room(&mut self.numbers)?;
        let number = told_number(word, holds);
        put_at(&mut self.numbers, short_slot(word), number);
        Ok(())
    }

    /// Whether the last label held at which this guess was made. At first none held.
    #[inline]
    pub(crate) fn guess(&self, guess: u8) -> bool {
        let place = usize::from(guess);
        self.guesses[place / GUESS_BITS] >> (place % GUESS_BITS) & 1 == 1
    }

    /// Remembers whether a label holds at which this guess can be made.
    pub(crate) fn note_guess(&mut self, guess: u8, holds: bool)
        ensures { (auths : List (List ℕ)) → IsSound auths self.old → IsSound auths self.new }
    {
        let place = usize::from(guess);
        let bit = 1 << (place % GUESS_BITS);
        let others = self.guesses[place / GUESS_BITS] & !bit;
        self.guesses[place / GUESS_BITS] = if holds { others | bit } else { others };
    }

    /// Whether this label holds, if the verdict on it is where one on such a label was found last.
    pub(crate) fn find_hinted(&self, label: &[u8]) -> Option<bool>
        ensures { IfSome result (λ b. (auths : List (List ℕ)) → IsSound auths self.now → b ≡ label_holds label.now auths) }
    {
        let place = match self.places.get(long_slot(label)) {
            Some(place) => usize::from(*place),
            None => 0,
        };
        self.find_at(place, label)
    }

    /// Remembers that the verdict on such a label is at this place, if it is one of the first 256 and there is memory.
    pub(crate) fn hint(&mut self, label: &[u8], place: usize)
        ensures { (auths : List (List ℕ)) → IsSound auths self.old → IsSound auths self.new }
    {
        note_place(&mut self.places, long_slot(label), place);
    }

    /// Whether this label holds, if the verdict at a place is on it.
    pub(crate) fn find_at(&self, place: usize, label: &[u8]) -> Option<bool>
        ensures { IfSome result (λ b. (auths : List (List ℕ)) → IsSound auths self.now → b ≡ label_holds label.now auths) }
    {
        match self.kept.get(place) {
            None => None,
            Some(found) => {
                if label_of(&self.body, found) == label {
                    Some(found.holds)
                } else {
                    None
                }
            }
        }
    }

    /// How many of the labels stand before this one, found by halves: they are kept in the order of their bytes.
    pub(crate) fn count_before(&self, label: &[u8]) -> usize
        ensures { result ≤ length self.now.kept.items }
    {
        let body = self.body.as_slice();
        self.kept
            .partition_point(|other| label_of(body, other) < label)
    }

    // Whether there is room for one more.
    fn has_room(&self, label: &[u8]) -> bool {
        self.kept.len() < MOST_KEPT && label.len() <= MOST_BYTES.saturating_sub(self.body.len())
    }

    /// Keeps a verdict at this place among them, unless there are too many. The error comes only from want of memory, and leaves them
    /// as they were.
    pub(crate) fn keep_at(
        &mut self,
        place: usize,
        label: &[u8],
        holds: bool,
    ) -> Result<(), NoMemory>
        requires { place ≤ length self.old.kept.items }
        ensures { (auths : List (List ℕ)) → holds ≡ label_holds label.now auths → IsSound auths self.old → IsSound auths self.new }
    {
        if !self.has_room(label) {
            return Ok(());
        }
        self.kept.reserve(1)?;
        let start = self.body.len();
        self.body.extend_from_slice(label)?;
        let end = self.body.len();
        self.kept.insert(place, Verdict { start, end, holds })?;
        Ok(())
    }
}

// The label of a verdict, which lies in the body.
fn label_of<'a>(body: &'a [u8], verdict: &Verdict) -> &'a [u8]
    ensures { IsIn body.now verdict.now → result.now ≡ label_in body.now verdict.now }
{
    if verdict.start <= verdict.end && verdict.end <= body.len() {
        return &body[verdict.start..verdict.end];
    }
    b""
}

// Room for the numbers, if there is none yet.
fn make_room(numbers: &mut Vec<u64>) -> Result<(), NoMemory>
    ensures { (auths : List (List ℕ)) → AreTold auths numbers.old.items → AreTold auths numbers.new.items }
{
    if numbers.is_empty() {
        let alloc = *numbers.allocator();
        *numbers = Vec::from_elem(alloc, 0, SHORT_SLOTS)?;
    }
    Ok(())
}

// Puts the number in the place, if there is one.
fn put_at(numbers: &mut Vec<u64>, place: usize, number: u64)
    ensures { (auths : List (List ℕ)) → Tells auths number → AreTold auths numbers.old.items → AreTold auths numbers.new.items }
{
    if place < numbers.len() {
        numbers[place] = number;
    }
}

// Twice the label's number, and one more where it holds.
#[inline]
fn told_number(word: u64, holds: bool) -> u64
    requires { word < 2 ^ 57 }
    ensures { result ≡ told_number word holds }
{
    2 * word + holds as u64
}

// Remembers the place in this slot, if it is one of the first 256. The memory is taken with the first; where it lacks none is remembered.
fn note_place(places: &mut Vec<u8>, slot: usize, place: usize) {
    let Ok(place) = u8::try_from(place) else {
        return;
    };
    if places.is_empty() {
        let alloc = *places.allocator();
        *places = match Vec::from_elem(alloc, 0, LONG_SLOTS) {
            Ok(new) => new,
            Err(_) => return,
        };
    }
    if let Some(noted) = places.get_mut(slot) {
        *noted = place;
    }
}

// The slot of a short label, by its number.
#[inline]
fn short_slot(word: u64) -> usize {
    label_slot(word) / 2
}

// The slot of a label of any length, by its length and its first byte, the one in its middle and its last.
fn long_slot(label: &[u8]) -> usize {
    let length = label.len();
    label_slot(
        (length as u64)
            ^ byte_at(label, 0) << 16
            ^ byte_at(label, length / 2) << 32
            ^ byte_at(label, length.saturating_sub(1)) << 48,
    )
}

// The byte at an index, or 0 behind the end.
fn byte_at(label: &[u8], index: usize) -> u64 {
    match label.get(index) {
        Some(byte) => u64::from(*byte),
        None => 0,
    }
}
