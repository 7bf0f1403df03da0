//! The bytes of a journal as far as they were read, and how many of them were taken.
ghost use Rattle.std.specs.Prelude.{◌≡◌, ◌+◌, ◌-◌, ◌<◌, ◌≤◌, ◌^◌, ◌↔◌, ◌&&◌, nat_le, [], None, true, take, length, IfOk, IfSome, IfNone, vec_len};
ghost use Rattle.tab_codec.specs.Parts.{IsBytes};
ghost use Rattle.tab_journal.specs.Damage.{IsDamagedIn};
ghost use Rattle.tab_journal.specs.Reading.{header_at};
ghost use Rattle.tab_journal.specs.Said.{end_in};

use crate::batch::take_batch;
use crate::damage::is_damaged;
use crate::header::{Header, take_header};
use crate::journal_end::JournalEnd;
use crate::seal::Form;
use std::alloc::{AllocError, Global};

// How many bytes a sum has, and a length.
const SUM: usize = 8;

const LENGTH: usize = 4;

/// The bytes of a journal as far as they were read: those that were taken, the header and batches, and those behind them. Of what was taken the last
/// batch is here still, or the sum alone.
#[derive(Drop)]
pub(crate) struct Cursor {
    header: Header,
    buffer: Vec<u8>,
    // where in the buffer that begins which isn't taken
    start: usize,
    // how long the body of the last batch is
    body: usize,
    sum: u64,
    // how many bytes were taken
    taken: u64,
    is_timely: bool,
    ghost within: { start ≤ vec_len buffer },
    ghost behind: { body + 8 ≤ start },
    ghost fits: { taken + (vec_len buffer - start) < 2 ^ 64 },
}

impl Cursor {
    ghost use Rattle.tab_journal.specs.Cursors.{HasTaken, window_of, body_of, end_of, TakesNext, Grows};

    /// Takes the header in front of these bytes. `None`: they begin with none.
    pub(crate) fn begin(bytes: Vec<u8>) -> Option<Cursor>
        ensures taken { IfSome result (λ c. HasTaken bytes.items c []) }
        ensures none { IfNone result (header_at bytes.items ≡ None) }
    {
        are_bytes(bytes.as_slice());
        let (header, rest) = take_header(bytes.as_slice())?;
        let start = bytes.len() - rest.len();
        Some(Cursor {
            header,
            buffer: bytes,
            start,
            body: 0,
            sum: header.sum,
            taken: start as u64,
            is_timely: true,
        })
    }

    /// The header.
    pub(crate) fn header(&self) -> &Header
        ensures { result.now ≡ self.now.header }
    {
        &self.header
    }

    /// What the last batch that was taken keeps.
    pub(crate) fn body(&self) -> &[u8]
        ensures { result.now ≡ body_of self.now }
    {
        let end = self.start - SUM;
        &self.buffer[end - self.body..end]
    }

    /// Takes the next batch. `false`: none begins here.
    pub(crate) fn take_next(&mut self) -> bool
        ensures { TakesNext self.old self.new result }
    {
        let (_, unread) = self.buffer.split_at(self.start);
        are_bytes(unread);
        let Some((batch, rest)) = take_batch(self.header.seal, self.sum, unread) else {
            return false;
        };
        let count = unread.len() - rest.len();
        let (settled, body, sum) = (batch.settled, batch.body.len(), batch.sum);
        self.is_timely = is_still_timely(self.is_timely, settled, self.taken);
        self.start += count;
        self.taken += count as u64;
        self.body = body;
        self.sum = sum;
        true
    }

    /// How many bytes lack for the batch that comes next, or for what says its length; as far as is to be seen.
    pub(crate) fn lack(&self) -> usize {
        let (_, unread) = self.buffer.split_at(self.start);
        let head = head_len(self.header.seal.form);
        match length_at(unread, head) {
            Some(length) => (head + length as usize + SUM).saturating_sub(unread.len()),
            None => head.saturating_sub(unread.len()),
        }
    }

    /// The sum of what was taken, and the bytes behind that. Memory is taken for them.
    pub(crate) fn window(&self, alloc: Global) -> Result<Vec<u8>, AllocError>
        ensures { IfOk result (λ bytes. bytes.items ≡ window_of self.now) }
    {
        let (_, window) = self.buffer.split_at(self.start - SUM);
        window.to_vec(alloc)
    }

    /// Puts these bytes, which begin with [`Cursor::window`], in the place of those that are here. `false`: there are too many, and nothing has
    /// changed.
    pub(crate) fn grow(&mut self, bytes: Vec<u8>) -> bool
        requires { take (length (window_of self.old)) bytes.items ≡ window_of self.old }
        ensures { Grows self.old self.new bytes.items result }
    {
        are_bytes(bytes.as_slice());
        let left = bytes.len() - SUM;
        if self.taken.checked_add(left as u64).is_none() {
            return false;
        }
        self.buffer = bytes;
        self.start = SUM;
        self.body = 0;
        true
    }

    /// Where the journal ends, where no batch comes next and these are all of its bytes.
    pub(crate) fn end(&self) -> JournalEnd
        ensures end { end_in result ≡ end_of self.now }
        ensures judged { (result.is_damaged ≡ true) ↔ IsDamagedIn self.now.header.seal self.now.taken (window_of self.now) }
    {
        let (_, window) = self.buffer.split_at(self.start - SUM);
        JournalEnd {
            header: self.header,
            sum: self.sum,
            length: self.taken,
            left: (window.len() - SUM) as u64,
            is_timely: self.is_timely,
            is_damaged: is_damaged(self.header.seal, window, self.taken),
        }
    }
}

// Nothing is done, and it is known afterwards that these are bytes.
fn are_bytes(bytes: &[u8])
    ensures { IsBytes bytes.now }
{
    let _ = bytes;
}

// Whether all of the batches are timely, and one behind so many bytes that says so much of the disk.
fn is_still_timely(is_timely: bool, settled: u64, taken: u64) -> bool
    ensures { result ≡ (is_timely && nat_le settled taken) }
{
    is_timely && settled <= taken
}

// How many bytes a batch has before its body.
fn head_len(form: Form) -> usize
    ensures low { 12 ≤ result }
    ensures high { result ≤ 20 }
{
    match form {
        Form::Plain => 12,
        Form::Tagged => 20,
    }
}

// What the bytes of a head, so many, say of the length of the body; nothing, where they aren't all here.
fn length_at(bytes: &[u8], head: usize) -> Option<u32>
    requires { 4 ≤ head }
{
    let [a, b, c, d] = *bytes.get(head - LENGTH..head)? else {
        return None;
    };
    Some(u32::from_be_bytes([a, b, c, d]))
}
