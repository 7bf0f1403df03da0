//! A journal, read from its file batch by batch.
ghost use Rattle.std.specs.Prelude.{◌≡◌, ◌+◌, ◌<◌, ◌≤◌, ◌^◌, [], ℕ, List, length, true, false, IfOk, IfErr, OnOk};
ghost use Rattle.tab_journal.specs.Journals.{Batch};
ghost use Rattle.tab_journal.specs.Readers.{HasRead, HasBegun, HasOpened, HasNone, Advances, Ends, body_of, header_of, taken_of, WhyUnread};

use crate::cursor::Cursor;
use crate::header::Header;
use crate::journal_end::JournalEnd;
use crate::read_error::ReadError;
use crate::source::Source;
use std::alloc::Global;

// How many bytes are read at least, where any are.
const BLOCK: usize = 65_536;

// How many bytes a header has.
const HEADER: usize = 48;

/// A journal that is read from its file, batch by batch. Memory is taken for a batch at a time, and at the end for what stands behind the last whole
/// one. The file is lent to each call that reads.
#[derive(Drop)]
pub struct JournalReader {
    alloc: Global,
    cursor: Cursor,
}

/// What a file begins with.
#[derive(Drop)]
pub enum Opened {
    /// A journal: its header.
    Journal(JournalReader),
    /// No header, and no more bytes than one has, so many: a crash cut it off, and nothing was kept.
    Cut(usize),
    /// No header, and more bytes than one has: they are damaged.
    Damaged,
}

impl JournalReader {
    /// Reads the header of the journal that was left in this device, of which nothing was read.
    pub fn open<D: Source>(alloc: Global, device: &mut D) -> Result<Opened, ReadError>
        requires usable { D.is_usable device.old ≡ true }
        requires unread { D.seen device.old ≡ [] }
        ensures opened { IfOk result (HasOpened (D.seen device.new) (D.is_read device.new)) }
        ensures usable { OnOk result (D.is_usable device.new ≡ true) }
        ensures later { D.faults device.old ≤ D.faults device.new }
        ensures refused { IfErr result (WhyUnread (D.faults device.old) (D.faults device.new)) }
    {
        let mut bytes = Vec::new(alloc);
        device.read(BLOCK, &mut bytes)?;
        Ok(begun(alloc, bytes))
    }

    /// Its header.
    pub fn header(&self) -> &Header
        ensures { result.now ≡ header_of self.now }
    {
        self.cursor.header()
    }

    /// What the batch keeps that was read last. Of a journal of lines it is a piece of their text, of one of events it is whole entries.
    pub fn body(&self) -> &[u8]
        ensures { result.now ≡ body_of self.now }
    {
        self.cursor.body()
    }

    /// Reads the next batch. `false`: there is none, and all of the file was read.
    ///
    /// # Errors
    ///
    /// There is no memory, or too much; or the device failed. Nothing more is to be read then.
    pub fn advance<D: Source>(&mut self, device: &mut D) -> Result<bool, ReadError>
        requires { D.is_usable device.old ≡ true }
        ensures next { (bs : List Batch) → HasRead (D.seen device.old) self.old bs → IfOk result (Advances (D.seen device.new) (D.is_read device.new) self.new bs) }
        ensures more { IfOk result (λ is_more. is_more ≡ true → taken_of self.old + length (body_of self.new) < taken_of self.new) }
        ensures whole { IfOk result (λ is_more. is_more ≡ false → D.is_read device.new ≡ true) }
        ensures none { IfOk result (λ is_more. is_more ≡ false → HasNone self.new) }
        ensures usable { OnOk result (D.is_usable device.new ≡ true) }
        ensures later { D.faults device.old ≤ D.faults device.new }
        ensures refused { IfErr result (WhyUnread (D.faults device.old) (D.faults device.new)) }
    {
        self.fetch(device)?;
        self.fetch(device)?;
        if self.cursor.take_next() {
            return Ok(true);
        }
        self.read_on(device, usize::MAX)?;
        Ok(self.cursor.take_next())
    }

    /// Where the journal ends, once [`JournalReader::advance`] has answered `false`.
    pub fn ended(&self) -> JournalEnd
        ensures { (seen : List ℕ) (bs : List Batch) → HasRead seen self.now bs → HasNone self.now → Ends seen result }
    {
        self.cursor.end()
    }

    // Reads what lacks for the next batch, as far as is to be seen.
    fn fetch<D: Source>(&mut self, device: &mut D) -> Result<(), ReadError>
        requires { D.is_usable device.old ≡ true }
        ensures kept { (bs : List Batch) → HasRead (D.seen device.old) self.old bs → OnOk result (HasRead (D.seen device.new) self.new bs) }
        ensures same { OnOk result (taken_of self.new ≡ taken_of self.old) }
        ensures usable { OnOk result (D.is_usable device.new ≡ true) }
        ensures later { D.faults device.old ≤ D.faults device.new }
        ensures refused { IfErr result (WhyUnread (D.faults device.old) (D.faults device.new)) }
    {
        match self.cursor.lack() {
            0 => Ok(()),
            lack => self.read_on(device, lack.max(BLOCK)),
        }
    }

    // Reads the next bytes, so many, or all that there are.
    fn read_on<D: Source>(&mut self, device: &mut D, most: usize) -> Result<(), ReadError>
        requires { D.is_usable device.old ≡ true }
        ensures kept { (bs : List Batch) → HasRead (D.seen device.old) self.old bs → OnOk result (HasRead (D.seen device.new) self.new bs) }
        ensures same { OnOk result (taken_of self.new ≡ taken_of self.old) }
        ensures whole { 2 ^ 64 ≤ most + 1 → OnOk result (D.is_read device.new ≡ true) }
        ensures usable { OnOk result (D.is_usable device.new ≡ true) }
        ensures later { D.faults device.old ≤ D.faults device.new }
        ensures refused { IfErr result (WhyUnread (D.faults device.old) (D.faults device.new)) }
    {
        let mut bytes = self.cursor.window(self.alloc)?;
        device.read(most, &mut bytes)?;
        if self.cursor.grow(bytes) {
            Ok(())
        } else {
            Err(ReadError::TooLong)
        }
    }
}

// What a file begins with of which these are the first bytes, or all.
fn begun(alloc: Global, bytes: Vec<u8>) -> Opened
    ensures { HasBegun bytes.items result }
{
    let count = bytes.len();
    match Cursor::begin(bytes) {
        Some(cursor) => Opened::Journal(JournalReader { alloc, cursor }),
        None if count > HEADER => Opened::Damaged,
        None => Opened::Cut(count),
    }
}
