//! The bytes of a journal: what is to outlive a crash of a program, put behind one another as it comes.
//!
//! A journal is a header of 48 bytes, and batches. A batch is what one write puts: a tag of eight bytes, the journal's salt, which nobody is told;
//! eight bytes that say how long the journal was when all of it was on the disk, a length of four bytes and that many bytes, and a sum of eight
//! bytes. The sum is SipHash-1-3 of the salt, the sum before it, and the batch: so each batch fits behind one other alone, and bytes of an older
//! file don't fit. A write that a crash cuts off leaves no batch; what stands before it is read. Journals of an older form have no tags: they are
//! read and gone on in, and none is begun.
//!
//! The bytes of a batch are whatever is to be kept: lines of a script, or the entries of a history, each at the clock that it met, as the body
//! of the frame that asks it.
//!
//! | File | What |
//! |---|---|
//! | `format`, `seal` | what the batches keep: lines or entries; and by what a batch is told from other bytes |
//! | `header`, `batch` | their texts, and what is read of them |
//! | `source`, `cursor`, `reader`, `read_error` | a file that was left, and a journal read from it batch by batch |
//! | `journal_end`, `damage` | where a journal ends, and whether what stands behind that is damaged, or torn |
//! | `lasting`, `gathered` | which events leave a trace, and the bytes of a stretch of a history |
//! | `entry` | an entry, read |
//! | `sums` | the sums of headers and of batches |
//! | `device`, `memory_device`, `memory` | a file as a journal sees it, and one in memory with the calls that it keeps |
//! | `writer`, `beginning`, `putting`, `write_error` | a journal that is being written into a device, its header, a batch, and why nothing is put |
//! | `laws` | reading is exactly the forms, a beginning of a journal says the first of its batches, and what a crash cuts off is torn |
//! | `writing_tests` | tests of writing |
//!
//! In `specs`, `Journals` says what the bytes of a journal are, as relations, `Reading` reads them, `Spelling` has the bytes that are
//! written, `Laws` the laws, and `Examples` computes examples. `Cursors` and `Readers` say what was read of a file so far. In `proofs`,
//! `Forms` shows that parts are read exactly, `Whole` that journals are, and what is read of a part of one, and `Taken` what a reader hands
//! out. `Stretches`, `Gathering` and `Outcomes` say what is gathered of a history, entry by entry, and `Bodies` what the first byte of an
//! event's record says. `Device` says what calls of a device do to what a crash may leave, `Crashes` what is read of that, `Damage` when
//! what stands behind that is torn or damaged, `Writing` and `Writers` what a writer has written, and `Calls` what is known of a file
//! behind given calls.
#![tactic(auto)]

mod batch;
mod beginning;
mod cursor;
mod damage;
mod device;
mod entry;
mod format;
mod gathered;
mod header;
mod journal_end;
mod lasting;
mod laws;
mod memory;
mod memory_device;
mod putting;
mod read_error;
mod reader;
mod seal;
mod source;
mod sums;
mod write_error;
mod writer;
#[cfg(test)]
mod writing_tests;

pub use batch::{JournalBatch, batch_head, take_batch};
pub use damage::is_damaged;
pub use device::{Device, DeviceError};
pub use entry::next_entry;
pub use format::Format;
pub use gathered::Gathered;
pub use header::{Header, header_text, take_header};
pub use journal_end::JournalEnd;
pub use laws::{
    crashes_leave_beginnings, crashes_leave_torn_ends, cuts_are_beginnings, cuts_are_torn,
    damage_is_told, entries_are_read, gathered_is_lasting, journals_are_read, outcomes_suffice,
    texts_have_form, whole_batches_are_kept,
};
pub use memory::MemoryCall;
pub use memory_device::MemoryDevice;
pub use read_error::ReadError;
pub use reader::{JournalReader, Opened};
pub use seal::{Form, Seal};
pub use source::Source;
pub use write_error::WriteError;
pub use writer::Writer;
