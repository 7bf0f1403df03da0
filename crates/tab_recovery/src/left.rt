//! What stands in a journal that was left: its entries, done again, or its text.
ghost use Rattle.std.specs.Prelude.{◌≡◌, [], true, IfOk, OnOk};
ghost use Rattle.tab_codec.specs.Parts.{IsBytes};
ghost use Rattle.tab_journal.specs.Readers.{HasRead, Ends};
ghost use Rattle.tab_recovery.specs.Leaving.{IsReplayed, HasText};

use crate::left_fault::LeftFault;
use crate::replaying::replay;
use std::alloc::Global;
use tab_core::Core;
use tab_journal::{JournalEnd, JournalReader, ReadError, Source};

/// Does the entries again that a journal of events keeps, batch by batch, of which the header was read, and tells how many there were, and where it
/// ends. Memory is taken for a batch at a time, and for what the core keeps.
///
/// # Errors
///
/// As [`replay`] says of the batch that was read last, behind which nothing is done; or the journal can't be read on.
pub fn replay_left<D: Source>(
    alloc: Global,
    core: &mut Core,
    device: &mut D,
    reader: &mut JournalReader,
) -> Result<(u64, JournalEnd), LeftFault>
    requires usable { D.is_usable device.old ≡ true }
    requires begun { HasRead (D.seen device.old) reader.old [] }
    ensures done { IfOk result (λ x. IsReplayed core.old (D.seen device.new) x.0 core.new) }
    ensures end { IfOk result (λ x. Ends (D.seen device.new) x.1) }
    ensures whole { OnOk result (D.is_read device.new ≡ true) }
    ensures usable { OnOk result (D.is_usable device.new ≡ true) }
{
    let mut count = 0u64;
    'batches: loop {
        match reader.advance(device) {
            Ok(true) => {}
            Ok(false) => break 'batches,
            Err(error) => return Err(LeftFault::Read(error)),
        }
        let body = reader.body();
        are_bytes(body);
        match replay(alloc, core, body) {
            Ok(more) => count = count.saturating_add(more),
            Err(fault) => return Err(LeftFault::Replay(fault)),
        }
    }
    Ok((count, reader.ended()))
}

/// The text that a journal keeps, of which the header was read, and where it ends. Memory is taken for all of it.
pub fn text_left<D: Source>(
    alloc: Global,
    device: &mut D,
    reader: &mut JournalReader,
) -> Result<(Vec<u8>, JournalEnd), ReadError>
    requires usable { D.is_usable device.old ≡ true }
    requires begun { HasRead (D.seen device.old) reader.old [] }
    ensures text { IfOk result (λ x. HasText (D.seen device.new) x.0.items) }
    ensures end { IfOk result (λ x. Ends (D.seen device.new) x.1) }
    ensures whole { OnOk result (D.is_read device.new ≡ true) }
    ensures usable { OnOk result (D.is_usable device.new ≡ true) }
{
    let mut text = Vec::new(alloc);
    'batches: loop {
        match reader.advance(device) {
            Ok(true) => {}
            Ok(false) => break 'batches,
            Err(error) => return Err(error),
        }
        match text.extend_from_slice(reader.body()) {
            Ok(()) => {}
            Err(_) => return Err(ReadError::NoMemory),
        }
    }
    Ok((text, reader.ended()))
}

// Nothing is done, and it is known afterwards that these are bytes.
fn are_bytes(bytes: &[u8])
    ensures { IsBytes bytes.now }
{
    let _ = bytes;
}
