//! Decoded records that a cursor left.
ghost use Rattle.std.specs.Prelude.{◌≡◌, ◌+◌, ◌%◌, ◌<◌, ◌≤◌, true, IsTrue, IfSome, IfOk, length};
ghost use Rattle.std.specs.List.{slice_range};
ghost use Rattle.tab_table.specs.Decoding.{IsKept, IsKept-prop};
ghost use Rattle.tab_table.specs.Windows.{written, IsReady, IsWindow};

use crate::entry::BLOCK_LEN;
use crate::packed::Packed;
use crate::restarts::RESTART_LEN;
use crate::window::Window;
use bytes::Bytes;
use std::alloc::AllocError;

/// Decoded records that a cursor left, and a share of the bytes of which they were decoded. They serve each table that has these bytes
/// where it has a record with the key of the first of them.
#[derive(Drop)]
pub(crate) struct Kept {
    window: Window,
    bytes: Bytes,
    ghost kept: { IsKept (written window.records) window.records.places.items window.records.base bytes } by { IsKept-prop (written window.records) window.records.places.items window.records.base bytes },
}

impl Kept {
    /// The records of a window of a table, where it has any and they begin at a restart.
    pub(crate) fn of(packed: &Packed, window: Window) -> Option<Kept>
        requires { IsWindow window packed.now.bytes packed.now.count }
    {
        if !window.begins_at_restart() {
            return None;
        }
        match share_of(packed, &window) {
            Err(_) => None,
            Ok(bytes) => Some(Kept { window, bytes }),
        }
    }

    /// The number of the block in which they begin.
    pub(crate) fn block(&self) -> usize {
        self.window.first / BLOCK_LEN
    }

    /// The window of them, where they are a table's and the record with this index is among them or near behind.
    pub(crate) fn into_window(self, packed: &Packed, index: usize) -> Option<Window>
        ensures { IfSome result (λ w. IsWindow w packed.now.bytes packed.now.count) }
    {
        if !self.window.serves(index) || !self.is_of(packed) {
            return None;
        }
        Some(self.window)
    }

    // Whether they are records of the table.
    fn is_of(&self, packed: &Packed) -> bool
        ensures { IsTrue result → IsReady self.now.window.records packed.now.bytes packed.now.count self.now.window.first }
    {
        let window = &self.window;
        if !window.begins_at_restart() {
            return false;
        }
        if packed.count.saturating_sub(window.first) < window.records.len() {
            return false;
        }
        let start = packed.restart_at(window.first / RESTART_LEN);
        if !self.has_bytes(packed.bytes.as_slice(), start.place) {
            return false;
        }
        packed
            .cmp_key(window.first, window.records.get(0).key())
            .is_eq()
    }

    // Whether the bytes lie at this place, and end where the entry behind the records begins.
    fn has_bytes(&self, blocks: &[u8], place: usize) -> bool
        ensures end { IsTrue result → self.now.window.records.at ≡ place + length self.now.bytes }
        ensures inside { IsTrue result → self.now.window.records.at ≤ length blocks.now }
        ensures bytes { IsTrue result → slice_range blocks.now place self.now.window.records.at ≡ self.now.bytes }
    {
        let end = self.window.records.at;
        if end < place || blocks.len() < end || end - place != self.bytes.len() {
            return false;
        }
        &blocks[place..end] == self.bytes.as_slice()
    }
}

// A share of the bytes of which a window's records were decoded, which begin at a restart. `AllocError` says that there are too many.
fn share_of(packed: &Packed, window: &Window) -> Result<Bytes, AllocError>
    requires known { window.now.known ≡ true }
    requires some { 0 < length window.now.records.places.items }
    requires restart { window.now.first % RESTART_LEN ≡ 0 }
    requires window { IsWindow window.now packed.now.bytes packed.now.count }
    ensures { IfOk result (λ b. IsKept (written window.now.records) window.now.records.places.items window.now.records.base b) }
{
    let start = packed.restart_at(window.first / RESTART_LEN);
    let bytes = packed.bytes.slice(start.place..window.records.at)?;
    Ok(bytes)
}
