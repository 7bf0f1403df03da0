//! The calls of a device in memory.
ghost use Rattle.std.specs.Prelude.{◌≡◌, ◌∷◌, cond, OnOk, OnErr};
ghost use Rattle.tab_journal.specs.Memory.{history};

use std::alloc::AllocError;

/// A call of a device in memory.
#[derive(Drop)]
pub struct MemoryCall {
    is_sync: bool,
    is_ok: bool,
    // the bytes that were to be put
    bytes: Vec<u8>,
}

// Keeps one more call.
pub(crate) fn push_call(
    calls: &mut Vec<MemoryCall>,
    is_sync: bool,
    is_ok: bool,
    bytes: Vec<u8>,
) -> Result<(), AllocError>
    ensures kept { OnOk result (history calls.new.items ≡ (cond is_sync 1 0, is_ok, bytes.items) ∷ history calls.old.items) }
    ensures unchanged { OnErr result (calls.new.items ≡ calls.old.items) }
{
    calls.push(MemoryCall {
        is_sync,
        is_ok,
        bytes,
    })?;
    Ok(())
}
