//! Bytes, copied to where the caller has room.
ghost use Rattle.page.specs.Answering.{Fills};

/// Copies a beginning of the bytes to `out`, as much as it has room for. Gives how many bytes there are.
pub fn fill(bytes: &[u8], out: &mut [u8]) -> u64
    ensures { Fills bytes.now out.old out.new result }
{
    let count = bytes.len().min(out.len());
    out[..count].copy_from_slice(&bytes[..count]);
    bytes.len() as u64
}
