//! The beginning of a row as a number.
ghost use Rattle.std.specs.Prelude.{◌≡◌, ◌≤◌, ◌++◌, length, drop};
ghost use Rattle.tab_key.specs.RowPrefix.{padded, IsRowPrefix};

// How many bytes are copied at once.
const WORD: usize = 8;

/// The number that the first 16 bytes of the row spell, the first byte the highest, with zeros behind a shorter row. Of two rows
/// with different numbers the one with the less comes first; so a search reads a row itself only where the numbers are the same.
pub fn row_prefix(row: &[u8]) -> u128
    ensures { IsRowPrefix result row.now }
{
    u128::from_be_bytes(padded(row))
}

// The first 16 bytes of the row, with zeros behind a shorter row.
fn padded(row: &[u8]) -> [u8; 16]
    ensures { result ≡ padded 16 row.now }
{
    let mut bytes = [0u8; 16];
    if WORD <= row.len() && row.len() <= 16 {
        write_ends(&mut bytes, row);
        return bytes;
    }
    write_over(&mut bytes, &row[..row.len().min(16)]);
    bytes
}

// Puts the bytes, 8 to 16 of them, over the first ones: the first eight and the last eight, each in one step.
#[inline(always)]
fn write_ends(kept: &mut [u8], bytes: &[u8])
    requires low { WORD ≤ length bytes.now }
    requires high { length bytes.now ≤ 16 }
    requires room { length bytes.now ≤ length kept.old }
    ensures { kept.new ≡ bytes.now ++ drop (length bytes.now) kept.old }
{
    let last = bytes.len() - WORD;
    kept[..WORD].copy_from_slice(&bytes[..WORD]);
    kept[last..last + WORD].copy_from_slice(&bytes[last..last + WORD]);
}

/// Puts the bytes over the first ones.
pub(crate) fn write_over(kept: &mut [u8], bytes: &[u8])
    requires { length bytes.now ≤ length kept.old }
    ensures { kept.new ≡ bytes.now ++ drop (length bytes.now) kept.old }
{
    kept[..bytes.len()].copy_from_slice(bytes);
}
