//! Where a byte stands first.
ghost use Rattle.std.specs.Prelude.{◌≡◌, ◌≤◌, ◌==◌, not, length};
ghost use Rattle.std.specs.List.{prefix_len};

use memchr::memchr;

/// How many bytes stand before the first such byte; all of them if it stands nowhere.
#[tactic(auto, using(crate::proofs::Finding::found_before, crate::proofs::Finding::found_nowhere))]
pub fn length_before(byte: u8, bytes: &[u8]) -> usize
    ensures value { result ≡ prefix_len (λ b. not (b == byte)) bytes.now }
    ensures fits { result ≤ length bytes.now }
{
    match memchr(byte, bytes) {
        Some(at) => at,
        None => bytes.len(),
    }
}
