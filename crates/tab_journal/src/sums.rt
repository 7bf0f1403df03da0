//! Sums of headers and batches.
ghost use Rattle.std.specs.Prelude.{◌≡◌, ◌<◌, ◌^◌, length};
ghost use Rattle.tab_journal.specs.Journals.{sum_of, header_summed, batch_summed};

use crate::format::{Format, mark_of};
use crate::seal::Seal;
use std::hash::{DefaultHasher, Hasher};

/// The sum of a header.
#[tactic(auto, using(crate::proofs::Hashing::header_sums))]
pub fn header_sum(format: Format, generation: u64, next: u64, clock: i64, seal: Seal) -> u64
    ensures { result ≡ sum_of (header_summed format generation next clock seal) }
{
    let mut hasher = DefaultHasher::new();
    hasher.write(&mark_of(format, seal.form));
    hasher.write(&generation.to_be_bytes());
    hasher.write(&next.to_be_bytes());
    hasher.write(&clock.to_be_bytes());
    hasher.write(&seal.salt.to_be_bytes());
    hasher.finish()
}

/// The sum of a batch, in a journal with this salt and behind this sum.
#[tactic(auto, using(crate::proofs::Hashing::batch_sums))]
pub fn batch_sum(salt: u64, before: u64, settled: u64, body: &[u8]) -> u64
    requires { length body.now < 2 ^ 32 }
    ensures { result ≡ sum_of (batch_summed salt before settled body.now) }
{
    let mut hasher = DefaultHasher::new();
    hasher.write(&salt.to_be_bytes());
    hasher.write(&before.to_be_bytes());
    hasher.write(&settled.to_be_bytes());
    hasher.write(&(body.len() as u32).to_be_bytes());
    hasher.write(body);
    hasher.finish()
}
