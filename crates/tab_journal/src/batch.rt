//! A batch: what stands before its body, and what is read of it.
ghost use Rattle.std.specs.Prelude.{◌≡◌, IfOk, option_map};
ghost use Rattle.tab_journal.specs.Reading.{tag_in, summed_at, batch_at};
ghost use Rattle.tab_journal.specs.Said.{batch_in};
ghost use Rattle.tab_journal.specs.Spelling.{tag_bytes, head_bytes};

use crate::seal::{Form, Seal};
use crate::sums::batch_sum;
use std::alloc::{AllocError, Global};
use tab_codec::{take_field, take_long};

/// A batch, as it stands in the bytes of a journal.
#[derive(Clone, Copy, Debug)]
pub struct JournalBatch<'a> {
    /// How many bytes of the journal were on the disk when it was written.
    pub settled: u64,
    /// What it keeps.
    pub body: &'a [u8],
    /// Its sum, which the next batch has before it.
    pub sum: u64,
}

/// What stands in a batch before its body, of which this is the length. Memory is taken for it, at most 20 bytes.
pub fn batch_head(
    alloc: Global,
    seal: Seal,
    settled: u64,
    length: u32,
) -> Result<Vec<u8>, AllocError>
    ensures { IfOk result (λ head. head.items ≡ head_bytes seal settled length) }
{
    let mut head = tag_text(alloc, seal)?;
    head.extend_from_slice(&settled.to_be_bytes())?;
    head.extend_from_slice(&length.to_be_bytes())?;
    Ok(head)
}

// What a batch begins with.
#[tactic(auto, unfolding(tab_wire::specs::Replies::u64))]
fn tag_text(alloc: Global, seal: Seal) -> Result<Vec<u8>, AllocError>
    ensures { IfOk result (λ tag. tag.items ≡ tag_bytes seal.form seal.salt) }
{
    match seal.form {
        Form::Plain => Ok(Vec::new(alloc)),
        Form::Tagged => seal.salt.to_be_bytes().as_slice().to_vec(alloc),
    }
}

/// The batch at the front of some bytes, in a journal with this seal and behind this sum, and what stands behind it. `None`: none begins there
/// that is whole and has the tag and the sum.
#[tactic(auto, unfolding(crate::specs::Reading::batch_at))]
pub fn take_batch(seal: Seal, before: u64, bytes: &[u8]) -> Option<(JournalBatch<'_>, &[u8])>
    ensures { option_map (λ x. (batch_in x.0, x.1.now)) result ≡ batch_at seal before bytes.now }
{
    let rest = take_tag(seal, bytes)?;
    take_summed(seal.salt, before, rest)
}

/// What stands behind the tag, if that stands in front.
#[tactic(auto, unfolding(crate::specs::Reading::tag_in))]
pub(crate) fn take_tag(seal: Seal, bytes: &[u8]) -> Option<&[u8]>
    ensures { option_map (λ rest. (tt, rest.now)) result ≡ tag_in seal.form seal.salt bytes.now }
{
    match seal.form {
        Form::Plain => Some(bytes),
        Form::Tagged => {
            let (tag, rest) = take_long(bytes)?;
            if tag != seal.salt {
                return None;
            }
            Some(rest)
        }
    }
}

/// The batch that stands in front without its tag, and what stands behind it.
#[tactic(auto, unfolding(crate::specs::Reading::summed_at))]
pub(crate) fn take_summed(salt: u64, before: u64, bytes: &[u8]) -> Option<(JournalBatch<'_>, &[u8])>
    ensures { option_map (λ x. (batch_in x.0, x.1.now)) result ≡ summed_at salt before bytes.now }
{
    let (settled, rest) = take_long(bytes)?;
    let (body, rest) = take_field(rest)?;
    let (sum, rest) = take_long(rest)?;
    if sum != batch_sum(salt, before, settled, body) {
        return None;
    }
    Some((JournalBatch { settled, body, sum }, rest))
}
