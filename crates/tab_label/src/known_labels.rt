//! Labels that were judged, found again by their numbers.
ghost use Rattle.std.specs.Prelude.{◌<◌, IsTrue};
ghost use Rattle.tab_label.specs.KnownLabels.{SpellsLabel, AreLabels};

/// How many numbers are remembered at most.
const PLACES: usize = 256;

/// For a few bits of a short label's number, the last number with these bits that was found to be a label's.
///
/// A label that isn't found here may be one all the same. It takes 4 KiB where it stands, and no memory besides.
#[derive(Drop)]
pub struct KnownLabels {
    words: [Option<u64>; PLACES],
    ghost labels: { AreLabels words },
}

impl KnownLabels {
    /// No labels.
    pub fn none() -> KnownLabels {
        KnownLabels {
            words: [None; PLACES],
        }
    }

    /// Whether the byte string of this number was found to be a label.
    #[inline]
    pub fn has(&self, word: u64) -> bool
        ensures { IsTrue result → SpellsLabel word }
    {
        self.words[label_slot(word)] == Some(word)
    }

    /// Remembers that the byte string of this number is a label.
    #[inline]
    #[tactic(auto, using(crate::proofs::KnownLabelLemmas::one_noted))]
    pub fn note(&mut self, word: u64)
        requires { SpellsLabel word }
    {
        self.words[label_slot(word)] = Some(word);
    }
}

/// Eight bits of a label's number, on which each of the number's has its say: by them what is remembered of labels is found.
#[inline]
pub fn label_slot(word: u64) -> usize
    ensures { result < 256 }
{
    (word.wrapping_mul(0xBF58_476D_1CE4_E5B9) >> 56) as usize
}
