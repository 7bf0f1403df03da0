//! What holds of parts: laws, each the contract of a function that does nothing.
ghost use Rattle.tab_codec.specs.Exactness.{PartsAreExact};
ghost use Rattle.tab_codec.specs.Parts.{BitsAreSets};

/// What is taken of some bytes as a part is spelled as that part, and what is spelled so is taken, whatever follows it.
#[tactic(auto, using(crate::proofs::WholeLaw::parts_are_exact))]
pub fn parts_are_exact()
    ensures { PartsAreExact }
{}

/// A byte of bits and a set of permissions or constraints are two spellings of one thing.
#[tactic(auto, using(crate::proofs::BitLaw::bits_are_sets))]
pub fn bits_are_sets()
    ensures { BitsAreSets }
{}
