//! A stream of numbers that look random.
ghost use Rattle.std.specs.Prelude.{◌<◌};

use rand_core::utils::NextWord;
use rand_pcg::Pcg32;

/// A stream of numbers that look random: for one seed always the same.
#[derive(Drop)]
pub struct Random {
    generator: Pcg32,
}

impl Random {
    /// The stream of this seed.
    pub fn new(seed: u64) -> Random {
        Random {
            generator: Pcg32::new(seed, 0),
        }
    }

    /// The next number, below the limit.
    pub fn below(&mut self, limit: u64) -> u64
        requires { 0 < limit }
        ensures { result < limit }
    {
        u64::from(self.generator.next_word()) % limit
    }

    /// One of the choices; the empty byte string where there is none.
    pub fn one_of(&mut self, choices: &[&'static [u8]]) -> &'static [u8] {
        let place = self.below((choices.len() as u64).max(1));
        choices.get(place as usize).copied().unwrap_or(b"")
    }
}
