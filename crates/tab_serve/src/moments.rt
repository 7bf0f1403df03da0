//! Where moments come from.
ghost use Rattle.std.specs.Prelude.{◌≡◌, ℤ};

use crate::ListedMoments;

/// A source of moments, one for each event.
pub trait Moments {
    // What one call may give: the moment, and the source after it.
    ghost gives: { Self → ℤ → Self → Type 0 };

    /// The next moment.
    fn next(&mut self) -> i64
        ensures { gives self.old result self.new };
}

impl Moments for ListedMoments {
    ghost use Rattle.std.specs.Prelude.{◌≡◌};
    ghost use Rattle.tab_serve.specs.Moments.{listed_now, listed_after};

    ghost gives = { λ old moment new. (moment ≡ listed_now old) × listed_after old new };

    fn next(&mut self) -> i64 {
        let moment = match self.moments.get(self.at) {
            Some(moment) => *moment,
            None => 0,
        };
        if self.at + 1 < self.moments.len() {
            self.at += 1;
        }
        moment
    }
}
