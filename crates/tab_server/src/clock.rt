//! Moments of the machine's clock, and how long it is since one.
ghost use Rattle.std.specs.Prelude.{◌≡◌};

use std::time::{Clock, Duration, Instant, SystemTime, UNIX_EPOCH};
use tab_serve::Moments;

/// Moments of the machine's clock: milliseconds since the beginning of 1970, and 0 where it gives none.
#[derive(Drop)]
pub struct WallClock<'a, C> {
    clock: &'a C,
}

impl<'a, C: Clock> WallClock<'a, C> {
    /// Moments of this clock.
    pub fn new(clock: &'a C) -> WallClock<'a, C> {
        WallClock { clock }
    }
}

impl<'a, C: Clock> Moments for WallClock<'a, C> {
    ghost gives = { λ old moment new. Unit {0} };

    fn next(&mut self) -> i64 {
        let Ok(now) = SystemTime::now(self.clock) else {
            return 0;
        };
        match now.duration_since(UNIX_EPOCH) {
            Ok(since) => i64::try_from(since.as_millis()).unwrap_or(i64::MAX),
            Err(_) => 0,
        }
    }
}

/// Whether so long has passed since then; not where the clock doesn't tell.
pub(crate) fn has_passed(clock: &impl Clock, since: Instant, long: Duration) -> bool {
    match since.elapsed(clock) {
        Ok(passed) => passed >= long,
        Err(_) => false,
    }
}
