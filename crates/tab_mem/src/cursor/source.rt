//! A cursor over a run as a source.
ghost use Rattle.std.specs.Prelude.{List, [], Bool, true, false, ◌-◌};
ghost use Rattle.tab_iter.specs.SourceLaws.{ends_drop, always_positioned};
ghost use Rattle.tab_mem.specs.Cursors.{whole, rest};

use crate::searching::first_near;
use crate::{RunCursor, Start};
use tab_iter::{NoMemory, Source};
use tab_key::{Key, RecordRef};

/// No call takes memory. A seek takes time logarithmic in how far it goes on where it stays near, and else in the part.
impl<'a> Source for RunCursor<'a> {
    ghost whole = { λ c. whole c };

    ghost rest = { λ c. rest c };

    ghost is_unpositioned = { λ c. false };

    ghost whole_rises = { λ c. c.rising };

    ghost has_i64_timestamps = { λ c. c.timestamps };

    ghost rest_is_suffix = { λ c. ends_drop (c.at - c.from) (whole c) };

    ghost unpositioned_is_empty = { λ c. always_positioned (rest c) };

    #[inline]
    fn top(&self) -> Option<RecordRef<'_>> {
        RunCursor::top(self)
    }

    #[inline]
    fn advance(&mut self) -> Result<(), NoMemory> {
        if self.at < self.end {
            self.at += 1;
        }
        Ok(())
    }

    #[tactic(auto, unfolding(crate::specs::Starts::from_start))]
    fn seek(&mut self, key: Key<'_>) -> Result<(), NoMemory> {
        let start = Start::AtKey(key);
        self.at = first_near(self.records, self.from, self.at, self.end, start);
        Ok(())
    }
}
