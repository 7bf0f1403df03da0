//! A source that is of one of two kinds.
ghost use Rattle.std.specs.Prelude.{List, [], Bool, true, ◌≡◌};
ghost use Rattle.tab_iter.specs.Lists.{IsRising, HasI64Timestamps, IsEnd};
ghost use Rattle.tab_version.specs.OneOf.{one_of, by_kind};

use tab_iter::{NoMemory, Source};
use tab_key::{Key, RecordRef};

/// A source of one kind, or one of another.
#[derive(Drop)]
pub enum OneOf<A: Source, B: Source> {
    /// Of the first kind.
    First(A),
    /// Of the second.
    Second(B),
}

impl<A: Source, B: Source> Source for OneOf<A, B> {
    ghost whole = { one_of A.whole B.whole };

    ghost rest = { one_of A.rest B.rest };

    ghost is_unpositioned = { one_of A.is_unpositioned B.is_unpositioned };

    ghost whole_rises = { by_kind (λ s. IsRising (one_of A.whole B.whole s)) A.whole_rises B.whole_rises };

    ghost has_i64_timestamps = { by_kind (λ s. HasI64Timestamps (one_of A.whole B.whole s)) A.has_i64_timestamps B.has_i64_timestamps };

    ghost rest_is_suffix = { by_kind (λ s. IsEnd (one_of A.rest B.rest s) (one_of A.whole B.whole s)) A.rest_is_suffix B.rest_is_suffix };

    ghost unpositioned_is_empty = { by_kind (λ s. one_of A.is_unpositioned B.is_unpositioned s ≡ true → one_of A.rest B.rest s ≡ []) A.unpositioned_is_empty B.unpositioned_is_empty };

    #[inline]
    fn top(&self) -> Option<RecordRef<'_>> {
        match self {
            OneOf::First(source) => source.top(),
            OneOf::Second(source) => source.top(),
        }
    }

    #[inline]
    fn advance(&mut self) -> Result<(), NoMemory> {
        match self {
            OneOf::First(source) => source.advance(),
            OneOf::Second(source) => source.advance(),
        }
    }

    fn seek(&mut self, key: Key<'_>) -> Result<(), NoMemory> {
        match self {
            OneOf::First(source) => source.seek(key),
            OneOf::Second(source) => source.seek(key),
        }
    }
}
