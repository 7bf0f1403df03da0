//! Sources with the row prefixes of their first records.
ghost use Rattle.std.specs.Prelude.{◌≡◌, map, IfOk};
ghost use Rattle.tab_iter.specs.Lists.{first_of};
ghost use Rattle.tab_iter.specs.TopPrefix.{IsTopPrefix, IsTopPrefix-prop};

use crate::{NoMemory, Source};
use tab_key::{Key, RecordRef};

/// A source, and the row prefix of its first record, which is read once for each. So the first records of two sources are mostly told
/// apart without being read again.
pub struct Prefixed<S: Source> {
    source: S,
    top_prefix: u128,
    ghost own: { IsTopPrefix top_prefix (first_of (S.rest source)) } by { IsTopPrefix-prop top_prefix (first_of (S.rest source)) },
}

// Written out, so that a crate above needn't prove anew how the parts are dropped.
impl<S: Source + Drop> Drop for Prefixed<S> {
    #[inline(always)]
    fn drop(self) {
        let Prefixed {
            source: _,
            top_prefix: _,
        } = self;
    }
}

impl<S: Source> Prefixed<S> {
    // The source with the row prefix of its first record.
    fn new(source: S) -> Prefixed<S>
        ensures whole { ⟦<Prefixed<S> as Source>⟧.whole result ≡ S.whole source }
        ensures rest { ⟦<Prefixed<S> as Source>⟧.rest result ≡ S.rest source }
    {
        let top_prefix = source.top_prefix();
        Prefixed { source, top_prefix }
    }
}

impl<S: Source + Drop> Prefixed<S> {
    /// The source, which may stand anywhere.
    pub fn into_source(self) -> S
        ensures { S.whole result ≡ ⟦<Prefixed<S> as Source>⟧.whole self }
    {
        let Prefixed {
            source,
            top_prefix: _,
        } = self;
        source
    }
}

impl<S: Source> Source for Prefixed<S> {
    ghost whole = { λ f. S.whole f.source };

    ghost rest = { λ f. S.rest f.source };

    ghost is_unpositioned = { λ f. S.is_unpositioned f.source };

    ghost whole_rises = { λ f. S.whole_rises f.source };

    ghost has_i64_timestamps = { λ f. S.has_i64_timestamps f.source };

    ghost rest_is_suffix = { λ f. S.rest_is_suffix f.source };

    ghost unpositioned_is_empty = { λ f. S.unpositioned_is_empty f.source };

    #[inline]
    fn top(&self) -> Option<RecordRef<'_>> {
        self.source.top()
    }

    #[inline]
    fn top_prefix(&self) -> u128 {
        self.top_prefix
    }

    #[inline]
    fn advance(&mut self) -> Result<(), NoMemory> {
        let advanced = self.source.advance();
        self.top_prefix = self.source.top_prefix();
        advanced
    }

    fn seek(&mut self, key: Key<'_>) -> Result<(), NoMemory> {
        let sought = self.source.seek(key);
        self.top_prefix = self.source.top_prefix();
        sought
    }
}

/// The sources, each with the row prefix of its first record. The error comes only from want of memory.
pub(crate) fn with_prefixes<S: Source + Drop>(sources: Vec<S>) -> Result<Vec<Prefixed<S>>, NoMemory>
    ensures whole { IfOk result (λ v. map ⟦<Prefixed<S> as Source>⟧.whole v.items ≡ map S.whole sources.items) }
    ensures rest { IfOk result (λ v. map ⟦<Prefixed<S> as Source>⟧.rest v.items ≡ map S.rest sources.items) }
{
    let alloc = *sources.allocator();
    let mut kept = Vec::with_capacity(alloc, sources.len())?;
    for source in sources {
        kept.push(Prefixed::new(source))?;
    }
    Ok(kept)
}
