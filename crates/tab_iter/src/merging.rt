//! The one rising list of several sources.
ghost use Rattle.std.specs.Prelude.{◌≡◌, ◌<◌, List, [], Bool, true, false, map, length, IfOk, OnOk, slice_index_or, slice_set};
ghost use Rattle.tab_key.specs.Records.{Record};
ghost use Rattle.tab_key.specs.KeyOf.{key_of};
ghost use Rattle.tab_key.specs.Sorted.{sorted, IsDistinct};
ghost use Rattle.tab_iter.specs.Lists.{tail, from_key};
ghost use Rattle.tab_iter.specs.Bags.{flat, IsEnding, IsDescending, Covers};
ghost use Rattle.tab_iter.specs.Propositions.{IsDistinct-prop, IsDescending-prop, Covers-prop};

use crate::prefixed::{Prefixed, with_prefixes};
use crate::source_order::{put, put_all, top_at};
use crate::{NoMemory, Source};
use std::alloc::AllocError;
use tab_key::{Key, RecordRef};

/// The records of several sources, no two of which stand at one place. It holds the row prefix of each source's first record, and
/// compares mostly these.
pub type Merging<S> = MergingOf<Prefixed<S>>;

/// The records of several sources, no two of which stand at one place.
///
/// It keeps its sources in the order of their first records. An advance mostly compares two of these; where another source
/// comes first, it finds the new place by halves, and a source that has ended leaves the order.
pub struct MergingOf<S: Source> {
    sources: Vec<S>,
    // the places of the sources that have records left; the one whose first record stands before the others is the last
    order: Vec<usize>,
    // there is no top until a seek succeeds
    unpositioned: bool,
    ghost distinct: { IsDistinct (flat (map S.whole sources.items)) } by { IsDistinct-prop (flat (map S.whole sources.items)) },
    ghost synced: { unpositioned ≡ false → IsEnding (sorted (flat (map S.rest sources.items))) (sorted (flat (map S.whole sources.items))) },
    ghost descending: { unpositioned ≡ false → IsDescending (map S.rest sources.items) order.items } by { λ p q. IsDescending-prop unpositioned (map S.rest sources.items) order.items p q },
    ghost covers: { unpositioned ≡ false → Covers (map S.rest sources.items) order.items } by { λ p q. Covers-prop unpositioned (map S.rest sources.items) order.items p q },
}

// Written out, so that a crate above needn't prove anew how the parts are dropped.
impl<S: Source + Drop> Drop for MergingOf<S> {
    #[inline(always)]
    fn drop(self) {
        let MergingOf {
            sources: _,
            order: _,
            unpositioned: _,
        } = self;
    }
}

impl<S: Source + Drop> MergingOf<Prefixed<S>> {
    /// The records of all of these. The error comes only from want of memory.
    pub fn new(sources: Vec<S>) -> Result<Merging<S>, NoMemory>
        requires distinct { IsDistinct (flat (map S.whole sources.items)) }
        requires at_start { map S.rest sources.items ≡ map S.whole sources.items }
        ensures whole { IfOk result (λ m. ⟦<Merging<S> as Source>⟧.whole m ≡ sorted (flat (map S.whole sources.items))) }
        ensures rest { IfOk result (λ m. ⟦<Merging<S> as Source>⟧.rest m ≡ sorted (flat (map S.rest sources.items))) }
    {
        let sources = with_prefixes(sources)?;
        let all = MergingOf::of(sources)?;
        Ok(all)
    }

    /// The records of all of these, unpositioned: nothing is read before a seek. The error comes only from want of memory.
    pub fn unpositioned(sources: Vec<S>) -> Result<Merging<S>, NoMemory>
        requires { IsDistinct (flat (map S.whole sources.items)) }
        ensures whole { IfOk result (λ m. ⟦<Merging<S> as Source>⟧.whole m ≡ sorted (flat (map S.whole sources.items))) }
        ensures unpositioned { IfOk result (λ m. ⟦<Merging<S> as Source>⟧.is_unpositioned m ≡ true) }
    {
        let sources = with_prefixes(sources)?;
        let all = MergingOf::unread(sources)?;
        Ok(all)
    }
}

impl<S: Source + Drop> MergingOf<S> {
    // The records of all of these.
    fn of(sources: Vec<S>) -> Result<MergingOf<S>, NoMemory>
        requires distinct { IsDistinct (flat (map S.whole sources.items)) }
        requires at_start { map S.rest sources.items ≡ map S.whole sources.items }
        ensures whole { IfOk result (λ m. ⟦<MergingOf<S> as Source>⟧.whole m ≡ sorted (flat (map S.whole sources.items))) }
        ensures rest { IfOk result (λ m. ⟦<MergingOf<S> as Source>⟧.rest m ≡ sorted (flat (map S.rest sources.items))) }
    {
        let alloc = *sources.allocator();
        let mut order = Vec::with_capacity(alloc, sources.len())?;
        put_all(&sources, &mut order)?;
        Ok(MergingOf {
            sources,
            order,
            unpositioned: false,
        })
    }

    // The records of all of these, unpositioned.
    fn unread(sources: Vec<S>) -> Result<MergingOf<S>, NoMemory>
        requires { IsDistinct (flat (map S.whole sources.items)) }
        ensures whole { IfOk result (λ m. ⟦<MergingOf<S> as Source>⟧.whole m ≡ sorted (flat (map S.whole sources.items))) }
        ensures unpositioned { IfOk result (λ m. ⟦<MergingOf<S> as Source>⟧.is_unpositioned m ≡ true) }
    {
        let alloc = *sources.allocator();
        let order = Vec::with_capacity(alloc, sources.len())?;
        Ok(MergingOf {
            sources,
            order,
            unpositioned: true,
        })
    }

    /// The sources, each of which may stand anywhere.
    pub fn into_sources(self) -> Vec<S>
        ensures { sorted (flat (map S.whole result.items)) ≡ ⟦<MergingOf<S> as Source>⟧.whole self }
    {
        let MergingOf {
            sources,
            order: _,
            unpositioned: _,
        } = self;
        sources
    }
}

impl<S: Source> Source for MergingOf<S> {
    ghost use Rattle.tab_iter.specs.Positions.{unless};
    ghost use Rattle.tab_iter.specs.SourceLaws.{end_of_ending, unless_ends, unless_empty, i64_timestamps_sorted};
    ghost use Rattle.tab_key.proofs.Rising.{rising_sorted};

    ghost whole = { λ m. sorted (flat (map S.whole m.sources.items)) };

    ghost rest = { λ m. unless m.unpositioned (sorted (flat (map S.rest m.sources.items))) };

    ghost is_unpositioned = { λ m. m.unpositioned };

    ghost whole_rises = { λ m. rising_sorted (flat (map S.whole m.sources.items)) m.distinct };

    ghost has_i64_timestamps = { λ m. i64_timestamps_sorted S.whole S.has_i64_timestamps m.sources.items };

    ghost rest_is_suffix = { λ m. unless_ends m.unpositioned (sorted (flat (map S.rest m.sources.items))) (sorted (flat (map S.whole m.sources.items))) (λ e. end_of_ending (sorted (flat (map S.rest m.sources.items))) (sorted (flat (map S.whole m.sources.items))) (m.synced e)) };

    ghost unpositioned_is_empty = { λ m. unless_empty m.unpositioned (sorted (flat (map S.rest m.sources.items))) };

    fn top(&self) -> Option<RecordRef<'_>> {
        if self.unpositioned {
            return None;
        }
        match self.order.last() {
            None => None,
            Some(place) => top_at(&self.sources, *place),
        }
    }

    fn advance(&mut self) -> Result<(), NoMemory> {
        if self.unpositioned {
            return Err(AllocError);
        }
        match self.order.pop() {
            None => Ok(()),
            Some(place) => {
                self.unpositioned = true;
                advance_at(&mut self.sources, place)?;
                put(&self.sources, &mut self.order, place)?;
                self.unpositioned = false;
                Ok(())
            }
        }
    }

    fn seek(&mut self, key: Key<'_>) -> Result<(), NoMemory> {
        self.unpositioned = true;
        seek_all(&mut self.sources, key)?;
        put_all(&self.sources, &mut self.order)?;
        self.unpositioned = false;
        Ok(())
    }
}

// Advances the source at this place.
#[inline(always)]
fn advance_at<S: Source>(sources: &mut [S], place: usize) -> Result<(), NoMemory>
    requires { place < length sources.old }
    ensures whole { map S.whole sources.new ≡ map S.whole sources.old }
    ensures rest { OnOk result (map S.rest sources.new ≡ slice_set (map S.rest sources.old) place (tail (slice_index_or (map S.rest sources.old) place []))) }
{
    sources[place].advance()?;
    Ok(())
}

// Seeks in each of the sources.
fn seek_all<S: Source>(sources: &mut [S], key: Key<'_>) -> Result<(), NoMemory>
    ensures whole { map S.whole sources.new ≡ map S.whole sources.old }
    ensures rest { OnOk result (map S.rest sources.new ≡ map (from_key (key_of key.entry)) (map S.whole sources.old)) }
{
    for i in 0..sources.len() {
        sources[i].seek(key)?;
    }
    Ok(())
}
