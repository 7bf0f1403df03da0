//! Tablets as lists of records, one behind the other.
ghost use Rattle.std.specs.Prelude.{◌≡◌, ◌≤◌, ◌==◌, true, false, not, filter, length};
ghost use Rattle.std.specs.List.Sorted.{IsPartitionedBy, IsPartitionPoint};
ghost use Rattle.tab_key.specs.KeyOf.{key_of};
ghost use Rattle.tab_version.specs.InTurn.{reaches};
ghost use Rattle.tab_version.specs.Sources.{records_of};

use crate::caches::Caches;
use crate::has_records::HasRecords;
use crate::{ClipCursor, Clips, Lists, OneOf};
use std::alloc::Global;
use tab_iter::{Merging, NoMemory, Prefixed};
use tab_key::Key;

/// What is read of a tablet: a cursor over its only clip, or one over each of its clips, merged.
pub type TabletSource<'a> = OneOf<ClipCursor<'a>, Merging<ClipCursor<'a>>>;

/// Tablets that are read, and the caches of their tables.
#[derive(Drop)]
pub struct Tablets<'a> {
    pub(crate) tablets: &'a [Clips],
    pub(crate) caches: Caches,
}

impl<'a> Lists<TabletSource<'a>> for Tablets<'a> {
    ghost use Rattle.tab_version.specs.InTurn.{in_order};

    ghost listed = { λ t. in_order t.tablets.now };

    fn count(&self) -> usize {
        self.tablets.len()
    }

    fn find(&self, key: Key<'_>) -> usize {
        let tablets: &'a [Clips] = self.tablets;
        let last = tablets.len() - 1;
        count_before(&tablets[..last], key)
    }

    fn source_at(&mut self, alloc: Global, index: usize) -> Result<TabletSource<'a>, NoMemory> {
        let tablets: &'a [Clips] = self.tablets;
        let tablet = &tablets[index];
        if let Some(cursor) = tablet.only_cursor(alloc)? {
            return Ok(OneOf::First(cursor));
        }
        let cursors = tablet.cursors(alloc)?;
        let source = Merging::new(cursors)?;
        Ok(OneOf::Second(source))
    }

    fn unpositioned_at(
        &mut self,
        alloc: Global,
        index: usize,
    ) -> Result<TabletSource<'a>, NoMemory> {
        let tablets: &'a [Clips] = self.tablets;
        let tablet = &tablets[index];
        if let Some(cursor) = tablet.only_unread(alloc, &mut self.caches, index) {
            return Ok(OneOf::First(cursor));
        }
        let cursors = tablet.unread_cursors(alloc, &mut self.caches, index)?;
        let source = Merging::unpositioned(cursors)?;
        Ok(OneOf::Second(source))
    }

    fn leave(&mut self, index: usize, source: TabletSource<'a>) {
        match source {
            OneOf::First(cursor) => self.caches.keep(index, 0, cursor),
            OneOf::Second(merging) => keep_all(&mut self.caches, index, merging.into_sources()),
        }
    }
}

// Keeps what cursors over a tablet's clips had decoded last.
fn keep_all(caches: &mut Caches, tablet: usize, cursors: Vec<Prefixed<ClipCursor<'_>>>) {
    let mut rest = cursors;
    while let Some(cursor) = rest.pop() {
        caches.keep(tablet, rest.len(), cursor.into_source());
    }
}

// How many of the tablets have no record at the key or behind it. They are the first ones.
fn count_before(tablets: &[Clips], key: Key<'_>) -> usize
    requires { IsPartitionedBy (λ t. not (reaches (key_of key) (records_of t))) tablets.now }
    ensures within { result ≤ length tablets.now }
    ensures parted { IsPartitionPoint (λ t. not (reaches (key_of key.entry) (records_of t)) ≡ true) (λ t. not (reaches (key_of key.entry) (records_of t)) ≡ false) tablets.now result }
{
    tablets.partition_point(|tablet| !tablet.reaches(key))
}

/// Drops the tablets without a record.
pub(crate) fn drop_empty(tablets: &mut Vec<Clips>)
    ensures { tablets.new.items ≡ filter (λ t. not (length (records_of t) == 0)) tablets.old.items }
{
    tablets.retain(|tablet| tablet.is_filled());
}
