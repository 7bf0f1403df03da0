//! What a merge writes.
ghost use Rattle.std.specs.Prelude.{◌≡◌, map, IfOk};
ghost use Rattle.tab_key.specs.Sorted.{IsDistinct};
ghost use Rattle.tab_cells.specs.Merged.{merged};
ghost use Rattle.tab_iter.specs.Bags.{flat};

use crate::{
    DeletingRule, Filtered, FirstMarkersRule, Merging, NoMemory, Source, ThenRule, VersioningRule,
};
use std::alloc::Global;

/// What a merge lets through: versions of what isn't deleted, with the markers that are still needed.
pub type MergeRule = ThenRule<ThenRule<DeletingRule, FirstMarkersRule>, VersioningRule>;

/// What a merge writes of all sources.
pub type Merged<S> = Filtered<Merging<S>, MergeRule>;

/// The records that a merge of these sources keeps, where so many versions of a column are kept.
///
/// Those are the puts that no marker among them hides and that are among the newest of their column, and of each column the first
/// marker; a full merge drops that one too where its timestamp lies below the floor. (Accumulo user manual: compactions)
///
/// Each source is at its start, and no two records of them stand at one place. The error comes only from want of memory.
pub fn merged_of<S: Source + Drop>(
    alloc: Global,
    sources: Vec<S>,
    full: bool,
    floor: i64,
    versions: u32,
) -> Result<Merged<S>, NoMemory>
    requires distinct { IsDistinct (flat (map S.whole sources.items)) }
    requires at_start { map S.rest sources.items ≡ map S.whole sources.items }
    ensures whole { IfOk result (λ m. ⟦<Merged<S> as Source>⟧.whole m ≡ merged (flat (map S.whole sources.items)) full floor versions) }
    ensures rest { IfOk result (λ m. ⟦<Merged<S> as Source>⟧.rest m ≡ merged (flat (map S.whole sources.items)) full floor versions) }
{
    let all = Merging::new(sources)?;
    // a marker that goes hides first what it hides
    let undeleted = DeletingRule::new(alloc, true);
    let needed = ThenRule::new(undeleted, FirstMarkersRule::new(alloc, full, floor));
    let rule = ThenRule::new(needed, VersioningRule::new(alloc, versions, true));
    let kept = Filtered::new(all, rule)?;
    Ok(kept)
}
