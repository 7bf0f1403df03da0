//! The system iterators that read one source, each by its name and alone: the source filtered by one rule.
ghost use Rattle.std.specs.Prelude.{◌≡◌, true, filter, IfOk};
ghost use Rattle.tab_key.specs.Columns.{is_selected};
ghost use Rattle.tab_label.specs.Holding.{label_holds};
ghost use Rattle.tab_iter.specs.Layers.{is_left, is_among};

use crate::{
    DeletingRule, FetchingRule, Filtered, NoMemory, Source, Verdicts, VersioningRule, VisibleRule,
};
use std::alloc::Global;
use tab_key::Column;
use tab_label::AuthSet;

/// The puts that no marker of the source hides, with its markers or without.
pub type Deleting<S> = Filtered<S, DeletingRule>;

/// The records of the named columns.
pub type Fetching<'a, S> = Filtered<S, FetchingRule<'a>>;

/// The records whose label holds, markers among them.
pub type Visible<'a, S> = Filtered<S, VisibleRule<'a>>;

/// The newest puts of each column, and the markers.
pub type Versioning<S> = Filtered<S, VersioningRule>;

/// The puts that no marker of the source hides, and the markers too if they are kept.
///
/// The source is at its start. The error comes only from want of memory. (Accumulo user manual: deleting iterator)
pub fn deleting<S: Source + Drop>(
    alloc: Global,
    source: S,
    keeps: bool,
) -> Result<Deleting<S>, NoMemory>
    requires { S.rest source ≡ S.whole source }
    ensures whole { IfOk result (λ d. ⟦<Deleting<S> as Source>⟧.whole d ≡ filter (is_left keeps (S.whole source)) (S.whole source)) }
    ensures rest { IfOk result (λ d. ⟦<Deleting<S> as Source>⟧.rest d ≡ ⟦<Deleting<S> as Source>⟧.whole d) }
{
    let left = Filtered::new(source, DeletingRule::new(alloc, keeps))?;
    Ok(left)
}

/// The records of these columns, and all where none is named.
///
/// The source is at its start. The error comes only from want of memory. (Accumulo user manual: column fetching)
pub fn fetching<'a, S: Source + Drop>(
    alloc: Global,
    source: S,
    columns: &'a [Column],
) -> Result<Fetching<'a, S>, NoMemory>
    requires { S.rest source ≡ S.whole source }
    ensures whole { IfOk result (λ f. ⟦<Fetching<'a, S> as Source>⟧.whole f ≡ filter (λ u. is_selected columns.now u.key) (S.whole source)) }
    ensures rest { IfOk result (λ f. ⟦<Fetching<'a, S> as Source>⟧.rest f ≡ ⟦<Fetching<'a, S> as Source>⟧.whole f) }
{
    let fetched = Filtered::new(source, FetchingRule::new(alloc, columns))?;
    Ok(fetched)
}

/// The records whose label holds under these authorizations, markers among them.
///
/// The source is at its start. The error comes only from want of memory. (Accumulo user manual: visibility filter)
pub fn visible<'a, S: Source + Drop>(
    alloc: Global,
    source: S,
    auths: &'a AuthSet,
) -> Result<Visible<'a, S>, NoMemory>
    requires { S.rest source ≡ S.whole source }
    ensures whole { IfOk result (λ v. ⟦<Visible<'a, S> as Source>⟧.whole v ≡ filter (λ u. label_holds u.key.label auths.now) (S.whole source)) }
    ensures rest { IfOk result (λ v. ⟦<Visible<'a, S> as Source>⟧.rest v ≡ ⟦<Visible<'a, S> as Source>⟧.whole v) }
{
    let seen = Filtered::new(source, VisibleRule::new(auths, Verdicts::none(alloc)))?;
    Ok(seen)
}

/// Of each column so many puts, the newest, and all markers. Puts that a marker hides count as any other.
///
/// The source is at its start. The error comes only from want of memory. (Accumulo user manual: versioning iterator)
pub fn versioning<S: Source + Drop>(
    alloc: Global,
    source: S,
    most: u32,
) -> Result<Versioning<S>, NoMemory>
    requires { S.rest source ≡ S.whole source }
    ensures whole { IfOk result (λ v. ⟦<Versioning<S> as Source>⟧.whole v ≡ filter (is_among true most (S.whole source)) (S.whole source)) }
    ensures rest { IfOk result (λ v. ⟦<Versioning<S> as Source>⟧.rest v ≡ ⟦<Versioning<S> as Source>⟧.whole v) }
{
    let newest = Filtered::new(source, VersioningRule::new(alloc, most, true))?;
    Ok(newest)
}
