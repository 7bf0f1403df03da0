//! What a scan reads.
ghost use Rattle.std.specs.Prelude.{◌≡◌, true, map, IfOk};
ghost use Rattle.tab_cells.specs.Cells.{cells};
ghost use Rattle.tab_key.specs.Columns.{is_selected};
ghost use Rattle.tab_key.specs.Records.{cell_of};
ghost use Rattle.tab_label.specs.Holding.{label_holds};
ghost use Rattle.tab_iter.specs.Stack.{query_of, shown_of, stacked};
ghost use Rattle.tab_iter.specs.Verdicts.{IsSound};

use crate::{
    DeletingRule, FetchingRule, Filtered, NoMemory, Rule, Source, ThenRule, Verdicts,
    VersioningRule, VisibleRule,
};
use std::alloc::Global;
use tab_key::Column;
use tab_label::AuthSet;

/// What a scan lets through: versions of what is visible of what is fetched of what isn't deleted.
pub type StackRule<'a> = ThenRule<
    ThenRule<ThenRule<DeletingRule, FetchingRule<'a>>, VisibleRule<'a>>,
    VersioningRule,
>;

/// What a scan reads of the source.
pub type Stack<'a, S> = Filtered<S, StackRule<'a>>;

/// The records that a scan of all rows shows of the source: of these columns, under these authorizations, so many versions. There may
/// be verdicts on labels under these authorizations, of an earlier batch.
///
/// The source is at its start. The error comes only from want of memory.
pub fn stack_of<'a, S: Source + Drop>(
    alloc: Global,
    source: S,
    columns: &'a [Column],
    auths: &'a AuthSet,
    verdicts: Verdicts,
    versions: u32,
) -> Result<Stack<'a, S>, NoMemory>
    requires at_start { S.rest source ≡ S.whole source }
    requires sound { IsSound auths.now verdicts }
    ensures shown { IfOk result (λ s. ⟦<Stack<'a, S> as Source>⟧.whole s ≡ shown_of (S.whole source) versions (query_of columns.now auths.now)) }
    ensures cells { IfOk result (λ s. map cell_of (⟦<Stack<'a, S> as Source>⟧.whole s) ≡ cells (S.whole source) versions (query_of columns.now auths.now)) }
    ensures at_start { IfOk result (λ s. ⟦<Stack<'a, S> as Source>⟧.rest s ≡ ⟦<Stack<'a, S> as Source>⟧.whole s) }
{
    let rule = stack_rule(alloc, columns, auths, verdicts, versions);
    let shown = Filtered::new(source, rule)?;
    Ok(shown)
}

/// The stack of [`stack_of`], unpositioned: nothing is read before a seek, and it takes no memory. The source may stand anywhere.
pub fn stack_unread<'a, S: Source + Drop>(
    alloc: Global,
    source: S,
    columns: &'a [Column],
    auths: &'a AuthSet,
    verdicts: Verdicts,
    versions: u32,
) -> Stack<'a, S>
    requires { IsSound auths.now verdicts }
    ensures shown { ⟦<Stack<'a, S> as Source>⟧.whole result ≡ shown_of (S.whole source) versions (query_of columns.now auths.now) }
    ensures unpositioned { ⟦<Stack<'a, S> as Source>⟧.is_unpositioned result ≡ true }
{
    Filtered::unpositioned(
        source,
        stack_rule(alloc, columns, auths, verdicts, versions),
    )
}

// The rules of a scan, one behind the other.
fn stack_rule<'a>(
    alloc: Global,
    columns: &'a [Column],
    auths: &'a AuthSet,
    verdicts: Verdicts,
    versions: u32,
) -> StackRule<'a>
    requires { IsSound auths.now verdicts }
    ensures { ⟦<StackRule<'a> as Rule>⟧.admits result ≡ stacked versions (is_selected columns.now) (λ k. label_holds k.label auths.now) }
{
    let undeleted = DeletingRule::new(alloc, false);
    let fetched = ThenRule::new(undeleted, FetchingRule::new(alloc, columns));
    let visible = ThenRule::new(fetched, VisibleRule::new(auths, verdicts));
    ThenRule::new(visible, VersioningRule::new(alloc, versions, false))
}

/// What a scan under these authorizations leaves: the verdicts on labels that it made or began with, none where it was one under others,
/// and the source, which may stand anywhere.
pub fn taken_apart<'a, S: Source + Drop>(
    alloc: Global,
    stack: Stack<'a, S>,
    auths: &AuthSet,
) -> (Verdicts, S)
    ensures { IsSound auths.now result.0 }
{
    let (source, rule) = stack.into_parts();
    let (seen, _versions) = rule.into_parts();
    let (_fetched, visible) = seen.into_parts();
    (visible.into_verdicts(alloc, auths), source)
}
