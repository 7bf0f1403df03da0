//! Where a session goes on.
ghost use Rattle.std.specs.Prelude.{◌≡◌, [], IfOk, MatchOption, OnOk};
ghost use Rattle.tab_session.specs.Bookmarks.{from_record, ahead_of};

use std::alloc::{AllocError, Global};
use tab_iter::{NoMemory, Source};
use tab_key::Record;
use tab_version::Version;

/// A place in a list of records, which a session goes on from.
///
/// Equal keys can follow one another, so it holds the numbers of the record there too, but not its value.
#[derive(Drop)]
pub(crate) enum Bookmark {
    /// The first record, whichever it is.
    Beginning,
    /// The first record that doesn't stand before this one.
    At(Record),
}

impl Bookmark {
    /// Where a session on the version begins; nowhere where the version has no record, and nothing is ever read of it.
    pub(crate) fn first(version: &Version) -> Option<Bookmark>
        ensures { MatchOption result (version.now ≡ []) (λ b. b ≡ Bookmark.Beginning) }
    {
        if version.is_empty() {
            None
        } else {
            Some(Bookmark::Beginning)
        }
    }

    /// The place of the first record that the source has left; none at its end.
    pub(crate) fn of<S: Source>(alloc: Global, source: &S) -> Result<Option<Bookmark>, AllocError>
        ensures { IfOk result (λ b. ahead_of b (S.whole source.now) ≡ S.rest source.now) }
    {
        match source.top() {
            None => Ok(None),
            Some(next) => {
                let record = Record::without_value(alloc, &next)?;
                Ok(Some(Bookmark::At(record)))
            }
        }
    }
}

/// Passes the records that stand before this one.
pub(crate) fn pass_before<S: Source>(source: &mut S, first: &Record) -> Result<(), NoMemory>
    ensures whole { S.whole source.new ≡ S.whole source.old }
    ensures rest { OnOk result (S.rest source.new ≡ from_record first.now (S.rest source.old)) }
{
    while let Some(next) = source.top() {
        if next.cmp(&first.as_ref()).is_ge() {
            break;
        }
        source.advance()?;
    }
    Ok(())
}
