//! A part of a run that is gone over.
ghost use Rattle.std.specs.Prelude.{◌≡◌, ◌≤◌, length};
ghost use Rattle.std.proofs.lemmas.Map.Keys.{IsStrictlySortedBy-prop};
ghost use Rattle.tab_key.specs.Order.{record_cmp};
ghost use Rattle.tab_iter.specs.Propositions.{HasI64Timestamps-prop};
ghost use Rattle.tab_iter.specs.Lists.{first_of, IsRising, HasI64Timestamps};
ghost use Rattle.tab_mem.specs.Lists.{part};

mod source;

use crate::Run;
use crate::records::Records;
use tab_key::RecordRef;

/// The records of a run from one index up to another, and a place among them: a source of `tab_iter`. A contract sees all of these
/// records, and those that are left.
#[derive(Drop)]
pub struct RunCursor<'a> {
    records: &'a Records,
    from: usize,
    at: usize,
    end: usize,
    ghost ordered: { from ≤ at },
    ghost upto: { at ≤ end },
    ghost starts: { from ≤ end },
    ghost inside: { end ≤ length records.now },
    ghost run_rises: { IsRising records.now } by { IsStrictlySortedBy-prop record_cmp records.now },
    ghost rising: { IsRising (part from end records.now) } by { IsStrictlySortedBy-prop record_cmp (part from end records.now) },
    ghost timestamps: { HasI64Timestamps (part from end records.now) } by { HasI64Timestamps-prop (part from end records.now) },
}

impl<'a> RunCursor<'a> {
    ghost use Rattle.tab_mem.specs.Cursors.{whole, rest};

    /// A cursor over the whole run, at its first record.
    pub fn new(run: &'a Run) -> RunCursor<'a>
        ensures whole { whole result ≡ run.now }
        ensures rest { rest result ≡ run.now }
    {
        RunCursor::over(run, 0, run.len())
    }

    /// A cursor over the records from one index up to another, that one excluded, at the first of them.
    pub fn over(run: &'a Run, from: usize, end: usize) -> RunCursor<'a>
        requires ends { from ≤ end }
        requires inside { end ≤ length run.now }
        ensures whole { whole result ≡ part from end run.now }
        ensures rest { rest result ≡ part from end run.now }
    {
        RunCursor {
            records: &run.records,
            from,
            at: from,
            end,
        }
    }

    /// The first record that is left, lent for as long as the run is.
    #[inline]
    pub fn top(&self) -> Option<RecordRef<'a>>
        ensures { result ≡ first_of (rest self.now) }
    {
        if self.at < self.end {
            Some(self.records.get(self.at))
        } else {
            None
        }
    }
}
