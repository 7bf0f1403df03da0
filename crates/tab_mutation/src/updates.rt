//! Going over the updates of a mutation.
ghost use Rattle.std.specs.Prelude.{◌≡◌, map};
ghost use Rattle.std.specs.Iterator.{YieldsFirst, item_count};
ghost use Rattle.std.specs.List.{AllByRecursion};
ghost use Rattle.tab_mutation.specs.UpdateSpans.{update_in, IsWithin};

use crate::UpdateRef;
use crate::update_span::UpdateSpan;
use std::marker::Model;

/// The updates of a mutation that are left, in the order in which they were added.
///
/// Contracts see the list of them.
#[derive(Drop)]
pub struct Updates<'a> {
    body: &'a [u8],
    spans: &'a [UpdateSpan],
}

impl<'a> Model for Updates<'a> {
    ghost use Rattle.std.specs.Prelude.{List, map};
    ghost use Rattle.std.specs.List.{AllByRecursion};
    ghost use Rattle.tab_mutation.specs.Mutations.{Update};

    ghost Value = { List Update };

    ghost use Rattle.tab_mutation.specs.UpdateSpans.{update_in, IsWithin};

    ghost view = { λ u. map (update_in u.body.now) u.spans.now };

    ghost invariant = { λ u. AllByRecursion (IsWithin u.body.now) u.spans.now };
}

impl<'a> Updates<'a> {
    // The updates at these spans of a body.
    pub(crate) fn at(body: &'a [u8], spans: &'a [UpdateSpan]) -> Updates<'a>
        requires { AllByRecursion (IsWithin body.now) spans.now }
        ensures { result ≡ map (update_in body.now) spans.now }
    {
        Updates { body, spans }
    }
}

impl<'a> Iterator for Updates<'a> {
    type Item = UpdateRef<'a>;

    ghost next_gives = { YieldsFirst (λ rest. rest) };

    ghost remaining = { item_count (λ rest. rest) };

    fn next(&mut self) -> Option<UpdateRef<'a>> {
        let (first, others) = self.spans.split_first()?;
        self.spans = others;
        Some(UpdateRef::at(self.body, first))
    }
}
