//! An update of a mutation, lent.
ghost use Rattle.std.specs.Prelude.{◌≡◌, ◌++◌, Option, None, IfSome, is_some, nat_le, length};
ghost use Rattle.tab_key.specs.Words.{IsWord};
ghost use Rattle.tab_mutation.specs.UpdateSpans.{update_in, IsWithin};
ghost use Rattle.tab_mutation.specs.Shape.{long_name, long_value};

use crate::ShapeError;
use crate::shape_error::is_too_long;
use crate::update_span::UpdateSpan;
use std::marker::Model;
use tab_key::{Kind, LimitedPart, word_between};

/// One update of a mutation: a put or a delete of one column of its row.
///
/// It borrows the mutation's bytes and copies none.
#[derive(Drop)]
pub struct UpdateRef<'a> {
    body: &'a [u8],
    span: &'a UpdateSpan,
}

impl<'a> Model for UpdateRef<'a> {
    ghost use Rattle.tab_mutation.specs.Mutations.{Update};

    ghost Value = { Update };

    ghost use Rattle.tab_mutation.specs.UpdateSpans.{update_in, IsWithin};

    ghost view = { λ u. update_in u.body.now u.span.now };

    ghost invariant = { λ u. IsWithin u.body.now u.span.now };
}

impl<'a> UpdateRef<'a> {
    /// The update whose parts lie there in the body.
    pub(crate) fn at(body: &'a [u8], span: &'a UpdateSpan) -> UpdateRef<'a>
        requires { IsWithin body.now span.now }
        ensures { result ≡ update_in body.now span.now }
    {
        UpdateRef { body, span }
    }

    /// Whether it puts a value or a delete marker.
    pub fn kind(&self) -> Kind
        ensures { result ≡ self.now.kind }
    {
        self.span.kind
    }

    /// The column family.
    pub fn family(&self) -> &[u8]
        ensures { result.now ≡ self.now.family }
    {
        &self.body[self.span.start..self.span.family_end]
    }

    /// The column qualifier.
    pub fn qualifier(&self) -> &[u8]
        ensures { result.now ≡ self.now.qualifier }
    {
        &self.body[self.span.family_end..self.span.qualifier_end]
    }

    /// The column visibility, as it was written.
    pub fn label(&self) -> &[u8]
        ensures { result.now ≡ self.now.label }
    {
        &self.body[self.span.qualifier_end..self.span.label_end]
    }

    /// The number that the label's bytes spell behind a one; none where it has more than seven bytes. Labels of one number are the same.
    #[inline]
    pub fn label_word(&self) -> Option<u64>
        ensures word { IfSome result (λ w. IsWord w self.now.label) }
        ensures short { is_some result ≡ nat_le (length self.now.label) 7 }
    {
        word_between(self.body, self.span.qualifier_end, self.span.label_end)
    }

    /// The timestamp, where the client gave one.
    pub fn timestamp(&self) -> Option<i64>
        ensures { result ≡ self.now.timestamp }
    {
        self.span.timestamp
    }

    /// The value, which is empty for a delete marker.
    pub fn value(&self) -> &[u8]
        ensures { result.now ≡ self.now.value }
    {
        &self.body[self.span.label_end..self.span.end]
    }

    /// Family, qualifier, label and value, one after another in one piece.
    #[tactic(auto, using(tab_key::proofs::Columns::four_parts))]
    pub fn joined(&self) -> &[u8]
        ensures { result.now ≡ self.now.family ++ self.now.qualifier ++ self.now.label ++ self.now.value }
    {
        &self.body[self.span.start..self.span.end]
    }

    // The first of family, qualifier and label that is too long.
    pub(crate) fn long_name(&self) -> Option<ShapeError>
        ensures { result ≡ long_name 0 self.now }
    {
        if is_too_long(self.family()) {
            Some(ShapeError::TooLarge(LimitedPart::Family))
        } else if is_too_long(self.qualifier()) {
            Some(ShapeError::TooLarge(LimitedPart::Qualifier))
        } else if is_too_long(self.label()) {
            Some(ShapeError::TooLarge(LimitedPart::Label))
        } else {
            None
        }
    }

    // The value, where it is too long.
    pub(crate) fn long_value(&self) -> Option<ShapeError>
        ensures { result ≡ long_value 0 self.now }
    {
        if is_too_long(self.value()) {
            Some(ShapeError::TooLarge(LimitedPart::Value))
        } else {
            None
        }
    }
}
