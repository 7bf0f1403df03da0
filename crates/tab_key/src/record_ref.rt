//! A record that someone else holds.
ghost use Rattle.std.specs.Prelude.{◌≡◌, ◌++◌, IfSome, is_some, length, nat_le};
ghost use Rattle.tab_key.specs.Order.{column_cmp, key_cmp, place_cmp, newer_cmp, record_cmp};
ghost use Rattle.tab_key.specs.Kept.{same_column, hides};
ghost use Rattle.tab_key.specs.KeyOf.{key_of};
ghost use Rattle.tab_key.specs.Same.{same_record};
ghost use Rattle.tab_key.specs.Encoding.{record_at, record_size, IsAt};
ghost use Rattle.tab_key.specs.Words.{IsWord, mark_of};

use crate::encoding::{mark_at, piece_of, span_of};
use crate::word::{mark_between, word_between};
use crate::{Key, Kind, Piece};
use std::cmp::Ordering;
use std::marker::Model;

/// A record, lent: its head and its parts lie in a body that holds others too, and are read where they lie.
#[derive(Drop)]
pub struct RecordRef<'a> {
    body: &'a [u8],
    // where its head begins
    place: usize,
}

impl<'a> Model for RecordRef<'a> {
    ghost use Rattle.tab_key.specs.Records.{Record as Fields};

    ghost Value = { Fields };

    ghost use Rattle.tab_key.specs.Encoding.{record_at, IsAt};

    ghost view = { λ r. record_at r.body.now r.place };

    ghost invariant = { λ r. IsAt r.body.now r.place };
}

impl<'a> RecordRef<'a> {
    /// The record whose head begins at this place in the body. It has to lie in the body whole, as `append` leaves it.
    #[inline]
    pub fn at(body: &'a [u8], place: usize) -> RecordRef<'a>
        requires { IsAt body.now place }
        ensures { result ≡ record_at body.now place }
    {
        RecordRef { body, place }
    }

    /// This record, lent once more.
    #[inline]
    pub fn reborrow(&self) -> RecordRef<'a>
        ensures { result ≡ self.now }
    {
        RecordRef {
            body: self.body,
            place: self.place,
        }
    }

    /// The row.
    #[inline]
    pub fn row(&self) -> &'a [u8]
        ensures { result.now ≡ self.now.key.row }
    {
        let span = span_of(self.body, self.place);
        &self.body[span.start..span.row_end]
    }

    /// The column family.
    #[inline]
    pub fn family(&self) -> &'a [u8]
        ensures { result.now ≡ self.now.key.family }
    {
        let span = span_of(self.body, self.place);
        &self.body[span.row_end..span.family_end]
    }

    /// The column qualifier.
    #[inline]
    pub fn qualifier(&self) -> &'a [u8]
        ensures { result.now ≡ self.now.key.qualifier }
    {
        let span = span_of(self.body, self.place);
        &self.body[span.family_end..span.qualifier_end]
    }

    /// The label, which Accumulo calls column visibility.
    #[inline]
    pub fn label(&self) -> &'a [u8]
        ensures { result.now ≡ self.now.key.label }
    {
        let span = span_of(self.body, self.place);
        &self.body[span.qualifier_end..span.label_end]
    }

    /// The number that the label's bytes spell behind a one. None says that the label has more than seven bytes.
    ///
    /// Labels of one number are the same, byte for byte: so two short ones are compared at once, and neither is read again.
    #[inline]
    pub fn label_word(&self) -> Option<u64>
        ensures word { IfSome result (λ w. IsWord w self.now.key.label) }
        ensures short { is_some result ≡ nat_le (length self.now.key.label) 7 }
    {
        let span = span_of(self.body, self.place);
        word_between(self.body, span.qualifier_end, span.label_end)
    }

    /// A guess at the label, out of the record's head: 0 for a marker, and for a put a number of a few bits that all puts of its label
    /// share with puts of others.
    ///
    /// It is there before the label can be read, whose place is the sum of three lengths. So who knows what he did with the label of such
    /// a number last may do the same at once, and see afterwards whether this is that label. No contract says anything of it.
    #[inline]
    pub fn label_guess(&self) -> u8 {
        mark_at(self.body, self.place)
    }

    /// The value; a marker has none.
    #[inline]
    pub fn value(&self) -> &'a [u8]
        ensures { result.now ≡ self.now.value }
    {
        let span = span_of(self.body, self.place);
        &self.body[span.label_end..span.end]
    }

    /// The timestamp.
    #[inline]
    pub fn timestamp(&self) -> i64
        ensures { result ≡ self.now.key.timestamp }
    {
        span_of(self.body, self.place).timestamp
    }

    /// Whether it is a put or a delete marker.
    #[inline]
    pub fn kind(&self) -> Kind
        ensures { result ≡ self.now.kind }
    {
        span_of(self.body, self.place).kind
    }

    /// The number of its mutation.
    #[inline]
    pub fn seq(&self) -> u64
        ensures { result ≡ self.now.seq }
    {
        span_of(self.body, self.place).seq
    }

    /// Its place in its mutation.
    #[inline]
    pub fn idx(&self) -> u32
        ensures { result ≡ self.now.idx }
    {
        span_of(self.body, self.place).idx
    }

    /// The key, lent for as long as the record is.
    #[inline]
    pub fn key(&self) -> Key<'a>
        ensures { key_of result ≡ self.now.key }
    {
        let span = span_of(self.body, self.place);
        Key {
            row: &self.body[span.start..span.row_end],
            family: &self.body[span.row_end..span.family_end],
            qualifier: &self.body[span.family_end..span.qualifier_end],
            label: &self.body[span.qualifier_end..span.label_end],
            timestamp: span.timestamp,
        }
    }

    /// The row, as a piece of the body.
    #[inline]
    pub fn row_piece(&self) -> Piece<'a>
        ensures { result ≡ self.now.key.row }
    {
        let span = span_of(self.body, self.place);
        Piece::between(self.body, span.start, span.row_end)
    }

    /// The column family, as a piece of the body.
    #[inline]
    pub fn family_piece(&self) -> Piece<'a>
        ensures { result ≡ self.now.key.family }
    {
        let span = span_of(self.body, self.place);
        Piece::between(self.body, span.row_end, span.family_end)
    }

    /// The column qualifier, as a piece of the body.
    #[inline]
    pub fn qualifier_piece(&self) -> Piece<'a>
        ensures { result ≡ self.now.key.qualifier }
    {
        let span = span_of(self.body, self.place);
        Piece::between(self.body, span.family_end, span.qualifier_end)
    }

    /// The label, as a piece of the body.
    #[inline]
    pub fn label_piece(&self) -> Piece<'a>
        ensures { result ≡ self.now.key.label }
    {
        let span = span_of(self.body, self.place);
        Piece::between(self.body, span.qualifier_end, span.label_end)
    }

    /// The value, as a piece of the body; a marker has none.
    #[inline]
    pub fn value_piece(&self) -> Piece<'a>
        ensures { result ≡ self.now.value }
    {
        let span = span_of(self.body, self.place);
        Piece::between(self.body, span.label_end, span.end)
    }

    // The order of columns. Where the parts before the label are as long as the other's, all are compared in one piece.
    #[tactic(auto, using(crate::proofs::ColumnOrder::in_one_piece))]
    fn column_cmp(&self, other: &RecordRef<'_>) -> Ordering
        ensures { result ≡ column_cmp self.now.key other.now.key }
    {
        let own = self.key();
        let others = other.key();
        if own.row.len() != others.row.len() {
            return own.column_cmp(others);
        }
        if own.family.len() != others.family.len() {
            return own.column_cmp(others);
        }
        if own.qualifier.len() != others.qualifier.len() {
            return own.column_cmp(others);
        }
        self.column().cmp(other.column())
    }

    // The order of keys.
    #[tactic(auto, unfolding(crate::specs::Order::key_cmp))]
    fn key_cmp(&self, other: &RecordRef<'_>) -> Ordering
        ensures { result ≡ key_cmp self.now.key other.now.key }
    {
        match self.column_cmp(other) {
            Ordering::Equal => other.timestamp().cmp(&self.timestamp()),
            decided => decided,
        }
    }

    /// The order of keys, and a marker before a put.
    #[tactic(auto, unfolding(crate::specs::Order::place_cmp))]
    fn place_cmp(&self, other: &RecordRef<'_>) -> Ordering
        ensures { result ≡ place_cmp self.now other.now }
    {
        match self.key_cmp(other) {
            Ordering::Equal => self.kind().rank().cmp(&other.kind().rank()),
            decided => decided,
        }
    }

    /// The newer first.
    #[tactic(auto, unfolding(crate::specs::Order::newer_cmp))]
    fn newer_cmp(&self, other: &RecordRef<'_>) -> Ordering
        ensures { result ≡ newer_cmp self.now other.now }
    {
        match other.seq().cmp(&self.seq()) {
            Ordering::Equal => other.idx().cmp(&self.idx()),
            decided => decided,
        }
    }

    /// The order of records: by key, then a marker before a put, then the newer first. The value isn't read.
    pub fn cmp(&self, other: &RecordRef<'_>) -> Ordering
        ensures { result ≡ record_cmp self.now other.now }
    {
        match self.place_cmp(other) {
            Ordering::Equal => self.newer_cmp(other),
            decided => decided,
        }
    }

    // Its head and its parts, as a piece of the body.
    #[inline]
    pub(crate) fn encoded_piece(&self) -> Piece<'a>
        ensures at { IsAt result 0 }
        ensures record { record_at result 0 ≡ self.now }
        ensures size { length result ≡ record_size self.now }
    {
        piece_of(self.body, self.place)
    }

    // Its head and its parts.
    #[inline]
    pub(crate) fn encoded(&self) -> &'a [u8]
        ensures at { IsAt result.now 0 }
        ensures record { record_at result.now 0 ≡ self.now }
        ensures size { length result.now ≡ record_size self.now }
    {
        self.encoded_piece().as_slice()
    }

    /// Row, family, qualifier and label, one after another in one piece.
    #[inline]
    #[tactic(auto, using(crate::proofs::Columns::four_parts))]
    pub fn column(&self) -> &'a [u8]
        ensures { result.now ≡ self.now.key.row ++ self.now.key.family ++ self.now.key.qualifier ++ self.now.key.label }
    {
        let span = span_of(self.body, self.place);
        &self.body[span.start..span.label_end]
    }

    /// Row, family, qualifier and label, one after another, as a piece of the body.
    #[inline]
    #[tactic(auto, using(crate::proofs::Columns::four_parts))]
    pub fn column_piece(&self) -> Piece<'a>
        ensures { result ≡ self.now.key.row ++ self.now.key.family ++ self.now.key.qualifier ++ self.now.key.label }
    {
        let span = span_of(self.body, self.place);
        Piece::between(self.body, span.start, span.label_end)
    }

    /// The number that the last eight bytes of row, family and qualifier spell, or 0 where these have fewer. Where it differs the
    /// records are of different columns; it is read at once, however long the parts are.
    #[inline]
    #[tactic(auto, using(crate::proofs::Columns::three_parts))]
    pub fn column_mark(&self) -> u64
        ensures { result ≡ mark_of (self.now.key.row ++ self.now.key.family ++ self.now.key.qualifier) }
    {
        let span = span_of(self.body, self.place);
        mark_between(self.body, span.start, span.qualifier_end)
    }

    /// Whether the records are of one column: the same row, family, qualifier and label, byte for byte.
    #[tactic(auto, using(crate::proofs::Columns::same_pieces, crate::proofs::Columns::other_rows, crate::proofs::Columns::other_families, crate::proofs::Columns::other_qualifiers))]
    pub fn same_column(&self, other: &RecordRef<'_>) -> bool
        ensures { result ≡ same_column self.now.key other.now.key }
    {
        if self.row().len() != other.row().len() {
            return false;
        }
        if self.family().len() != other.family().len() {
            return false;
        }
        if self.qualifier().len() != other.qualifier().len() {
            return false;
        }
        self.column() == other.column()
    }

    /// Whether this record is a delete marker that hides the other: one of its column, at or below its timestamp.
    #[tactic(auto, unfolding(crate::specs::Kept::hides), using(crate::proofs::Columns::and_false))]
    pub fn hides(&self, other: &RecordRef<'_>) -> bool
        ensures { result ≡ hides self.now other.now }
    {
        if self.kind().is_put() || other.timestamp() > self.timestamp() {
            return false;
        }
        self.same_column(other)
    }

    // Whether each of the records' fields is the same, read one by one.
    #[tactic(auto, unfolding(crate::specs::Same::same_record))]
    fn same_fields(&self, other: &RecordRef<'_>) -> bool
        ensures { result ≡ same_record self.now other.now }
    {
        self.same_column(other)
            && self.timestamp() == other.timestamp()
            && self.kind().rank() == other.kind().rank()
            && self.value() == other.value()
            && self.seq() == other.seq()
            && self.idx() == other.idx()
    }

    /// Whether the records are the same: key, kind, value, number and place. The bytes in which they lie are compared first, so that
    /// equal ones are found by one comparison; where these differ, the fields decide.
    pub fn same_record(&self, other: &RecordRef<'_>) -> bool
        ensures { result ≡ same_record self.now other.now }
    {
        self.encoded() == other.encoded() || self.same_fields(other)
    }
}
