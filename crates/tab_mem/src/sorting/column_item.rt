//! What is sorted of records of one row.
ghost use Rattle.std.specs.Prelude.{◌≡◌, ◌++◌, OnOk, length};
ghost use Rattle.tab_key.specs.Encoding.{span_at, record_at, IsAt};
ghost use Rattle.tab_key.specs.KeyOf.{key_of};
ghost use Rattle.tab_key.specs.Order.{key_cmp, place_cmp, newer_cmp};
ghost use Rattle.tab_key.specs.RowPrefix.{IsRowPrefix};
ghost use Rattle.tab_mem.specs.Groups.{count_in, rowless, without_row, behind_row_cmp};
ghost use Rattle.tab_mem.specs.Lists.{IsFilled};
ghost use Rattle.tab_mem.specs.Parting.{records_in};

use crate::sorting::item::Item;
use crate::sorting::leading::prefix_between;
use std::alloc::AllocError;
use std::cmp::Ordering;
use std::marker::Model;
use tab_key::{Key, RecordRef, end_of};

/// A record, lent: its own bytes, with the length of its family, and the first 16 bytes of family and qualifier as a number. Where the
/// families are of one length, mostly that number decides which record of a row stands before, and the record's own bytes aren't read.
/// It takes 48 bytes.
#[derive(Drop)]
pub(crate) struct ColumnItem<'a> {
    prefix: u128,
    family: usize,
    bytes: &'a [u8],
}

impl<'a> Model for ColumnItem<'a> {
    ghost use Rattle.tab_key.specs.Records.{Record as Fields};

    ghost Value = { Fields };

    ghost use Rattle.tab_key.specs.Encoding.{record_at};
    ghost use Rattle.tab_mem.specs.Groups.{IsColumn};

    ghost view = { λ i. record_at i.bytes.now 0 };

    ghost invariant = { λ i. IsColumn i.prefix i.family i.bytes.now };
}

impl<'a> ColumnItem<'a> {
    /// The item of the record whose bytes these are.
    pub(crate) fn new(bytes: &'a [u8]) -> ColumnItem<'a>
        requires at { IsAt bytes.now 0 }
        requires ends { (span_at bytes.now 0).end ≡ length bytes.now }
        ensures { result ≡ record_at bytes.now 0 }
    {
        let lent = RecordRef::at(bytes, 0);
        let _timestamp = lent.timestamp();
        let prefix = names_prefix(&lent);
        let family = lent.family().len();
        ColumnItem {
            prefix,
            family,
            bytes,
        }
    }

    // The record.
    fn record(&self) -> RecordRef<'a>
        ensures { result ≡ self.now }
    {
        RecordRef::at(self.bytes, 0)
    }

    /// The record as it is put behind others, with the first 16 bytes of its row as a number. It isn't read for that, so the processor
    /// may fetch the next records meanwhile.
    pub(crate) fn with_row(&self, prefix: u128) -> Item<'a>
        requires { IsRowPrefix prefix self.now.key.row }
        ensures { result ≡ self.now }
    {
        Item::with_prefix(prefix, self.bytes)
    }

    /// The order of records but for their rows: that of records, where these are of one row.
    pub(crate) fn cmp(&self, other: &ColumnItem<'_>) -> Ordering
        ensures { result ≡ behind_row_cmp self.now other.now }
    {
        if self.family != other.family {
            return self.cmp_record(other);
        }
        match self.prefix.cmp(&other.prefix) {
            Ordering::Equal => self.cmp_record(other),
            decided => decided,
        }
    }

    // The order of records of one row, by the records themselves.
    fn cmp_record(&self, other: &ColumnItem<'_>) -> Ordering
        ensures { result ≡ behind_row_cmp self.now other.now }
    {
        cmp_behind_row(&self.record(), &other.record())
    }
}

// The first 16 bytes of family and qualifier in one piece, as a number.
#[inline]
fn names_prefix(lent: &RecordRef<'_>) -> u128
    ensures { IsRowPrefix result (lent.now.key.family ++ lent.now.key.qualifier) }
{
    let column = lent.column_piece();
    let start = lent.row().len();
    let size = lent.label().len();
    let end = column.len() - size;
    prefix_between(column.onward(), start, end)
}

// The order of records but for their rows.
#[tactic(auto, unfolding(crate::specs::Groups::behind_row_cmp))]
fn cmp_behind_row(own: &RecordRef<'_>, other: &RecordRef<'_>) -> Ordering
    ensures { result ≡ behind_row_cmp own.now other.now }
{
    match cmp_places(own, other) {
        Ordering::Equal => cmp_numbers(own, other),
        decided => decided,
    }
}

// By the key, and a marker before a put.
#[tactic(auto, unfolding(tab_key::specs::Order::place_cmp))]
fn cmp_places(own: &RecordRef<'_>, other: &RecordRef<'_>) -> Ordering
    ensures { result ≡ place_cmp (without_row own.now) (without_row other.now) }
{
    match cmp_columns(own, other) {
        Ordering::Equal => own.kind().rank().cmp(&other.kind().rank()),
        decided => decided,
    }
}

// By the key.
fn cmp_columns(own: &RecordRef<'_>, other: &RecordRef<'_>) -> Ordering
    ensures { result ≡ key_cmp (rowless own.now.key) (rowless other.now.key) }
{
    let mine = own.key();
    let others = other.key();
    cmp_keys(mine, others)
}

// By family, qualifier and label, and then the greater timestamp first.
#[tactic(auto, unfolding(tab_key::specs::Order::key_cmp, tab_key::specs::Order::column_cmp))]
fn cmp_keys(own: Key<'_>, other: Key<'_>) -> Ordering
    ensures { result ≡ key_cmp (rowless (key_of own.entry)) (rowless (key_of other.entry)) }
{
    own.family
        .cmp(other.family)
        .then_with(|| own.qualifier.cmp(other.qualifier))
        .then_with(|| own.label.cmp(other.label))
        .then_with(|| other.timestamp.cmp(&own.timestamp))
}

// The newer first.
#[tactic(auto, unfolding(tab_key::specs::Order::newer_cmp))]
fn cmp_numbers(own: &RecordRef<'_>, other: &RecordRef<'_>) -> Ordering
    ensures { result ≡ newer_cmp (without_row own.now) (without_row other.now) }
{
    match other.seq().cmp(&own.seq()) {
        Ordering::Equal => other.idx().cmp(&own.idx()),
        decided => decided,
    }
}

/// Puts the records that fill the body, lent, behind others. After an error, which only want of memory gives, some may stand there.
pub(crate) fn lend_columns<'a>(
    items: &mut Vec<ColumnItem<'a>>,
    body: &'a [u8],
) -> Result<(), AllocError>
    requires { IsFilled body.now (count_in body.now) }
    ensures { OnOk result (items.new.items ≡ items.old.items ++ records_in body.now (count_in body.now)) }
{
    let mut place = 0;
    while place < body.len() {
        let end = end_of(body, place);
        items.push(column_at(body, place, end))?;
        place = end;
    }
    Ok(())
}

// The record that lies in the body from one place up to another, that one excluded.
fn column_at(body: &[u8], place: usize, end: usize) -> ColumnItem<'_>
    requires within { IsAt body.now place }
    requires end { end ≡ (span_at body.now place).end }
    ensures { result ≡ record_at body.now place }
{
    ColumnItem::new(&body[place..end])
}
