//! How the key of a record compares with one that is sought, found from entry to entry without the keys themselves.
ghost use Rattle.std.specs.Prelude.{◌≡◌, ◌+◌, ◌≤◌, length};
ghost use Rattle.tab_key.specs.Encoding.{length_at, IsAt};
ghost use Rattle.tab_key.specs.KeyOf.{key_of};
ghost use Rattle.tab_key.specs.Order.{column_cmp};
ghost use Rattle.tab_key.specs.Records.{Key as Fields};
ghost use Rattle.tab_table.specs.Agreements.{AreAgreements, AreInside};
ghost use Rattle.tab_table.specs.Blocks.{entry_at, shared_key, IsEntry};
ghost use Rattle.tab_table.specs.Restarts.{HasShares};

use crate::agreement::Agreement;
use crate::restarts::Restart;
use crate::sharing::count_at;
use std::cmp::Ordering;
use tab_key::{Key, RecordRef};

/// How each part of a key compares with the same part of one that is sought.
#[derive(Clone, Copy)]
pub(crate) struct KeyAgreement {
    pub(crate) row: Agreement,
    pub(crate) family: Agreement,
    pub(crate) qualifier: Agreement,
    pub(crate) label: Agreement,
}

impl KeyAgreement {
    /// Of the bytes that the record at a restart shares with the one before it.
    pub(crate) fn of_shares(
        restart: Restart,
        shares: &[u8],
        blocks: &[u8],
        sought: Key<'_>,
    ) -> KeyAgreement
        requires head { restart.place + 57 ≤ length blocks.now }
        requires inside { restart.from + length_at blocks.now restart.place + length_at blocks.now (restart.place + 4) + length_at blocks.now (restart.place + 8) + length_at blocks.now (restart.place + 12) ≤ length shares.now }
        ensures agree { (k : Fields) → HasShares shares.now restart.from (length_at blocks.now restart.place) (length_at blocks.now (restart.place + 4)) (length_at blocks.now (restart.place + 8)) (length_at blocks.now (restart.place + 12)) k → AreAgreements result (shared_key blocks.now restart.place k) (key_of sought.entry) }
        ensures inside { AreInside result (key_of sought.entry) }
    {
        let place = restart.place;
        let row_end = restart.from + count_at(blocks, place);
        let family_end = row_end + count_at(blocks, place + 4);
        let qualifier_end = family_end + count_at(blocks, place + 8);
        let label_end = qualifier_end + count_at(blocks, place + 12);
        KeyAgreement {
            row: Agreement::of(&shares[restart.from..row_end], sought.row),
            family: Agreement::of(&shares[row_end..family_end], sought.family),
            qualifier: Agreement::of(&shares[family_end..qualifier_end], sought.qualifier),
            label: Agreement::of(&shares[qualifier_end..label_end], sought.label),
        }
    }

    /// Of the key of the entry at a place, where this is of the key that it shares bytes with.
    pub(crate) fn onward(self, blocks: &[u8], place: usize, sought: Key<'_>) -> KeyAgreement
        requires rest { IsAt blocks.now (place + 16) }
        requires inside { AreInside self (key_of sought) }
        ensures agree { (base : Fields) → IsEntry base blocks.now place → AreAgreements self base (key_of sought.entry) → AreAgreements result (entry_at base blocks.now place).key (key_of sought.entry) }
        ensures inside { AreInside result (key_of sought.entry) }
    {
        let rest = RecordRef::at(blocks, place + 16);
        KeyAgreement {
            row: self
                .row
                .onward(count_at(blocks, place), rest.row(), sought.row),
            family: self
                .family
                .onward(count_at(blocks, place + 4), rest.family(), sought.family),
            qualifier: self.qualifier.onward(
                count_at(blocks, place + 8),
                rest.qualifier(),
                sought.qualifier,
            ),
            label: self
                .label
                .onward(count_at(blocks, place + 12), rest.label(), sought.label),
        }
    }

    /// The order of columns.
    pub(crate) fn column_order(self) -> Ordering
        ensures { (k sought : Fields) → AreAgreements self k sought → result ≡ column_cmp k sought }
    {
        self.row
            .order
            .then(self.family.order)
            .then(self.qualifier.order)
            .then(self.label.order)
    }
}
