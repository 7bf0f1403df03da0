//! Single bytes of the parts of a record's key, found from entry to entry without the parts themselves.
ghost use Rattle.std.specs.Prelude.{◌≡◌, ◌+◌, ◌<◌, ◌≤◌, ◌^◌, length, get_or};
ghost use Rattle.tab_key.specs.Encoding.{length_at, IsAt};
ghost use Rattle.tab_key.specs.Records.{Key as Fields};
ghost use Rattle.tab_table.specs.Blocks.{entry_at, shared_key, IsEntry};
ghost use Rattle.tab_table.specs.PartBytes.{part_of, offset_of};
ghost use Rattle.tab_table.specs.Restarts.{HasShares};

use crate::restarts::Restart;
use crate::sharing::count_at;
use tab_key::RecordRef;

/// A part of a key.
#[derive(Clone, Copy)]
pub(crate) enum KeyPart {
    Row,
    Family,
    Qualifier,
    Label,
}

impl KeyPart {
    /// This part of the record's key.
    pub(crate) fn of<'a>(self, record: &RecordRef<'a>) -> &'a [u8]
        ensures { result.now ≡ part_of self record.now.key }
    {
        match self {
            KeyPart::Row => record.row(),
            KeyPart::Family => record.family(),
            KeyPart::Qualifier => record.qualifier(),
            KeyPart::Label => record.label(),
        }
    }

    // Where the number of its shared bytes stands, of the entry at a place.
    fn place_in(self, place: usize) -> usize
        requires { place + 12 ≤ usize.MAX }
        ensures { result ≡ place + offset_of self }
    {
        match self {
            KeyPart::Row => place,
            KeyPart::Family => place + 4,
            KeyPart::Qualifier => place + 8,
            KeyPart::Label => place + 12,
        }
    }

    /// How many of its first bytes the entry at a place shares.
    pub(crate) fn shared_at(self, blocks: &[u8], place: usize) -> usize
        requires { place + 57 ≤ length blocks.now }
        ensures value { result ≡ length_at blocks.now (place + offset_of self) }
        ensures small { result < 2 ^ 32 }
    {
        count_at(blocks, self.place_in(place))
    }

    /// The bytes of it that the record at a restart shares with the one before it.
    pub(crate) fn shared_by<'a>(self, restart: Restart, shares: &'a [u8], blocks: &[u8]) -> &'a [u8]
        requires head { restart.place + 57 ≤ length blocks.now }
        requires inside { restart.from + length_at blocks.now restart.place + length_at blocks.now (restart.place + 4) + length_at blocks.now (restart.place + 8) + length_at blocks.now (restart.place + 12) ≤ length shares.now }
        ensures { (k : Fields) → HasShares shares.now restart.from (length_at blocks.now restart.place) (length_at blocks.now (restart.place + 4)) (length_at blocks.now (restart.place + 8)) (length_at blocks.now (restart.place + 12)) k → result.now ≡ part_of self (shared_key blocks.now restart.place k) }
    {
        let place = restart.place;
        let row_end = restart.from + count_at(blocks, place);
        let family_end = row_end + count_at(blocks, place + 4);
        let qualifier_end = family_end + count_at(blocks, place + 8);
        let label_end = qualifier_end + count_at(blocks, place + 12);
        match self {
            KeyPart::Row => &shares[restart.from..row_end],
            KeyPart::Family => &shares[row_end..family_end],
            KeyPart::Qualifier => &shares[family_end..qualifier_end],
            KeyPart::Label => &shares[qualifier_end..label_end],
        }
    }
}

/// The byte with this index, or 0 behind the end.
pub(crate) fn byte_at(bytes: &[u8], index: usize) -> u8
    ensures { result ≡ get_or bytes.now index 0 }
{
    match bytes.get(index) {
        Some(byte) => *byte,
        None => 0,
    }
}

/// The byte of a part with this index of the record whose entry stands at a place, where this is the byte of the one that it shares bytes
/// with.
pub(crate) fn byte_on(byte: u8, part: KeyPart, index: usize, blocks: &[u8], place: usize) -> u8
    requires { IsAt blocks.now (place + 16) }
    ensures { (base : Fields) → IsEntry base blocks.now place → byte ≡ get_or (part_of part base) index 0 → result ≡ get_or (part_of part (entry_at base blocks.now place).key) index 0 }
{
    let count = part.shared_at(blocks, place);
    if index < count {
        return byte;
    }
    byte_at(part.of(&RecordRef::at(blocks, place + 16)), index - count)
}
