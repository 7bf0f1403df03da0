//! What is asked of the records that clips hold.
ghost use Rattle.std.specs.Prelude.{◌≡◌, ◌==◌, not, length, map};
ghost use Rattle.tab_key.specs.KeyOf.{key_of};
ghost use Rattle.tab_iter.specs.Bags.{flat};
ghost use Rattle.tab_iter.specs.Lists.{HasI64Timestamps};
ghost use Rattle.tab_mem.specs.Lists.{HasShortParts};
ghost use Rattle.tab_version.specs.InTurn.{reaches};

use crate::{Clip, ClipOf, Clips, TableClip};
use tab_key::Key;

/// Whoever holds records: a clip, or all clips of a tablet.
pub(crate) trait HasRecords {
    ghost use Rattle.std.specs.Prelude.{List};
    ghost use Rattle.tab_key.specs.Records.{Record};

    ghost held: { Self → List Record };

    /// Whether a record stands at the key or behind it.
    fn reaches(&self, key: Key<'_>) -> bool
        ensures { result ≡ reaches (key_of key.entry) (held self.now) };

    /// Whether there is a record.
    fn is_filled(&self) -> bool
        ensures { result ≡ not (length (held self.now) == 0) };

    /// Reads what holds of each record.
    fn read(&self)
        ensures timestamps { HasI64Timestamps (held self.now) }
        ensures short { HasShortParts (held self.now) };

    /// How many records to ask room for where all are copied. Only how often memory is taken hangs on it, and on `room`.
    fn count(&self) -> usize;

    /// How many bytes of them.
    fn room(&self) -> usize;
}

impl HasRecords for Clip {
    ghost held = { λ c. c };

    fn reaches(&self, key: Key<'_>) -> bool {
        ClipOf::reaches(self, key)
    }

    fn is_filled(&self) -> bool {
        !self.is_empty()
    }

    fn read(&self) {
        let _length = self.len();
    }

    fn count(&self) -> usize {
        self.len()
    }

    fn room(&self) -> usize {
        ClipOf::room(self)
    }
}

impl HasRecords for TableClip {
    ghost held = { λ c. c.records };

    fn reaches(&self, key: Key<'_>) -> bool {
        TableClip::reaches(self, key)
    }

    fn is_filled(&self) -> bool {
        !self.is_empty()
    }

    fn read(&self) {
        let _length = self.len();
    }

    fn count(&self) -> usize {
        self.len()
    }

    fn room(&self) -> usize {
        TableClip::room(self)
    }
}

impl HasRecords for Clips {
    ghost use Rattle.tab_version.specs.Sources.{records_of};

    ghost held = { λ c. records_of c };

    fn reaches(&self, key: Key<'_>) -> bool {
        if any_reaches(self.runs(), key) {
            return true;
        }
        any_reaches(self.tables(), key)
    }

    fn is_filled(&self) -> bool {
        if any_filled(self.runs()) {
            return true;
        }
        any_filled(self.tables())
    }

    fn read(&self) {
        read_all(self.runs());
        read_all(self.tables());
    }

    fn count(&self) -> usize {
        count_all(self.runs()).saturating_add(count_all(self.tables()))
    }

    fn room(&self) -> usize {
        room_for_all(self.runs()).saturating_add(room_for_all(self.tables()))
    }
}

/// Whether one of them has a record at the key or behind it.
fn any_reaches<H: HasRecords>(several: &[H], key: Key<'_>) -> bool
    ensures { result ≡ reaches (key_of key.entry) (flat (map H.held several.now)) }
{
    for one in several {
        if one.reaches(key) {
            return true;
        }
    }
    false
}

/// Whether one of them has a record.
fn any_filled<H: HasRecords>(several: &[H]) -> bool
    ensures { result ≡ not (length (flat (map H.held several.now)) == 0) }
{
    for one in several {
        if one.is_filled() {
            return true;
        }
    }
    false
}

/// Reads what holds of each record of all of them.
pub(crate) fn read_all<H: HasRecords>(several: &[H])
    ensures timestamps { HasI64Timestamps (flat (map H.held several.now)) }
    ensures short { HasShortParts (flat (map H.held several.now)) }
{
    for one in several {
        one.read();
    }
}

/// How many records all of them have.
pub(crate) fn count_all<H: HasRecords>(several: &[H]) -> usize {
    let mut count = 0usize;
    for one in several {
        count = count.saturating_add(one.count());
    }
    count
}

// How many bytes to ask room for where the records of all of them are copied.
fn room_for_all<H: HasRecords>(several: &[H]) -> usize {
    let mut room = 0usize;
    for one in several {
        room = room.saturating_add(one.room());
    }
    room
}
