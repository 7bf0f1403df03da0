//! What is written and asked at random. Names are few, so that they often meet.
ghost use Rattle.std.specs.Prelude.{◌<◌};

use crate::query::{Columns, End, Query};
use crate::random::Random;
use crate::update::Update;
use std::alloc::{AllocError, Global};

const QUALIFIERS: [&[u8]; 2] = [b"p", b"q"];

const LABELS: [&[u8]; 4] = [b"", b"A", b"A&B", b"B"];

impl Random {
    /// An update of the row. Each third one is a marker, and each third one leaves its timestamp to the clock.
    pub fn update(&mut self, row: &'static [u8], seq: u8, idx: u8, clock: i64) -> Update {
        let is_clocked = self.below(3) == 0;
        let given = self.below(3) as i64;
        Update {
            row,
            family: b"f",
            qualifier: self.one_of(&QUALIFIERS),
            label: self.one_of(&LABELS),
            timestamp: if is_clocked { clock } else { given },
            is_clocked,
            is_put: self.below(3) > 0,
            seq,
            idx,
        }
    }

    /// Up to four updates of the row, as one mutation has them.
    pub fn updates(
        &mut self,
        alloc: Global,
        row: &'static [u8],
        seq: u8,
        clock: i64,
    ) -> Result<Vec<Update>, AllocError> {
        let mut updates = Vec::new(alloc);
        for idx in 0..self.below(5) as u8 {
            updates.push(self.update(row, seq, idx, clock))?;
        }
        Ok(updates)
    }

    /// No end, or one of the rows.
    pub fn end(&mut self, rows: &[&'static [u8]]) -> End {
        let row = self.one_of(rows);
        match self.below(3) {
            0 => End::Open,
            1 => End::In(row),
            _ => End::Out(row),
        }
    }

    /// All columns, the one family that there is, or one of its qualifiers.
    fn columns(&mut self) -> Columns {
        match self.below(4) {
            0 => Columns::All,
            1 => Columns::Family(b"f"),
            _ => Columns::Qualified(b"f", self.one_of(&QUALIFIERS)),
        }
    }

    /// What a scan between two of the rows asks for, of up to three versions.
    pub fn query(&mut self, rows: &[&'static [u8]]) -> Query {
        Query {
            low: self.end(rows),
            high: self.end(rows),
            columns: self.columns(),
            versions: self.below(4) as u32,
            has_a: self.below(2) == 0,
            has_b: self.below(2) == 0,
        }
    }
}
