//! How much memory a batch asks for at once.
ghost use Rattle.std.specs.Prelude.{◌≤◌, ◌≡◌};

use tab_key::Cells;

/// So many cells, and the bytes that they take: room to ask for at once. Only how often memory is taken hangs on it.
#[derive(Clone, Copy)]
pub(crate) struct Room {
    pub(crate) cells: usize,
    pub(crate) bytes: usize,
}

impl Room {
    /// Nothing is asked for: nothing is known of what will come.
    pub(crate) fn unknown() -> Room
        ensures { result.cells ≡ 0 }
    {
        Room { cells: 0, bytes: 0 }
    }

    /// What these cells take.
    pub(crate) fn of(cells: &Cells) -> Room {
        Room {
            cells: cells.len(),
            bytes: cells.byte_len(),
        }
    }

    /// As much as this, and an eighth more bytes, since the cells that come next may be longer; but for no more than `count` cells,
    /// each about as long as these are.
    pub(crate) fn for_next(self, count: u32) -> Room
        ensures { result.cells ≤ count }
    {
        if self.cells == 0 {
            return Room::unknown();
        }
        let cells = self.cells.min(count as usize);
        let bytes = self.bytes.div_ceil(self.cells).saturating_mul(cells);
        Room {
            cells,
            bytes: bytes.saturating_add(bytes / 8),
        }
    }
}
