//! Cells in one piece of memory.
ghost use Rattle.std.specs.Prelude.{◌≡◌, ◌<◌, ◌++◌, ◌∷◌, ◌==◌, [], IfOk, OnOk, OnErr, length, sum_by, vec_len, vec_capacity};
ghost use Rattle.std.specs.List.{slice_index_or};
ghost use Rattle.tab_key.specs.Encoding.{cell_size};
ghost use Rattle.tab_key.specs.Records.{cell_of};

use crate::encoding::append_copy;
use crate::{CellRef, RecordRef};
use std::alloc::{AllocError, Global};
use std::marker::Model;

// How many cells the first memory has room for, and how many bytes of them: most ranges of a few rows ask for memory once.
const FIRST_CELLS: usize = 8;

const FIRST_BYTES: usize = 512;

/// A list of cells, such as a batch of a scan. A contract sees their list.
///
/// They lie one after another in one body, each as its record does, with 8 bytes for its place: a cell takes no memory of its own.
pub struct Cells {
    body: Vec<u8>,
    // where the cells' records begin
    places: Vec<usize>,
}

// Written out, so that a crate above needn't prove anew how the parts are dropped.
impl Drop for Cells {
    #[inline(always)]
    fn drop(self) {
        let Cells { body: _, places: _ } = self;
    }
}

impl Model for Cells {
    ghost use Rattle.std.specs.Prelude.{List, map};
    ghost use Rattle.tab_key.specs.Records.{Cell as Fields, cell_of};

    ghost Value = { List Fields };

    ghost use Rattle.tab_key.specs.Encoding.{records_at, AreAlone};

    ghost view = { λ c. map cell_of (records_at c.body.items c.places.items) };

    ghost invariant = { λ c. AreAlone c.body.items c.places.items };
}

impl Cells {
    /// No cells. It takes no memory.
    pub fn new(alloc: Global) -> Cells
        ensures { result ≡ [] }
    {
        Cells {
            body: Vec::new(alloc),
            places: Vec::new(alloc),
        }
    }

    /// No cells, with room for so many that take so many bytes in all, as [`Cells::byte_len`] counts them: up to that `push` asks for
    /// no memory. The error comes only from want of memory.
    pub fn with_capacity(alloc: Global, cells: usize, bytes: usize) -> Result<Cells, AllocError>
        ensures { IfOk result (λ c. c ≡ []) }
    {
        let body = Vec::with_capacity(alloc, bytes)?;
        let places = Vec::with_capacity(alloc, cells)?;
        Ok(Cells { body, places })
    }

    /// How many bytes the cells take, each 41 and its parts. The memory may have room for more.
    #[inline]
    pub fn byte_len(&self) -> usize
        ensures { result ≡ sum_by cell_size self.now }
    {
        self.body.len()
    }

    /// How many cells there are.
    #[inline]
    pub fn len(&self) -> usize
        ensures { result ≡ length self.now }
    {
        self.places.len()
    }

    /// Whether there is no cell.
    #[inline]
    pub fn is_empty(&self) -> bool
        ensures { result ≡ (length self.now == 0) }
    {
        self.places.is_empty()
    }

    /// The cell at an index, counted from 0.
    #[inline]
    pub fn get(&self, index: usize) -> CellRef<'_>
        requires { index < length self.now }
        ensures { result ≡ slice_index_or self.now index result }
    {
        CellRef::of(RecordRef::at(self.body.as_slice(), self.places[index]))
    }

    /// Puts the cell that the record shows at the end, in time that only the record's length counts for. `AllocError` leaves the
    /// cells as they were.
    #[inline]
    pub fn push(&mut self, shown: &RecordRef<'_>) -> Result<(), AllocError>
        ensures ok { OnOk result (self.new ≡ self.old ++ cell_of shown.now ∷ []) }
        ensures err { OnErr result (self.new ≡ self.old) }
    {
        make_room(&mut self.body, &mut self.places)?;
        let bytes = self.body.len();
        match append_copy(&mut self.body, shown) {
            Ok(place) => {
                self.places.push_reserved(place);
                Ok(())
            }
            Err(fault) => {
                self.body.truncate(bytes);
                Err(fault)
            }
        }
    }
}

// Room for the place of one more cell.
#[inline]
fn make_room(body: &mut Vec<u8>, places: &mut Vec<usize>) -> Result<(), AllocError>
    ensures body { body.new.items ≡ body.old.items }
    ensures places { places.new.items ≡ places.old.items }
    ensures room { OnOk result (vec_len places.new < vec_capacity places.new) }
{
    if places.len() < places.capacity() {
        return Ok(());
    }
    make_more(body, places)
}

// Room for more places, and at first for some cells with their bytes.
#[cold]
#[inline(never)]
fn make_more(body: &mut Vec<u8>, places: &mut Vec<usize>) -> Result<(), AllocError>
    ensures body { body.new.items ≡ body.old.items }
    ensures places { places.new.items ≡ places.old.items }
    ensures room { OnOk result (vec_len places.new < vec_capacity places.new) }
{
    if !places.is_empty() {
        return places.reserve(1);
    }
    body.reserve(FIRST_BYTES)?;
    places.reserve(FIRST_CELLS)
}
