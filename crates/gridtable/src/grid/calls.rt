//! The calls on a grid table.
ghost use Rattle.std.specs.Prelude.{◌≡◌, ◌<◌, false, List, length, is_ok, ℤ, if◌then◌else◌, Some, None, slice_index_or};
ghost use Rattle.gridtable.specs.Grids.{side_of, in_square, cells_after, pair_place, free_cell, value_of, grid_meaning, empty_grid, emptied, beyond_grid, HeldPlace};
ghost use Rattle.gridtable.specs.Propers.{proper_grid};
ghost use Rattle.kinds.specs.Bytes.{pair_bytes};
ghost use Rattle.tables.specs.Meaning.{SameFrame, SetDone, RemoveDone};

use crate::grid::GridTable;
use kinds::{Kern, Pair};
use tables::{Record, Table, TableFault};

/// No grid has a longer side.
const MOST: u32 = 1_024;

/// What a free cell is given: one more than the greatest value.
// kept: the cells are lent memory in the customer's format, a signed 32-bit number each, so a number frees one; the calls see an `Option`.
const FREE: i32 = 32_768;

/// The side of the square that a grid makes of so many cells.
fn side_of(n: u32, lent: usize) -> u32
    ensures { result ≡ side_of n lent }
{
    if n <= MOST && n as usize * n as usize <= lent {
        n
    } else {
        0
    }
}

/// The value in a cell, if it is not free.
fn value_of(cell: i32) -> Option<i16>
    ensures { result ≡ value_of cell }
{
    i16::try_from(cell).ok()
}

impl<'a> GridTable<'a> {
    /// Begins an empty table for the pairs of glyphs below `n`, and frees its `n * n` cells. Later cells stay as they are.
    /// Where `n` is above 1,024, or there are fewer cells, `n` counts as 0: then no pair is admitted and no cell is touched.
    pub fn begin(n: u32, cells: &'a mut [i32]) -> GridTable<'a>
        ensures empty { grid_meaning result.side result.cells.now ≡ empty_grid (side_of n (length cells.old)) }
        ensures side { result.side ≡ side_of n (length cells.old) }
        ensures cells { result.cells.now ≡ emptied (side_of n (length cells.old)) cells.old }
        ensures lender { result.cells.ghost_name ≡ cells.entry.ghost_name }
    {
        let side = side_of(n, cells.len());
        cells[..side as usize * side as usize].fill(FREE);
        GridTable {
            side,
            held: 0,
            cells,
        }
    }
}

impl GridTable<'_> {
    /// Where the cell of a pair lies, if the pair is admitted.
    fn place(&self, pair: Pair) -> Option<usize>
        ensures { result
            ≡ (if in_square self.now.side pair then Some
            (pair_place self.now.side pair) else None) }
    {
        let Pair { left, right } = pair;
        let inside = u32::from(left) < self.side && u32::from(right) < self.side;
        inside.then_some(usize::from(left) * self.side as usize + usize::from(right))
    }

    /// The value in the cell of a place, if it is not free.
    fn value_at(&self, place: usize) -> Option<i16>
        requires { place < length self.now.cells.now }
        ensures { result ≡ value_of (slice_index_or self.now.cells.now place free_cell) }
    {
        value_of(self.cells[place])
    }

    /// The place of a pair, if it is held.
    fn held_place(&self, pair: Pair) -> Option<usize>
        ensures { HeldPlace self.now.side self.now.cells.now pair result }
    {
        let place = self.place(pair)?;
        self.value_at(place).is_some().then_some(place)
    }
}

impl<'a> Table<Kern> for GridTable<'a> {
    ghost meaning = { λ t. grid_meaning t.side t.cells.now };

    ghost sound = { λ _. Unit {0} };

    ghost proper = { λ t _. proper_grid t.side t.cells.now t.small };

    ghost lender = { λ t. t.cells.ghost_name };

    ghost Beyond = { List ℤ };

    ghost beyond = { λ t. beyond_grid t.side t.cells.now };

    fn look(&self, key: Pair) -> Option<i16> {
        let place = self.place(key)?;
        self.value_at(place)
    }

    fn peek(&self, place: u32) -> Option<Record<Pair, i16>> {
        if place >= self.capacity() {
            return None;
        }
        // kept: both casts are proved to fit, and `try_from` would add an error that cannot come
        let key = Pair {
            left: (place / self.side) as u16,
            right: (place % self.side) as u16,
        };
        let value = self.value_at(place as usize)?;
        Some(Record { key, value })
    }

    fn admits(&self, key: Pair) -> bool {
        self.place(key).is_some()
    }

    fn held(&self) -> u32 {
        self.held
    }

    fn capacity(&self) -> u32 {
        self.side * self.side
    }

    fn places(&self) -> u32 {
        self.capacity()
    }

    fn set(&mut self, key: Pair, value: i16) -> Result<(), TableFault>
        ensures frame { SameFrame (grid_meaning self.old.side self.old.cells.now)
            (grid_meaning self.new.side self.new.cells.now) }
        ensures lender { self.new.cells.ghost_name ≡ self.old.cells.ghost_name }
        ensures beyond { beyond_grid self.new.side self.new.cells.now
            ≡ beyond_grid self.old.side self.old.cells.now }
        ensures done { SetDone pair_bytes (grid_meaning self.old.side self.old.cells.now)
            (grid_meaning self.new.side self.new.cells.now) key value result }
        ensures undone { is_ok result ≡ false → self.new ≡ self.old }
        // more than the trait asks: what each lent cell holds then
        ensures side { self.new.side ≡ self.old.side }
        ensures cells { self.new.cells.now
            ≡ cells_after self.old.side self.old.cells.now key value result }
    {
        let place = self.place(key).ok_or(TableFault::ForeignGlyph)?;
        let added = u32::from(self.value_at(place).is_none());
        self.cells[place] = i32::from(value);
        self.held += added;
        Ok(())
    }

    fn remove(&mut self, key: Pair) -> Result<(), TableFault>
        ensures frame { SameFrame (grid_meaning self.old.side self.old.cells.now)
            (grid_meaning self.new.side self.new.cells.now) }
        ensures lender { self.new.cells.ghost_name ≡ self.old.cells.ghost_name }
        ensures beyond { beyond_grid self.new.side self.new.cells.now
            ≡ beyond_grid self.old.side self.old.cells.now }
        ensures done { RemoveDone pair_bytes (grid_meaning self.old.side self.old.cells.now)
            (grid_meaning self.new.side self.new.cells.now) key result }
        ensures undone { is_ok result ≡ false → self.new ≡ self.old }
        // more than the trait asks: what each lent cell holds then
        ensures side { self.new.side ≡ self.old.side }
        ensures cells { self.new.cells.now
            ≡ cells_after self.old.side self.old.cells.now key free_cell result }
    {
        let place = self.held_place(key).ok_or(TableFault::NotHeld)?;
        self.cells[place] = FREE;
        self.held -= 1;
        Ok(())
    }
}
