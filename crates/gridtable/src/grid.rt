//! The grid table's type. Its calls stand in the module below.
ghost use Rattle.std.specs.Prelude.{◌≡◌, ℕ, ◌*◌, ◌≤◌, length};
ghost use Rattle.tables.specs.Rows.{record_count};
ghost use Rattle.gridtable.specs.Grids.{grid_rows};

pub(crate) mod calls;

/// A table of kerning pairs over lent cells: it admits the pairs whose glyphs are both below its side, and has a cell for each of them.
/// A cell with a 16-bit value holds it; any other cell is free. Cells after those of the pairs it never touches.
#[derive(Drop)]
pub struct GridTable<'a> {
    side: u32,
    held: u32,
    cells: &'a mut [i32],
    ghost small: { side ≤ 1024 },
    ghost room: { side * side ≤ length cells.now },
    ghost counted: { held ≡ record_count (grid_rows side cells.now) },
}
