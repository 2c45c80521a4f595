//! A table of kerning pairs over lent cells, one for each pair of glyphs below a number.
#![tactic(auto)]

mod grid;

pub use grid::GridTable;
