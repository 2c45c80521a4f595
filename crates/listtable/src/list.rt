//! The list table's type. Its calls stand in the module below.
ghost use Rattle.std.specs.Prelude.{ℕ, ◌≤◌, length};
ghost use Rattle.tables.specs.Rows.{Apart};
ghost use Rattle.listtable.specs.Lists.{list_capacity, places_of};

use kinds::Kind;
use tables::Record;

pub(crate) mod calls;

/// A table over lent records: the first `held` of them are its records, in no particular order, and those after them are free.
/// It admits every key. It has a place for each record lent, but for at most the first 65,536; later ones it never touches.
// kept: the records are lent memory, and a table allocates nothing.
#[derive(Drop)]
pub struct ListTable<'a, K: Kind> {
    held: usize,
    records: &'a mut [Record<K::Key, K::Value>],
    ghost within: { held ≤ list_capacity (length records.now) },
    ghost once: { Apart (places_of held records.now) },
}
