//! A book that begins empty and performs calls.
ghost use Rattle.std.specs.Prelude.{◌≡◌, [], min, length, take, IfOk};
ghost use Rattle.layout.specs.Format.{block_count};
ghost use Rattle.filter.specs.Meaning.{size_of};
ghost use Rattle.tables.specs.Rows.{keys_of};
ghost use Rattle.listtable.specs.Lists.{list_capacity};
ghost use Rattle.history.specs.Beginnings.{list_terms};
ghost use Rattle.kernwords.specs.Books.{PerformedOn, BookPerformed};

use crate::sizes::Size;
use book::Book;
use console::storage::blank;
use filter::{Filter, Plan};
use history::Call;
use kinds::{Fingerprint, Kind};
use listtable::ListTable;
use replay::replay;
use std::alloc::{AllocError, Global};
use tables::{Record, Table};

/// A book as it is printed: its size, how many keys it holds, and the words of its filter.
#[derive(Drop)]
pub struct BookWords {
    pub size: Size,
    pub held: u32,
    pub words: Vec<u64>,
}

/// Performs calls on a book over a table that holds nothing, with a filter over these words.
fn perform_on<K: Kind, X: Table<K>, P: Fingerprint<K>>(
    plan: Plan,
    words: &mut [u64],
    table: &mut X,
    by: &P,
    calls: &mut [Call<K::Key, K::Value>],
)
    requires sound { X.Table.sound table.old }
    requires empty { keys_of (X.Table.meaning table.old).rows ≡ [] }
    ensures sound { X.Table.sound table.new }
    ensures law { PerformedOn K.Kind.bytes (P.Fingerprint.number by.now) plan words.old words.new
        (X.Table.meaning table.old) (X.Table.meaning table.new) calls.old calls.new }
{
    let mut filter = Filter::begin(plan, words);
    let mut book = Book {
        filter: &mut filter,
        table,
        by,
    };
    let Ok(()) = replay::<K, X, P>(&mut book, calls) else {
        unreachable!() // no key is held at the opening
    };
}

/// Performs calls on an empty book over these words and these records: how many keys it then holds.
fn perform_all<K: Kind, P: Fingerprint<K>>(
    plan: Plan,
    words: &mut [u64],
    records: &mut [Record<K::Key, K::Value>],
    by: &P,
    calls: &mut [Call<K::Key, K::Value>],
) -> u32
    ensures { let blocks = block_count plan.r (length words.old) in
        let number = P.Fingerprint.number by.now in
        let terms = list_terms K.Kind.bytes number plan blocks (list_capacity (length records.old)) in
        BookPerformed terms blocks calls.old calls.new result
        (take (size_of plan.r blocks) words.new) }
{
    let mut table = ListTable::<K>::begin(records);
    perform_on::<K, _, P>(plan, words, &mut table, by, calls);
    table.held()
}

/// Performs calls on an empty book of this size: the book after them. Its records are made from one that says nothing.
pub fn book_after<K: Kind, P: Fingerprint<K>>(
    heap: Global,
    size: Size,
    blank_record: Record<K::Key, K::Value>,
    by: &P,
    calls: &mut [Call<K::Key, K::Value>],
) -> Result<BookWords, AllocError>
    ensures size { IfOk result (λ b. b.size ≡ size) }
    ensures performed { let blocks = min size.blocks 16640 in
        let number = P.Fingerprint.number by.now in
        let terms = list_terms K.Kind.bytes number size.plan blocks (list_capacity size.records) in
        IfOk result (λ b. BookPerformed terms blocks calls.old calls.new b.held b.words.items) }
{
    let mut words = blank(heap, size.plan, size.blocks as usize)?;
    let mut records = vec![in heap; blank_record; size.records]?;
    let held = perform_all::<K, P>(
        size.plan,
        words.as_mut_slice(),
        records.as_mut_slice(),
        by,
        calls,
    );
    Ok(BookWords { size, held, words })
}
