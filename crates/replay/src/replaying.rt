//! Whole histories.
ghost use Rattle.std.specs.Prelude.{◌≡◌, false, is_ok};
ghost use Rattle.book.specs.Reached.{state, Extends};
ghost use Rattle.book.specs.Standings.{standing, Steady};
ghost use Rattle.replay.specs.Replays.{Performs, IsReadOnly, ReplayDone};

use book::{Book, find, open};
use history::{Answer, BookFault, Call, Operation, Told};
use kinds::{Fingerprint, Kind};
use tables::Table;

/// One operation. A find, or an operation that is refused, leaves the table itself as it was.
pub fn perform<K: Kind, X: Table<K>, P: Fingerprint<K>>(
    book: &mut Book<'_, '_, '_, '_, X, P>,
    operation: &Operation<K::Key, K::Value>,
) -> Answer<K::Value>
    requires { X.Table.sound book.old.table.now }
    ensures sound { X.Table.sound book.new.table.now }
    ensures steady { let at = standing X.Table.meaning X.Table.lender X.Table.beyond P.Fingerprint.number in
        Steady (at book.old) (at book.new) }
    ensures done { let at = standing X.Table.meaning X.Table.lender X.Table.beyond P.Fingerprint.number in
        Performs K.Kind.bytes (at book.old) (at book.new) operation.now result }
    ensures law { let at = state X.Table.meaning P.Fingerprint.number in
        Extends K.Kind.bytes (at book.old) (at book.new) (operation.now, result) }
    ensures unwritten { IsReadOnly operation.now result → book.new.table.now ≡ book.old.table.now }
{
    Ok(match operation {
        Operation::Put(key, value) => Told::Stored(book.put::<K>(*key, *value)?),
        Operation::Drop(key) => {
            book.drop::<K>(*key)?;
            Told::Dropped
        }
        Operation::Find(key) => {
            Told::Found(find::<K, X, P>(book.filter, book.table, book.by, *key))
        }
    })
}

/// Opens the book, performs the operation of every call in order, and writes its answer beside it.
/// Nothing is allocated. An opening that is refused leaves the calls as they were.
pub fn replay<K: Kind, X: Table<K>, P: Fingerprint<K>>(
    book: &mut Book<'_, '_, '_, '_, X, P>,
    calls: &mut [Call<K::Key, K::Value>],
) -> Result<(), BookFault>
    requires { X.Table.sound book.old.table.now }
    ensures sound { X.Table.sound book.new.table.now }
    ensures steady { let at = standing X.Table.meaning X.Table.lender X.Table.beyond P.Fingerprint.number in
        Steady (at book.old) (at book.new) }
    ensures law { let at = state X.Table.meaning P.Fingerprint.number in
        ReplayDone K.Kind.bytes (at book.old) (at book.new) calls.old calls.new result }
    ensures undone { is_ok result ≡ false → book.new.table.now ≡ book.old.table.now }
{
    open::<K, X, P>(book.filter, book.table, book.by)?;
    for call in calls.iter_mut() {
        call.answer = Some(perform::<K, X, P>(book, &call.operation));
    }
    Ok(())
}
