//! A client with a loop of its own.
ghost use Rattle.std.specs.Prelude.{Err, MatchResult};
ghost use Rattle.book.specs.Books.{Opened};
ghost use Rattle.book.specs.Reached.{state};
ghost use Rattle.booktrial.specs.Client.{TriedEach};

use book::{Book, find, open};
use history::BookFault;
use kinds::{Fingerprint, Kind};
use tables::Table;

/// Opens the book; then, key by key, puts it, looks for it and drops it again. The law of a book holds
/// of these calls too, since each call carries it on.
pub fn try_each<K: Kind, X: Table<K>, P: Fingerprint<K>>(
    book: &mut Book<'_, '_, '_, '_, X, P>,
    keys: &[K::Key],
    value: K::Value,
) -> Result<(), BookFault>
    requires { X.Table.sound book.old.table.now }
    ensures { let at = state X.Table.meaning P.Fingerprint.number in
        MatchResult result
        (λ _. TriedEach K.Kind.bytes (at book.old) (at book.new) value keys.now)
        (λ e. Opened (P.Fingerprint.number book.old.by.now) book.old.filter.now book.new.filter.now
        (X.Table.meaning book.old.table.now) (Err e)) }
{
    open::<K, X, P>(book.filter, book.table, book.by)?;
    for key in keys {
        let _ = book.put::<K>(*key, value);
        let _ = find::<K, X, P>(book.filter, book.table, book.by, *key);
        let _ = book.drop::<K>(*key);
    }
    Ok(())
}
