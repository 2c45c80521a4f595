//! Open and find.
ghost use Rattle.std.specs.Prelude.{◌≡◌, ℕ, [], OnOk};
ghost use Rattle.filter.specs.Cuts.{cut_to};
ghost use Rattle.history.specs.Rules.{FindRule};
ghost use Rattle.filter.specs.Filters.{SameFilter};
ghost use Rattle.history.specs.History.{find_event};
ghost use Rattle.book.specs.Books.{terms_of, held_by, Opened};
ghost use Rattle.book.specs.Reached.{state_of, Reached, Extends};

use filter::{Filter, Plan};
use history::{BookFault, Found};
use kinds::{Fingerprint, Kind};
use tables::Table;

/// The fingerprint of a key under a plan.
pub(crate) fn fingerprint_of<K: Kind, P: Fingerprint<K>>(plan: Plan, by: &P, key: K::Key) -> u64
    ensures { result ≡ cut_to plan (P.Fingerprint.number by.now key) }
{
    plan.cut(by.fingerprint(&key))
}

/// The value of a key, marked by the part that gave it: the filter where no entry has the key's fingerprint, else the table.
pub fn find<K: Kind, X: Table<K>, P: Fingerprint<K>>(
    filter: &Filter<'_>,
    table: &X,
    by: &P,
    key: K::Key,
) -> Found<K::Value>
    requires { X.Table.sound table.now }
    ensures law { let s = state_of filter.now (X.Table.meaning table.now) (P.Fingerprint.number by.now) in
        Extends K.Kind.bytes s s (find_event key result) }
    ensures answer { FindRule (terms_of K.Kind.bytes (P.Fingerprint.number by.now) filter.now (X.Table.meaning table.now)) (held_by K.Kind.bytes filter.now (X.Table.meaning table.now)) key result }
{
    let Ok(there) = filter.has(fingerprint_of::<K, P>(filter.plan(), by, key)) else {
        unreachable!()
    };
    if there {
        Found::Table(table.look(key))
    } else {
        Found::Filter
    }
}

/// Empties the filter and adds the fingerprints of all keys that the table holds, one for each. Refused where some quotient is crowded by them; the
/// filter is then empty.
pub fn open<K: Kind, X: Table<K>, P: Fingerprint<K>>(
    filter: &mut Filter<'_>,
    table: &X,
    by: &P,
) -> Result<(), BookFault>
    requires { X.Table.sound table.now }
    ensures filter { SameFilter filter.old filter.new }
    ensures law { let m = X.Table.meaning table.now in
        let number = P.Fingerprint.number by.now in
        OnOk result (Reached K.Kind.bytes (state_of filter.old m number) (state_of filter.new m number) []) }
    ensures done { Opened (P.Fingerprint.number by.now) filter.old filter.new (X.Table.meaning table.now) result }
{
    filter.clear();
    for place in 0..table.places() {
        let Some(record) = table.peek(place) else {
            continue;
        };
        if let Err(fault) = filter.add(fingerprint_of::<K, P>(filter.plan(), by, record.key)) {
            filter.clear();
            return Err(fault.into());
        }
    }
    Ok(())
}
