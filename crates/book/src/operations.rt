//! Put and drop.
ghost use Rattle.std.specs.Prelude.{◌≡◌, false, is_ok};
ghost use Rattle.history.specs.Rules.{PutRule, DropRule};
ghost use Rattle.history.specs.History.{put_event, drop_event};
ghost use Rattle.book.specs.Books.{PutDone, DropDone};
ghost use Rattle.book.specs.Reached.{state, Extends};
ghost use Rattle.book.specs.Standings.{standing, Steady, terms_at, held_at};

use crate::book::Book;
use crate::calls::fingerprint_of;
use history::{BookFault, Stored};
use kinds::{Fingerprint, Kind};
use tables::{Table, TableFault};

impl<X, P> Book<'_, '_, '_, '_, X, P> {
    /// Gives a key a value. A key that the table does not admit is refused; a held key gets the new value, and the filter stays; a new one is refused
    /// where the table is full, then where some quotient is crowded with it; else filter and table both take it. A refusal changes neither.
    pub fn put<K: Kind>(&mut self, key: K::Key, value: K::Value) -> Result<Stored, BookFault>
    where
        X: Table<K>,
        P: Fingerprint<K>,
        requires { X.Table.sound self.old.table.now }
        ensures sound { X.Table.sound self.new.table.now }
        ensures steady { let at = standing X.Table.meaning X.Table.lender X.Table.beyond P.Fingerprint.number in
            Steady (at self.old) (at self.new) }
        ensures answer { let at = standing X.Table.meaning X.Table.lender X.Table.beyond P.Fingerprint.number in
            PutRule (terms_at K.Kind.bytes (at self.old)) (held_at K.Kind.bytes (at self.old)) key result }
        ensures done { PutDone K.Kind.bytes (P.Fingerprint.number self.old.by.now) self.old.filter.now self.new.filter.now (X.Table.meaning self.old.table.now) (X.Table.meaning self.new.table.now) key value result }
        ensures law { let at = state X.Table.meaning P.Fingerprint.number in
            Extends K.Kind.bytes (at self.old) (at self.new) (put_event key value result) }
        ensures undone { is_ok result ≡ false → self.new.table.now ≡ self.old.table.now }
    {
        if !self.table.admits(key) {
            return Err(TableFault::ForeignGlyph.into());
        }
        if self.table.look(key).is_some() {
            self.table.set(key, value)?; // never refused: the key is held
            return Ok(Stored::Changed);
        }
        if self.table.held() >= self.table.capacity() {
            return Err(TableFault::TableFull.into());
        }
        let fingerprint = fingerprint_of::<K, P>(self.filter.plan(), self.by, key);
        self.filter.add(fingerprint)?;
        self.table.set(key, value)?; // never refused: there is room
        Ok(Stored::Kept)
    }

    /// Takes a key out: its record, and one entry of its fingerprint. Refused where the key is not held, then where no entry has its fingerprint, which
    /// says that the filter belongs to another table. A refusal changes neither.
    pub fn drop<K: Kind>(&mut self, key: K::Key) -> Result<(), BookFault>
    where
        X: Table<K>,
        P: Fingerprint<K>,
        requires { X.Table.sound self.old.table.now }
        ensures sound { X.Table.sound self.new.table.now }
        ensures steady { let at = standing X.Table.meaning X.Table.lender X.Table.beyond P.Fingerprint.number in
            Steady (at self.old) (at self.new) }
        ensures answer { let at = standing X.Table.meaning X.Table.lender X.Table.beyond P.Fingerprint.number in
            DropRule (terms_at K.Kind.bytes (at self.old)) (held_at K.Kind.bytes (at self.old)) key result }
        ensures done { DropDone K.Kind.bytes (P.Fingerprint.number self.old.by.now) self.old.filter.now self.new.filter.now (X.Table.meaning self.old.table.now) (X.Table.meaning self.new.table.now) key result }
        ensures law { let at = state X.Table.meaning P.Fingerprint.number in
            Extends K.Kind.bytes (at self.old) (at self.new) (drop_event key result) }
        ensures undone { is_ok result ≡ false → self.new.table.now ≡ self.old.table.now }
    {
        if self.table.look(key).is_none() {
            return Err(TableFault::NotHeld.into());
        }
        let fingerprint = fingerprint_of::<K, P>(self.filter.plan(), self.by, key);
        self.filter
            .take(fingerprint)
            .map_err(|_| BookFault::StrangeFilter)?;
        self.table.remove(key)?;
        Ok(())
    }
}
