//! The calls on a list table.
ghost use Rattle.std.specs.Prelude.{◌≡◌, ◌<◌, false, List, length, set, take, is_ok};
ghost use Rattle.tables.specs.Meaning.{SameFrame, SetDone, RemoveDone};
ghost use Rattle.tables.specs.declared.record.Record.{Record as Entry};
ghost use Rattle.listtable.specs.Lists.{list_capacity, list_meaning, empty_list, beyond_list, key_place, SetWrites, RemoveWrites};
ghost use Rattle.listtable.specs.Propers.{proper_list};

use crate::list::ListTable;
use kinds::Kind;
use tables::{Record, Table, TableFault};

/// No list holds more keys.
const MOST: usize = 65_536;

/// Writes a record at a place.
fn write<Q: Copy, V: Copy>(records: &mut [Record<Q, V>], place: usize, record: Record<Q, V>)
    requires { place < length records.old }
    ensures { records.new ≡ set records.old place «record» }
{
    records[place] = record;
}

impl<'a, K: Kind> ListTable<'a, K> {
    /// Begins an empty table over records. They stay as they are until calls write them.
    pub fn begin(records: &'a mut [Record<K::Key, K::Value>]) -> ListTable<'a, K>
        ensures empty { list_meaning result.held result.records.now ≡ empty_list (list_capacity (length records.old)) }
        ensures records { result.records.now ≡ records.old }
        ensures lender { result.records.ghost_name ≡ records.entry.ghost_name }
    {
        ListTable { held: 0, records }
    }
}

impl<K: Kind> ListTable<'_, K> {
    /// The records that are held.
    fn entries(&self) -> &[Record<K::Key, K::Value>]
        ensures { result.now ≡ take self.now.held self.now.records.now }
    {
        &self.records[..self.held]
    }

    /// The place of a key, if it is held.
    fn place(&self, key: K::Key) -> Option<usize>
        ensures { result ≡ key_place K.Kind.bytes self.now.held self.now.records.now key }
    {
        self.entries()
            .iter()
            .position(|entry| K::same(&entry.key, &key))
    }
}

impl<'a, K: Kind> Table<K> for ListTable<'a, K> {
    ghost meaning = { λ t. list_meaning t.held t.records.now };

    ghost sound = { λ _. Unit {0} };

    ghost proper = { λ t _. proper_list t.held t.records.now t.within t.once };

    ghost lender = { λ t. t.records.ghost_name };

    ghost Beyond = { List (Entry K.Key K.Value) };

    ghost beyond = { λ t. beyond_list t.records.now };

    fn look(&self, key: K::Key) -> Option<K::Value> {
        let place = self.place(key)?;
        Some(self.records[place].value)
    }

    fn peek(&self, place: u32) -> Option<Record<K::Key, K::Value>> {
        self.entries().get(place as usize).copied()
    }

    fn admits(&self, key: K::Key) -> bool {
        true
    }

    fn held(&self) -> u32 {
        self.held as u32
    }

    fn capacity(&self) -> u32 {
        self.records.len().min(MOST) as u32
    }

    fn places(&self) -> u32 {
        self.capacity()
    }

    fn set(&mut self, key: K::Key, value: K::Value) -> Result<(), TableFault>
        ensures frame { SameFrame (list_meaning self.old.held self.old.records.now)
            (list_meaning self.new.held self.new.records.now) }
        ensures lender { self.new.records.ghost_name ≡ self.old.records.ghost_name }
        ensures beyond { beyond_list self.new.records.now ≡ beyond_list self.old.records.now }
        ensures done { SetDone K.Kind.bytes (list_meaning self.old.held self.old.records.now)
            (list_meaning self.new.held self.new.records.now) key value result }
        ensures undone { is_ok result ≡ false → self.new ≡ self.old }
        // more than the trait asks: how many records are held then, and what each lent one is
        ensures list { SetWrites result (key_place K.Kind.bytes self.old.held self.old.records.now key) key value
            self.old.held self.old.records.now self.new.held self.new.records.now }
    {
        let record = Record { key, value };
        if let Some(place) = self.place(key) {
            write(&mut self.records[..], place, record);
            return Ok(());
        }
        if self.held() == self.capacity() {
            return Err(TableFault::TableFull);
        }
        write(&mut self.records[..], self.held, record);
        self.held += 1;
        Ok(())
    }

    fn remove(&mut self, key: K::Key) -> Result<(), TableFault>
        ensures frame { SameFrame (list_meaning self.old.held self.old.records.now)
            (list_meaning self.new.held self.new.records.now) }
        ensures lender { self.new.records.ghost_name ≡ self.old.records.ghost_name }
        ensures beyond { beyond_list self.new.records.now ≡ beyond_list self.old.records.now }
        ensures done { RemoveDone K.Kind.bytes (list_meaning self.old.held self.old.records.now)
            (list_meaning self.new.held self.new.records.now) key result }
        ensures undone { is_ok result ≡ false → self.new ≡ self.old }
        // more than the trait asks: how many records are held then, and what each lent one is
        ensures list { RemoveWrites result (key_place K.Kind.bytes self.old.held self.old.records.now key)
            self.old.held self.old.records.now self.new.held self.new.records.now }
    {
        let place = self.place(key).ok_or(TableFault::NotHeld)?;
        let last = self.records[self.held - 1];
        write(&mut self.records[..], place, last);
        self.held -= 1;
        Ok(())
    }
}
