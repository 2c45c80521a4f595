ghost use Rattle.std.specs.Prelude.{◌≡◌, false, length, is_ok, None, slice_index_or};
ghost use Rattle.std.specs.Borrow.{GName};
ghost use Rattle.tables.specs.Meaning.{Meaning, Proper, SameFrame, value_in, key_count, SetDone, RemoveDone};

use crate::fault::TableFault;
use crate::record::Record;
use kinds::Kind;

/// A table of records of a kind: a row of places, each free or with one record, no key at two places.
///
/// A table says what makes it sound. Every making gives a sound one, every call keeps it so and may rely on it; the
/// tables of this repository are always sound, so for them that asks nothing.
pub trait Table<K: Kind> {
    // The places, the admitted keys and the capacity.
    ghost meaning: { Self → Meaning K.Key K.Value };

    // What the calls rely on, and keep.
    // kept: a trait has no type invariant, so each call requires this and a change ensures it again.
    ghost sound: { Self → Type 0 };

    // What holds of a sound table's meaning.
    ghost proper: { (t : Self) → sound t → Proper (meaning t) };

    // Which loan the table writes through: whoever lent its memory learns what that holds.
    ghost lender: { Self → GName };

    // What lies in the lent memory beyond the table: no call touches it.
    ghost Beyond: { Type 0 };

    ghost beyond: { Self → Beyond };

    /// The value of a key, or none.
    fn look(&self, key: K::Key) -> Option<K::Value>
        requires { sound self.now }
        ensures { result ≡ value_in K.Kind.bytes (meaning self.now) key };

    /// The record at a place, or none where the place is free or past the last.
    fn peek(&self, place: u32) -> Option<Record<K::Key, K::Value>>
        requires { sound self.now }
        ensures { result ≡ slice_index_or (meaning self.now).rows place None };

    /// Whether the table takes a key.
    fn admits(&self, key: K::Key) -> bool
        requires { sound self.now }
        ensures { result ≡ (meaning self.now).admits key };

    /// How many keys are held.
    fn held(&self) -> u32
        requires { sound self.now }
        ensures { result ≡ key_count (meaning self.now) };

    /// How many keys can be held.
    fn capacity(&self) -> u32
        requires { sound self.now }
        ensures { result ≡ (meaning self.now).capacity };

    /// How many places there are.
    fn places(&self) -> u32
        requires { sound self.now }
        ensures { result ≡ length (meaning self.now).rows };

    /// Gives a key a value. A refusal changes nothing.
    fn set(&mut self, key: K::Key, value: K::Value) -> Result<(), TableFault>
        requires { sound self.old }
        ensures sound { sound self.new }
        ensures frame { SameFrame (meaning self.old) (meaning self.new) }
        ensures lender { lender self.new ≡ lender self.old }
        ensures beyond { beyond self.new ≡ beyond self.old }
        ensures done { SetDone K.Kind.bytes (meaning self.old) (meaning self.new) key value result }
        ensures undone { is_ok result ≡ false → self.new ≡ self.old };

    /// Takes out the record of a key, and no other. A refusal changes nothing.
    fn remove(&mut self, key: K::Key) -> Result<(), TableFault>
        requires { sound self.old }
        ensures sound { sound self.new }
        ensures frame { SameFrame (meaning self.old) (meaning self.new) }
        ensures lender { lender self.new ≡ lender self.old }
        ensures beyond { beyond self.new ≡ beyond self.old }
        ensures done { RemoveDone K.Kind.bytes (meaning self.old) (meaning self.new) key result }
        ensures undone { is_ok result ≡ false → self.new ≡ self.old };
}
