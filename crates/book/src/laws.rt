//! What follows from the law of a book.
ghost use Rattle.book.specs.Reached.{EmptyIsOpen};

use kinds::Kind;

/// A filter without entries in front of a table without keys is as an accepted opening leaves it. The
/// function does nothing; what counts is the contract.
pub fn empty_is_open<K: Kind>()
    ensures { EmptyIsOpen K.Value K.Kind.bytes }
{}
