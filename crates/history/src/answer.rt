ghost use Rattle.std.specs.Prelude.{Some, codes};
ghost use Rattle.history.specs.Texts.{stored_text, found_text, told_text};

use crate::fault::BookFault;
use std::fmt;
use std::fmt::Display;

/// What an accepted put did.
#[derive(Clone, Copy, PartialEq, Eq, Debug)]
pub enum Stored {
    /// The key is new.
    Kept,
    /// The key was held, and has another value now.
    Changed,
}

/// What a find gives, marked by the part that gave it.
// kept: an Option of an Option would say as much, and not which part gave it.
#[derive(Clone, Copy, PartialEq, Eq, Debug)]
pub enum Found<V> {
    /// None: no entry of the filter has the fingerprint.
    Filter,
    /// What the table says of the key.
    Table(Option<V>),
}

/// What an operation that a book accepts did.
#[derive(Clone, Copy, PartialEq, Eq, Debug)]
pub enum Told<V> {
    /// A put.
    Stored(Stored),
    /// A drop.
    Dropped,
    /// A find.
    Found(Found<V>),
}

/// What a book answers to an operation: what it did, or why it is refused.
pub type Answer<V> = Result<Told<V>, BookFault>;

impl Display for Stored {
    ghost output = { λ stored. Some (stored_text stored) };

    fn fmt<W: fmt::Write>(&self, f: &mut fmt::Formatter<W>) -> fmt::Result {
        match self {
            Stored::Kept => f.write_str("kept"),
            Stored::Changed => f.write_str("changed"),
        }
    }
}

impl<V: Display> Display for Found<V> {
    ghost output = { found_text V.output };

    fn fmt<W: fmt::Write>(&self, f: &mut fmt::Formatter<W>) -> fmt::Result {
        match self {
            Found::Filter => f.write_str("none filter"),
            Found::Table(None) => f.write_str("none table"),
            Found::Table(Some(value)) => write!(f, "{value} table"),
        }
    }
}

impl<V: Display> Display for Told<V> {
    ghost output = { told_text V.output };

    fn fmt<W: fmt::Write>(&self, f: &mut fmt::Formatter<W>) -> fmt::Result {
        match self {
            Told::Stored(stored) => write!(f, "{stored}"),
            Told::Dropped => f.write_str("dropped"),
            Told::Found(found) => write!(f, "{found}"),
        }
    }
}
