ghost use Rattle.std.specs.Prelude.{◌≡◌, Some, decimal};
ghost use Rattle.kinds.specs.Bytes.{sequence_bytes};
ghost use Rattle.kinds.specs.Faults.{key_fault_number};
ghost use Rattle.kinds.specs.Glyphs.{sequence_bytes_one};

use crate::glyphs::{bytes_of_four, bytes_of_three, bytes_of_two};
use crate::kind::Kind;
use crate::sequence::{Sequence, SequenceBytes};
use std::error::Error;
use std::fmt;

/// Why a key was refused.
#[derive(Clone, Copy, PartialEq, Eq, Debug, Drop)]
pub enum KeyFault {
    /// A sequence that has not two to four glyphs.
    BadSequence,
}

impl KeyFault {
    /// The fault's number.
    pub fn number(self) -> u32
        ensures { result ≡ key_fault_number self }
    {
        match self {
            KeyFault::BadSequence => 11,
        }
    }
}

/// The fault's number, as it is printed.
// kept: Display is implemented for one type at a time, and no macro of the repository may write impls.
impl fmt::Display for KeyFault {
    ghost output = { λ f. Some (decimal (key_fault_number f)) };

    fn fmt<W: fmt::Write>(&self, f: &mut fmt::Formatter<W>) -> fmt::Result {
        write!(f, "{}", self.number())
    }
}

impl Error for KeyFault {}

/// Ligatures: for a sequence of glyphs, the one glyph that takes its place.
pub struct Ligature;

impl Kind for Ligature {
    type Key = Sequence;

    type Value = u16;

    type Bytes = SequenceBytes;

    ghost bytes = { sequence_bytes };

    ghost apart = { λ a b e. sequence_bytes_one a b e };

    fn bytes(key: &Sequence) -> SequenceBytes {
        match *key {
            Sequence::Two(a, b) => SequenceBytes::Two(bytes_of_two(a, b)),
            Sequence::Three(a, b, c) => SequenceBytes::Three(bytes_of_three(a, b, c)),
            Sequence::Four(a, b, c, d) => SequenceBytes::Four(bytes_of_four(a, b, c, d)),
        }
    }

    fn same(a: &Sequence, b: &Sequence) -> bool {
        a == b
    }
}
