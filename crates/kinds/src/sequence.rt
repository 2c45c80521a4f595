ghost use Rattle.std.specs.Prelude.{◌≡◌, length, is_ok, MatchResult};
ghost use Rattle.std.specs.List.{slice_get};
ghost use Rattle.kinds.specs.Bytes.{bytes_held};
ghost use Rattle.kinds.specs.Sequences.{glyphs_of, two_to_four};

use crate::ligature::KeyFault;
use std::convert::AsSlice;

/// Two to four glyphs in a row.
#[derive(Clone, Copy, PartialEq, Eq, Debug)]
pub enum Sequence {
    Two(u16, u16),
    Three(u16, u16, u16),
    Four(u16, u16, u16, u16),
}

impl Sequence {
    /// The sequence of these glyphs, if they are two to four.
    pub fn new(glyphs: &[u16]) -> Result<Sequence, KeyFault>
        ensures taken { is_ok result ≡ two_to_four (length glyphs.now) }
        ensures held { MatchResult result (λ s. glyphs_of s ≡ glyphs.now) (λ f. f ≡ KeyFault.BadSequence) }
    {
        match *glyphs {
            [a, b] => Ok(Sequence::Two(a, b)),
            [a, b, c] => Ok(Sequence::Three(a, b, c)),
            [a, b, c, d] => Ok(Sequence::Four(a, b, c, d)),
            _ => Err(KeyFault::BadSequence),
        }
    }

    /// How many glyphs the sequence has.
    pub fn len(&self) -> usize
        ensures { result ≡ length (glyphs_of self.now) }
    {
        match self {
            Sequence::Two(..) => 2,
            Sequence::Three(..) => 3,
            Sequence::Four(..) => 4,
        }
    }

    /// The glyph at a place, counted from 0; none past the last.
    pub fn glyph(&self, i: usize) -> Option<u16>
        ensures { result ≡ slice_get (glyphs_of self.now) i }
    {
        match *self {
            Sequence::Two(a, b) => [a, b].get(i).copied(),
            Sequence::Three(a, b, c) => [a, b, c].get(i).copied(),
            Sequence::Four(a, b, c, d) => [a, b, c, d].get(i).copied(),
        }
    }
}

/// The bytes of a sequence: two for each glyph.
#[derive(Clone, Copy)]
pub enum SequenceBytes {
    Two([u8; 4]),
    Three([u8; 6]),
    Four([u8; 8]),
}

impl AsSlice<u8> for SequenceBytes {
    ghost items = { bytes_held };

    fn as_slice(&self) -> &[u8] {
        match self {
            SequenceBytes::Two(bytes) => bytes,
            SequenceBytes::Three(bytes) => bytes,
            SequenceBytes::Four(bytes) => bytes,
        }
    }
}
