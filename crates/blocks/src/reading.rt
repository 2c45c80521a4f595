//! What the words of blocks show.
ghost use Rattle.std.specs.Prelude.{◌≡◌, ◌==◌, slice_index};
ghost use Rattle.blocks.specs.Views.{word_index, occupied_bit_in, runend_in, offset_in, remainder_in};
ghost use Rattle.blocks.specs.Parts.{place_in_block};

use crate::places::{Part, place_of, word_of};
use crate::{Quotient, Slot};
use words::{Width, bit, field, word};

/// The words of blocks, for reading. Past the last word all is 0.
#[derive(Clone, Copy)]
pub struct Blocks<'a> {
    pub width: Width,
    pub words: &'a [u64],
}

impl Blocks<'_> {
    /// The word with which a part of block `b` begins.
    pub(crate) fn word(&self, b: u32, part: Part) -> u64
        ensures { result ≡ slice_index self.now.words.now (word_index self.now.width.bits b (place_in_block part)) }
    {
        word(self.words, word_of(self.width, b, part))
    }

    /// Whether some fingerprint has quotient `c`.
    pub fn occupied(&self, c: Quotient) -> bool
        ensures { result ≡ (occupied_bit_in self.now.width.bits self.now.words.now c.0 == 1) }
    {
        bit(self.word(c.0 / 64, Part::Occupied), c.0 % 64)
    }

    /// Whether slot `s` holds the last entry of its quotient.
    pub fn runend(&self, s: Slot) -> bool
        ensures { result ≡ (runend_in self.now.width.bits self.now.words.now s.0 == 1) }
    {
        bit(self.word(s.0 / 64, Part::Runends), s.0 % 64)
    }

    /// The offset of block `b`: how many entries lie at or after its first slot and have a quotient below it.
    pub fn offset(&self, b: u32) -> u64
        ensures { result ≡ offset_in self.now.width.bits self.now.words.now b }
    {
        self.word(b, Part::Offset)
    }

    /// The remainder in slot `s`.
    pub fn remainder(&self, s: Slot) -> u32
        ensures { result ≡ remainder_in self.now.width.bits self.now.words.now s.0 }
    {
        field(self.words, place_of(self.width, s), self.width)
    }
}
