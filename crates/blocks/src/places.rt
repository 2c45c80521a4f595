//! Where things stand in the words.
ghost use Rattle.std.specs.Prelude.{◌≡◌};
ghost use Rattle.blocks.specs.Views.{word_index, runend_place, remainder_place};
ghost use Rattle.blocks.specs.Parts.{place_in_block};

use crate::Slot;
use words::Width;

/// The parts of a block, in the order of its words: three of one word each, and then the row of remainders.
#[derive(Clone, Copy)]
pub(crate) enum Part {
    Occupied,
    Runends,
    Offset,
    Remainders,
}

impl Part {
    /// Which word of a block the part begins with.
    fn place(self) -> usize
        ensures { result ≡ place_in_block self }
    {
        match self {
            Part::Occupied => 0,
            Part::Runends => 1,
            Part::Offset => 2,
            Part::Remainders => 3,
        }
    }
}

/// Where a part of block `b` begins among all words.
pub(crate) fn word_of(width: Width, b: u32, part: Part) -> usize
    ensures { result ≡ word_index width.bits b (place_in_block part) }
{
    b as usize * (width.bits as usize + 3) + part.place()
}

/// The bit at which the runend bit of slot `s` lies, of all bits of the words.
pub(crate) fn runend_place(width: Width, s: Slot) -> usize
    ensures { result ≡ runend_place width.bits s.0 }
{
    64 * word_of(width, s.0 / 64, Part::Runends) + s.0 as usize % 64
}

/// The bit at which the remainder of slot `s` begins, of all bits of the words.
pub(crate) fn place_of(width: Width, s: Slot) -> usize
    ensures { result ≡ remainder_place width.bits s.0 }
{
    64 * word_of(width, s.0 / 64, Part::Remainders) + s.0 as usize % 64 * width.bits as usize
}
