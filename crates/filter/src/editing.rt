//! Puts one entry into the words of a filter's blocks, or takes one out: the entries between move by one slot.
ghost use Rattle.std.specs.Prelude.{◌≡◌, ℕ, ◌*◌, ◌^◌, ◌<◌, ◌≤◌, true, slice_index};
ghost use Rattle.blocks.specs.Views.{offset_in};
ghost use Rattle.blocks.specs.Moves.{BlockWithin};
ghost use Rattle.filter.specs.Editing.{EntryPut, EntryGone};

use blocks::{
    Quotient, Slot, lower_offsets, move_down, move_up, raise_offsets, set_occupied, set_remainder,
    set_runend,
};
use words::Width;

/// Where a new entry comes: to slot `at`, and the entries from there on move up, to slot `free`. It ends its run where it comes last,
/// and follows others where it comes last after some.
#[derive(Clone, Copy)]
pub(crate) struct Arrival {
    pub(crate) quotient: Quotient,
    pub(crate) at: Slot,
    pub(crate) free: Slot,
    pub(crate) remainder: u32,
    pub(crate) ends: bool,
    pub(crate) follows: bool,
    ghost order: { (quotient.0 ≤ at.0) × (at.0 ≤ free.0) },
    ghost some: { follows ≡ true → 0 < at.0 },
}

/// Where an entry goes: out of slot `at`, and those after it up to slot `gap` move down. It follows others where it is the last of its run
/// after some, and is the only one where the run has no other.
#[derive(Clone, Copy)]
pub(crate) struct Departure {
    pub(crate) quotient: Quotient,
    pub(crate) at: Slot,
    pub(crate) gap: Slot,
    pub(crate) follows: bool,
    pub(crate) only: bool,
    ghost order: { (quotient.0 ≤ at.0) × (at.0 ≤ gap.0) },
    ghost some: { follows ≡ true → 0 < at.0 },
}

/// Puts an entry where it comes.
// kept: words and width apart, as in all that writes (crate blocks).
pub(crate) fn put_entry(words: &mut [u64], width: Width, entry: Arrival)
    requires room { BlockWithin width.bits words.old entry.free.0 }
    requires small { entry.remainder < 2 ^ width.bits }
    requires few { (b : ℕ) → offset_in width.bits words.old b < 2 ^ 32 }
    ensures put { EntryPut width.bits words.old words.new entry.quotient.0 entry.at.0 entry.free.0 entry.remainder entry.ends entry.follows }
    ensures bits { (k : ℕ) → slice_index words.new k < 2 ^ 64 }
{
    move_up(words, width, entry.at, entry.free);
    set_remainder(words, width, entry.at, entry.remainder);
    set_runend(words, width, entry.at, entry.ends);
    if entry.follows {
        set_runend(words, width, Slot(entry.at.0 - 1), false);
    }
    set_occupied(words, width, entry.quotient, true);
    let first = entry.quotient.0 / 64 + 1;
    raise_offsets(words, width, first, entry.free.0 / 64 + 1);
}

/// Takes an entry out. Slot `gap` is then free.
pub(crate) fn take_entry(words: &mut [u64], width: Width, entry: Departure)
    requires room { BlockWithin width.bits words.old entry.gap.0 }
    requires waits { (b : ℕ) → entry.quotient.0 < 64 * b → 64 * b ≤ entry.gap.0 → 0 < offset_in width.bits words.old b }
    ensures gone { EntryGone width.bits words.old words.new entry.quotient.0 entry.at.0 entry.gap.0 entry.follows entry.only }
    ensures bits { (k : ℕ) → slice_index words.new k < 2 ^ 64 }
{
    move_down(words, width, entry.at, entry.gap);
    set_remainder(words, width, entry.gap, 0);
    set_runend(words, width, entry.gap, false);
    if entry.follows {
        set_runend(words, width, Slot(entry.at.0 - 1), true);
    }
    set_occupied(words, width, entry.quotient, !entry.only);
    let first = entry.quotient.0 / 64 + 1;
    lower_offsets(words, width, first, entry.gap.0 / 64 + 1);
}
