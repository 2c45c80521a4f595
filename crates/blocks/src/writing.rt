//! Single bits, offsets and remainders written.
ghost use Rattle.std.specs.Prelude.{◌≡◌, ℕ, ◌+◌, ◌*◌, ◌/◌, ◌%◌, ◌^◌, ◌<◌, ◌≤◌, length, if◌then◌else◌, slice_set};
ghost use Rattle.blocks.specs.Views.{word_index, remainder_place};
ghost use Rattle.blocks.specs.Writes.{WroteOccupied, WroteRunend, WroteOffset, WroteRemainder, WithBit};

use crate::places::{Part, place_of, word_of};
use crate::{Quotient, Slot};
use words::{Width, set_field, with_bit};

// kept: what writes takes words and width apart. A method of a struct over borrowed words would owe two clauses more, that width and loan stay, and the proof of
// each sequence of writes would carry them from step to step.

/// Makes bit `i` of the word at `at` `b`; past the last word nothing happens.
fn set_bit(words: &mut [u64], at: usize, i: u32, b: bool)
    ensures inside { at < length words.old → WithBit words.old words.new at i (if b then 1 else 0) }
    ensures past { length words.old ≤ at → words.new ≡ words.old }
{
    if at < words.len() {
        words[at] = with_bit(words[at], i, b);
    }
}

/// Makes the occupied bit of quotient `c` `b`; past the last word nothing happens.
pub fn set_occupied(words: &mut [u64], width: Width, c: Quotient, b: bool)
    ensures inside { word_index width.bits (c.0 / 64) 0 < length words.old → WroteOccupied width.bits words.old words.new c.0 (if b then 1 else 0) }
    ensures past { length words.old ≤ word_index width.bits (c.0 / 64) 0 → words.new ≡ words.old }
{
    set_bit(words, word_of(width, c.0 / 64, Part::Occupied), c.0 % 64, b);
}

/// Makes the runend bit of slot `s` `b`; past the last word nothing happens.
pub fn set_runend(words: &mut [u64], width: Width, s: Slot, b: bool)
    ensures inside { word_index width.bits (s.0 / 64) 1 < length words.old → WroteRunend width.bits words.old words.new s.0 (if b then 1 else 0) }
    ensures past { length words.old ≤ word_index width.bits (s.0 / 64) 1 → words.new ≡ words.old }
{
    set_bit(words, word_of(width, s.0 / 64, Part::Runends), s.0 % 64, b);
}

/// Makes the offset of block `b` `v`; past the last word nothing happens.
pub fn set_offset(words: &mut [u64], width: Width, b: u32, v: u64)
    ensures inside { word_index width.bits b 2 < length words.old → WroteOffset width.bits words.old words.new b v }
    ensures past { length words.old ≤ word_index width.bits b 2 → words.new ≡ words.old }
{
    let at = word_of(width, b, Part::Offset);
    if at < words.len() {
        words[at] = v;
    }
}

/// Writes the low bits of `v` as the remainder in slot `s`; past the last word nothing happens.
pub fn set_remainder(words: &mut [u64], width: Width, s: Slot, v: u32)
    ensures inside { remainder_place width.bits s.0 + width.bits ≤ 64 * length words.old
        → WroteRemainder width.bits words.old words.new s.0 (v % 2 ^ width.bits) }
    ensures past { 64 * length words.old < remainder_place width.bits s.0 + width.bits
        → words.new ≡ words.old }
{
    set_field(words, place_of(width, s), width, v);
}
