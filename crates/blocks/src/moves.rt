//! Entries moved by one slot over a stretch of slots, and offsets changed by one over a stretch of blocks.
ghost use Rattle.std.specs.Prelude.{◌≡◌, ℕ, ◌+◌, ◌*◌, ◌/◌, ◌^◌, ◌<◌, ◌≤◌, length, nat_le};
ghost use Rattle.blocks.specs.Moves.{BlocksWithin, BlockWithin, MovedUp, MovedDown, CopiedEntry, ChangedOffsets, raised, lowered};

use crate::Slot;
use crate::places::{place_of, runend_place};
use crate::reading::Blocks;
use crate::writing::{set_offset, set_remainder, set_runend};
use words::{Width, move_bits_down, move_bits_up};

/// Whether the first `n` blocks lie wholly within the words.
fn holds(words: &[u64], width: Width, n: u32) -> bool
    ensures { result ≡ nat_le (n * (width.bits + 3)) (length words.now) }
{
    n as usize * (width.bits as usize + 3) <= words.len()
}

/// Writes the entry of slot `j`, its remainder and its runend bit, into slot `i`.
fn copy_entry(words: &mut [u64], width: Width, j: Slot, i: Slot)
    requires { BlockWithin width.bits words.old i.0 }
    ensures { CopiedEntry width.bits words.old words.new j.0 i.0 }
{
    let from = Blocks { width, words };
    let rest = from.remainder(j);
    let last = from.runend(j);
    set_remainder(words, width, i, rest);
    set_runend(words, width, i, last);
}

/// A runend bit as a field.
const BIT: Width = Width { bits: 1 };

/// Moves entries within one block up: the runend bits and the remainders of the slots `from` to `to - 1`.
fn shift_up_in_block(words: &mut [u64], width: Width, from: Slot, to: Slot)
    requires order { from.0 ≤ to.0 }
    requires block { from.0 / 64 ≡ to.0 / 64 }
    requires room { BlockWithin width.bits words.old to.0 }
    ensures { MovedUp width.bits words.old words.new from.0 to.0 }
{
    move_bits_up(
        words,
        runend_place(width, from),
        runend_place(width, to) + 1,
        BIT,
    );
    move_bits_up(
        words,
        place_of(width, from),
        place_of(width, to) + width.bits as usize,
        width,
    );
}

/// Moves the entries up, block by block, the highest first: the last entry of a block goes to the first slot of the next.
fn shift_up(words: &mut [u64], width: Width, from: Slot, to: Slot)
    requires order { from.0 ≤ to.0 }
    requires room { BlockWithin width.bits words.old to.0 }
    ensures { MovedUp width.bits words.old words.new from.0 to.0 }
{
    let mut end = to.0;
    // kept: `end` goes on to the end of the block before, so no range counts it
    while end / 64 > from.0 / 64 {
        let first = end / 64 * 64;
        shift_up_in_block(words, width, Slot(first), Slot(end));
        copy_entry(words, width, Slot(first - 1), Slot(first));
        end = first - 1;
    }
    shift_up_in_block(words, width, from, Slot(end));
}

// kept beside the others: the order of the moves differs too, so that no entry is written over before it has moved, and one contract would have to tell two cases.

/// Moves entries within one block down: the runend bits and the remainders of the slots `from + 1` to `to`.
fn shift_down_in_block(words: &mut [u64], width: Width, from: Slot, to: Slot)
    requires order { from.0 ≤ to.0 }
    requires block { from.0 / 64 ≡ to.0 / 64 }
    requires room { BlockWithin width.bits words.old to.0 }
    ensures { MovedDown width.bits words.old words.new from.0 to.0 }
{
    move_bits_down(
        words,
        runend_place(width, from),
        runend_place(width, to) + 1,
        BIT,
    );
    move_bits_down(
        words,
        place_of(width, from),
        place_of(width, to) + width.bits as usize,
        width,
    );
}

/// Moves the entries down, block by block, the lowest first: the first entry of a block goes to the last slot of the one before.
fn shift_down(words: &mut [u64], width: Width, from: Slot, to: Slot)
    requires order { from.0 ≤ to.0 }
    requires room { BlockWithin width.bits words.old to.0 }
    ensures { MovedDown width.bits words.old words.new from.0 to.0 }
{
    let mut start = from.0;
    // kept: as above
    while start / 64 < to.0 / 64 {
        let last = start / 64 * 64 + 63;
        shift_down_in_block(words, width, Slot(start), Slot(last));
        copy_entry(words, width, Slot(last + 1), Slot(last));
        start = last + 1;
    }
    shift_down_in_block(words, width, Slot(start), to);
}

/// Changes the offsets, block by block.
fn change_each<F: Fn(u64) -> u64>(words: &mut [u64], width: Width, from: u32, to: u32, change: F)
    ghost by: { ℕ → ℕ }
    requires room { BlocksWithin width.bits words.old to }
    requires can { F.IsAlwaysCallable change }
    requires means { (v w : ℕ) → v < 2 ^ 64 → F.post change v w → w ≡ by v }
    ensures { ChangedOffsets by width.bits words.old words.new from to }
{
    for b in from..to {
        let v = Blocks { width, words }.offset(b);
        set_offset(words, width, b, change(v));
    }
}

// kept: `from` and `to` are two slots in any order, since nothing happens where they are turned; a stretch that knew its order would ask more of callers.

/// Moves the entries of the slots `from` to `to - 1` one slot up; slot `from` keeps its own.
/// Nothing happens where `to` is below `from`, or where its block reaches past the words.
pub fn move_up(words: &mut [u64], width: Width, from: Slot, to: Slot)
    ensures inside { from.0 ≤ to.0 → BlockWithin width.bits words.old to.0
        → MovedUp width.bits words.old words.new from.0 to.0 }
    ensures past { (BlockWithin width.bits words.old to.0 → ⊥) → words.new ≡ words.old }
    ensures none { to.0 < from.0 → words.new ≡ words.old }
{
    if from.0 <= to.0 && holds(words, width, to.0 / 64 + 1) {
        shift_up(words, width, from, to);
    }
}

/// Moves the entries of the slots `from + 1` to `to` one slot down; slot `to` keeps its own.
/// Nothing happens where `to` is below `from`, or where its block reaches past the words.
pub fn move_down(words: &mut [u64], width: Width, from: Slot, to: Slot)
    ensures inside { from.0 ≤ to.0 → BlockWithin width.bits words.old to.0
        → MovedDown width.bits words.old words.new from.0 to.0 }
    ensures past { (BlockWithin width.bits words.old to.0 → ⊥) → words.new ≡ words.old }
    ensures none { to.0 < from.0 → words.new ≡ words.old }
{
    if from.0 <= to.0 && holds(words, width, to.0 / 64 + 1) {
        shift_down(words, width, from, to);
    }
}

/// Raises the offsets of the blocks `from` to `to - 1` by one; the largest stay as they are.
/// Nothing happens where the blocks below `to` reach past the words.
pub fn raise_offsets(words: &mut [u64], width: Width, from: u32, to: u32)
    ensures inside { BlocksWithin width.bits words.old to
        → ChangedOffsets raised width.bits words.old words.new from to }
    ensures past { (BlocksWithin width.bits words.old to → ⊥) → words.new ≡ words.old }
{
    if holds(words, width, to) {
        change_each(words, width, from, to, |v| v.saturating_add(1));
    }
}

/// Lowers the offsets of the blocks `from` to `to - 1` by one; those that are 0 stay so.
/// Nothing happens where the blocks below `to` reach past the words.
pub fn lower_offsets(words: &mut [u64], width: Width, from: u32, to: u32)
    ensures inside { BlocksWithin width.bits words.old to
        → ChangedOffsets lowered width.bits words.old words.new from to }
    ensures past { (BlocksWithin width.bits words.old to → ⊥) → words.new ≡ words.old }
{
    if holds(words, width, to) {
        change_each(words, width, from, to, |v| v.saturating_sub(1));
    }
}
