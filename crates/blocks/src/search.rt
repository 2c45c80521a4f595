//! Counts of the ones of the occupied and runend rows, and the place of the k-th one, a word at a time.
ghost use Rattle.std.specs.Prelude.{◌≡◌, ◌+◌, ◌-◌, ◌*◌, ◌/◌, ◌%◌, ◌<◌, ◌≤◌, MatchOption, slice_index};
ghost use Rattle.words.specs.Bits.{ones_under};
ghost use Rattle.layout.specs.Load.{tally};
ghost use Rattle.blocks.specs.Views.{word_index, occupied_bit_in, runend_in, offset_in, head_in};
ghost use Rattle.blocks.specs.Searches.{NthOccupied, NthRunend, AfterRunends, NextFrom, open_at};

use crate::places::{Part, word_of};
use crate::reading::Blocks;
use crate::{Quotient, Slot};
use words::{ones_below, ones_from, rank, select};

/// How many blocks have slots and quotients that a `u32` names.
const BLOCKS: u32 = 1 << 26;

/// Where a run starts, and its runend.
#[derive(Clone, Copy, PartialEq, Eq, Debug)]
pub struct NextRun {
    pub start: Slot,
    pub end: Slot,
}

impl Blocks<'_> {
    /// How many of the first `i` slots of block `b` are runends.
    fn runends_in(&self, b: u32, i: u32) -> u32
        requires { i ≤ 64 }
        ensures count { result + tally (runend_in self.now.width.bits self.now.words.now) (64 * b) ≡ tally (runend_in self.now.width.bits self.now.words.now) (64 * b + i) }
        ensures few { result ≤ i }
    {
        ones_below(self.word(b, Part::Runends), i)
    }

    /// How many runends lie in the slots from `from` up to, not including, `to`.
    fn runends_up_to(&self, from: Slot, to: Slot) -> u32
        requires { from.0 ≤ to.0 }
        ensures { result ≡ tally (runend_in self.now.width.bits self.now.words.now) to.0 - tally (runend_in self.now.width.bits self.now.words.now) from.0 }
    {
        let first = from.0 / 64;
        let last = to.0 / 64;
        let mut n = self.runends_in(last, to.0 % 64);
        for b in first..last {
            n += self.runends_in(b, 64);
        }
        n - self.runends_in(first, from.0 % 64)
    }

    /// The `k`-th runend at or after slot `from`, counted from 1.
    fn runend_from(&self, from: Slot, k: u32) -> Option<Slot>
        requires { 0 < k }
        ensures { NthRunend self.now.width.bits self.now.words.now from.0 k result }
    {
        let mut place = from.0 % 64;
        let mut left = k;
        for block in from.0 / 64..BLOCKS {
            let w = *self.words.get(word_of(self.width, block, Part::Runends))?;
            let rest = ones_from(w, place);
            let here = rank(rest, 63);
            if left <= here {
                let i = select(rest, left)?;
                return Some(Slot(64 * block + i));
            }
            left -= here;
            place = 0;
        }
        None
    }

    /// How many runs of the block of `c` end below slot `c`: the runends from the block's head, its first slot and as many as its offset says
    /// past it, up to that slot.
    pub fn runs_ended(&self, c: Quotient) -> u32
        ensures { result ≡ tally (runend_in self.now.width.bits self.now.words.now) c.0 - tally (runend_in self.now.width.bits self.now.words.now) (64 * (c.0 / 64) + offset_in self.now.width.bits self.now.words.now (c.0 / 64)) }
    {
        let b = c.0 / 64;
        let offset = self.offset(b).min(64) as u32;
        ones_below(ones_from(self.word(b, Part::Runends), offset), c.0 % 64)
    }

    /// The place in its block after the `k`-th runend at or after slot `from`, and that of `from` itself where `k` is 0: none where the block has fewer.
    fn place_after(&self, runends: u64, from: Slot, k: u32) -> Option<u32>
        requires { runends ≡ slice_index self.now.words.now (word_index self.now.width.bits (from.0 / 64) 1) }
        ensures { MatchOption result
            (tally (runend_in self.now.width.bits self.now.words.now) (64 * (from.0 / 64) + 64) < tally (runend_in self.now.width.bits self.now.words.now) from.0 + k)
            (λ i. (i ≤ 64) × AfterRunends self.now.width.bits self.now.words.now from.0 k (64 * (from.0 / 64) + i)) }
    {
        let place = from.0 % 64;
        if k == 0 {
            return Some(place);
        }
        let i = select(ones_from(runends, place), k)?;
        Some(i + 1)
    }

    /// How many runs of quotients of the block of `c` go on at slot `c`: none is told where the block's runs begin past it.
    fn open_at(&self, runends: u64, c: Quotient) -> Option<u32>
        requires { runends ≡ slice_index self.now.words.now (word_index self.now.width.bits (c.0 / 64) 1) }
        ensures { MatchOption result
            (c.0 < head_in self.now.width.bits self.now.words.now (c.0 / 64))
            (λ k. (head_in self.now.width.bits self.now.words.now (c.0 / 64) ≤ c.0) × (k ≡ open_at self.now.width.bits self.now.words.now c.0)) }
    {
        let place = c.0 % 64;
        let offset = self.offset(c.0 / 64);
        if offset > u64::from(place) {
            return None;
        }
        let ended = ones_below(ones_from(runends, offset as u32), place);
        Some(self.occupied_below(c).saturating_sub(ended))
    }

    /// The run after those that go on at slot `c`: the runs of quotients of the block of `c` below `c` that have not ended there. None where the block's runs
    /// begin past `c`, or where no more runs end in the block.
    // inlined, since a question needs little more than this
    #[inline(always)]
    pub fn next_run(&self, c: Quotient) -> Option<NextRun>
        ensures { NextFrom self.now.width.bits self.now.words.now c.0 result }
    {
        let block = c.0 / 64;
        let runends = self.word(block, Part::Runends);
        let open = self.open_at(runends, c)?;
        let start = self.place_after(runends, Slot(c.0), open)?;
        let end = select(ones_from(runends, start), 1)?;
        Some(NextRun {
            start: Slot(64 * block + start),
            end: Slot(64 * block + end),
        })
    }

    /// How many occupied quotients of the block of `c` lie below `c`.
    pub fn occupied_below(&self, c: Quotient) -> u32
        ensures { result ≡ tally (occupied_bit_in self.now.width.bits self.now.words.now) c.0 - tally (occupied_bit_in self.now.width.bits self.now.words.now) (64 * (c.0 / 64)) }
    {
        ones_below(self.word(c.0 / 64, Part::Occupied), c.0 % 64)
    }

    /// How many occupied quotients of the block of `c` come up to and with `c`.
    fn occupied_upto(&self, c: Quotient) -> u32
        ensures count { result + tally (occupied_bit_in self.now.width.bits self.now.words.now) (64 * (c.0 / 64)) ≡ tally (occupied_bit_in self.now.width.bits self.now.words.now) (c.0 + 1) }
        ensures few { result ≤ c.0 % 64 + 1 }
    {
        rank(self.word(c.0 / 64, Part::Occupied), c.0 % 64)
    }

    /// How many occupied quotients come after `from`, up to and with `to`, no later block than that of `from`.
    fn occupied_in_block_after(&self, from: Quotient, to: Quotient) -> u32
        requires { to.0 / 64 ≤ from.0 / 64 }
        ensures count { result ≡ tally (occupied_bit_in self.now.width.bits self.now.words.now) (to.0 + 1) - tally (occupied_bit_in self.now.width.bits self.now.words.now) (from.0 + 1) }
        ensures few { result ≤ 63 }
    {
        if to.0 <= from.0 {
            return 0;
        }
        self.occupied_upto(to) - self.occupied_upto(from)
    }

    /// How many occupied quotients come after `from`, up to and with `to`: 0 where `to` is not above `from`.
    pub fn occupied_after(&self, from: Quotient, to: Quotient) -> u32
        ensures { result ≡ tally (occupied_bit_in self.now.width.bits self.now.words.now) (to.0 + 1) - tally (occupied_bit_in self.now.width.bits self.now.words.now) (from.0 + 1) }
    {
        let first = from.0 / 64;
        let last = to.0 / 64;
        if last <= first {
            return self.occupied_in_block_after(from, to);
        }
        let mut n = self.occupied_in_block_after(from, Quotient(64 * first + 63));
        for b in first + 1..last {
            n += self.occupied_upto(Quotient(64 * b + 63));
        }
        n + self.occupied_upto(to)
    }

    /// The `k`-th occupied quotient of block `b`, counted from 1: none where there are fewer, where `k` is 0,
    /// or where the block is past the last one whose quotients are `u32`.
    pub fn nth_occupied(&self, b: u32, k: u32) -> Option<Quotient>
        ensures { NthOccupied self.now.width.bits self.now.words.now b k result }
    {
        if b >= BLOCKS {
            return None;
        }
        let i = select(self.word(b, Part::Occupied), k)?;
        Some(Quotient(64 * b + i))
    }

    /// How many runends lie in the slots from `from` up to, not including, `to`: 0 where `to` is not above `from`.
    pub fn runends_between(&self, from: Slot, to: Slot) -> u32
        ensures { result ≡ tally (runend_in self.now.width.bits self.now.words.now) to.0 - tally (runend_in self.now.width.bits self.now.words.now) from.0 }
    {
        if from.0 < to.0 {
            self.runends_up_to(from, to)
        } else {
            0
        }
    }

    /// The `k`-th runend at or after slot `from`, counted from 1: none where there are fewer, where `k` is 0,
    /// or where no `u32` names its slot.
    pub fn nth_runend(&self, from: Slot, k: u32) -> Option<Slot>
        ensures { NthRunend self.now.width.bits self.now.words.now from.0 k result }
    {
        if k == 0 {
            return None;
        }
        self.runend_from(from, k)
    }
}
