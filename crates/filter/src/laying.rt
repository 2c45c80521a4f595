//! Lays out fingerprints in rising order: their entries in one pass, and the offsets of the blocks in another.
ghost use Rattle.std.specs.Prelude.{◌≡◌, ℕ, ◌*◌, ◌<◌, ◌≤◌, [], length, if◌then◌else◌, slice_index};
ghost use Rattle.layout.specs.Rule.{sorted, Roomy, quotient, remainder, laid, runend_at};
ghost use Rattle.layout.specs.Format.{filter_words};
ghost use Rattle.layout.specs.Places.{slot_of, next_of};
ghost use Rattle.blocks.specs.Views.{Shows};
ghost use Rattle.blocks.specs.Moves.{BlockWithin};
ghost use Rattle.filter.specs.Meaning.{size_of};
ghost use Rattle.filter.specs.Laying.{Entered, EntriesLaid};

use crate::cuts::{quotient_of, remainder_of};
use blocks::{Slot, set_occupied, set_offset, set_remainder, set_runend};
use words::Width;

/// Writes one entry of the fingerprint `p` into slot `s`; `last` where it ends the run of its quotient.
fn lay_entry(words: &mut [u64], width: Width, p: u64, s: Slot, last: bool)
    requires within { BlockWithin width.bits words.old s.0 }
    requires below { quotient width.bits p ≤ s.0 }
    ensures { Entered width.bits words.old words.new (quotient width.bits p) s.0 (remainder width.bits p) (if last then 1 else 0) }
{
    set_occupied(words, width, quotient_of(width, p), true);
    set_runend(words, width, s, last);
    set_remainder(words, width, s, remainder_of(width, p));
}

/// Fingerprints in rising order that have room in that many blocks.
#[derive(Clone, Copy)]
pub(crate) struct Rising<'a> {
    pub(crate) width: Width,
    pub(crate) blocks: u32,
    pub(crate) list: &'a [u64],
    ghost few: { blocks ≤ 16640 },
    ghost order: { sorted list.now ≡ list.now },
    ghost room: { Roomy (64 * blocks) width.bits list.now },
}

// kept: the words that are written stay a parameter, as in crate blocks, and so their size is asked of each pass.
impl Rising<'_> {
    /// Whether the `i`-th is the last of its quotient.
    fn ends_run(&self, i: usize) -> bool
        requires { i < length self.now.list.now }
        ensures { (if result then 1 else 0) ≡ runend_at self.now.width.bits (laid self.now.width.bits 0 self.now.list.now) (slot_of self.now.width.bits self.now.list.now i) }
    {
        i + 1 == self.list.len()
            || self.list[i + 1] >> self.width.bits != self.list[i] >> self.width.bits
    }

    /// Writes their entries into words that show none.
    fn lay_entries(&self, words: &mut [u64])
        requires sized { length words.old ≡ size_of self.now.width.bits self.now.blocks }
        requires empty { Shows self.now.width.bits words.old [] }
        ensures { EntriesLaid self.now.width.bits words.new self.now.list.now }
    {
        let mut next: u32 = 0;
        for (i, p) in self.list.iter().enumerate() {
            let s = quotient_of(self.width, *p).0.max(next);
            lay_entry(words, self.width, *p, Slot(s), self.ends_run(i));
            next = s + 1;
        }
    }

    /// From the `i`-th on, the first whose quotient is `bound` or more, and the slot after those before it, where `next` is the one after those before
    /// the `i`-th.
    fn skip_below(&self, bound: u32, i: usize, next: u32) -> (usize, u32)
        requires within { i ≤ length self.now.list.now }
        requires came { next ≡ next_of self.now.width.bits self.now.list.now i }
        ensures range { (i ≤ result.0) × (result.0 ≤ length self.now.list.now) }
        ensures low { (k : ℕ) → i ≤ k → k < result.0 → quotient self.now.width.bits (slice_index self.now.list.now k) < bound }
        ensures high { result.0 < length self.now.list.now → bound ≤ quotient self.now.width.bits (slice_index self.now.list.now result.0) }
        ensures slot { result.1 ≡ next_of self.now.width.bits self.now.list.now result.0 }
    {
        let mut after = next;
        for (k, p) in self.list[i..].iter().enumerate() {
            let c = quotient_of(self.width, *p).0;
            if c >= bound {
                return (i + k, after);
            }
            after = c.max(after) + 1;
        }
        (self.list.len(), after)
    }

    /// Writes the offsets of the blocks beside their entries.
    fn lay_offsets(&self, words: &mut [u64])
        requires sized { length words.old ≡ size_of self.now.width.bits self.now.blocks }
        requires entries { EntriesLaid self.now.width.bits words.old self.now.list.now }
        ensures { Shows self.now.width.bits words.new self.now.list.now }
    {
        let mut i = 0;
        let mut next = 0;
        for b in 0..self.blocks {
            (i, next) = self.skip_below(64 * b, i, next);
            set_offset(words, self.width, b, next.saturating_sub(64 * b) as u64);
        }
    }

    /// Lays them out, in place of what the words held.
    pub(crate) fn lay(&self, words: &mut [u64])
        requires { length words.old ≡ size_of self.now.width.bits self.now.blocks }
        ensures { words.new ≡ filter_words self.now.width.bits self.now.blocks self.now.list.now }
    {
        words.fill(0);
        self.lay_entries(words);
        self.lay_offsets(words);
    }
}
