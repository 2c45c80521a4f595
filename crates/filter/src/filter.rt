//! The filter's type. Its calls stand in the module below, whose contracts name the type.
ghost use Rattle.std.specs.Prelude.{◌≡◌, ℕ, ◌+◌, ◌*◌, ◌^◌, ◌<◌, length, take, slice_index};
ghost use Rattle.layout.specs.Rule.{sorted, Roomy};
ghost use Rattle.layout.specs.Format.{filter_words, block_count};
ghost use Rattle.filter.specs.Meaning.{size_of, entries_of};

use crate::plan::Plan;

mod calls;
mod edits;
mod reading;

/// A quotient filter over lent words. Every filter holds the layout of some list of fingerprints:
/// those that are read back from its words.
#[derive(Drop)]
pub struct Filter<'a> {
    plan: Plan,
    blocks: u32,
    held: u32,
    words: &'a mut [u64],
    ghost sized: { blocks ≡ block_count plan.r (length words.now) },
    ghost laid: { take (size_of plan.r blocks) words.now ≡ filter_words plan.r blocks (entries_of plan.r blocks words.now) },
    ghost rising: { sorted (entries_of plan.r blocks words.now) ≡ entries_of plan.r blocks words.now },
    ghost roomy: { Roomy (64 * blocks) plan.r (entries_of plan.r blocks words.now) },
    ghost narrow: { (k : ℕ) → k < length (entries_of plan.r blocks words.now) → slice_index (entries_of plan.r blocks words.now) k < 2 ^ (plan.q + plan.r) },
    ghost counted: { held ≡ length (entries_of plan.r blocks words.now) },
}
