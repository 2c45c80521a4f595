//! The calls that read the words.
ghost use Rattle.std.specs.Prelude.{◌≡◌, length, take, IfOk};
ghost use Rattle.layout.specs.Format.{filter_words};
ghost use Rattle.filter.specs.Meaning.{size_of};
ghost use Rattle.filter.specs.Slots.{slot_shown, RunEnds};
ghost use Rattle.filter.specs.Filters.{words_of, fingerprints, WordsOfList};
ghost use Rattle.filter.specs.Layouts.{LayoutOf};

use crate::filter::Filter;
use crate::laid::Layout;
use crate::plan::Plan;
use blocks::{Blocks, Quotient, Slot};
use std::alloc::{AllocError, Global};

impl Filter<'_> {
    /// The filter's plan.
    pub fn plan(&self) -> Plan
        ensures { result ≡ self.now.plan }
    {
        self.plan
    }

    /// How many blocks the filter has.
    pub fn blocks(&self) -> u32
        ensures { result ≡ self.now.blocks }
    {
        self.blocks
    }

    /// How many entries the filter holds.
    pub fn held(&self) -> u32
        ensures { result ≡ length (fingerprints self.now) }
    {
        self.held
    }

    /// The words of the blocks, for reading.
    pub(crate) fn layout(&self) -> Layout<'_>
        ensures { LayoutOf self.now result }
    {
        Layout {
            blocks: Blocks {
                width: self.plan.width(),
                words: self.words(),
            },
            count: self.blocks,
        }
    }

    /// The words of the blocks: the layout of the entries, whatever was done to the filter before. Two filters of one plan and size that hold the same
    /// entries have the same words, and two with the same words hold the same entries.
    pub fn words(&self) -> &[u64]
        ensures alone { WordsOfList self.now result.now }
        ensures layout { result.now ≡ filter_words self.now.plan.r self.now.blocks (fingerprints self.now) }
    {
        &self.words[..self.plan.size_of(self.blocks)]
    }

    /// The quotient and the remainder of the entry in a slot; none where the slot is free, and a slot past the last is free.
    pub fn slot(&self, s: Slot) -> Option<(Quotient, u32)>
        ensures { result ≡ slot_shown self.now.plan.r (fingerprints self.now) s.0 }
    {
        self.layout().slot(s)
    }

    /// The last slot of the run of a quotient, none where it is not occupied: the runend whose number among the runends is that of the quotient
    /// among the occupied ones.
    pub fn run_end(&self, c: Quotient) -> Option<Slot>
        ensures { RunEnds self.now.plan.r (fingerprints self.now) c.0 result }
    {
        self.layout().run_end(c)
    }

    /// All entries in rising order. They are all that the words of the blocks say: these words are the layout of what was read.
    pub fn fingerprints(&self, heap: Global) -> Result<Vec<u64>, AllocError>
        ensures read { IfOk result (λ v. v.items ≡ fingerprints self.now) }
        ensures back { IfOk result (λ v. take (size_of self.now.plan.r self.now.blocks) (words_of self.now) ≡ filter_words self.now.plan.r self.now.blocks v.items) }
    {
        self.layout().entries(heap, self.held)
    }
}
