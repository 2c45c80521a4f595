//! The calls on the whole filter.
ghost use Rattle.std.specs.Prelude.{◌≡◌, true, false, []};
ghost use Rattle.filter.specs.Filters.{SameFilter, Begun, words_of, fingerprints, cleared_over, Narrow, Wide, LaidOut};

use crate::fault::FilterFault;
use crate::filter::Filter;
use crate::laying::Rising;
use crate::plan::Plan;
use layout::slots_needed;

/// Whether each of the list is a fingerprint under the plan.
fn all_admitted(plan: Plan, list: &[u64]) -> bool
    ensures yes { result ≡ true → Narrow plan list.now }
    ensures not { result ≡ false → Wide plan list.now }
{
    list.iter().all(|p| plan.admits(*p))
}

impl<'a> Filter<'a> {
    /// An empty filter over lent words: as many whole blocks as there are words for, at most 16,640, all of their words 0. Words after the blocks stay.
    pub fn begin(plan: Plan, words: &'a mut [u64]) -> Filter<'a>
        ensures { Begun plan words.entry result }
    {
        let blocks = plan.blocks_of(words.len());
        words[..plan.size_of(blocks)].fill(0);
        Filter {
            plan,
            blocks,
            held: 0,
            words,
        }
    }

    /// Lays out a list of fingerprints, given in any order, in place of what the filter held. The list is then in rising order.
    /// Refused where one is no fingerprint under the plan, and nothing is changed; else where some quotient is crowded, and the filter is then empty.
    pub fn lay_out(&mut self, list: &mut [u64]) -> Result<(), FilterFault>
        ensures same { SameFilter self.old self.new }
        ensures done { LaidOut self.old self.new list.old list.new result }
    {
        if !all_admitted(self.plan, list) {
            return Err(FilterFault::WideFingerprint);
        }
        let width = self.plan.width();
        list.sort_unstable();
        if slots_needed(list, width) > 64 * self.blocks as u64 {
            self.clear();
            return Err(FilterFault::NoSlot);
        }
        let end = self.plan.size_of(self.blocks);
        let rising = Rising {
            width,
            blocks: self.blocks,
            list,
        };
        rising.lay(&mut self.words[..end]);
        self.held = list.len() as u32;
        Ok(())
    }

    /// Empties the filter: all words of its blocks are 0.
    pub fn clear(&mut self)
        ensures same { SameFilter self.old self.new }
        ensures empty { fingerprints self.new ≡ [] }
        ensures words { words_of self.new ≡ cleared_over self.old.plan.r self.old.blocks (words_of self.old) }
    {
        let end = self.plan.size_of(self.blocks);
        self.words[..end].fill(0);
        self.held = 0;
    }
}
