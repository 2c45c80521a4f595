//! Where runs start and stop, by the runends from their quotients on.
ghost use Rattle.std.specs.Prelude.{◌≡◌, ℕ, ◌+◌, ◌-◌, ◌^◌, ◌<◌, ◌≤◌, MatchOption};
ghost use Rattle.layout.specs.Load.{load, start, tally, FirstFree, FirstIdle};
ghost use Rattle.blocks.specs.Searches.{AfterRunends};
ghost use Rattle.filter.specs.Locating.{RunsAhead};
ghost use Rattle.filter.specs.Slots.{RunEnds};
ghost use Rattle.filter.specs.Layouts.{bits_of, words_in, entries, many_of, runends_of, slots_in};

use crate::laid::Layout;
use blocks::{Quotient, Slot};

/// The slots of a run: from one on, up to, not including, another. Where the two are one it has no entry, and would start there.
#[derive(Clone, Copy)]
pub(crate) struct Run {
    pub(crate) from: Slot,
    pub(crate) to: Slot,
}

/// What lies ahead of a run: from a slot on, so many others end before it starts.
#[derive(Clone, Copy)]
struct Ahead {
    from: Slot,
    runs: u32,
}

impl Layout<'_> {
    /// What lies ahead of the run of `c` from slot `c` on, or from the head of its block where that is later.
    fn ahead_of(&self, c: Quotient) -> Ahead
        ensures ahead { RunsAhead (many_of self.now) (runends_of self.now) c.0 result.from.0 result.runs }
        ensures few { result.runs ≤ 64 }
    {
        let head = 64 * (c.0 / 64) + self.blocks.offset(c.0 / 64) as u32;
        Ahead {
            from: Slot(c.0.max(head)),
            runs: self.blocks.occupied_below(c) - self.blocks.runs_ended(c),
        }
    }

    /// The slot after the `k`-th runend at or after slot `from`, and `from` itself where `k` is 0.
    fn after_runends(&self, from: Slot, k: u32) -> Slot
        requires { tally (runends_of self.now) from.0 + k ≤ tally (runends_of self.now) (2 ^ 32) }
        ensures { AfterRunends (bits_of self.now) (words_in self.now) from.0 k result.0 }
    {
        if k == 0 {
            return from;
        }
        let Some(e) = self.blocks.nth_runend(from, k) else {
            unreachable!()
        };
        Slot(e.0 + 1)
    }

    /// The slot at which the run of `c` starts, or would start.
    pub(crate) fn start_of(&self, c: Quotient) -> Slot
        ensures { result.0 ≡ start (many_of self.now) c.0 }
    {
        let ahead = self.ahead_of(c);
        self.after_runends(ahead.from, ahead.runs)
    }

    /// The slot after the run of `c`, or that at which it would start.
    pub(crate) fn stop_of(&self, c: Quotient) -> Slot
        ensures { result.0 ≡ start (many_of self.now) c.0 + many_of self.now c.0 }
    {
        let ahead = self.ahead_of(c);
        let own = u32::from(self.blocks.occupied(c));
        self.after_runends(ahead.from, ahead.runs + own)
    }

    /// The slots of the run of `c`, from block to block.
    #[cold]
    #[inline(never)]
    fn far_run_of(&self, c: Quotient) -> Run
        ensures from { result.from.0 ≡ start (many_of self.now) c.0 }
        ensures to { result.to.0 ≡ start (many_of self.now) c.0 + many_of self.now c.0 }
    {
        let from = self.start_of(c);
        let own = u32::from(self.blocks.occupied(c));
        let to = self.after_runends(from, own);
        Run { from, to }
    }

    /// The slots of the run of `c`: for most quotients the runends of its own block tell.
    // inlined, since a question needs little more than this
    #[inline(always)]
    pub(crate) fn run_of(&self, c: Quotient) -> Run
        ensures from { result.from.0 ≡ start (many_of self.now) c.0 }
        ensures to { result.to.0 ≡ start (many_of self.now) c.0 + many_of self.now c.0 }
    {
        let Some(next) = self.blocks.next_run(c) else {
            return self.far_run_of(c);
        };
        let to = if self.blocks.occupied(c) {
            Slot(next.end.0 + 1)
        } else {
            next.start
        };
        Run {
            from: next.start,
            to,
        }
    }

    /// The last slot of the run of `c`: none where it has no entry.
    pub(crate) fn run_end(&self, c: Quotient) -> Option<Slot>
        ensures { RunEnds (bits_of self.now) (entries self.now) c.0 result }
    {
        let run = self.run_of(c);
        if run.from.0 < run.to.0 {
            Some(Slot(run.to.0 - 1))
        } else {
            None
        }
    }

    /// The first free slot at or after slot `stop`, where the run of `c` stops: none where there is none below the last.
    pub(crate) fn first_free(&self, c: Quotient, stop: Slot) -> Option<Slot>
        requires { stop.0 ≡ start (many_of self.now) c.0 + many_of self.now c.0 }
        ensures { MatchOption result
            ((x : ℕ) → stop.0 ≤ x → x < slots_in self.now → 0 < load (many_of self.now) x + many_of self.now x)
            (λ u. FirstFree (many_of self.now) stop.0 u.0 × (u.0 < slots_in self.now)) }
    {
        // kept: `x` jumps to where the runs of all quotients up to it stop, so no range counts it, and `successors` would count them twice;
        // in a later block it goes by that block's offset, and reads no words in between
        let mut past = c.0;
        let mut x = stop.0;
        while x < 64 * self.count {
            let next = if past / 64 < x / 64 {
                self.stop_of(Quotient(x))
            } else {
                let more = self.blocks.occupied_after(Quotient(past), Quotient(x));
                self.after_runends(Slot(x), more)
            };
            if next.0 == x {
                return Some(Slot(x));
            }
            past = x;
            x = next.0;
        }
        None
    }

    /// The first slot at or after slot `stop`, where the run of `c` stops, at which no entry waits that has a quotient below it.
    pub(crate) fn first_idle(&self, c: Quotient, stop: Slot) -> Slot
        requires run { 0 < many_of self.now c.0 }
        requires stop { stop.0 ≡ start (many_of self.now) c.0 + many_of self.now c.0 }
        requires slots { stop.0 ≤ slots_in self.now }
        ensures idle { FirstIdle (many_of self.now) (stop.0 - 1) result.0 }
        ensures bound { result.0 ≤ slots_in self.now }
    {
        // kept: `x` jumps to where the runs of all quotients below it stop, as above
        let mut past = c.0;
        let mut x = stop.0;
        while x < 64 * self.count {
            let next = if past / 64 < x / 64 {
                self.start_of(Quotient(x))
            } else {
                let more = self.blocks.occupied_after(Quotient(past), Quotient(x - 1));
                self.after_runends(Slot(x), more)
            };
            if next.0 == x {
                return Slot(x);
            }
            past = x - 1;
            x = next.0;
        }
        Slot(x)
    }
}
