//! Finds the entries of a fingerprint.
ghost use Rattle.std.specs.Prelude.{◌≡◌, ℕ, ◌+◌, ◌*◌, ◌^◌, ◌<◌, ◌≤◌, MatchOption, ◌≢◌, true, false, nat_lt};
ghost use Rattle.layout.specs.Rule.{quotient};
ghost use Rattle.layout.specs.Laws.{copies_of};
ghost use Rattle.layout.specs.Load.{start};
ghost use Rattle.filter.specs.Locating.{Placed};
ghost use Rattle.filter.specs.Slots.{InRun};
ghost use Rattle.filter.specs.Layouts.{bits_of, entries, many_of, remainders_of};

use crate::cuts::{quotient_of, remainder_of};
use crate::laid::Layout;
use crate::laid::runs::Run;
use blocks::{Quotient, Slot};

/// Where an entry of a fingerprint lies: in slot `at`, in the run of its quotient from slot `from` up to slot `to`.
#[derive(Clone, Copy)]
pub(crate) struct Place {
    pub(crate) quotient: Quotient,
    pub(crate) from: Slot,
    pub(crate) to: Slot,
    pub(crate) at: Slot,
}

impl Layout<'_> {
    /// The first slot from `from` up to `to` whose remainder is `rem` or more, or `to` where there is none.
    pub(crate) fn seek(&self, from: Slot, to: Slot, rem: u32) -> Slot
        requires { from.0 ≤ to.0 }
        ensures range { (from.0 ≤ result.0) × (result.0 ≤ to.0) }
        ensures below { (k : ℕ) → from.0 ≤ k → k < result.0 → remainders_of self.now k < rem }
        ensures here { result.0 < to.0 → rem ≤ remainders_of self.now result.0 }
    {
        (from.0..to.0)
            .find(|s| self.blocks.remainder(Slot(*s)) >= rem)
            .map_or(to, Slot)
    }

    /// The first entry with that remainder in the run of quotient `c`, if there is one.
    fn in_run(&self, c: Quotient, rem: u32) -> Option<Place>
        ensures { MatchOption result
            ((k : ℕ) → k < many_of self.now c.0 → remainders_of self.now (start (many_of self.now) c.0 + k) ≢ rem)
            (λ x. (x.quotient.0 ≡ c.0) × (x.from.0 ≡ start (many_of self.now) c.0) × (x.to.0 ≡ x.from.0 + many_of self.now c.0)
            × InRun (many_of self.now) c.0 x.at.0 × (remainders_of self.now x.at.0 ≡ rem)) }
    {
        let Run { from, to } = self.run_of(c);
        let at = self.seek(from, to, rem);
        if at.0 < to.0 && self.blocks.remainder(at) == rem {
            Some(Place {
                quotient: c,
                from,
                to,
                at,
            })
        } else {
            None
        }
    }

    /// Where an entry of a fingerprint lies, if there is one.
    pub(crate) fn find(&self, fingerprint: u64) -> Option<Place>
        requires { quotient (bits_of self.now) fingerprint < 2 ^ 32 }
        ensures { MatchOption result
            (copies_of fingerprint (entries self.now) ≡ 0)
            (λ x. Placed (bits_of self.now) (entries self.now) fingerprint x.quotient.0 x.from.0 x.to.0 x.at.0) }
    {
        let c = quotient_of(self.blocks.width, fingerprint);
        if !self.blocks.occupied(c) {
            return None;
        }
        self.in_run(c, remainder_of(self.blocks.width, fingerprint))
    }

    /// Whether an entry of the run of quotient `c` has that remainder.
    fn run_has(&self, c: Quotient, rem: u32) -> bool
        ensures yes { result ≡ true → (s : ℕ) × InRun (many_of self.now) c.0 s × (remainders_of self.now s ≡ rem) }
        ensures not { result ≡ false → (s : ℕ) → InRun (many_of self.now) c.0 s → remainders_of self.now s ≢ rem }
    {
        let Run { from, to } = self.run_of(c);
        let first = self.seek(from, to, rem);
        first.0 < to.0 && self.blocks.remainder(first) == rem
    }

    /// Whether an entry has the fingerprint.
    pub(crate) fn has(&self, fingerprint: u64) -> bool
        requires { quotient (bits_of self.now) fingerprint < 2 ^ 32 }
        ensures { result ≡ nat_lt 0 (copies_of fingerprint (entries self.now)) }
    {
        let c = quotient_of(self.blocks.width, fingerprint);
        self.blocks.occupied(c) && self.run_has(c, remainder_of(self.blocks.width, fingerprint))
    }
}
