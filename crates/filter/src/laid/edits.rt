//! Where an entry comes or goes.
ghost use Rattle.std.specs.Prelude.{◌≡◌, ◌^◌, ◌<◌, MatchOption};
ghost use Rattle.layout.specs.Rule.{quotient};
ghost use Rattle.layout.specs.Laws.{copies_of};
ghost use Rattle.filter.specs.Arrivals.{Arrives, NoneArrives, Departs};
ghost use Rattle.filter.specs.Layouts.{bits_of, entries};

use crate::cuts::{quotient_of, remainder_of};
use crate::editing::{Arrival, Departure};
use crate::laid::Layout;
use crate::laid::runs::Run;
use blocks::Slot;

impl Layout<'_> {
    /// Where one more entry of a fingerprint comes: none where all slots from its quotient on are used.
    pub(crate) fn arrival(&self, fingerprint: u64) -> Option<Arrival>
        requires { quotient (bits_of self.now) fingerprint < 2 ^ 32 }
        ensures { MatchOption result
            (NoneArrives (bits_of self.now) self.now.count (entries self.now) fingerprint)
            (λ a. Arrives (bits_of self.now) self.now.count (entries self.now) fingerprint a.quotient.0 a.at.0 a.free.0 a.remainder a.ends a.follows) }
    {
        let quotient = quotient_of(self.blocks.width, fingerprint);
        let remainder = remainder_of(self.blocks.width, fingerprint);
        let Run { from, to } = self.run_of(quotient);
        let free = self.first_free(quotient, to)?;
        let at = self.seek(from, to, remainder);
        let ends = at.0 == to.0;
        Some(Arrival {
            quotient,
            at,
            free,
            remainder,
            ends,
            follows: from.0 < at.0 && ends,
        })
    }

    /// Where one entry of a fingerprint goes: none where no entry has it.
    pub(crate) fn departure(&self, fingerprint: u64) -> Option<Departure>
        requires { quotient (bits_of self.now) fingerprint < 2 ^ 32 }
        ensures { MatchOption result
            (copies_of fingerprint (entries self.now) ≡ 0)
            (λ d. Departs (bits_of self.now) self.now.count (entries self.now) fingerprint d.quotient.0 d.at.0 d.gap.0 d.follows d.only) }
    {
        let place = self.find(fingerprint)?;
        let idle = self.first_idle(place.quotient, place.to);
        let last = place.at.0 + 1 == place.to.0;
        Some(Departure {
            quotient: place.quotient,
            at: place.at,
            gap: Slot(idle.0 - 1),
            follows: place.from.0 < place.at.0 && last,
            only: place.from.0 + 1 == place.to.0,
        })
    }
}
