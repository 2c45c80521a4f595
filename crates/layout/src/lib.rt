//! The layout rule of the filter, the words that follow from it, and its laws.
#![tactic(auto)]

ghost use Rattle.std.specs.Prelude.{◌≡◌, ℕ, ◌≤◌};
ghost use Rattle.layout.specs.All.{Laws};
ghost use Rattle.layout.specs.Rule.{Sorted, Roomy};

use words::Width;

/// The laws of the layout. Nothing is done; what counts is the contract.
pub fn laws()
    ensures { Laws }
{}

/// How many slots the layout of fingerprints in rising order takes, from slot 0 to the last used one: it fits into that many slots or more,
/// and into no fewer. A list has a layout in some slots just where no quotient is crowded there.
pub fn slots_needed(rising: &[u64], width: Width) -> u64
    ensures fits { Sorted rising.now → (slots : ℕ) → result ≤ slots → Roomy slots width.bits rising.now }
    ensures only { Sorted rising.now → (slots : ℕ) → Roomy slots width.bits rising.now → result ≤ slots }
{
    let mut next: u64 = 0;
    for p in rising {
        next = (*p >> width.bits).max(next) + 1;
    }
    next
}
