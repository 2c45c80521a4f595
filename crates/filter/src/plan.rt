ghost use Rattle.std.specs.Prelude.{◌≡◌, ℕ, ◌+◌, ◌-◌, ◌%◌, ◌^◌, ◌<◌, ◌≤◌, MatchResult, nat_lt};
ghost use Rattle.layout.specs.Format.{block_count};
ghost use Rattle.filter.specs.Meaning.{size_of};

use crate::fault::FilterFault;
use words::Width;

/// No filter has more blocks.
pub const MOST_BLOCKS: usize = 16640;

/// How a fingerprint is cut: its quotient has q bits, 6 to 20, and its remainder r bits, 1 to 32.
#[derive(Clone, Copy, PartialEq, Eq, Debug)]
pub struct Plan {
    pub(crate) q: u32,
    pub(crate) r: u32,
    ghost low: { 6 ≤ q },
    ghost high: { q ≤ 20 },
    ghost some: { 1 ≤ r },
    ghost most: { r ≤ 32 },
}

impl Plan {
    /// The plan of q and r, or a refusal where one is out of range.
    pub fn new(q: u32, r: u32) -> Result<Plan, FilterFault>
        ensures { MatchResult result (λ p. (p.q ≡ q) × (p.r ≡ r)) (λ e. (e ≡ FilterFault.BadPlan) × (((6 ≤ q) × (q ≤ 20) × (1 ≤ r) × (r ≤ 32)) → ⊥)) }
    {
        if (6..=20).contains(&q) && (1..=32).contains(&r) {
            Ok(Plan { q, r })
        } else {
            Err(FilterFault::BadPlan)
        }
    }

    /// The bits of a quotient.
    pub fn q(self) -> u32
        ensures { result ≡ self.q }
    {
        self.q
    }

    /// The bits of a remainder.
    pub fn r(self) -> u32
        ensures { result ≡ self.r }
    {
        self.r
    }

    /// The bits of a remainder, as the width of a packed field.
    pub fn width(self) -> Width
        ensures { result.bits ≡ self.r }
    {
        Width { bits: self.r }
    }

    /// A number cut to a fingerprint under the plan: what is left of it by 2^(q + r).
    pub fn cut(self, number: u64) -> u64
        ensures { result ≡ number % 2 ^ (self.q + self.r) }
    {
        number & ((1 << (self.q + self.r)) - 1)
    }

    /// Whether a number is a fingerprint under the plan.
    pub fn admits(self, fingerprint: u64) -> bool
        ensures { result ≡ nat_lt fingerprint (2 ^ (self.q + self.r)) }
    {
        fingerprint < 1 << (self.q + self.r)
    }

    /// How many blocks a filter makes of `n` words.
    pub(crate) fn blocks_of(self, n: usize) -> u32
        ensures { result ≡ block_count self.r n }
    {
        (n / (self.r as usize + 3)).min(MOST_BLOCKS) as u32
    }

    /// How many words that many blocks have.
    pub(crate) fn size_of(self, blocks: u32) -> usize
        ensures { result ≡ size_of self.r blocks }
    {
        blocks as usize * (self.r as usize + 3)
    }
}
