//! The arguments `q r blocks`, or none.
ghost use Rattle.std.specs.Prelude.{◌≡◌, ◌≤◌, MatchResult};
ghost use Rattle.console.specs.Requests.{WordsAsk, Requested};

use crate::fault::Fault;
use figures::{FigureFault, whole};
use filter::{FilterFault, Plan};

/// What the arguments ask for. A number above 65,536 counts as that, which is more than any plan or filter has.
// kept: 65,536 is no code: a plan refuses it as it does 65,535, and a filter takes 16,640 blocks for either.
#[derive(Clone, Copy, PartialEq, Eq, Debug)]
pub struct Request {
    pub q: u32,
    pub r: u32,
    pub blocks: u32,
}

/// What three words ask for, each a figure.
fn asked(q: &[u8], r: &[u8], blocks: &[u8]) -> Result<Request, FigureFault>
    ensures { WordsAsk q.now r.now blocks.now result }
{
    let q = whole(q)?;
    let r = whole(r)?;
    let blocks = whole(blocks)?;
    Ok(Request { q, r, blocks })
}

impl Request {
    /// What words ask for: nothing where there are none, else what three of them ask for.
    pub fn of(words: &[String]) -> Result<Option<Request>, Fault>
        ensures { Requested words.now result }
    {
        match words {
            [] => Ok(None),
            [q, r, blocks] => Ok(Some(asked(q.as_bytes(), r.as_bytes(), blocks.as_bytes())?)),
            _ => Err(Fault::Arguments),
        }
    }

    /// The plan of the request, or a refusal where q or r is out of range.
    pub fn plan(self) -> Result<Plan, FilterFault>
        ensures { MatchResult result (λ p. (p.q ≡ self.q) × (p.r ≡ self.r)) (λ e. (e ≡ FilterFault.BadPlan) × (((6 ≤ self.q) × (self.q ≤ 20) × (1 ≤ self.r) × (self.r ≤ 32)) → ⊥)) }
    {
        Plan::new(self.q, self.r)
    }
}
