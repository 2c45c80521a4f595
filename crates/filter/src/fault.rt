ghost use Rattle.std.specs.Prelude.{◌≡◌, Some, decimal};
ghost use Rattle.filter.specs.Faults.{filter_fault_number};

use std::error::Error;
use std::fmt;

/// Why a plan or a filter turns a call away.
#[derive(Clone, Copy, PartialEq, Eq, Debug)]
pub enum FilterFault {
    /// q or r is out of range.
    BadPlan,
    /// The fingerprint is 2^(q + r) or more.
    WideFingerprint,
    /// Some quotient is crowded.
    NoSlot,
    /// No entry has the fingerprint.
    NoSuchFingerprint,
}

impl FilterFault {
    /// The number that a customer sees.
    pub fn number(self) -> u32
        ensures { result ≡ filter_fault_number self }
    {
        match self {
            FilterFault::BadPlan => 10,
            FilterFault::WideFingerprint => 12,
            FilterFault::NoSlot => 20,
            FilterFault::NoSuchFingerprint => 21,
        }
    }
}

// kept: Display is implemented for one type at a time, and no macro of the repository may write impls.
impl fmt::Display for FilterFault {
    ghost output = { λ e. Some (decimal (filter_fault_number e)) };

    fn fmt<W: fmt::Write>(&self, f: &mut fmt::Formatter<W>) -> fmt::Result {
        write!(f, "{}", self.number())
    }
}

impl Error for FilterFault {}
