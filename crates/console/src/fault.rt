//! Why a program stops.
ghost use Rattle.std.specs.Prelude.{◌≡◌};
ghost use Rattle.console.specs.declared.fault.Fault.TheVariants.{Memory, Arguments, Filter};

use figures::FigureFault;
use filter::FilterFault;
use std::alloc::{AllocError, AllocFailed};

/// Why a program stops.
#[derive(Debug, Drop)]
pub enum Fault {
    /// There is no memory.
    Memory,
    /// Standard input or output fails.
    Stream,
    /// The arguments are not those that the program takes.
    Arguments,
    /// The plan or the filter refuses.
    Filter(FilterFault),
}

impl From<AllocError> for Fault {
    ghost from_gives = { λ _ r. r ≡ Memory };

    fn from(_e: AllocError) -> Fault {
        Fault::Memory
    }
}

impl<T: Drop> From<AllocFailed<T>> for Fault {
    ghost from_gives = { λ _ r. r ≡ Memory };

    fn from(_e: AllocFailed<T>) -> Fault {
        Fault::Memory
    }
}

impl From<FigureFault> for Fault {
    ghost from_gives = { λ _ r. r ≡ Arguments };

    fn from(_e: FigureFault) -> Fault {
        Fault::Arguments
    }
}

impl From<FilterFault> for Fault {
    ghost from_gives = { λ f r. r ≡ Filter f };

    fn from(f: FilterFault) -> Fault {
        Fault::Filter(f)
    }
}
