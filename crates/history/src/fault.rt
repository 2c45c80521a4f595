ghost use Rattle.std.specs.Prelude.{◌≡◌, Some, decimal};
ghost use Rattle.history.specs.Faults.{book_fault_number};
ghost use Rattle.history.specs.declared.fault.BookFault.TheVariants.{Filter, Table};

use filter::FilterFault;
use std::error::Error;
use std::fmt;
use tables::TableFault;

/// Why a book turns a call away: the part that refuses, and its fault.
#[derive(Clone, Copy, PartialEq, Eq, Debug)]
pub enum BookFault {
    /// The filter refuses.
    Filter(FilterFault),
    /// The table refuses.
    Table(TableFault),
    /// The book itself: the key to be dropped is in the table, and its fingerprint not in the filter.
    StrangeFilter,
}

impl BookFault {
    /// The number that a customer sees.
    pub fn number(self) -> u32
        ensures { result ≡ book_fault_number self }
    {
        match self {
            BookFault::Filter(fault) => fault.number(),
            BookFault::Table(fault) => fault.number(),
            BookFault::StrangeFilter => 40,
        }
    }
}

/// The number that a customer sees.
// kept: Display is implemented for one type at a time, and no macro of the repository may write impls.
impl fmt::Display for BookFault {
    ghost output = { λ fault. Some (decimal (book_fault_number fault)) };

    fn fmt<W: fmt::Write>(&self, f: &mut fmt::Formatter<W>) -> fmt::Result {
        let number = self.number();
        write!(f, "{number}")
    }
}

impl Error for BookFault {}

impl From<FilterFault> for BookFault {
    ghost from_gives = { λ f r. r ≡ Filter f };

    fn from(f: FilterFault) -> BookFault {
        BookFault::Filter(f)
    }
}

impl From<TableFault> for BookFault {
    ghost from_gives = { λ f r. r ≡ Table f };

    fn from(f: TableFault) -> BookFault {
        BookFault::Table(f)
    }
}
