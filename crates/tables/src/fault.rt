ghost use Rattle.std.specs.Prelude.{◌≡◌, Some};
ghost use Rattle.std.specs.Fmt.{decimal};
ghost use Rattle.tables.specs.Faults.{table_fault_number};

use std::error::Error;
use std::fmt;

/// Why a table turns a call away.
#[derive(Clone, Copy, PartialEq, Eq, Debug)]
pub enum TableFault {
    /// The table does not admit the key.
    ForeignGlyph,
    /// The key is new, and as many are held as the table has capacity for.
    TableFull,
    /// The key is not held.
    NotHeld,
}

impl TableFault {
    /// The number that a customer sees.
    pub fn number(self) -> u32
        ensures { result ≡ table_fault_number self }
    {
        match self {
            TableFault::ForeignGlyph => 30,
            TableFault::TableFull => 31,
            TableFault::NotHeld => 32,
        }
    }
}

/// The number, in decimal digits.
// kept: Display is implemented for one type at a time, and no macro of the repository may write impls.
impl fmt::Display for TableFault {
    ghost output = { λ fault. Some (decimal (table_fault_number fault)) };

    fn fmt<W: fmt::Write>(&self, f: &mut fmt::Formatter<W>) -> fmt::Result {
        write!(f, "{}", self.number())
    }
}

impl Error for TableFault {}
