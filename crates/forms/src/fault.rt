ghost use Rattle.std.specs.Prelude.{◌≡◌, Some, decimal};
ghost use Rattle.forms.specs.Faults.{line_fault_number, of_figure};
ghost use Rattle.forms.specs.declared.fault.LineFault.TheVariants.{Key};

use figures::FigureFault;
use kinds::KeyFault;
use std::error::Error;
use std::fmt;

/// Why a line is turned away before a book is asked. Where several hold, the first of them is given.
#[derive(Clone, Copy, PartialEq, Eq, Debug, Drop)]
pub enum LineFault {
    /// The line has over 80 bytes, its byte 10 not counted.
    LongLine,
    /// The line has none of the six forms.
    Unreadable,
    /// A glyph number above 65,535, or a value outside -32,768 to 32,767.
    TooLarge,
    /// The key is refused.
    Key(KeyFault),
}

impl LineFault {
    /// The number that a customer sees.
    pub fn number(self) -> u32
        ensures { result ≡ line_fault_number self }
    {
        match self {
            LineFault::LongLine => 53,
            LineFault::Unreadable => 50,
            LineFault::TooLarge => 51,
            LineFault::Key(fault) => fault.number(),
        }
    }
}

/// The number that a customer sees, as it is printed.
// kept: Display is implemented for one type at a time, and no macro of the repository may write impls.
impl fmt::Display for LineFault {
    ghost output = { λ f. Some (decimal (line_fault_number f)) };

    fn fmt<W: fmt::Write>(&self, f: &mut fmt::Formatter<W>) -> fmt::Result {
        write!(f, "{}", self.number())
    }
}

impl Error for LineFault {}

impl From<FigureFault> for LineFault {
    ghost from_gives = { λ f r. r ≡ of_figure f };

    fn from(f: FigureFault) -> LineFault {
        match f {
            FigureFault::Unreadable => LineFault::Unreadable,
            FigureFault::TooLarge => LineFault::TooLarge,
        }
    }
}

impl From<KeyFault> for LineFault {
    ghost from_gives = { λ f r. r ≡ Key f };

    fn from(f: KeyFault) -> LineFault {
        LineFault::Key(f)
    }
}
