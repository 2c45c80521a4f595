ghost use Rattle.std.specs.Prelude.{◌≡◌, ◌++◌, Some, codes, decimal};
ghost use Rattle.answers.specs.Faults.{refusal_number, buffer_fault_number};
ghost use Rattle.answers.specs.declared.fault.Refusal.TheVariants.{Buffer, Line, Book};

use forms::LineFault;
use history::BookFault;
use std::error::Error;
use std::fmt;

/// Why an answer is not written.
#[derive(Clone, Copy, PartialEq, Eq, Debug)]
pub enum BufferFault {
    /// The buffer has fewer than 32 bytes.
    ShortBuffer,
}

impl BufferFault {
    /// The number that a customer sees.
    pub fn number(self) -> u32
        ensures { result ≡ buffer_fault_number self }
    {
        match self {
            BufferFault::ShortBuffer => 52,
        }
    }
}

/// Its number.
// kept: Display is implemented for one type at a time, and no macro of the repository may write impls.
impl fmt::Display for BufferFault {
    ghost output = { λ f. Some (decimal (buffer_fault_number f)) };

    fn fmt<W: fmt::Write>(&self, f: &mut fmt::Formatter<W>) -> fmt::Result {
        let number = self.number();
        write!(f, "{number}")
    }
}

impl Error for BufferFault {}

/// Why a line or a whole sheet is turned away: the part that refuses, and its fault.
#[derive(Clone, Copy, PartialEq, Eq, Debug)]
pub enum Refusal {
    /// The sheet has over 65,535 bytes.
    LongSheet,
    /// The answer has no room.
    Buffer(BufferFault),
    /// The line says nothing that a book can be asked.
    Line(LineFault),
    /// The book refuses.
    Book(BookFault),
}

impl Refusal {
    /// The number that a customer sees.
    pub fn number(self) -> u32
        ensures { result ≡ refusal_number self }
    {
        match self {
            Refusal::LongSheet => 54,
            Refusal::Buffer(fault) => fault.number(),
            Refusal::Line(fault) => fault.number(),
            Refusal::Book(fault) => fault.number(),
        }
    }
}

/// Its number.
// kept: Display is implemented for one type at a time, and no macro of the repository may write impls.
impl fmt::Display for Refusal {
    ghost output = { λ f. Some (decimal (refusal_number f)) };

    fn fmt<W: fmt::Write>(&self, f: &mut fmt::Formatter<W>) -> fmt::Result {
        write!(f, "{}", self.number())
    }
}

impl Error for Refusal {}

impl From<BufferFault> for Refusal {
    ghost from_gives = { λ f r. r ≡ Buffer f };

    fn from(f: BufferFault) -> Refusal {
        Refusal::Buffer(f)
    }
}

impl From<LineFault> for Refusal {
    ghost from_gives = { λ f r. r ≡ Line f };

    fn from(f: LineFault) -> Refusal {
        Refusal::Line(f)
    }
}

impl From<BookFault> for Refusal {
    ghost from_gives = { λ f r. r ≡ Book f };

    fn from(f: BookFault) -> Refusal {
        Refusal::Book(f)
    }
}

/// A refusal with its line. A refusal of the whole sheet has line 0.
// kept: that is the number under which it is answered.
#[derive(Clone, Copy, PartialEq, Eq, Debug)]
pub struct SheetFault {
    pub line: u32,
    pub fault: Refusal,
}

/// Its line and its number, as they are written in answer to the line, without byte 10.
impl fmt::Display for SheetFault {
    ghost output = { λ f. Some
        (decimal f.line ++ (codes " fault " ++ decimal (refusal_number f.fault))) };

    fn fmt<W: fmt::Write>(&self, f: &mut fmt::Formatter<W>) -> fmt::Result {
        write!(f, "{} fault {}", self.line, self.fault)
    }
}

impl Error for SheetFault {}
