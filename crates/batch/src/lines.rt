ghost use Rattle.std.specs.Prelude.{Some};
ghost use Rattle.batch.specs.Reports.{refused_line_text};

use answers::Refusal;
use forms::LineFault;
use history::Call;
use kinds::{Pair, Sequence};
use std::fmt;

/// One of the two books.
#[derive(Clone, Copy, PartialEq, Eq, Debug)]
pub enum BookKind {
    /// The kerning book.
    Kern,
    /// The ligature book.
    Ligature,
}

/// Where a line goes: to a book, or nowhere, since it is refused before a book is asked.
pub type Destination = Result<BookKind, LineFault>;

/// The lines of a text, sorted by book. What a book answers is written into its calls.
#[derive(Drop)]
pub struct Batch {
    /// The calls of the kerning book, in the order of their lines.
    pub kerns: Vec<Call<Pair, i16>>,
    /// The calls of the ligature book, in the order of their lines.
    pub ligatures: Vec<Call<Sequence, u16>>,
    /// Where each line goes.
    pub lines: Vec<Destination>,
}

/// A line that is refused, counted from 1, and why.
// kept beside `SheetFault`, which has a u32 in place of the usize: a text may have more lines than a sheet, and one generic struct for both would be no
// plainer than these two fields.
#[derive(Clone, Copy, PartialEq, Eq, Debug)]
pub struct RefusedLine {
    pub line: usize,
    pub fault: Refusal,
}

/// Its number and that of its refusal.
impl fmt::Display for RefusedLine {
    ghost output = { λ r. Some (refused_line_text r) };

    fn fmt<W: fmt::Write>(&self, f: &mut fmt::Formatter<W>) -> fmt::Result {
        write!(f, "line {} fault {}", self.line, self.fault)
    }
}
