//! What is printed: the refused lines, and both books.
ghost use Rattle.std.specs.Prelude.{flat_map, [], ◌∷◌, ◌++◌, IfOk};
ghost use Rattle.std.specs.Fmt.{decimal};
ghost use Rattle.batch.specs.Reports.{refused_line_text};
ghost use Rattle.console.specs.Sending.{Sent};
ghost use Rattle.kernwords.specs.Reports.{heading_text, book_text, report_text, Reported};

use crate::books::{BookWords, book_after};
use crate::sizes::{Size, ligature_size};
use batch::{RefusedLine, batch_of, refused_lines};
use console::fault::Fault;
use console::output::{send, send_number};
use console::storage::Blocks;
use kinds::{Fibonacci, Fnv1a, Kern, Ligature, Pair, Sequence};
use std::alloc::{AllocError, Global};
use std::io::Write;
use tables::Record;

/// What is printed in answer to a text.
#[derive(Drop)]
pub struct Report {
    refused: Vec<RefusedLine>,
    kerns: BookWords,
    ligatures: BookWords,
}

/// Writes a name, a number in decimal digits, and a byte after them.
fn send_named<W: Write>(out: &mut W, name: &[u8], number: u64, end: u8) -> Result<(), Fault>
    ensures { Sent (W.contents out.old) (W.contents out.new)
        (name.now ++ (decimal number ++ end ∷ [])) result }
{
    send(out, name)?;
    send_number(out, number, end)
}

/// Writes a refused line: its number and that of its refusal.
fn send_refused_line<W: Write>(out: &mut W, line: RefusedLine) -> Result<(), Fault>
    ensures { Sent (W.contents out.old) (W.contents out.new)
        (refused_line_text line ++ 10 ∷ []) result }
{
    send_named(out, b"line ", line.line as u64, b' ')?;
    send_named(out, b"fault ", u64::from(line.fault.number()), b'\n')
}

/// Writes refused lines, in order.
fn send_refused<W: Write>(out: &mut W, refused: &[RefusedLine]) -> Result<(), Fault>
    ensures { Sent (W.contents out.old) (W.contents out.new)
        (flat_map (λ l. refused_line_text l ++ 10 ∷ []) refused.now) result }
{
    for line in refused {
        send_refused_line(out, *line)?;
    }
    Ok(())
}

impl BookWords {
    /// Writes the line of its size and of how many keys it holds.
    fn send_heading<W: Write>(&self, out: &mut W) -> Result<(), Fault>
        ensures { Sent (W.contents out.old) (W.contents out.new) (heading_text self.now) result }
    {
        let plan = self.size.plan;
        let q = u64::from(plan.q());
        let r = u64::from(plan.r());
        let blocks = self.size.blocks;
        let slots = 64 * u64::from(blocks);
        send_named(out, b"q ", q, b' ')?;
        send_named(out, b"r ", r, b' ')?;
        send_named(out, b"blocks ", u64::from(blocks), b' ')?;
        send_named(out, b"slots ", slots, b' ')?;
        send_named(out, b"held ", u64::from(self.held), b'\n')
    }

    /// Writes that line, and a line for each block of its filter.
    fn send<W: Write>(&self, out: &mut W) -> Result<(), Fault>
        ensures { Sent (W.contents out.old) (W.contents out.new) (book_text self.now) result }
    {
        self.send_heading(out)?;
        Blocks::of(self.size.plan, self.words.as_slice()).send(out)
    }
}

impl Report {
    /// Writes the refused lines and both books, piece by piece. Nothing is allocated for it.
    pub fn send<W: Write>(&self, out: &mut W) -> Result<(), Fault>
        ensures { Sent (W.contents out.old) (W.contents out.new) (report_text self.now) result }
    {
        send_refused(out, self.refused.as_slice())?;
        send(out, b"kern ")?;
        self.kerns.send(out)?;
        send(out, b"ligature ")?;
        self.ligatures.send(out)
    }
}

/// What the lines of a text make of a kerning book of this size and of a ligature book, both empty at first.
pub fn report_of(heap: Global, size: Size, text: &[u8]) -> Result<Report, AllocError>
    ensures { IfOk result (Reported size text.now) }
{
    let mut batch = batch_of(heap, text)?;
    let no_kern = Record {
        key: Pair { left: 0, right: 0 },
        value: 0i16,
    };
    let kerns = book_after::<Kern, Fibonacci>(
        heap,
        size,
        no_kern,
        &Fibonacci,
        batch.kerns.as_mut_slice(),
    )?;
    let no_ligature = Record {
        key: Sequence::Two(0, 0),
        value: 0u16,
    };
    let ligatures = book_after::<Ligature, Fnv1a>(
        heap,
        ligature_size(),
        no_ligature,
        &Fnv1a,
        batch.ligatures.as_mut_slice(),
    )?;
    let refused = refused_lines(heap, &batch)?;
    Ok(Report {
        refused,
        kerns,
        ligatures,
    })
}
