//! What a line of a sheet does.
ghost use Rattle.book.specs.Standings.{standing, Steady};
ghost use Rattle.sheet.specs.Doing.{whole_book, LineDone, LineWritten};

use answers::{BufferFault, Done, Refusal, SheetFault, write_answer, write_fault};
use book::Book;
use forms::{Command, command_of};
use kinds::{Fingerprint, Kern, Ligature};
use replay::perform;
use tables::Table;

// kept: the two books stay two parameters, since they are of two kinds; a struct of both would have eight lifetimes and four types.

// Does a line, and tells what it did or why it is refused.
fn answer<X: Table<Kern>, P: Fingerprint<Kern>, Y: Table<Ligature>, Q: Fingerprint<Ligature>>(
    kerns: &mut Book<'_, '_, '_, '_, X, P>,
    ligatures: &mut Book<'_, '_, '_, '_, Y, Q>,
    line: &[u8],
) -> Result<Done, Refusal>
    requires kerns { X.Table.sound kerns.old.table.now }
    requires ligatures { Y.Table.sound ligatures.old.table.now }
    ensures kerns { X.Table.sound kerns.new.table.now }
    ensures ligatures { Y.Table.sound ligatures.new.table.now }
    ensures steady { let kern = standing X.Table.meaning X.Table.lender X.Table.beyond P.Fingerprint.number in
        let ligature = standing Y.Table.meaning Y.Table.lender Y.Table.beyond
        Q.Fingerprint.number in
        Steady (kern kerns.old) (kern kerns.new)
        × Steady (ligature ligatures.old) (ligature ligatures.new) }
    ensures done { let kern = whole_book X.Table.meaning X.Table.lender X.Table.beyond
        P.Fingerprint.number in
        let ligature = whole_book Y.Table.meaning Y.Table.lender Y.Table.beyond
        Q.Fingerprint.number in
        LineDone (kern kerns.old) (kern kerns.new)
        (ligature ligatures.old) (ligature ligatures.new) line.now result }
{
    match command_of(line)? {
        Command::Kern(operation) => Ok(Done::Kern(perform::<Kern, X, P>(kerns, &operation)?)),
        Command::Ligature(operation) => Ok(Done::Ligature(perform::<Ligature, Y, Q>(
            ligatures, &operation,
        )?)),
    }
}

/// Does one line of a sheet, without its byte 10, and writes the answer to the front of the buffer: the line's number, a space, what was done or
/// `fault` and the number of the refusal, and byte 10. Tells how many bytes these are; the later ones stay. A buffer of under 32 bytes is refused, and
/// then nothing is done. What the line does to the book that it names goes on with the law of that book; the other book stays as it is. Nothing is written
/// into a table but by a put or a drop that is done.
pub fn do_line<X: Table<Kern>, P: Fingerprint<Kern>, Y: Table<Ligature>, Q: Fingerprint<Ligature>>(
    kerns: &mut Book<'_, '_, '_, '_, X, P>,
    ligatures: &mut Book<'_, '_, '_, '_, Y, Q>,
    buf: &mut [u8],
    number: u32,
    line: &[u8],
) -> Result<usize, SheetFault>
    requires kerns { X.Table.sound kerns.old.table.now }
    requires ligatures { Y.Table.sound ligatures.old.table.now }
    ensures kerns { X.Table.sound kerns.new.table.now }
    ensures ligatures { Y.Table.sound ligatures.new.table.now }
    ensures steady { let kern = standing X.Table.meaning X.Table.lender X.Table.beyond P.Fingerprint.number in
        let ligature = standing Y.Table.meaning Y.Table.lender Y.Table.beyond
        Q.Fingerprint.number in
        Steady (kern kerns.old) (kern kerns.new)
        × Steady (ligature ligatures.old) (ligature ligatures.new) }
    ensures written { let kern = whole_book X.Table.meaning X.Table.lender X.Table.beyond
        P.Fingerprint.number in
        let ligature = whole_book Y.Table.meaning Y.Table.lender Y.Table.beyond
        Q.Fingerprint.number in
        LineWritten (kern kerns.old) (kern kerns.new)
        (ligature ligatures.old) (ligature ligatures.new) number line.now buf.old buf.new result }
{
    if buf.len() < 32 {
        return Err(SheetFault {
            line: number,
            fault: Refusal::Buffer(BufferFault::ShortBuffer),
        });
    }
    let written = match answer(kerns, ligatures, line) {
        Ok(done) => write_answer(buf, number, Ok(done)),
        Err(fault) => write_fault(
            buf,
            SheetFault {
                line: number,
                fault,
            },
        ),
    };
    let Ok(bytes) = written else {
        unreachable!() // the buffer is long enough
    };
    Ok(bytes)
}
