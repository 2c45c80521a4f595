//! Answers the sheet on standard input, line by line, by a kerning book and a ligature book that begin empty.
#![tactic(auto)]

ghost use Rattle.std.specs.Prelude.{◌≡◌, ◌≤◌, ◌⊎◌, ℕ, List, Option, [], ◌++◌, length, take, Err, IfOk, IfErr, IfSome};
ghost use Rattle.kinds.specs.Bytes.{pair_bytes, sequence_bytes};
ghost use Rattle.figures.specs.Coming.{lines_left};
ghost use Rattle.book.specs.Reached.{state};
ghost use Rattle.answers.specs.Texts.{answer_line};
ghost use Rattle.console.specs.declared.fault.Fault.TheVariants.{Memory, Stream};
ghost use Rattle.console.specs.Sending.{Sent};
ghost use Rattle.kernsheet.specs.Fresh.{IsFresh, terms};
ghost use Rattle.kernsheet.specs.Sheets.{LinesAnswered, OneAnswer, Replied};

use answers::{SheetFault, write_fault};
use console::fault::Fault;
use console::output::send;
use console::text::read_text;
use filter::{Filter, Plan};
use kinds::{Fibonacci, Fingerprint, Fnv1a, Kern, Ligature, Pair, Sequence};
use listtable::ListTable;
use sheet::{Book, Lines, do_line, lines_of};
use std::alloc::Global;
use std::io::{Read, Write};
use std::process::ExitCode;
use tables::{Record, Table};

/// How many bytes are read: one more than a sheet may have.
const MOST: u64 = 65_536;

/// How many bytes of answers are gathered before they are written.
const PAGE: usize = 8192;

/// The plan of so many bits of a quotient and of a remainder.
fn plan_of(q: u32, r: u32) -> Plan
    requires { (6 ≤ q) × (q ≤ 20) × (1 ≤ r) × (r ≤ 32) }
    ensures { (result.q ≡ q) × (result.r ≡ r) }
{
    let Ok(plan) = Plan::new(q, r) else {
        unreachable!()
    };
    plan
}

/// Writes what comes after a text that was sent, or nothing where not all of that was written.
fn send_on<W: Write>(out: &mut W, sent: Result<(), Fault>, text: &[u8]) -> Result<(), Fault>
    ensures { (o : Option (List ℕ)) (part : List ℕ) → Sent o (W.contents out.old) part sent
        → Sent o (W.contents out.new) (part ++ text.now) result }
{
    sent?;
    send(out, text)
}

/// Does the lines in turn, and writes their answers. The books hold nothing before. Nothing is allocated for it. Where the stream fails, the other lines
/// are done all the same: what was written is a beginning of the text that answers all.
// kept: the books are over any tables and fingerprints, since a contract names what these say of themselves by their type parameters.
fn answer_lines<
    W: Write,
    X: Table<Kern>,
    P: Fingerprint<Kern>,
    Y: Table<Ligature>,
    Q: Fingerprint<Ligature>,
>(
    out: &mut W,
    kerns: &mut Book<'_, '_, '_, '_, X, P>,
    ligatures: &mut Book<'_, '_, '_, '_, Y, Q>,
    lines: Lines<'_>,
) -> Result<(), Fault>
    requires few { length (lines_left lines) ≤ 65535 }
    requires kerns { X.Table.sound kerns.old.table.now }
    requires ligatures { Y.Table.sound ligatures.old.table.now }
    requires fresh_kerns { let kern = state X.Table.meaning P.Fingerprint.number kerns.old in
        IsFresh pair_bytes kern }
    requires fresh_ligatures { let ligature = state Y.Table.meaning Q.Fingerprint.number ligatures.old in
        IsFresh sequence_bytes ligature }
    ensures { let kern = state X.Table.meaning P.Fingerprint.number kerns.old in
        let ligature = state Y.Table.meaning Q.Fingerprint.number ligatures.old in
        (text : List ℕ)
        × LinesAnswered (terms pair_bytes kern) (terms sequence_bytes ligature) [] [] 1
        (lines_left lines.entry) text
        × Sent (W.contents out.old) (W.contents out.new) text result }
{
    let mut page = [0u8; PAGE];
    let mut filled = 0;
    let mut sent = Ok(());
    for (line, number) in lines.zip(1..) {
        if PAGE - filled < 32 {
            sent = send_on(out, sent, &page[..filled]);
            filled = 0;
        }
        let Ok(bytes) = do_line(kerns, ligatures, &mut page[filled..], number, line) else {
            unreachable!()
        };
        filled += bytes;
    }
    send_on(out, sent, &page[..filled])
}

/// Writes the answer to a sheet that is refused as a whole.
fn answer_fault<W: Write>(out: &mut W, fault: SheetFault) -> Result<(), Fault>
    ensures { Sent (W.contents out.old) (W.contents out.new)
        (answer_line fault.line (Err fault.fault)) result }
{
    let mut answer = [0u8; 32];
    let Ok(bytes) = write_fault(&mut answer, fault) else {
        unreachable!()
    };
    send(out, &answer[..bytes])
}

/// Writes the text that answers a sheet, by two books that begin empty. A sheet that is too long gets one line.
fn answer_sheet<W: Write>(out: &mut W, sheet: &[u8]) -> Result<(), Fault>
    ensures { (text : List ℕ) × OneAnswer sheet.now text
        × Sent (W.contents out.old) (W.contents out.new) text result }
{
    let lines = match lines_of(sheet) {
        Ok(lines) => lines,
        Err(fault) => return answer_fault(out, fault),
    };
    let mut kern_words = [0u64; 135];
    let mut kern_records = [Record {
        key: Pair { left: 0, right: 0 },
        value: 0i16,
    }; 256];
    let mut ligature_words = [0u64; 38];
    let mut ligature_records = [Record {
        key: Sequence::Two(0, 0),
        value: 0u16,
    }; 64];
    let mut kern_filter = Filter::begin(plan_of(8, 24), &mut kern_words);
    let mut kern_table = ListTable::<Kern>::begin(&mut kern_records);
    let mut ligature_filter = Filter::begin(plan_of(6, 16), &mut ligature_words);
    let mut ligature_table = ListTable::<Ligature>::begin(&mut ligature_records);
    let mut kerns = Book {
        filter: &mut kern_filter,
        table: &mut kern_table,
        by: &Fibonacci,
    };
    let mut ligatures = Book {
        filter: &mut ligature_filter,
        table: &mut ligature_table,
        by: &Fnv1a,
    };
    answer_lines(out, &mut kerns, &mut ligatures, lines)
}

/// The sheet that an input has, but no more bytes than show that it is too long.
fn read_sheet<R: Read + Drop>(heap: Global, input: R) -> Result<Vec<u8>, Fault>
    ensures sheet { IfOk result (λ sheet.
        IfSome (R.remaining input) (λ bytes. sheet.items ≡ take 65536 bytes)) }
    ensures fault { IfErr result (λ fault. (fault ≡ Memory) ⊎ (fault ≡ Stream)) }
{
    read_text(heap, &mut input.take(MOST))
}

/// Answers the sheet that an input has. Nothing is written before all of it is read, and nothing is allocated after that.
fn answer_input<R: Read + Drop, W: Write>(heap: Global, input: R, out: &mut W) -> Result<(), Fault>
    ensures { Replied W.contents (R.remaining input) out.old out.new result }
{
    let sheet = read_sheet(heap, input)?;
    answer_sheet(out, sheet.as_slice())
}

fn main(rt: HostRuntime) -> ExitCode {
    match answer_input(rt.alloc(), rt.stdin(), &mut rt.stdout()) {
        Ok(()) => ExitCode::SUCCESS,
        Err(Fault::Memory) => {
            let _ = rt.eprintln("kernsheet: out of memory");
            ExitCode::FAILURE
        }
        Err(_) => {
            let _ = rt.eprintln("kernsheet: standard input or output fails");
            ExitCode::FAILURE
        }
    }
}
