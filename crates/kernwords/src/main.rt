//! Reads edits of a kerning book and a ligature book from standard input, and prints which of its lines are refused and the words of both filters.
#![tactic(auto)]

ghost use Rattle.kernwords.specs.Reports.{PrintDone};

mod books;
mod report;
mod sizes;

use console::fault::Fault;
use console::program::Program;
use console::request::Request;
use console::text::read_text;
use report::report_of;
use sizes::kern_size;
use std::alloc::Global;
use std::io::{Read, Write};
use std::process::ExitCode;

/// This program. With no arguments the kerning book is the one that ships.
const KERNWORDS: Program = Program {
    name: "kernwords",
    arguments: "[q r blocks]",
};

/// Prints what the edits that are read make of two books that begin empty. All that memory is wanted for is there before the first byte of it is written.
fn print_books<R: Read, W: Write>(
    heap: Global,
    input: &mut R,
    out: &mut W,
    request: Option<Request>,
) -> Result<(), Fault>
    ensures { PrintDone request (R.remaining input.old) (R.remaining input.new)
        (W.contents out.old) (W.contents out.new) result }
{
    let kern = kern_size(request)?;
    let text = read_text(heap, input)?;
    let report = report_of(heap, kern, text.as_slice())?;
    report.send(out)
}

fn main(rt: HostRuntime) -> ExitCode {
    KERNWORDS.run(&rt, |rt, out, request| {
        print_books(rt.alloc(), &mut rt.stdin(), out, request)
    })
}
