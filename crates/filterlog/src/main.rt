//! Reads a log of commands from standard input, runs them on one filter, and prints what each answers.
#![tactic(auto)]

ghost use Rattle.std.specs.Prelude.{None, OnOk};
ghost use Rattle.std.specs.Io.KnownBytes.{IsAtEnd};
ghost use Rattle.console.specs.Sending.{Sent};
ghost use Rattle.filterlog.specs.Answers.{edit_text};
ghost use Rattle.filterlog.specs.Runs.{QuestionDone, LinePrinted};
ghost use Rattle.filterlog.specs.Logs.{LogDone};

mod answers;
mod commands;

use answers::Answer;
use commands::{Command, Question, command_of};
use console::fault::Fault;
use console::output::{send, send_refusal};
use console::program::Program;
use console::request::Request;
use console::storage::blank;
use console::text::read_text;
use figures::lines::Lines;
use filter::{Filter, FilterFault};
use std::alloc::Global;
use std::io::{Read, Write};
use std::process::ExitCode;

/// This program, which takes three arguments and no fewer.
const FILTERLOG: Program = Program {
    name: "filterlog",
    arguments: "q r blocks",
};

/// Prints what an edit did. Nothing is allocated for it, so an edit that is done is answered or the stream fails.
fn print_edit<W: Write>(out: &mut W, edit: Result<(), FilterFault>) -> Result<(), Fault>
    ensures { Sent (W.contents out.old) (W.contents out.new) (edit_text edit) result }
{
    match edit {
        Ok(()) => send(out, b"ok\n"),
        Err(fault) => send_refusal(out, fault),
    }
}

/// Prints what a question is answered. All that memory is wanted for is there before the first byte of it is written.
fn print_told<W: Write>(
    heap: Global,
    out: &mut W,
    filter: &Filter<'_>,
    question: Question,
) -> Result<(), Fault>
    ensures { QuestionDone filter.now question (W.contents out.old) (W.contents out.new) result }
{
    let answer = Answer::of(heap, filter, question)?;
    answer.send(out)
}

/// Runs the command that a line is, and prints what it answers.
fn print_answer<W: Write>(
    heap: Global,
    out: &mut W,
    filter: &mut Filter<'_>,
    line: &[u8],
) -> Result<(), Fault>
    ensures { LinePrinted line.now filter.old filter.new (W.contents out.old) (W.contents out.new)
        result }
{
    match command_of(line) {
        Some(Command::Add(n)) => print_edit(out, filter.add(n)),
        Some(Command::Take(n)) => print_edit(out, filter.take(n)),
        Some(Command::Ask(question)) => print_told(heap, out, filter, question),
        None => send(out, b"unreadable\n"),
    }
}

/// Runs the commands of a log, in order, on a filter that is empty at first, and prints what they answer.
fn print_log<R: Read, W: Write>(
    heap: Global,
    log: &mut R,
    out: &mut W,
    request: Option<Request>,
) -> Result<(), Fault>
    ensures done { LogDone request (R.remaining log.old) (R.remaining log.new)
        (W.contents out.old) (W.contents out.new) result }
    ensures all { OnOk result (IsAtEnd (R.remaining log.new)) }
{
    let request = request.ok_or(Fault::Arguments)?;
    let plan = request.plan()?;
    let text = read_text(heap, log)?;
    let mut words = blank(heap, plan, request.blocks as usize)?;
    let mut filter = Filter::begin(plan, words.as_mut_slice());
    for line in Lines::of(text.as_slice()) {
        print_answer(heap, out, &mut filter, line)?;
    }
    Ok(())
}

/// Prints the answers to the log on standard input.
fn print_answers<W: Write>(
    rt: &HostRuntime,
    out: &mut W,
    request: Option<Request>,
) -> Result<(), Fault>
    ensures { LogDone request None None (W.contents out.old) (W.contents out.new) result }
{
    print_log(rt.alloc(), &mut rt.stdin(), out, request)
}

fn main(rt: HostRuntime) -> ExitCode {
    FILTERLOG.run(&rt, print_answers)
}
