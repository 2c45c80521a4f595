//! How a program runs and ends.
ghost use Rattle.std.specs.Prelude.{◌≡◌, ◌≢◌, ◌⊎◌, drop, MatchResult, Some};
ghost use Rattle.std.specs.IoError.{error_kind};
ghost use Rattle.console.specs.declared.fault.Fault.TheVariants.{Memory, Arguments};
ghost use Rattle.console.specs.Texts.{refusal_text, stop_text};
ghost use Rattle.console.specs.Endings.{Concluded, Served, Unserved, Performed, Unperformed};

use crate::fault::Fault;
use crate::output::{buffered, send_refusal};
use crate::request::Request;
use filter::FilterFault;
use std::io::{BufWriter, ErrorKind, Stdout, Write};
use std::process::ExitCode;
use std::{env, fmt, io};

/// The line that shows a refusal: its number.
#[derive(Clone, Copy, PartialEq, Eq, Debug)]
pub struct Refused(pub FilterFault);

impl fmt::Display for Refused {
    ghost output = { λ r. Some (refusal_text r.0) };

    fn fmt<W: fmt::Write>(&self, f: &mut fmt::Formatter<W>) -> fmt::Result {
        let number = self.0.number();
        write!(f, "refused {number}")
    }
}

/// A program that prints what a request of three numbers, or none, and standard input ask for.
#[derive(Clone, Copy)]
pub struct Program {
    /// Its name.
    pub name: &'static str,
    /// The arguments that it takes, as its usage shows them.
    pub arguments: &'static str,
}

/// Why a program stops, as it says on standard error.
#[derive(Drop)]
struct Stop<'a> {
    program: &'a Program,
    fault: &'a Fault,
}

impl fmt::Display for Stop<'_> {
    ghost output = { λ s. Some (stop_text s.program.now s.fault.now) };

    fn fmt<W: fmt::Write>(&self, f: &mut fmt::Formatter<W>) -> fmt::Result {
        let name = self.program.name;
        let arguments = self.program.arguments;
        match self.fault {
            Fault::Arguments => write!(f, "usage: {name} {arguments}"),
            Fault::Memory => write!(f, "{name}: out of memory"),
            Fault::Stream => write!(f, "{name}: standard input or output fails"),
            Fault::Filter(_) => write!(f, "{name}: refused"),
        }
    }
}

// Why the arguments cannot be read: memory lacks, or one is no text, and then it is none that a program takes.
fn arguments_fault(error: io::Error) -> Fault
    ensures memory { error_kind error ≡ ErrorKind.OutOfMemory → result ≡ Memory }
    ensures text { error_kind error ≢ ErrorKind.OutOfMemory → result ≡ Arguments }
    ensures either { (result ≡ Memory) ⊎ (result ≡ Arguments) }
{
    match error.kind() {
        ErrorKind::OutOfMemory => Fault::Memory,
        _ => Fault::Arguments,
    }
}

/// The words of a program's arguments: its own name stands before them.
fn words_of(arguments: &[String]) -> &[String]
    ensures { result.now ≡ drop 1 arguments.now }
{
    match arguments {
        [_, words @ ..] => words,
        [] => &[],
    }
}

/// Ends what a program prints: a refusal is its last line, and nothing is left in the buffer.
// What a buffer that is dropped still writes is left open: a drop has no contract, so of a program that stops it is said what the writer and its buffer had.
fn conclude<W: Write + Drop>(out: &mut BufWriter<W>, done: Result<(), Fault>) -> Result<(), Fault>
    ensures { Concluded W.contents done out.old out.new result }
{
    match done {
        Ok(()) => {}
        Err(Fault::Filter(fault)) => send_refusal(out, fault)?,
        Err(fault) => return Err(fault),
    }
    out.flush().map_err(|_| Fault::Stream)
}

/// Prints to a buffer what the arguments ask for, and leaves nothing in it.
fn serve<
    W: Write + Drop,
    F: FnOnce(&HostRuntime, &mut BufWriter<W>, Option<Request>) -> Result<(), Fault>,
>(rt: &HostRuntime, arguments: &[String], out: &mut BufWriter<W>, print: F) -> Result<(), Fault>
    requires { F.IsAlwaysCallable print }
    ensures { MatchResult result
        (λ _. Served W.contents (F.post print rt.entry) arguments.now out.old out.new)
        (Unserved W.contents (F.post print rt.entry) arguments.now out.old out.new) }
{
    let request = Request::of(words_of(arguments))?;
    let done = print(rt, out, request);
    conclude(out, done)
}

impl Program {
    /// Prints what the arguments ask for.
    // That memory lacks for the arguments or for the buffer, and that the arguments cannot be read, is left open: the library says of neither when it comes.
    fn perform<
        F: FnOnce(&HostRuntime, &mut BufWriter<Stdout>, Option<Request>) -> Result<(), Fault>,
    >(&self, rt: &HostRuntime, print: F) -> Result<(), Fault>
        requires { F.IsAlwaysCallable print }
        ensures { MatchResult result
            (λ _. Performed ⟦<Stdout as Write>⟧.contents (F.post print rt.entry))
            (Unperformed ⟦<Stdout as Write>⟧.contents (F.post print rt.entry)) }
    {
        let arguments: Vec<String> = env::args(rt).map_err(arguments_fault)?.collect(rt.alloc())?;
        let mut out = buffered(rt.alloc(), rt.stdout())?;
        serve(rt, arguments.as_slice(), &mut out, print)
    }

    /// The status that the program ends with. Where it stops, it says why on standard error.
    fn status(&self, rt: &HostRuntime, done: Result<(), Fault>) -> ExitCode
        ensures { MatchResult done (λ _. result ≡ ExitCode.SUCCESS) (λ _. result ≡ ExitCode.FAILURE) }
    {
        match done {
            Ok(()) => ExitCode::SUCCESS,
            Err(fault) => {
                let _ = rt.eprintln(Stop {
                    program: self,
                    fault: &fault,
                });
                ExitCode::FAILURE
            }
        }
    }

    /// Runs the program: prints what the arguments ask for, and says on standard error why where it stops.
    pub fn run<
        F: FnOnce(&HostRuntime, &mut BufWriter<Stdout>, Option<Request>) -> Result<(), Fault>,
    >(&self, rt: &HostRuntime, print: F) -> ExitCode
        requires { F.IsAlwaysCallable print }
        ensures { ((result ≡ ExitCode.SUCCESS)
            × Performed ⟦<Stdout as Write>⟧.contents (F.post print rt.entry))
            ⊎ (result ≡ ExitCode.FAILURE) }
    {
        self.status(rt, self.perform(rt, print))
    }
}
