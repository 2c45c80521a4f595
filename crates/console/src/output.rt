//! What is written, and how much of it where a stream fails.
ghost use Rattle.std.specs.Prelude.{◌≡◌, [], ◌∷◌, ◌++◌, IfOk, IfErr};
ghost use Rattle.std.specs.Io.Buffered.{writer_buffer, writer_inner};
ghost use Rattle.std.specs.Fmt.{decimal};
ghost use Rattle.console.specs.declared.fault.Fault.TheVariants.{Memory};
ghost use Rattle.console.specs.Texts.{refusal_text};
ghost use Rattle.console.specs.Sending.{Sent};

use crate::fault::Fault;
use filter::FilterFault;
use itoa::{Buffer, write_digits};
use std::alloc::Global;
use std::io::{BufWriter, ErrorKind, Write};

/// A buffer over a writer, with nothing in it. Only for want of memory is there none.
pub fn buffered<W: Write + Drop>(heap: Global, to: W) -> Result<BufWriter<W>, Fault>
    ensures over { IfOk result (λ out. writer_inner out ≡ to) }
    ensures empty { IfOk result (λ out. writer_buffer out ≡ []) }
    ensures memory { IfErr result (λ fault. fault ≡ Memory) }
{
    BufWriter::new(heap, to).map_err(|_| Fault::Memory)
}

// What a first write left of a text. It stands apart, so that `send` is that write alone where it takes the whole text.
// The library's `write_all` says nothing of what was written where it is an error; a single `write` does. As there, 2^64 - 1 tries are the most.
#[cold]
#[inline(never)]
fn send_rest<W: Write>(out: &mut W, text: &[u8]) -> Result<(), Fault>
    ensures { Sent (W.contents out.old) (W.contents out.new) text.now result }
{
    let mut rest = text;
    for _ in 0..u64::MAX {
        if rest.is_empty() {
            return Ok(());
        }
        match out.write(rest) {
            Ok(0) => return Err(Fault::Stream),
            Ok(n) => rest = &rest[n..],
            Err(error) if error.kind() == ErrorKind::Interrupted => {}
            Err(_) => return Err(Fault::Stream),
        }
    }
    Err(Fault::Stream)
}

/// Writes a text, or a beginning of it where the stream fails. A write that a signal interrupts is tried again.
// That a stream fails is left open: the library says of no write when it is an error, nor of which kind, so whatever kind that is, it is the stream that fails.
#[inline(always)]
pub fn send<W: Write>(out: &mut W, text: &[u8]) -> Result<(), Fault>
    ensures { Sent (W.contents out.old) (W.contents out.new) text.now result }
{
    if text.is_empty() {
        return Ok(());
    }
    // what `send_rest` gives is told anew, so that where the first write takes all no result goes through memory
    match out.write(text) {
        Ok(n) if n == text.len() => Ok(()),
        Ok(0) => Err(Fault::Stream),
        Ok(n) => {
            send_rest(out, &text[n..])?;
            Ok(())
        }
        Err(error) if error.kind() == ErrorKind::Interrupted => {
            send_rest(out, text)?;
            Ok(())
        }
        Err(_) => Err(Fault::Stream),
    }
}

/// Writes a number in decimal digits, and a byte after them. Nothing is allocated for it.
pub fn send_number<W: Write>(out: &mut W, number: u64, end: u8) -> Result<(), Fault>
    ensures { Sent (W.contents out.old) (W.contents out.new) (decimal number ++ end ∷ []) result }
{
    let mut text = [end; 21];
    let start = write_digits(number, &mut text, 20);
    send(out, &text[start..])
}

/// Writes the line of a refusal. Nothing is allocated for it.
pub fn send_refusal<W: Write>(out: &mut W, fault: FilterFault) -> Result<(), Fault>
    ensures { Sent (W.contents out.old) (W.contents out.new) (refusal_text fault ++ 10 ∷ [])
        result }
{
    let mut digits = Buffer::new();
    send(out, b"refused ")?;
    send(out, digits.format(fault.number()).as_bytes())?;
    send(out, b"\n")
}
