//! Writing an answer into a buffer of the caller's.
ghost use Rattle.std.specs.Prelude.{◌≡◌, ◌+◌, ◌≤◌, ◌++◌, length, Err, decimal};
ghost use Rattle.arrayvec.specs.ArrayString.{array_string_len};
ghost use Rattle.history.specs.Texts.{value_told_text};
ghost use Rattle.answers.specs.Texts.{AnswerWritten, answer_line, text_for};

use crate::done::{Done, Told};
use crate::fault::{BufferFault, Refusal, SheetFault};
use arrayvec::ArrayString;
use history::{Found, Stored};
use itoa::{Buffer, Integer};

/// The bytes that a buffer for an answer has at least; no line is longer.
const ROOM: usize = 32;

/// The line of an answer, while it is put together in fixed memory.
type Line = ArrayString<ROOM>;

// Adds a number or a value.
fn push_number<I: Integer>(line: &mut Line, n: I)
    requires { array_string_len line.old + I.MAX_STR_LEN ≤ 32 }
    ensures bytes { line.new.bytes ≡ line.old.bytes ++ I.text n }
    ensures most { array_string_len line.new ≤ array_string_len line.old + I.MAX_STR_LEN }
{
    line.push_str(Buffer::new().format(n));
}

// Adds what a book did.
// kept: the words stand in the Display of `Told` too, but by its contract a `write!` may fail, also into enough fixed memory, and an answer may not.
fn push_told<V: Integer>(line: &mut Line, told: Told<V>)
    requires { (array_string_len line.old ≤ 11) × (V.MAX_STR_LEN ≤ 6) }
    ensures bytes { line.new.bytes ≡ line.old.bytes ++ value_told_text V.text told }
    ensures most { array_string_len line.new ≤ array_string_len line.old + 17 }
{
    match told {
        Told::Stored(Stored::Kept) => line.push_str("kept"),
        Told::Stored(Stored::Changed) => line.push_str("changed"),
        Told::Dropped => line.push_str("dropped"),
        Told::Found(Found::Filter) => line.push_str("none filter"),
        Told::Found(Found::Table(None)) => line.push_str("none table"),
        Told::Found(Found::Table(Some(value))) => {
            push_number(line, value);
            line.push_str(" table");
        }
    }
}

// Adds what stands after a line's number.
fn push_reply(line: &mut Line, reply: Result<Done, Refusal>)
    requires { array_string_len line.old ≤ 11 }
    ensures bytes { line.new.bytes ≡ line.old.bytes ++ text_for reply }
    ensures most { array_string_len line.new ≤ array_string_len line.old + 17 }
{
    match reply {
        Ok(Done::Kern(told)) => push_told(line, told),
        Ok(Done::Ligature(told)) => push_told(line, told),
        Err(fault) => {
            line.push_str("fault ");
            push_number(line, fault.number());
        }
    }
}

// The number of a line, a space, what it is answered and byte 10.
fn line_of(number: u32, reply: Result<Done, Refusal>) -> Line
    ensures { result.bytes ≡ answer_line number reply }
{
    let mut line = ArrayString::new();
    push_number(&mut line, number);
    line.push(' ');
    push_reply(&mut line, reply);
    line.push('\n');
    line
}

/// Writes the number of a line, a space, what it is answered and byte 10 to the front of a buffer, and tells how many
/// bytes these are. The bytes after them stay. A buffer of under 32 bytes is refused, and stays as it is.
pub fn write_answer(
    buf: &mut [u8],
    number: u32,
    reply: Result<Done, Refusal>,
) -> Result<usize, BufferFault>
    ensures { AnswerWritten number reply buf.old buf.new result }
{
    if buf.len() < ROOM {
        return Err(BufferFault::ShortBuffer);
    }
    let line = line_of(number, reply);
    buf[..line.len()].copy_from_slice(line.as_bytes());
    Ok(line.len())
}

/// Writes a refusal with its line, under the same rules.
pub fn write_fault(buf: &mut [u8], fault: SheetFault) -> Result<usize, BufferFault>
    ensures { AnswerWritten fault.line (Err fault.fault) buf.old buf.new result }
{
    write_answer(buf, fault.line, Err(fault.fault))
}
