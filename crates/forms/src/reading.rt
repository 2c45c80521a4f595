//! Reading a line.
ghost use Rattle.forms.specs.Meaning.{OneMeaning};

use crate::command::Command;
use crate::fault::LineFault;
use crate::fields::{couple, ligature, sequence};
use figures::pair_fields;
use history::Operation;
use kinds::Pair;

/// What a line asks, without its byte 10. The first letters decide which form is read.
pub fn command_of(line: &[u8]) -> Result<Command, LineFault>
    ensures { OneMeaning line.now result }
{
    if line.len() > 80 {
        return Err(LineFault::LongLine);
    }
    match line {
        [b'p', b'a', b'i', b'r', b' ', rest @ ..] => {
            let (left, right, value) = pair_fields(rest)?;
            Ok(Command::Kern(Operation::Put(Pair { left, right }, value)))
        }
        [b'd', b'r', b'o', b'p', b' ', rest @ ..] => Ok(Command::Kern(Operation::Drop(couple(
            rest,
        )?))),
        [b'f', b'i', b'n', b'd', b' ', rest @ ..] => Ok(Command::Kern(Operation::Find(couple(
            rest,
        )?))),
        [b'l', b'i', b'g', b' ', rest @ ..] => {
            let (glyphs, glyph) = ligature(rest)?;
            Ok(Command::Ligature(Operation::Put(glyphs, glyph)))
        }
        [b'u', b'n', b'l', b'i', b'g', b' ', rest @ ..] => Ok(Command::Ligature(Operation::Drop(
            sequence(rest)?,
        ))),
        [b's', b'e', b'e', b'k', b' ', rest @ ..] => Ok(Command::Ligature(Operation::Find(sequence(
            rest,
        )?))),
        _ => Err(LineFault::Unreadable),
    }
}
