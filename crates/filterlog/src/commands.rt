//! The commands of a log, one to a line.
ghost use Rattle.filterlog.specs.Commands.{Said};

use figures::natural;
use filter::Slot;

/// What a line of the log asks of the filter.
#[derive(Clone, Copy)]
pub enum Command {
    /// `add N`: one more entry of a fingerprint.
    Add(u64),
    /// `take N`: one entry of a fingerprint out.
    Take(u64),
    /// A question, which leaves the filter as it is.
    Ask(Question),
}

/// What a line of the log asks about the filter.
#[derive(Clone, Copy)]
pub enum Question {
    /// `has N`: whether an entry has a fingerprint.
    Has(u64),
    /// `held`: how many entries there are.
    Held,
    /// `slot N`: what a slot holds.
    Slot(Slot),
    /// `words`: the words of each block.
    Words,
    /// `list`: all fingerprints in rising order.
    List,
}

/// The command that a line is, if it is one.
pub fn command_of(line: &[u8]) -> Option<Command>
    ensures { Said line.now result }
{
    match line {
        b"held" => Some(Command::Ask(Question::Held)),
        b"words" => Some(Command::Ask(Question::Words)),
        b"list" => Some(Command::Ask(Question::List)),
        [b'a', b'd', b'd', b' ', n @ ..] => Some(Command::Add(natural(n)?)),
        [b't', b'a', b'k', b'e', b' ', n @ ..] => Some(Command::Take(natural(n)?)),
        [b'h', b'a', b's', b' ', n @ ..] => Some(Command::Ask(Question::Has(natural(n)?))),
        [b's', b'l', b'o', b't', b' ', n @ ..] => {
            let slot = u32::try_from(natural(n)?).ok()?;
            Some(Command::Ask(Question::Slot(Slot(slot))))
        }
        _ => None,
    }
}
