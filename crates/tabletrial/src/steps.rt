//! Calls on a table as values, for any table of kerning pairs.
ghost use Rattle.std.specs.Prelude.{◌≡◌, Some};
ghost use Rattle.tabletrial.specs.Steps.{Acted, step_text, reply_text};

use kinds::{Kern, Pair};
use std::fmt;
use tables::{Table, TableFault};

/// A call on a table.
// kept: each is printed before its answer, which a closure could not be.
#[derive(Clone, Copy)]
pub enum Step {
    Set(Pair, i16),
    Remove(Pair),
    Look(Pair),
}

/// What a call answers, if it is not refused.
// kept: an Option of an Option would say as much, and not that the outer None is a change.
#[derive(Clone, Copy)]
pub enum Reply {
    /// The table is changed.
    Done,
    /// What was looked up: the value of the pair, or none.
    Value(Option<i16>),
}

/// Makes a call on a table.
pub fn act<X: Table<Kern>>(table: &mut X, step: Step) -> Result<Reply, TableFault>
    requires { X.Table.sound table.old }
    ensures sound { X.Table.sound table.new }
    ensures lender { X.Table.lender table.new ≡ X.Table.lender table.old }
    ensures beyond { X.Table.beyond table.new ≡ X.Table.beyond table.old }
    ensures acted { Acted (X.Table.meaning table.old) (X.Table.meaning table.new) step result }
{
    match step {
        Step::Set(pair, value) => table.set(pair, value)?,
        Step::Remove(pair) => table.remove(pair)?,
        Step::Look(pair) => return Ok(Reply::Value(table.look(pair))),
    }
    Ok(Reply::Done)
}

/// The call, its pair and, where it sets one, the value.
impl fmt::Display for Step {
    ghost output = { λ step. Some (step_text step) };

    fn fmt<W: fmt::Write>(&self, f: &mut fmt::Formatter<W>) -> fmt::Result {
        match self {
            Step::Set(Pair { left, right }, value) => write!(f, "set {left} {right} {value}"),
            Step::Remove(Pair { left, right }) => write!(f, "remove {left} {right}"),
            Step::Look(Pair { left, right }) => write!(f, "look {left} {right}"),
        }
    }
}

/// The value that was looked up, `none`, or `ok` where a call has nothing to tell.
impl fmt::Display for Reply {
    ghost output = { λ reply. Some (reply_text reply) };

    fn fmt<W: fmt::Write>(&self, f: &mut fmt::Formatter<W>) -> fmt::Result {
        match self {
            Reply::Done => write!(f, "ok"),
            Reply::Value(Some(value)) => write!(f, "{value}"),
            Reply::Value(None) => write!(f, "none"),
        }
    }
}
