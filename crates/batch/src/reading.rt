//! Reading a text of commands.
ghost use Rattle.std.specs.Prelude.{◌≡◌, [], ◌∷◌, IfOk, None, Ok, OnOk};
ghost use Rattle.figures.specs.Lines.{lines_of};
ghost use Rattle.batch.specs.Batches.{operations, Unanswered, SortedByBook, Appended, Noted};

use crate::lines::{Batch, BookKind};
use figures::lines::Lines;
use forms::{Command, command_of};
use history::{Call, Operation};
use std::alloc::{AllocError, Global};

// A call that was not performed yet.
fn call_for<Q, V>(operation: Operation<Q, V>) -> Call<Q, V>
    ensures { (result.operation ≡ operation) × (result.answer ≡ None) }
{
    Call {
        operation,
        answer: None,
    }
}

impl Batch {
    // A batch of no lines.
    fn new(heap: Global) -> Batch
        ensures { (result.kerns.items ≡ []) × (result.ligatures.items ≡ []) × (result.lines.items ≡ []) }
    {
        Batch {
            kerns: Vec::new(heap),
            ligatures: Vec::new(heap),
            lines: Vec::new(heap),
        }
    }

    // Adds a call for the operation of a line to those of its book, and tells which book that is.
    fn sort(&mut self, command: Command) -> Result<BookKind, AllocError>
        ensures lines { OnOk result (self.new.lines.items ≡ self.old.lines.items) }
        ensures sorted { IfOk result (λ b. Appended (Ok command)
            (operations self.old.kerns.items) (operations self.old.ligatures.items) []
            (operations self.new.kerns.items) (operations self.new.ligatures.items) (Ok b ∷ [])) }
        ensures unanswered { OnOk result (Unanswered self.old → Unanswered self.new) }
    {
        match command {
            Command::Kern(operation) => {
                self.kerns.push(call_for(operation))?;
                Ok(BookKind::Kern)
            }
            Command::Ligature(operation) => {
                self.ligatures.push(call_for(operation))?;
                Ok(BookKind::Ligature)
            }
        }
    }

    // Adds one line more.
    fn note(&mut self, line: &[u8]) -> Result<(), AllocError>
        ensures noted { OnOk result (Noted line.now
            (operations self.old.kerns.items) (operations self.old.ligatures.items) self.old.lines.items
            (operations self.new.kerns.items) (operations self.new.ligatures.items) self.new.lines.items) }
        ensures unanswered { OnOk result (Unanswered self.old → Unanswered self.new) }
    {
        // kept: what is made of a command allocates, so a `map` has no place for its error
        let destination = match command_of(line) {
            Ok(command) => Ok(self.sort(command)?),
            Err(fault) => Err(fault),
        };
        self.lines.push(destination)?;
        Ok(())
    }
}

/// What the lines of a text ask, sorted by book, with no answer yet. A text may have any number of lines.
pub fn batch_of(heap: Global, text: &[u8]) -> Result<Batch, AllocError>
    ensures sorted { IfOk result (λ b. SortedByBook (lines_of text.now)
        (operations b.kerns.items) (operations b.ligatures.items) b.lines.items) }
    ensures unanswered { IfOk result Unanswered }
{
    let mut batch = Batch::new(heap);
    for line in Lines::of(text) {
        batch.note(line)?;
    }
    Ok(batch)
}
