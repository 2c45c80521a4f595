//! What questions are answered.
ghost use Rattle.std.specs.Prelude.{◌≡◌, IfOk, Some};
ghost use Rattle.console.specs.Sending.{Sent};
ghost use Rattle.filterlog.specs.Answers.{entry_text, has_text, list_text, answer_text};
ghost use Rattle.filterlog.specs.Runs.{QuestionAnswered};

use crate::commands::Question;
use console::fault::Fault;
use console::output::{send, send_number, send_refusal};
use console::storage::Blocks;
use filter::{Filter, FilterFault, Quotient};
use std::alloc::{AllocError, Global};
use std::io::Write;

/// Writes the quotient and the remainder of an entry on a line.
fn send_entry<W: Write>(out: &mut W, quotient: Quotient, remainder: u32) -> Result<(), Fault>
    ensures { Sent (W.contents out.old) (W.contents out.new)
        (entry_text (Some (quotient, remainder))) result }
{
    send_number(out, u64::from(quotient.0), b' ')?;
    send_number(out, u64::from(remainder), b'\n')
}

/// Writes numbers on a line, a space between two.
fn send_list<W: Write>(out: &mut W, list: &[u64]) -> Result<(), Fault>
    ensures { Sent (W.contents out.old) (W.contents out.new) (list_text list.now) result }
{
    let Some((last, front)) = list.split_last() else {
        return send(out, b"\n");
    };
    for number in front {
        send_number(out, *number, b' ')?;
    }
    send_number(out, *last, b'\n')
}

/// What a question is answered.
#[derive(Drop)]
pub(crate) enum Answer<'a> {
    /// The filter refuses.
    Refused(FilterFault),
    /// Whether an entry has the fingerprint.
    Found(bool),
    /// How many entries there are.
    Held(u32),
    /// The quotient and the remainder of a slot's entry, or none where the slot is free.
    Entry(Option<(Quotient, u32)>),
    /// The words of each block.
    Words(Blocks<'a>),
    /// All fingerprints in rising order.
    List(Vec<u64>),
}

impl<'a> Answer<'a> {
    /// The answer to whether an entry has a fingerprint.
    fn found(there: Result<bool, FilterFault>) -> Answer<'a>
        ensures { answer_text result ≡ has_text there }
    {
        match there {
            Ok(there) => Answer::Found(there),
            Err(fault) => Answer::Refused(fault),
        }
    }

    /// The answer to a question about the filter.
    pub(crate) fn of(
        heap: Global,
        filter: &'a Filter<'_>,
        question: Question,
    ) -> Result<Answer<'a>, AllocError>
        ensures { IfOk result (λ a. QuestionAnswered filter.now question (answer_text a)) }
    {
        Ok(match question {
            Question::Has(n) => Answer::found(filter.has(n)),
            Question::Held => Answer::Held(filter.held()),
            Question::Slot(s) => Answer::Entry(filter.slot(s)),
            Question::Words => Answer::Words(Blocks::of(filter.plan(), filter.words())),
            Question::List => Answer::List(filter.fingerprints(heap)?),
        })
    }

    /// Writes the answer, piece by piece. Nothing is allocated for it.
    pub(crate) fn send<W: Write>(&self, out: &mut W) -> Result<(), Fault>
        ensures { Sent (W.contents out.old) (W.contents out.new) (answer_text self.now) result }
    {
        match self {
            Answer::Refused(fault) => send_refusal(out, *fault),
            Answer::Found(true) => send(out, b"yes\n"),
            Answer::Found(false) => send(out, b"no\n"),
            Answer::Held(held) => send_number(out, u64::from(*held), b'\n'),
            Answer::Entry(Some((quotient, remainder))) => send_entry(out, *quotient, *remainder),
            Answer::Entry(None) => send(out, b"free\n"),
            Answer::Words(blocks) => blocks.send(out),
            Answer::List(list) => send_list(out, list.as_slice()),
        }
    }
}
