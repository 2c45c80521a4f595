//! Telling which lines were refused.
ghost use Rattle.std.specs.Prelude.{◌≡◌, IfOk};
ghost use Rattle.std.specs.Slice.Iter.{iter_rest};
ghost use Rattle.batch.specs.Reports.{refused_from, NextRefusal, RefusalTold};

use crate::lines::{Batch, BookKind, Destination, RefusedLine};
use answers::Refusal;
use history::Call;
use kinds::{Pair, Sequence};
use std::alloc::{AllocError, Global};
use std::slice::Iter;

// Why the next call was refused, if it was. One that has no answer was not, and past the last call there is none.
fn next_refusal<Q: Copy, V: Copy>(calls: &mut Iter<'_, Call<Q, V>>) -> Option<Refusal>
    ensures { NextRefusal (iter_rest calls.old) result (iter_rest calls.new) }
{
    calls.next()?.answer?.err().map(Refusal::Book)
}

// Why a line is refused, if it is. It takes the next call of the book that it went to.
#[tactic(auto, unfolding(crate::specs::Reports::refused_from))]
fn refusal_of(
    destination: Destination,
    kerns: &mut Iter<'_, Call<Pair, i16>>,
    ligatures: &mut Iter<'_, Call<Sequence, u16>>,
) -> Option<Refusal>
    ensures { RefusalTold destination (iter_rest kerns.old) (iter_rest ligatures.old) result
        (iter_rest kerns.new) (iter_rest ligatures.new) }
{
    match destination {
        Ok(BookKind::Kern) => next_refusal(kerns),
        Ok(BookKind::Ligature) => next_refusal(ligatures),
        Err(fault) => Some(Refusal::Line(fault)),
    }
}

/// The lines that are refused, in order, by their destinations and by what each book answered to its calls. A call that was not performed is not refused.
#[tactic(auto, unfolding(crate::specs::Reports::refused_from))]
pub fn refused_among(
    heap: Global,
    lines: &[Destination],
    kerns: &[Call<Pair, i16>],
    ligatures: &[Call<Sequence, u16>],
) -> Result<Vec<RefusedLine>, AllocError>
    ensures { IfOk result (λ refused. refused.items ≡ refused_from 1 lines.now kerns.now ligatures.now) }
{
    let mut refused = Vec::new(heap);
    let mut kerns_left = kerns.iter();
    let mut ligatures_left = ligatures.iter();
    for (i, destination) in lines.iter().enumerate() {
        if let Some(fault) = refusal_of(*destination, &mut kerns_left, &mut ligatures_left) {
            refused.push(RefusedLine { line: i + 1, fault })?;
        }
    }
    Ok(refused)
}

/// The lines of a batch that are refused, as `refused_among` tells them.
pub fn refused_lines(heap: Global, batch: &Batch) -> Result<Vec<RefusedLine>, AllocError>
    ensures { IfOk result (λ refused. refused.items
        ≡ refused_from 1 batch.now.lines.items batch.now.kerns.items batch.now.ligatures.items) }
{
    refused_among(heap, &batch.lines, &batch.kerns, &batch.ligatures)
}
