//! The fields of each form: what follows its first word. Every number is read before the sizes are tested.
ghost use Rattle.std.specs.Prelude.{◌≡◌, ℕ, List, ◌++◌, codes, MatchResult, ◌≢◌};
ghost use Rattle.forms.specs.Fields.{Coupled, Sequenced, Ligated};

use crate::fault::LineFault;
use crate::row::row_of;
use figures::{FigureFault, glyph_number, spaced, whole};
use kinds::{Pair, Sequence};

/// The pair of `L R`.
pub(crate) fn couple(bytes: &[u8]) -> Result<Pair, LineFault>
    ensures { Coupled bytes.now result }
{
    let (left, rest) = spaced(bytes)?;
    let right = whole(rest)?;
    Ok(Pair {
        left: glyph_number(left)?,
        right: glyph_number(right)?,
    })
}

/// The sequence of `G ..`.
pub(crate) fn sequence(bytes: &[u8]) -> Result<Sequence, LineFault>
    ensures { Sequenced bytes.now result }
{
    match row_of(bytes)? {
        (row, []) => Ok(row.ok_or(LineFault::TooLarge)?.sequence()?),
        _ => Err(LineFault::Unreadable),
    }
}

// What follows the word `as`.
fn after_as(bytes: &[u8]) -> Result<&[u8], FigureFault>
    ensures { MatchResult result (λ last. bytes.now ≡ codes " as " ++ last.now) (λ e. (e ≡ FigureFault.Unreadable) × ((last : List ℕ) → bytes.now ≢ codes " as " ++ last)) }
{
    match bytes {
        [b' ', b'a', b's', b' ', last @ ..] => Ok(last),
        _ => Err(FigureFault::Unreadable),
    }
}

/// The sequence and the glyph of `G .. as G`.
pub(crate) fn ligature(bytes: &[u8]) -> Result<(Sequence, u16), LineFault>
    ensures { Ligated bytes.now result }
{
    let (row, rest) = row_of(bytes)?;
    let glyph = whole(after_as(rest)?)?;
    let row = row.ok_or(LineFault::TooLarge)?;
    let glyph = glyph_number(glyph)?;
    Ok((row.sequence()?, glyph))
}
