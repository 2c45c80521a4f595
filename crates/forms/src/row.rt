//! Rows of numbers, single spaces between.
ghost use Rattle.std.specs.Prelude.{◌≡◌, ℕ, List, ◌∷◌, length, false, MatchResult};
ghost use Rattle.kinds.specs.Sequences.{glyphs_of, two_to_four};
ghost use Rattle.kinds.specs.declared.ligature.KeyFault.TheVariants.{BadSequence};
ghost use Rattle.figures.specs.declared.FigureFault.TheVariants.{Unreadable};
ghost use Rattle.forms.specs.Rows.{GlyphOf, Keeps, Held, Rowed, NoRow};

use figures::{FigureFault, figure, glyph_number};
use kinds::{KeyFault, Sequence};

/// What is kept of a row of glyph numbers. No sequence has more than four, so none of more is kept.
#[derive(Clone, Copy)]
pub(crate) enum Row {
    /// A row of one number.
    One(u16),
    /// A row of two to four.
    Several(Sequence),
    /// A row of five or more.
    Many,
}

impl Row {
    // The row with a glyph number more in front.
    fn behind(self, glyph: u16) -> Row
        ensures { (ns : List ℕ) → Keeps self ns → Keeps result (glyph ∷ ns) }
    {
        match self {
            Row::One(a) => Row::Several(Sequence::Two(glyph, a)),
            Row::Several(Sequence::Two(a, b)) => Row::Several(Sequence::Three(glyph, a, b)),
            Row::Several(Sequence::Three(a, b, c)) => {
                Row::Several(Sequence::Four(glyph, a, b, c))
            }
            Row::Several(Sequence::Four(..)) | Row::Many => Row::Many,
        }
    }

    /// The sequence that the row is, if it has two to four numbers.
    pub(crate) fn sequence(self) -> Result<Sequence, KeyFault>
        ensures { MatchResult result (λ s. (ns : List ℕ) → Keeps self ns → ns ≡ glyphs_of s) (λ f. (f ≡ BadSequence) × ((ns : List ℕ) → Keeps self ns → two_to_four (length ns) ≡ false)) }
    {
        match self {
            Row::Several(sequence) => Ok(sequence),
            Row::One(_) | Row::Many => Err(KeyFault::BadSequence),
        }
    }
}

// The row with a number more in front, if all are glyph numbers.
fn longer(glyph: Option<u16>, row: Option<Row>) -> Option<Row>
    ensures { (n : ℕ) (ns : List ℕ) → GlyphOf glyph n → Held row ns → Held result (n ∷ ns) }
{
    Some(row?.behind(glyph?))
}

/// The longest row of numbers that the bytes begin with, if all are glyph numbers, and what follows it.
pub(crate) fn row_of(bytes: &[u8]) -> Result<(Option<Row>, &[u8]), FigureFault>
    ensures { MatchResult result (λ p. Rowed bytes.now p.0 p.1.now) (λ e. (e ≡ Unreadable) × NoRow bytes.now) }
{
    let (n, rest) = figure(bytes)?;
    let glyph = glyph_number(n).ok();
    match rest {
        [b' ', b'0'..=b'9', ..] => {
            let (row, rest) = row_of(&rest[1..])?;
            Ok((longer(glyph, row), rest))
        }
        _ => Ok((glyph.map(Row::One), rest)),
    }
}
