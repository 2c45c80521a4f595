//! Which numbers a line may have.
ghost use Rattle.std.specs.Prelude.{◌≡◌, ◌<◌, ◌≤◌, MatchResult};
ghost use Rattle.figures.specs.Numbers.{Glyph, FitsValue, Classified};

use crate::FigureFault;

/// The largest glyph number.
const MOST_GLYPH: u32 = 65_535;

/// The least value.
const LEAST_VALUE: i64 = -32_768;

/// The largest value.
const MOST_VALUE: i64 = 32_767;

/// A number that was read, and what it is to be.
#[derive(Clone, Copy)]
enum Parsed {
    Glyph(u32),
    Value(i64),
}

/// What such a number is.
#[derive(Clone, Copy)]
enum Number {
    Glyph(u16),
    Value(i16),
    TooLarge,
}

// Tells a lawful glyph, a lawful value and a number that is too large apart.
fn classify(parsed: Parsed) -> Number
    ensures { Classified parsed result }
{
    match parsed {
        Parsed::Glyph(n) if n <= MOST_GLYPH => Number::Glyph(n as u16),
        Parsed::Value(n) if (LEAST_VALUE..=MOST_VALUE).contains(&n) => Number::Value(n as i16),
        _ => Number::TooLarge,
    }
}

/// The glyph number that a number is, if it is at most 65,535.
pub fn glyph_number(number: u32) -> Result<u16, FigureFault>
    ensures { MatchResult result (λ g. (g ≡ number) × Glyph number)
        (λ e. (e ≡ FigureFault.TooLarge) × (65535 < number)) }
{
    match classify(Parsed::Glyph(number)) {
        Number::Glyph(glyph) => Ok(glyph),
        _ => Err(FigureFault::TooLarge),
    }
}

// The value that a number is, if it is from -32,768 to 32,767.
pub(crate) fn value_number(number: i64) -> Result<i16, FigureFault>
    ensures { MatchResult result (λ v. (v ≡ number) × FitsValue number)
        (λ e. (e ≡ FigureFault.TooLarge) × (FitsValue number → ⊥)) }
{
    match classify(Parsed::Value(number)) {
        Number::Value(value) => Ok(value),
        _ => Err(FigureFault::TooLarge),
    }
}
