//! Decimal figures and the lines of a text.
//!
//! A figure is one digit or more, with no zero in front of another digit. A line of numbers is
//! `L R V`: two glyph numbers, 0 to 65,535, and a value, -32,768 to 32,767, parted by single spaces.
//! Only a value may have a minus, and `-0` is none.
#![tactic(auto)]

ghost use Rattle.std.specs.Prelude.{◌≡◌, ◌^◌, ◌<◌, ◌≤◌, ◌++◌, IfSome, IfNone, MatchResult, min};
ghost use Rattle.std.specs.Str.Parse.{AllDigits, digits_value};
ghost use Rattle.figures.specs.Figures.{Stops, Read, NoFigure, Whole, NoWhole, Spaced, NoSpaced, Natural};
ghost use Rattle.figures.specs.Amounts.{Glyphed, Weighed, Paired};

pub mod lines;
mod numbers;

pub use numbers::glyph_number;
use numbers::value_number;

/// Why bytes are not the numbers that were asked for. A wrong form comes before a number that is too large.
#[derive(Clone, Copy, PartialEq, Eq, Debug)]
pub enum FigureFault {
    Unreadable,
    TooLarge,
}

// The digits that the bytes begin with, and what follows them.
fn leading_digits(bytes: &[u8]) -> (&[u8], &[u8])
    ensures digits { AllDigits 10 result.0.now }
    ensures stops { Stops result.1.now }
    ensures whole { bytes.now ≡ result.0.now ++ result.1.now }
{
    let first_other = bytes.iter().position(|b| !b.is_ascii_digit());
    bytes.split_at(first_other.unwrap_or(bytes.len()))
}

// The number that digits write, or 65,536 where that is more.
fn capped(digits: &[u8]) -> u32
    requires { AllDigits 10 digits.now }
    ensures { result ≡ min (digits_value 10 digits.now) 65536 }
{
    let mut number = 0;
    for digit in digits {
        number = (10 * number + u32::from(digit - b'0')).min(65536);
    }
    number
}

/// The figure that the bytes begin with, and what follows it. A number past 65,536 is given as 65,536.
// kept: 65,536 is no code. It is above every limit here, and what is refused for it is refused for any larger number.
pub fn figure(bytes: &[u8]) -> Result<(u32, &[u8]), FigureFault>
    ensures { MatchResult result (λ p. Read bytes.now p.0 p.1.now) (λ e. (e ≡ FigureFault.Unreadable) × NoFigure bytes.now) }
{
    let (digits, rest) = leading_digits(bytes);
    match digits {
        [] | [b'0', _, ..] => Err(FigureFault::Unreadable),
        _ => Ok((capped(digits), rest)),
    }
}

// The number that the bytes write, if they are digits and it is below 2^64.
fn digits_number(bytes: &[u8]) -> Option<u64>
    ensures some { IfSome result (λ n. AllDigits 10 bytes.now × (n ≡ digits_value 10 bytes.now)) }
    ensures none { IfNone result (AllDigits 10 bytes.now → 2 ^ 64 ≤ digits_value 10 bytes.now) }
{
    let mut number: u64 = 0;
    for digit in bytes {
        if !digit.is_ascii_digit() {
            return None;
        }
        number = number
            .checked_mul(10)?
            .checked_add(u64::from(digit - b'0'))?;
    }
    Some(number)
}

/// The number of the figure that the bytes are, if it is below 2^64.
pub fn natural(bytes: &[u8]) -> Option<u64>
    ensures { Natural bytes.now result }
{
    match bytes {
        [b'0'] => Some(0),
        [b'1'..=b'9', ..] => digits_number(bytes),
        _ => None,
    }
}

/// The glyph number that the bytes begin with, and what follows it.
pub fn glyph(bytes: &[u8]) -> Result<(u16, &[u8]), FigureFault>
    ensures { Glyphed bytes.now result }
{
    let (n, rest) = figure(bytes)?;
    Ok((glyph_number(n)?, rest))
}

/// A figure with nothing after it: its number, or 65,536 where that is more.
pub fn whole(bytes: &[u8]) -> Result<u32, FigureFault>
    ensures { MatchResult result (λ v. Whole bytes.now v) (λ e. (e ≡ FigureFault.Unreadable) × NoWhole bytes.now) }
{
    match figure(bytes)? {
        (n, []) => Ok(n),
        _ => Err(FigureFault::Unreadable),
    }
}

/// The value that the bytes are: a figure, or a minus and a figure other than 0.
pub fn amount(bytes: &[u8]) -> Result<i16, FigureFault>
    ensures { Weighed bytes.now result }
{
    match bytes {
        [b'-', digits @ ..] => match whole(digits)? {
            0 => Err(FigureFault::Unreadable),
            n => value_number(-i64::from(n)),
        },
        _ => value_number(i64::from(whole(bytes)?)),
    }
}

/// A figure and the space after it: its number, or 65,536 where that is more, and what follows.
pub fn spaced(bytes: &[u8]) -> Result<(u32, &[u8]), FigureFault>
    ensures { MatchResult result (λ p. Spaced bytes.now p.0 p.1.now) (λ e. (e ≡ FigureFault.Unreadable) × NoSpaced bytes.now) }
{
    match figure(bytes)? {
        (n, [b' ', rest @ ..]) => Ok((n, rest)),
        _ => Err(FigureFault::Unreadable),
    }
}

/// The two glyph numbers and the value of a line `L R V`.
pub fn pair_fields(bytes: &[u8]) -> Result<(u16, u16, i16), FigureFault>
    ensures { Paired bytes.now result }
{
    let (left, rest) = spaced(bytes)?;
    let (right, rest) = spaced(rest)?;
    let value = amount(rest)?;
    Ok((glyph_number(left)?, glyph_number(right)?, value))
}
