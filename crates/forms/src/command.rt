use history::Operation;
use kinds::{Pair, Sequence};

/// What a line of a sheet asks, and of which book.
#[derive(Clone, Copy)]
pub enum Command {
    /// Of the kerning book.
    Kern(Operation<Pair, i16>),
    /// Of the ligature book.
    Ligature(Operation<Sequence, u16>),
}
