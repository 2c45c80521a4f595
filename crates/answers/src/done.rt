pub use history::Told;

/// What a line that is not refused did, and in which book.
#[derive(Clone, Copy, PartialEq, Eq, Debug)]
pub enum Done {
    /// In the kerning book.
    Kern(Told<i16>),
    /// In the ligature book.
    Ligature(Told<u16>),
}
