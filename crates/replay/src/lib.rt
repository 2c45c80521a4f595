//! Whole histories of a book: operations performed in order, and the law that holds of them.
#![tactic(auto)]

mod laws;
mod replaying;

pub use laws::words_alone;
pub use replaying::{perform, replay};
