//! A text of commands as operations of two books, and which of its lines are refused.
#![tactic(auto)]

mod lines;
mod reading;
mod reporting;

pub use lines::{Batch, BookKind, Destination, RefusedLine};
pub use reading::batch_of;
pub use reporting::{refused_among, refused_lines};
