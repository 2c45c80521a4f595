//! What is written in answer to a line of a sheet.
#![tactic(auto)]

mod done;
mod fault;
mod writing;

pub use done::{Done, Told};
pub use fault::{BufferFault, Refusal, SheetFault};
pub use writing::{write_answer, write_fault};
