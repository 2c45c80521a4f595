//! What is asked of a book, what it answers, and the law over whole histories.
#![tactic(auto)]

mod answer;
mod call;
mod fault;
mod operation;

pub use answer::{Answer, Found, Stored, Told};
pub use call::Call;
pub use fault::BookFault;
pub use operation::Operation;
