//! A book: a filter in front of a table of records of one kind.
//!
//! The calls take a filter, a table and a fingerprint: those that change both take them as a lent book. The filter need not belong to the table.
#![tactic(auto)]

mod book;
mod calls;
mod laws;
mod operations;

pub use book::Book;
pub use calls::{find, open};
pub use laws::empty_is_open;
