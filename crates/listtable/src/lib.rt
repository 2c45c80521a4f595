//! A table over lent records, of which the first ones are held.
#![tactic(auto)]

mod list;

pub use list::ListTable;
