//! A rank-and-select quotient filter over lent words.
#![tactic(auto)]

mod cuts;
mod editing;
mod fault;
mod filter;
mod laid;
mod laying;
mod plan;

pub use blocks::{Quotient, Slot};
pub use fault::FilterFault;
pub use filter::Filter;
pub use plan::{MOST_BLOCKS, Plan};
