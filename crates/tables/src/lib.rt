//! The interface of a table of records, for any kind, and what a table means.
#![tactic(auto)]

mod fault;
mod record;
mod table;

pub use fault::TableFault;
pub use record::Record;
pub use table::Table;
