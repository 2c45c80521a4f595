//! The lines of a sheet: what each asks, and of which book.
#![tactic(auto)]

mod command;
mod fault;
mod fields;
mod reading;
mod row;

pub use command::Command;
pub use fault::LineFault;
pub use reading::command_of;
