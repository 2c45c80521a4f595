//! Sheets of commands for two books: the lines of a sheet, and what a line does.
#![tactic(auto)]

mod line;
mod lines;

pub use book::Book;
pub use figures::lines::Lines;
pub use line::do_line;
pub use lines::lines_of;
