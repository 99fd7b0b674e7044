//! The lines of replies: rows as comma-separated values, the number of rows, and the line that a refused statement writes to
//! the errors sink.
#![tactic(auto)]

mod count;
mod invalid;
mod line;
mod lines;
mod pieces;
mod tells;
mod texts;

pub use count::count_line;
pub use invalid::invalid_line;
pub use line::write_fault;
pub use lines::Lines;
