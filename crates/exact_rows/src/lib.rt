//! A number of rows before it is cut, exact whatever its size: a product of tables, and what shares of it leave.
#![tactic(auto)]

mod digits;
mod rows;

pub use digits::BASE;
pub use rows::{ExactRows, MOST_FACTORS};
