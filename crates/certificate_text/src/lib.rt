//! The text of a certificate: a line for each entry, and one for the best plan. A line is read from the left: literal bytes,
//! words and numbers.
#![tactic(auto)]

mod bits;
mod cursor;
mod entries;
mod nodes;
mod sets;

pub use cursor::LineCursor;
pub use entries::{best_line, certificate_text, entry_line};
pub use explain;
pub use plan_check;
pub use plan_tree;
