//! Printed plans, read back (own).
#![tactic(auto)]

mod compared;
mod laws;
mod lines;
mod nodes;
mod reading;
mod scans;
mod sizes;

pub use laws::{a_text_has_one_plan, own_texts_are_written};
pub use reading::{WrittenFault, read_plan};
