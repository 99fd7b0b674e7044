//! Grouped queries over a catalogue: in which orders their tuples are asked for, and what they show of groups.
#![tactic(auto)]

mod order;
mod shape;

pub use order::group_items;
pub use shape::{call_columns, number_of_calls, shape_of};
