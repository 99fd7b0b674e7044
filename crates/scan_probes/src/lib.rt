//! The values that conditions are tested at where a scan stands at a row or at an entry of an index beside the rows that it
//! is given, and the conditions of an index as bounds of a part of it.
#![tactic(auto)]

mod bound;
mod conditions;
mod filter;
mod given;
mod laws;
mod probes;

pub use conditions::chosen;
pub use filter::{Beside, pass_entry, pass_row};
pub use given::{Given, read_given};
pub use laws::{conditions_are_tested_at_a_tuple, conditions_bound_an_index};
pub use probes::{equal_value, index_probes};
