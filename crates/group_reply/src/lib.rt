//! The reply to a SELECT that groups: the text of its plan, a line for each group of the tuples that the plan's input gives,
//! and the number of these lines.
#![tactic(auto)]

mod answer;
mod columns;
mod drawing;
mod lines;
mod types;

pub use answer::{answer_groups, plan_groups};
pub use group_explain;
pub use group_explain::reply;
