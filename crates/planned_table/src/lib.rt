//! The plan of a query together with the table that shows that no other one undercuts it.
#![tactic(auto)]

mod gathering;
mod making;
mod numbering;
mod printing;
mod whole;

pub use certificate_laws::{certificate_text, explain, planner};
pub use whole::{Tabled, plan_with_table};
