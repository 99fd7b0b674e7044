//! Whether conditions imply another one: what lets a query use a partial index (PostgreSQL manual, chapter Indexes,
//! Partial Indexes, and the comments of predtest.c). Which cases are derived is this project's own choice.
#![tactic(auto)]

mod atoms;
mod conditions;
mod implication;
mod notes;
mod parts;

pub use implication::{ClauseList, implied_conditions_hold, implies, no_clauses_imply_nothing};
pub use parts::{and_parts, or_parts};
