//! Equivalence classes of columns and constants, and the numbered clause list.
#![tactic(auto)]

mod class;
mod classes;
mod clause_set;
mod clauses;
mod equality;
mod group;
mod order;
mod rel_sets;

pub use classes::{ClassNo, Classes};
pub use clause_set::{ClauseSet, note};
pub use order::OrderItem;
