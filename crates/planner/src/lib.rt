//! The plan of a query: one of its plan space that no other admissible one undercuts (PostgreSQL,
//! src/backend/optimizer/README; src/backend/optimizer/plan/planner.c, grouping_planner). A cost unit is 1/400 of a
//! sequential page.
#![tactic(auto)]

mod base;
mod finishing;
mod least_plan;
mod near;

pub use base::base_table;
pub use finishing::{Least, finish, least_place};
pub use join_search;
pub use least_plan::{PlanFault, Planned, plan, whole_paths};
