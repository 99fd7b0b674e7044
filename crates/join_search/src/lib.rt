//! Joins by sets of relations: every admissible join of kept paths is covered by the front of its set (PostgreSQL,
//! src/backend/optimizer/README, Join Tree Construction). A cost unit is 1/400 of a sequential page.
#![tactic(auto)]

mod by_sets;
mod likely;
mod lists;
mod merges;
mod nests;
mod offers;
mod past;
mod sides;
mod splits;
mod table;
mod useful;

pub use by_sets::search;
pub use likely::likely_plans;
pub use splits::all_relations;
pub use table::Table;
pub use useful::{Asked, order_asked};
