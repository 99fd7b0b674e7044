//! Groups of tuples by the values of columns, what `count`, `min` and `max` give of them, and what grouping costs (PostgreSQL
//! manual, chapter Queries, GROUP BY; Aggregate Functions; src/backend/executor/nodeAgg.c;
//! src/backend/optimizer/path/costsize.c, cost_agg). It knows values and numbers alone: neither columns, nor tables, nor plans.
//! Tuples come one by one, and a group is found as the last one or by the hash of its keys. A cost unit is 1/400 of a
//! sequential page.
#![tactic(auto)]

mod chains;
mod choice;
mod cost_laws;
mod costs;
mod finish;
mod form;
mod hash;
mod kept;
mod listing;
mod lists;
mod orders;
mod shape;
mod task;
mod tuple_laws;
mod tuples;
mod value_laws;

pub use choice::choose;
pub use cost_laws::group_costs_rise;
pub use costs::{group_cost, group_total, groups};
pub use form::Form;
pub use kept::Kept;
pub use lists::{Lines, Values};
pub use orders::{compare, same_keys};
pub use shape::{Call, Shape, Shown, Sorter};
pub use task::{GroupPlan, GroupTask};
pub use tuple_laws::{
    neighbours_are_of_the_last_group, sorted_tuples_are_neighbours, sorted_tuples_give_sorted_lines,
};
pub use tuples::Groups;
pub use value_laws::{a_tuple_begins_a_group, a_tuple_joins_its_group, no_tuple_is_seen};
