//! The groups of what plans give: as a bag the lines of what the query means, whatever the order in which tuples come, and
//! under a plan in the order of the GROUP BY columns the tuples of a group side by side.
#![tactic(auto)]

mod groups;
mod runs;

pub use groups::{groups_are_sorted, tuples_in_any_order_give_the_same_lines};
pub use runs::{
    covered_orders_need_no_sort, ordered_plans_give_neighbours, plans_give_the_meant_lines,
};
