//! Plans of a query: which there are, what they cost, and which one stands for another (PostgreSQL,
//! src/backend/optimizer/README). A cost unit is 1/400 of a sequential page.
#![tactic(auto)]

mod bits;
mod elements;
mod estimates;
mod index_scans;
mod joins;
mod laws;
mod make;
mod parts;
mod path;
mod plan;
mod pricing;
mod scans;
mod sets;
mod window;

pub use bits::{BitTree, BitTrees};
pub use elements::{
    Element, Elements, MOST_ELEMENTS, elements_among, first_elements, has_condition, is_index_on,
    matches_arm, or_arms,
};
pub use estimates::{classes_of, estimate, range_of};
pub use index_scans::{is_index_only_scan, is_index_scan};
pub use joins::{merge_cost, nest_cost};
pub use laws::{
    admissible_children, at_most_is_domination, built_plans_are_costable, cost_bounds,
    dominating_finish, dominating_sides, domination, like_plans, replaced_children,
};
pub use make::{conditions_found, names_exactly, offer_scan, others_named, scan_path};
pub use parts::{Served, arm_part_of, index_part_of, index_served};
pub use path::Path;
pub use pathkeys;
pub use plan::Plan;
pub use pricing::{arms_at, bitmap_scan_cost, cost, use_tree};
pub use scans::{bounds_and_tests, index_scan_cost, seq_scan_cost};
pub use sets::set_of;
pub use window::{asked, cost_of, kept_of, price_of, startup_of};
