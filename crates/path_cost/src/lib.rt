//! Estimated rows and costs over a catalogue, the relations of a query and its numbered clauses. A cost unit is 1/400 of a
//! sequential page, and costs are cut to at most 10^18.
#![tactic(auto)]

mod conditions;
mod estimates;
mod indexes;
mod known;
mod laws;
mod ranges;
mod runs;
mod scans;
mod shares;
mod tables;

pub use conditions::selectivity;
pub use cost_rules::{
    BITMAP_CHILD, ENTRIES_PER_PAGE, HASH_DESCENT, INDEX_TUPLE, LEVEL, MOST_COST, MOST_ESTIMATE,
    OPERATOR, Pair, RANDOM_PAGE, SEQUENTIAL_PAGE, TUPLE, merge, nest, price, sort,
};
pub use estimates::{key_pairs, pairs, rows, rows_param};
pub use indexes::{arm_part, entries, index, index_part};
pub use laws::{ranges_are_in_both_ends, rows_of_equal_sets, scans_are_admissible, shares_of_rows};
pub use scans::{bitmap, operators_of, seq};
pub use shares::{ALL_ROWS, HALF, PER_SHARE, THIRD, UNKNOWN_NULLS};
pub use tables::distinct;
