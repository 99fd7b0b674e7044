//! Joins of a certificate's entries that an entry must dominate: each is looked at, by the pairs of their sets, and the first
//! that none dominates is reported.
#![tactic(auto)]

mod joins;
mod least;
mod lists;
mod merges;
mod nests;
mod uncovered;

pub use entry_check;
pub use joins::{open_join, open_merges};
pub use merges::open_work;
pub use nests::open_nests;
pub use uncovered::Uncovered;
