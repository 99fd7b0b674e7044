//! Which plans are in the plan space of a query, and what is wrong with one that is written down with the numbers of its nodes
//! (own). Nothing is asked of what stands inside a plan.
#![tactic(auto)]

mod finished;
mod joins;
mod judged;
mod keys;
mod lines;
mod numbers;
mod order;
mod outside;
mod own;
mod sorts;
mod trees;
mod validity;

pub use finished::{has_all, validate};
pub use joins::{is_merge, is_merge_list, is_nest};
pub use judged::{Judged, judge};
pub use keys::{key_at, keys_begin_with};
pub use lines::{MOST_LINES, count_lines, count_nodes};
pub use numbers::{Numbers, Written};
pub use order::order_begun;
pub use sorts::has_keys;
pub use trees::is_bitmap_scan;
pub use validity::{is_index_only_scan, is_index_scan};
