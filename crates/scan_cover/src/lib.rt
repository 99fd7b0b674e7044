//! Scans that an entry of a certificate must dominate, and the first that none dominates. Plain scans are each looked at;
//! of scans by a bitmap, each set of the first elements with each arm of an OR by its index of least part. Two laws say that
//! a query's ORs, and the arms of such a set, have few atoms.
#![tactic(auto)]

mod arms;
mod atoms;
mod bitmap_relations;
mod elements;
mod filling;
mod indexes;
mod kept;
mod marks;
mod masks;
mod numbers;
mod relations;

pub use atoms::{arms_fit, few_atoms};
pub use bitmap_relations::open_bitmap_scan;
pub use join_cover;
pub use join_cover::entry_check;
pub use numbers::open_with;
pub use relations::{indexes_of, open_plain_scan};
