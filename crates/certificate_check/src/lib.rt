//! Certificates checked. Nothing is trusted of whoever made one: each of its numbers is computed anew, every plan that an entry
//! must dominate is looked at, and its best plan is compared with the finished plans over its entries.
#![tactic(auto)]

mod best;
mod checking;
mod cover;
mod sides;

pub use best::judge_best;
pub use certificate_laws;
pub use checking::check;
pub use cover::open_candidate;
pub use scan_cover::{entry_check, join_cover};
pub use sides::price_of_side;
