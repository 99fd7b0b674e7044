//! Items of which some are at most others, and the front of those that no other one covers.
#![tactic(auto)]

mod front;
mod ranked;

pub use front::Front;
pub use ranked::Ranked;
