//! Which of some candidate indexes to make so that some queries cost least: each set of candidates is added to a copy of the
//! catalogue, and each query planned there. A cost unit is 1/400 of a sequential page.
#![tactic(auto)]

mod adding;
mod advising;
mod pricer;
mod pricing;
mod reading;
mod room;
mod text;

pub use advising::{advice_for, recommend};
