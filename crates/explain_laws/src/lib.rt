//! Laws of the texts of plans.
#![tactic(auto)]

mod laws;

pub use laws::different_plans_have_different_texts;
