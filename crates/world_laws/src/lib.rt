//! Laws of the worlds that statements make, and of what is asked in them: a lawful world is left lawful by what may be done in it,
//! what definitions come to may be done, and what a SELECT means is bound to its catalogue.
#![tactic(auto)]

mod queries;
mod worlds;

pub use queries::meant_queries_are_well_bound;
pub use worlds::{actions_keep_worlds_lawful, definitions_may_be_done, indexes_may_be_made};
