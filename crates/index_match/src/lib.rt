//! Which clauses an index serves as conditions, and which of these bound a part of it (PostgreSQL manual, chapter
//! Indexes, Multicolumn Indexes, Partial Indexes, and Index-Only Scans and Covering Indexes).
#![tactic(auto)]

mod arms;
mod bounds;
mod forms;
mod laws;
mod matching;
mod slots;
mod usability;

pub use arms::arm;
pub use forms::{has_form, is_fixing, is_key_side, is_outside};
pub use laws::{bounds_and_tests_part_the_conditions, clauses_by_number, conditions_are_local};
pub use matching::{Match, conditions, conditions_among, local_clauses};
pub use predicate_proof;
pub use usability::{covers_columns, usable};
