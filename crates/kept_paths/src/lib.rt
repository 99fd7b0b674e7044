//! The paths that are kept of a set of relations, known at one look from those that would not be (PostgreSQL,
//! src/backend/optimizer/util/pathnode.c, add_path and add_path_precheck). A cost unit is 1/400 of a sequential page.
#![tactic(auto)]

mod bounds;
mod kept;

pub use kept::KeptPaths;
