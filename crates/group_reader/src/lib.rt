//! Reading a SELECT that may group: its names bound to the catalogue, or its first fault (PostgreSQL manual, chapter Queries,
//! GROUP BY).
#![tactic(auto)]

mod bind;
mod group;
mod lists;
mod parts;
mod read;
mod selected;
mod written;

pub use selected::{Selected, read_any};
