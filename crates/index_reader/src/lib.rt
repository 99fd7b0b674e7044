//! Reading CREATE INDEX (PostgreSQL manual, CREATE INDEX), and a candidate for an index: a definition bound to the catalogue,
//! with the places at which the catalogue's refusals stand; and the statement ADVISE, which asks which of some candidates to
//! make for some queries (own; HypoPG and dexter come closest to it).
#![tactic(auto)]

mod advise;
mod advising;
mod allowed;
mod candidates;
mod classes;
mod ends;
mod index;
mod keys;
mod laws;
mod limits;
mod methods;
mod names;
mod predicate;
mod queries;
mod read;
mod room;
mod table_scope;

pub use advise::{is_advise, read_advise};
pub use advising::Advising;
pub use index::ReadIndex;
pub use laws::a_candidate_that_ends_is_one;
pub use read::{read_cand, read_index};
