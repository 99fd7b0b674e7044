//! What is stored of a catalogue's tables and indexes: a heap with the rows of each table, and each index built over them
//! (PostgreSQL manual, chapters Indexes, Data Definition and Populating a Database, and ANALYZE). Definitions are carried out,
//! data loaded and statistics gathered here, in the catalogue and the store beside it; what is refused changes nothing.
#![tactic(auto)]

mod built;
mod entries;
mod laws;
mod rows;
mod statistics;
mod store;
mod tables;

pub use built::BuiltIndex;
pub use laws::{each_index_has_its_entries, stores_follow_their_catalogues};
pub use statistics::gather;
pub use store::Store;
pub use tables::{build, fill, make};
