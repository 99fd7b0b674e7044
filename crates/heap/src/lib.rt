//! Heaps: the rows of a table in order of loading, filled from COPY data and read one by one against a counter.
#![tactic(auto)]

mod counters;
mod fault;
mod heaps;
mod laws;
mod load;
mod runs;
mod store;
mod tids;
mod tuples;

pub use counters::{Counters, Counting};
pub use fault::CopyFault;
pub use heaps::Heaps;
pub use laws::{padded_tuples_have_each_relation, those_are_their_members};
pub use store::{Heap, Row, value_in};
pub use tids::Tids;
pub use tuples::Tuples;
