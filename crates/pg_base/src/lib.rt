//! The base of pgplan: numbers of things, sets of relations, the counter of row fetches, the outside, faults.
#![tactic(auto)]

mod faults;
mod limits;
mod mem;
mod numbers;
mod outside;
mod reading;
mod rel_set;
mod std_edge;
mod steps;
mod writing;

pub use faults::{Code, Fault, Limit, Memory, Refusal};
pub use limits::{
    MOST_ATOMS, MOST_CANDIDATES, MOST_COLUMNS, MOST_CONJUNCTS, MOST_INDEXES, MOST_JOINING_CLASSES,
    MOST_LEVELS, MOST_MERGE_KEYS, MOST_NAME_BYTES, MOST_QUERIES, MOST_RELATIONS, MOST_ROWS,
    MOST_SCRIPT_BYTES, MOST_TABLES, MOST_TEXT_BYTES,
};
pub use mem::{MemSink, MemSource};
pub use numbers::{ColNo, IndexNo, RelNo, TableNo, Tid};
pub use outside::{Failed, Sink, Source};
pub use reading::{ReadFault, read_all};
pub use rel_set::{RelSet, sets_are_their_members};
pub use std_edge::{StdSink, StdSource};
pub use steps::Steps;
pub use writing::write_all;
