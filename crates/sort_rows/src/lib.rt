//! Lists of tuples sorted by the classes of a key list (PostgreSQL, src/backend/executor/nodeSort.c). The row of each
//! relation of a tuple is read once, before the first comparison. All keys stand in one list; what is sorted are places in the
//! input, each with a number that tells most keys apart.
#![tactic(auto)]

mod columns;
mod keys;
mod leads;
mod sort;
mod source;

pub use columns::{SortColumn, sort_columns};
pub use keys::{compare_keys, read_key};
pub use sort::sort_rows;
