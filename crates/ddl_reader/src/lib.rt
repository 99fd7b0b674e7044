//! Reading the statements that define tables, load data, and give or find statistics.
#![tactic(auto)]

mod analysis;
mod block;
mod columns;
mod copy;
mod ddl;
mod literals;
mod read;
mod statistics;
mod table;
mod types;
mod words;

pub use block::block_end;
pub use ddl::{Ddl, Read};
pub use read::{is_ddl, is_index, read_ddl};
