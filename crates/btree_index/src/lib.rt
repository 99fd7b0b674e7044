//! B-tree indexes: entries in the order of their keys, read by cursors from bounds on (PostgreSQL manual, chapter
//! Indexes, Index Types, B-Tree). The entries stand on leaves, which are one list; inner pages say where a search begins.
#![tactic(auto)]

mod adding;
mod bounds;
mod cursors;
mod edges;
mod entries;
mod inner;
mod leaf;
mod pages;
mod places;
mod sides;
mod sorted;
mod tree;

pub use bounds::{Bound, Probe};
pub use cursors::{Cursor, EntryRef};
pub use entries::Entry;
pub use tree::BTree;
