//! Bitmap scans of one relation: each set of the first elements in its tree of least part, offered to a front of paths
//! (PostgreSQL manual, chapter Indexes, Combining Multiple Indexes; src/backend/optimizer/path/indxpath.c,
//! choose_bitmap_and). A cost unit is 1/400 of a sequential page.
#![tactic(auto)]

mod arms;
mod chosen;
mod element_tree;
mod elements;
mod offers;

pub use offers::bitmaps;
