//! Scans of one relation, drawn from row by row (PostgreSQL, src/backend/executor/README). Rows fetched and entries looked at
//! are counted.
#![tactic(auto)]

mod bitmap;
mod drain;
mod hashed;
mod index;
mod laws;
mod numbers;
mod rows;
mod scene;
mod seq;
mod sorted;

pub use drain::scan;
pub use laws::scans_come_to_their_rows;
pub use numbers::{BitRows, HashRows};
pub use rows::ScanRows;
pub use seq::SeqRows;
pub use sorted::{IndexRows, OnlyRows};
pub use store;
