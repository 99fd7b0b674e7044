//! Key lists: the classes by which rows are known to be sorted (PostgreSQL, src/backend/optimizer/README, PathKeys).
#![tactic(auto)]

mod index_order;
mod keys;
mod laws;
mod query_order;

pub use index_order::{index_key, index_keys};
pub use keys::{Keys, covers};
pub use laws::{covering_is_a_partial_order, keys_are_different_classes, prefixes_are_covered};
pub use query_order::{order_class, order_key, order_keys};
