//! The text of a plan (PostgreSQL manual, Using EXPLAIN).
#![tactic(auto)]

mod bits;
mod figures;
mod keys;
mod lead;
mod nodes;
mod relations;

pub use bits::{conjunct_of, put_conjunct};
pub use figures::{limit_text, numbers};
pub use keys::put_keys;
pub use nodes::{plan_text, plan_text_at, put_scan_name};
