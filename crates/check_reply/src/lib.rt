//! The reply to CHECK of a SELECT's certificate: that it is a table of the query, or the first reason for which it is none.
#![tactic(auto)]

mod checked;
mod laws;
mod lines;
mod shape;
mod shapes;
mod told;
mod trees;

pub use checked::check_text;
pub use laws::{reasons_have_their_own_texts, tables_are_valid};
