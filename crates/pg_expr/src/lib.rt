//! Conditions of a query: their truth, their pushed form, and what they name.
#![tactic(auto)]

mod and_list;
mod atom_set;
mod binding;
mod copy;
mod counts;
mod expr;
mod laws;
mod operand;
mod push;
mod same;

pub use and_list::conjuncts;
pub use atom_set::AtomSet;
pub use binding::{Binding, eval};
pub use counts::{ops, rels};
pub use expr::{Expr, Exprs};
pub use laws::{column_laws, conjuncts_laws, pushed_form_laws};
pub use operand::{ColRef, Operand};
pub use push::push_not;
pub use same::is_same;
