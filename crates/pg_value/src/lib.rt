//! Types, values and columns of a table.
#![tactic(auto)]

mod bytes;
mod columns;
mod comparison;
mod directions;
mod fields;
mod kinds;
mod laws;
mod operators;
mod value;

pub use bytes::Bytes;
pub use columns::{Column, Columns, MOST_COLUMNS};
pub use comparison::{apply, commutator, compare, negator, order_is_total};
pub use directions::column_order;
pub use fields::{
    FieldFault, owned_value, read_digits, read_value, spellings_are_read, whole_value,
};
pub use kinds::kind_order;
pub use laws::{column_order_is_total, kind_order_is_total};
pub use operators::{Family, Op, Truth};
pub use value::{SqlType, Value};
