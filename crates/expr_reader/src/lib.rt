//! Reading conditions: the value of an expression of a statement over the visible columns, or its first fault (PostgreSQL
//! manual, chapters Value Expressions and Type Conversion). A cursor over the words of a statement reads them from the left, with their
//! places.
#![tactic(auto)]

mod comparison;
mod counts;
mod cursor;
mod cursor_laws;
mod expr;
mod found;
mod laws;
mod literal;
mod operand;
mod places;
mod read;
mod scope;
mod sort;
mod types;
mod value;
mod values;
mod written;

pub use counts::conjunct_count;
pub use cursor::{Cursor, Number, Operator, Spelled};
pub use cursor_laws::names_among_words;
pub use found::Found;
pub use laws::{meanings_are_bound, meanings_have_parts};
pub use operand::{found_column, take_column};
pub use places::ColumnPlaces;
pub use read::{read_expr, take_expr};
pub use scope::Scope;
pub use sort::{descending, nulls_first};
pub use types::type_named;
pub use value::{Placed, read_literal};
