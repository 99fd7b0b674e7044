//! The parts of a bound list.

use pg_expr::ColRef;
use sql_lex::Token;
use sql_query::Item;

/// A part of a bound list.
#[derive(Clone, Copy, Debug, PartialEq, Eq)]
pub enum Part {
    /// A column that is shown, and the word of the error where it is not grouped.
    Shown(ColRef, Token),
    /// A call.
    Called(Item),
}
