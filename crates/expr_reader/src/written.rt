//! Parts of a comparison as they are read.

use crate::Spelled;
use pg_expr::ColRef;
use pg_value::{Bytes, SqlType, Truth};
use sql_lex::Token;

/// A literal.
#[derive(Debug, Drop)]
pub enum Literal {
    /// A whole number: whether a `-` stands before it, its digits' value, or 2^64 - 1 where that is more, and its first token.
    Whole(bool, u64, Token),
    /// A quoted text.
    Quoted(Spelled),
    /// TRUE, FALSE or NULL, and its token.
    Constant(Truth, Token),
}

/// A side of a comparison.
#[derive(Debug, Drop)]
pub enum Side {
    /// A column, its type and its first token.
    Column(ColRef, SqlType, Token),
    /// A literal.
    Literal(Literal),
    /// The type of a name, where one has it, the name's token, and the quoted text behind it.
    Typed(Option<SqlType>, Token, Bytes),
}
