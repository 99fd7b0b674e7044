//! The words of a statement (PostgreSQL manual, chapter Lexical Structure).
#![tactic(auto)]

mod blanks;
mod forms;
mod laws;
mod letters;
mod statement;
mod tokens;

pub use laws::{causes, one_reading};
pub use statement::lex_statement;
pub use tokens::{Kind, Token, Tokens};
