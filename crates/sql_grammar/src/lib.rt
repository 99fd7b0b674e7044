//! The grammar of a statement: which lists of words are one, and where any other list leaves it.
//!
//! A statement is a concrete syntax tree (specs/Syntax.antt) and its words (specs/Words.antt). Every fault is stated over
//! the trees alone: the first word after which no statement goes on (42601), or that is past a limit (54000).
#![tactic(auto)]

mod class;
mod classify;
mod copy_line;
mod fault;
mod laws;
mod limits;
mod offered;
mod rows;
mod stack;
mod table;
mod walk;

pub use class::{Class, Free, Symbol, Word};
pub use classify::class_of;
pub use copy_line::data_start;
pub use fault::fault_at;
pub use laws::{
    one_candidate, one_expression, one_statement, one_windowed_select, words_are_tokens,
};
pub use limits::limit_passed;
pub use offered::{
    READS_ADVISE, READS_ANALYZE, READS_CHECK, READS_GROUPS, READS_PLAN, READS_TABLE, READS_WINDOW,
};
pub use walk::{cand_end, expr_end, select_end, statement_fault, windowed_select_end};
