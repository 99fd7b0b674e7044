//! Parts of a grouped SELECT as they are written: each name in small letters, with its token.

use expr_reader::Spelled;
use query_reader::Item;
use sql_lex::Token;

/// A column: its name, with its relation's alias where one is given.
#[derive(Debug, Drop)]
pub struct Column {
    pub qualifier: Option<Spelled>,
    pub name: Spelled,
}

/// An item of the list that a grouped SELECT shows.
#[derive(Debug, Drop)]
pub enum Listed {
    /// Columns, and their last word, that of the error where they are not grouped.
    Columns(Item, Token),
    /// A call of this name over all rows.
    OverRows(Spelled),
    /// A call of this name over a column.
    OverColumn(Spelled, Column),
}

/// An item of ORDER BY: its column, its direction and the end at which its NULLs stand.
#[derive(Debug, Drop)]
pub struct Sorting {
    pub column: Column,
    pub descending: bool,
    pub nulls_first: bool,
}

/// The lists of a grouped SELECT: what it shows, its GROUP BY columns and the items of its ORDER BY.
#[derive(Drop)]
pub struct Words {
    pub listed: Vec<Listed>,
    pub columns: Vec<Column>,
    /// Whether DISTINCT stands before the list.
    pub distinct: bool,
    pub sorts: Vec<Sorting>,
}
