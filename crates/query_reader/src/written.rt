//! Parts of a SELECT as they are written: each name in small letters, with its token.

use expr_reader::Spelled;

/// An item of the list that SELECT shows.
#[derive(Debug, Drop)]
pub enum Item {
    /// `*`: every column.
    Every,
    /// `name.*`: every column of one relation.
    EveryOf(Spelled),
    /// A column by its name alone.
    Bare(Spelled),
    /// A column with its relation's alias.
    Qualified(Spelled, Spelled),
}

/// A relation of FROM: a table, and its alias where one is given.
#[derive(Debug, Drop)]
pub struct Source {
    pub table: Spelled,
    pub alias: Option<Spelled>,
}

/// How a relation is joined to those before it in its group.
#[derive(Clone, Copy, Debug, PartialEq, Eq)]
pub enum Joining {
    /// With a condition.
    On,
    /// Without one.
    Cross,
}
