//! What a name means among the visible columns.

use pg_expr::ColRef;

/// What a name of a column means, with the alias of its relation before it or without.
#[derive(Clone, Copy, Debug, PartialEq, Eq)]
pub enum Found {
    /// One column is visible under the name.
    One(ColRef),
    /// No column is visible under the alias.
    NoTable,
    /// No visible column has the name; under the alias, where one is given.
    NoColumn,
    /// Several visible columns have it.
    Many,
}
