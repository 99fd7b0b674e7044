//! The columns of a table.

ghost use Rattle.std.specs.Prelude.{◌≡◌, ◌≤◌, ◌<◌, length, slice_get, IfOk, Some};
ghost use Rattle.pg_value.specs.declared.columns.TheConstants.{MOST_COLUMNS};

use crate::value::SqlType;
use std::alloc::{AllocError, Global};
use std::marker::Model;

/// A table has at most so many columns. Own.
pub const MOST_COLUMNS: usize = 32;

/// A column's type, and whether it takes no NULL.
#[derive(Clone, Copy, Debug, PartialEq, Eq)]
pub struct Column {
    /// The type of the column's values.
    pub typed: SqlType,
    /// Whether the column is declared NOT NULL.
    pub not_null: bool,
}

/// A list of 1 to `MOST_COLUMNS` columns. Contracts see the list.
#[derive(Debug)]
pub struct Columns {
    columns: Vec<Column>,
}

impl Drop for Columns {
    fn drop(self) {
        let Columns { columns: _ } = self;
    }
}

impl Model for Columns {
    ghost use Rattle.std.specs.Prelude.{List, ◌<◌, ◌≤◌, vec_len};
    ghost use Rattle.pg_value.specs.declared.columns.Column.{Column};
    ghost use Rattle.pg_value.specs.declared.columns.TheConstants.{MOST_COLUMNS};

    ghost Value = { List Column };

    ghost view = { λ c. c.columns.items };

    ghost invariant = { λ c. (0 < vec_len c.columns) × (vec_len c.columns ≤ MOST_COLUMNS) };
}

impl Columns {
    /// The list of these columns.
    pub fn from_vec(v: Vec<Column>) -> Columns
        requires some { 0 < length v.items }
        requires few { length v.items ≤ MOST_COLUMNS }
        ensures { result ≡ v.items }
    {
        Columns { columns: v }
    }

    /// The columns from the left, lent: 1 to `MOST_COLUMNS` of them.
    pub fn items(&self) -> &[Column]
        ensures items { result.now ≡ self.now }
        ensures some { 0 < length self.now }
        ensures few { length self.now ≤ MOST_COLUMNS }
    {
        &self.columns
    }

    /// An equal list of columns. The error means that memory ran out.
    pub fn copy(&self, alloc: Global) -> Result<Columns, AllocError>
        ensures { IfOk result (λ c. c ≡ self.now) }
    {
        Ok(Columns {
            columns: Vec::from_slice(alloc, &self.columns)?,
        })
    }
}
