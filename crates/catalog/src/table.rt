//! What is kept of a table beside its name.

ghost use Rattle.std.specs.Prelude.{◌≡◌, ◌<◌, ◌≤◌, ℕ, [], IfOk, OnOk, Vec, length, map};
ghost use Rattle.std.specs.Option.{option_map};
ghost use Rattle.std.specs.declared.alloc.Global.{Global};
ghost use Rattle.pg_base.specs.Names.{AreDistinct};
ghost use Rattle.pg_value.specs.declared.columns.TheConstants.{MOST_COLUMNS};
ghost use Rattle.catalog.specs.Contents.{new_table, unknown as all_unknown};
ghost use Rattle.catalog.specs.work.Entries.{statistics, table_def};

use crate::names::Names;
use crate::statistics::ColumnStats;
use arrayvec::ArrayVec;
use opfamily::pg_value::{Bytes, Columns};
use pg_base::{IndexNo, MOST_INDEXES, Memory};
use std::alloc::Global;

/// The rows and pages that a statement gave for a table.
#[derive(Clone, Copy, Debug, Drop)]
pub struct Sizes {
    /// Its rows.
    pub rows: u64,
    /// Its pages.
    pub pages: u64,
}

/// What is kept of a table: its columns, and the numbers of its indexes in order of making.
pub(crate) struct Table {
    pub(crate) names: Names,
    pub(crate) columns: Columns,
    pub(crate) loaded: u32,
    pub(crate) sizes: Option<Sizes>,
    pub(crate) stats: Vec<Option<ColumnStats>>,
    pub(crate) indexes: ArrayVec<IndexNo, MOST_INDEXES>,
}

impl Drop for Table {
    fn drop(self) {
        let Table {
            names: _,
            columns: _,
            loaded: _,
            sizes: _,
            stats: _,
            indexes: _,
        } = self;
    }
}

impl Table {
    /// A table with these columns, without rows or indexes, of which nothing is known.
    pub(crate) fn new(alloc: Global, names: &[Bytes], columns: Columns) -> Result<Table, Memory>
        requires { AreDistinct names.now }
        ensures table { IfOk result (λ t. (name : Vec ℕ Global) → table_def (name, t) ≡ new_table name.items names.now columns) }
        ensures listed { IfOk result (λ t. t.indexes.items ≡ []) }
        ensures width { OnOk result ((0 < length columns) × (length columns ≤ MOST_COLUMNS)) }
    {
        Ok(Table {
            names: Names::copy_of(alloc, names)?,
            loaded: 0,
            sizes: None,
            stats: unknown(alloc, &columns)?,
            columns,
            indexes: ArrayVec::new(),
        })
    }
}

/// Nothing known of each of these columns.
fn unknown(alloc: Global, columns: &Columns) -> Result<Vec<Option<ColumnStats>>, Memory>
    ensures stats { IfOk result (λ stats. map (option_map statistics) stats.items ≡ all_unknown columns.now) }
    ensures some { 0 < length columns.now }
    ensures few { length columns.now ≤ MOST_COLUMNS }
{
    let mut stats = Vec::new(alloc);
    for _ in columns.items() {
        stats.push(None)?;
    }
    Ok(stats)
}
