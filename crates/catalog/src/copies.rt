//! Copies of definitions, for changes that are only tried.

ghost use Rattle.std.specs.Prelude.{◌≡◌, ◌≤◌, IfOk, length};
ghost use Rattle.std.specs.List.{AllZip};
ghost use Rattle.std.specs.Option.{option_map};
ghost use Rattle.pg_base.specs.declared.limits.TheConstants.{MOST_INDEXES};
ghost use Rattle.pg_expr.specs.work.View.{cond};
ghost use Rattle.catalog.specs.work.Entries.{index_of};
ghost use Rattle.catalog.specs.work.Known.{statistics};

use crate::contents::Catalog;
use crate::index_def::IndexDef;
use crate::statistics::ColumnStats;
use crate::table::Table;
use arrayvec::ArrayVec;
use indexmap::IndexMap;
use opfamily::pg_value::{Columns, Value};
use pg_base::{IndexNo, MOST_INDEXES, Memory};
use pg_expr::Expr;
use std::alloc::Global;

/// What has copies.
trait Copied: Drop {
    /// Whether the second stands for the same as the first.
    ghost same: { Self → Self → Type 0 };

    /// A copy. The error means that memory ran out.
    fn copied(&self, alloc: Global) -> Result<Self, Memory>
        ensures { IfOk result (same self.now) };
}

impl Catalog {
    /// A catalogue of its own with the same contents. The error means that memory ran out.
    pub fn copy(&self, alloc: Global) -> Result<Catalog, Memory>
        ensures { IfOk result (λ c. c ≡ self.now) }
    {
        let tables = copy_entries(alloc, &self.tables)?;
        let indexes = copy_entries(alloc, &self.indexes)?;
        Ok(Catalog {
            alloc,
            tables,
            indexes,
        })
    }
}

impl IndexDef {
    /// A definition of the same index. The error means that memory ran out.
    pub fn copy(&self, alloc: Global) -> Result<IndexDef, Memory>
        ensures { IfOk result (λ d. index_of d ≡ index_of self.now) }
    {
        Ok(IndexDef {
            table: self.table,
            method: self.method,
            keys: Vec::from_slice(alloc, &self.keys)?,
            include: Vec::from_slice(alloc, &self.include)?,
            predicate: copy_predicate(alloc, &self.predicate)?,
        })
    }
}

impl ColumnStats {
    /// A copy of a column's statistics. The error means that memory ran out.
    fn copy(&self, alloc: Global) -> Result<ColumnStats, Memory>
        ensures { IfOk result (λ s. statistics s ≡ statistics self.now) }
    {
        Ok(ColumnStats {
            distinct: self.distinct,
            nulls: self.nulls,
            common: copy_each(alloc, &self.common)?,
            histogram: copy_each(alloc, &self.histogram)?,
        })
    }
}

/// A copy of each entry of a map by name, in order.
fn copy_entries<V: Copied>(
    alloc: Global,
    map: &IndexMap<Vec<u8>, V>,
) -> Result<IndexMap<Vec<u8>, V>, Memory>
    ensures { IfOk result (λ m. AllZip (λ p q. (q.0.items ≡ p.0.items) × V.same p.1 q.1) map.now.entries m.entries) }
{
    let mut copied = IndexMap::new(alloc);
    for n in 0..map.len() {
        let (name, value) = map.get_index(n).unwrap();
        let key = Vec::from_slice(alloc, name)?;
        let value = value.copied(alloc)?;
        copied.insert(key, value)?;
    }
    Ok(copied)
}

/// A copy of each item, in order.
fn copy_each<T: Copied>(alloc: Global, items: &[T]) -> Result<Vec<T>, Memory>
    ensures { IfOk result (λ v. AllZip T.same items.now v.items) }
{
    let mut copied = Vec::new(alloc);
    for item in items {
        copied.push(item.copied(alloc)?)?;
    }
    Ok(copied)
}

/// A copy of a predicate.
fn copy_predicate(alloc: Global, predicate: &Option<Expr>) -> Result<Option<Expr>, Memory>
    ensures { IfOk result (λ p. option_map cond p ≡ option_map cond predicate.now) }
{
    match predicate {
        None => Ok(None),
        Some(e) => Ok(Some(e.copy(alloc)?)),
    }
}

/// A copy of a table's list of indexes.
fn copy_numbers(numbers: &[IndexNo]) -> ArrayVec<IndexNo, MOST_INDEXES>
    requires { length numbers.now ≤ MOST_INDEXES }
    ensures { result.items ≡ numbers.now }
{
    match ArrayVec::try_from(numbers) {
        Ok(copied) => copied,
        Err(_) => unreachable!(),
    }
}

impl Copied for Table {
    ghost use Rattle.catalog.specs.work.Entries.{IsSameTable};

    ghost same = { IsSameTable };

    fn copied(&self, alloc: Global) -> Result<Table, Memory> {
        Ok(Table {
            names: self.names.copy(alloc)?,
            columns: self.columns.copy(alloc)?,
            loaded: self.loaded,
            sizes: self.sizes,
            stats: copy_each(alloc, &self.stats)?,
            indexes: copy_numbers(&self.indexes),
        })
    }
}

impl Copied for IndexDef {
    ghost use Rattle.std.specs.Prelude.{◌≡◌};
    ghost use Rattle.catalog.specs.work.Entries.{index_of};

    ghost same = { λ a b. index_of b ≡ index_of a };

    fn copied(&self, alloc: Global) -> Result<IndexDef, Memory> {
        self.copy(alloc)
    }
}

impl Copied for Option<ColumnStats> {
    ghost use Rattle.std.specs.Prelude.{◌≡◌};
    ghost use Rattle.std.specs.Option.{option_map};
    ghost use Rattle.catalog.specs.work.Known.{statistics};

    ghost same = { λ a b. option_map statistics b ≡ option_map statistics a };

    fn copied(&self, alloc: Global) -> Result<Option<ColumnStats>, Memory> {
        match self {
            None => Ok(None),
            Some(s) => Ok(Some(s.copy(alloc)?)),
        }
    }
}

impl Copied for (Value, u32) {
    ghost use Rattle.std.specs.Prelude.{◌≡◌};

    ghost same = { λ a b. b ≡ a };

    fn copied(&self, alloc: Global) -> Result<(Value, u32), Memory> {
        Ok((self.0.copy(alloc)?, self.1))
    }
}

impl Copied for Value {
    ghost use Rattle.std.specs.Prelude.{◌≡◌};

    ghost same = { λ a b. b ≡ a };

    fn copied(&self, alloc: Global) -> Result<Value, Memory> {
        self.copy(alloc)
    }
}
