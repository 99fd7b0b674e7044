//! Definitions of indexes (PostgreSQL manual, CREATE INDEX).

ghost use Rattle.std.specs.Prelude.{◌≡◌, ◌<◌, ◌+◌, ◌≤◌, ◌↔◌, IsTrue, MatchOption, take, length, slice_index_or, Contains};
ghost use Rattle.pg_base.specs.declared.limits.TheConstants.{MOST_COLUMNS};
ghost use Rattle.catalog.specs.work.Entries.{index_of};
ghost use Rattle.catalog.specs.Indexes.{AreDifferentColumns, IsFirstTwice, columns_of, has_form, is_plain};

use opfamily::{IndexKey, Method};
use pg_base::{ColNo, TableNo};
use pg_expr::Expr;

/// The definition of an index.
pub struct IndexDef {
    /// Its table.
    pub table: TableNo,
    /// Its access method.
    pub method: Method,
    /// The key columns, the first one most significant.
    pub keys: Vec<IndexKey>,
    /// The columns that its entries hold beside the key (INCLUDE).
    pub include: Vec<ColNo>,
    /// The condition of the rows that it has, of all rows where there is none. Its columns are those of relation 0.
    pub predicate: Option<Expr>,
}

impl Drop for IndexDef {
    fn drop(self) {
        let IndexDef {
            table: _,
            method: _,
            keys: _,
            include: _,
            predicate: _,
        } = self;
    }
}

/// The place, from 0, of the first of the key columns and then of those of INCLUDE that stands before already. None
/// where they differ.
pub(crate) fn first_twice(def: &IndexDef) -> Option<u8>
    requires { length def.now.keys.items + length def.now.include.items ≤ MOST_COLUMNS }
    ensures { MatchOption result (AreDifferentColumns (columns_of (index_of def.now))) (IsFirstTwice (columns_of (index_of def.now))) }
{
    for n in 0..def.keys.len() + def.include.len() {
        if stands_before(def, n) {
            return Some(n as u8);
        }
    }
    None
}

/// The column at a place.
fn column(def: &IndexDef, n: usize) -> ColNo
    requires { n < length def.now.keys.items + length def.now.include.items }
    ensures { result ≡ slice_index_or (columns_of (index_of def.now)) n result }
{
    match def.keys.get(n) {
        Some(key) => key.col,
        None => def.include[n - def.keys.len()],
    }
}

/// Whether the column at a place stands before already.
fn stands_before(def: &IndexDef, n: usize) -> bool
    requires few { length def.now.keys.items + length def.now.include.items ≤ MOST_COLUMNS }
    requires within { n < length def.now.keys.items + length def.now.include.items }
    ensures { IsTrue result ↔ Contains (take n (columns_of (index_of def.now))) (slice_index_or (columns_of (index_of def.now)) n (record { 0 = 0 })) }
{
    let sought = column(def, n);
    for m in 0..n {
        if column(def, m) == sought {
            return true;
        }
    }
    false
}

/// Whether the method has indexes of this form: a hash index has one key, ascending with NULLs last, and no INCLUDE
/// column (PostgreSQL manual, Hash Indexes).
pub(crate) fn is_of_form(def: &IndexDef) -> bool
    ensures { result ≡ has_form (index_of def.now) }
{
    match def.method {
        Method::Btree => true,
        Method::Hash => {
            def.keys.len() == 1 && def.include.is_empty() && is_plain_key(&def.keys[0])
        }
    }
}

fn is_plain_key(key: &IndexKey) -> bool
    ensures { result ≡ is_plain key.now }
{
    !key.descending && !key.nulls_first
}
