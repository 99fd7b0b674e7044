//! The relations whose rows the scans by each index of a relation may be given.

ghost use Rattle.std.specs.Prelude.{◌≡◌, ◌<◌, ℕ, All, IfOk, length};
ghost use Rattle.pg_base.specs.Sets.{has};
ghost use Rattle.pg_expr.specs.work.AtomSets.{contains};
ghost use Rattle.pg_expr.specs.work.View.{cond};
ghost use Rattle.catalog.specs.Contents.{IsIndex};
ghost use Rattle.catalog.specs.work.Entries.{index_of};
ghost use Rattle.index_match.specs.Conditions as forms;
ghost use Rattle.index_match.specs.work.Conditions as forms_work;
ghost use Rattle.sql_query.specs.Queries.{width};
ghost use Rattle.plan_tree.specs.Bitmaps.{IsIndexOn};
ghost use Rattle.plan_tree.specs.work.Reads.{IsOverTables};
ghost use Rattle.scan_paths.specs.work.Reached.{AreReached, AreReachedBy, IsReach, may_use_at, is_clause_of_use};

use crate::relation_scans::table_of;
use catalog::{Catalog, IndexDef};
use eq_classes::{ClauseSet, note};
use index_match::has_form;
use pg_base::{IndexNo, Memory, RelNo, RelSet};
use pg_expr::Expr;
use plan_tree::{classes_of, others_named};
use sql_query::Prepared;
use std::alloc::Global;

/// An index of a relation's table.
#[derive(Clone, Copy, Debug, PartialEq, Eq)]
pub struct Reached {
    /// The index.
    pub index: IndexNo,
    /// The relations whose rows a scan by it is given, and perhaps more.
    pub others: RelSet,
}

/// Whether an index may use a condition on some key column.
fn may_use(def: &IndexDef, r: RelNo, e: &Expr) -> bool
    ensures { result ≡ forms.is_condition (index_of def.now) r.0 (cond e.now) }
{
    def.keys.iter().any(|key| has_form(def.method, r, *key, e))
}

/// Whether an index may use a clause on some key column.
fn may_use_clause(cat: &Catalog, q: &Prepared, r: RelNo, i: IndexNo, n: u16) -> bool
    requires index { IsIndex cat.now i }
    requires clause { n < length q.now.classes.clauses }
    ensures { result ≡ may_use_at cat.now q.now r i n }
{
    may_use(cat.index(i), r, classes_of(q).clause(n))
}

/// The clauses that an index may use on some key column.
#[tactic(auto, using(eq_classes::proofs::WordLemmas::grows))]
fn clauses_of_use(cat: &Catalog, q: &Prepared, r: RelNo, i: IndexNo) -> ClauseSet
    requires index { IsIndex cat.now i }
    ensures { (j : ℕ) → contains result j ≡ is_clause_of_use cat.now q.now r i j }
{
    let mut set = ClauseSet::empty();
    for n in 0..classes_of(q).count() {
        let is = may_use_clause(cat, q, r, i, n as u16);
        note(&mut set, n as u16, is);
    }
    set
}

/// The relations that the clauses name beside `r` which an index may use on some key column.
fn reach(cat: &Catalog, q: &Prepared, r: RelNo, i: IndexNo) -> RelSet
    requires query { IsOverTables cat.now q.now }
    requires relation { r.0 < width q.now }
    requires index { IsIndexOn cat.now q.now r.0 i }
    ensures { IsReach cat.now q.now r i (has result.0) }
{
    others_named(cat, q, r, &clauses_of_use(cat, q, r, i))
}

/// Each of some indexes of a relation's table with the relations whose rows a scan by it may be given. The error means out of
/// memory.
fn each_reached(
    alloc: Global,
    cat: &Catalog,
    q: &Prepared,
    r: RelNo,
    indexes: &[IndexNo],
) -> Result<Vec<Reached>, Memory>
    requires query { IsOverTables cat.now q.now }
    requires relation { r.0 < width q.now }
    requires indexes { All (IsIndexOn cat.now q.now r.0) indexes.now }
    ensures { IfOk result (λ found. AreReachedBy cat.now q.now r indexes.now found.items) }
{
    let mut found = Vec::new(alloc);
    for i in indexes {
        let others = reach(cat, q, r, *i);
        found.push(Reached { index: *i, others })?;
    }
    Ok(found)
}

/// The indexes of a relation's table, each with the relations whose rows a scan by it may be given, whatever conditions it has.
/// Found once for a relation, so that a scan that cannot be is not looked for. The error means out of memory.
pub fn indexes_reached(
    alloc: Global,
    cat: &Catalog,
    q: &Prepared,
    r: RelNo,
) -> Result<Vec<Reached>, Memory>
    requires query { IsOverTables cat.now q.now }
    requires relation { r.0 < width q.now }
    ensures reached { IfOk result (λ found. AreReached cat.now q.now r found.items) }
{
    each_reached(alloc, cat, q, r, cat.indexes(table_of(cat, q, r)))
}
