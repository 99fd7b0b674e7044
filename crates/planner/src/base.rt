//! The paths of one relation, also where rows of other relations are given.

ghost use Rattle.std.specs.Prelude.{◌≡◌, ◌<◌, ◌≤◌, ◌↔◌, IsTrue, false, IfOk, OnOk, Some};
ghost use Rattle.pg_base.specs.Sets.{has};
ghost use Rattle.eq_classes.specs.Clauses.{one};
ghost use Rattle.sql_query.specs.Queries.{all_of_query, width};
ghost use Rattle.plan_tree.specs.work.Reads.{IsOverTables};
ghost use Rattle.plan_tree.specs.Space.{IsSameSet};
ghost use Rattle.join_search.specs.work.Joins.{IsBase};
ghost use Rattle.join_search.specs.work.Tables.{ChangesOnlyFront, front_at, paths_at};
ghost use Rattle.scan_paths.specs.work.Reached.{AreReached};
ghost use Rattle.planner.specs.work.Bases.{AreAllScans, AreNamed, ChangesOnlyScans, HasAllScans, HasNoScan, HasScansAt, HaveScansOf};
ghost use Rattle.planner.specs.work.Near.{IsNear};

use crate::near::relations_near;
use bitmap_scan::bitmaps;
use catalog::Catalog;
use join_search::{Table, all_relations};
use pareto::Front;
use pg_base::{Memory, RelNo, RelSet};
use plan_tree::{Path, classes_of, others_named, range_of};
use scan_paths::{Reached, indexes_reached, scans_by};
use sql_query::Prepared;
use std::alloc::{AllocError, Global};

/// Whether a scan of a relation may be given the rows of these others: the clauses that it then tests beside its own name
/// each of them. Where it says no there is no such scan.
fn may_be_given(cat: &Catalog, q: &Prepared, r: RelNo, p: RelSet) -> bool
    requires query { IsOverTables cat.now q.now }
    requires relation { r.0 < width q.now }
    ensures named { IsTrue result ↔ AreNamed q.now r.0 (has p.0) }
    ensures none { result ≡ false → HasNoScan cat.now q.now r p }
{
    let tested = classes_of(q).param_clauses(r, p);
    let named = others_named(cat, q, r, &tested);
    p.within(named)
}

/// A relation whose scans are put into a table.
#[derive(Clone, Copy)]
struct Scanned<'a> {
    /// The relation.
    rel: RelNo,
    /// The set of it alone.
    set: RelSet,
    /// The relations whose rows some scan of it is given, and perhaps more.
    near: RelSet,
    /// The indexes of its table, each with the same of the scans by it.
    indexes: &'a [Reached],
}

/// The paths of a relation where the rows of these others are given: its scans, those that no other one dominates. The error
/// means out of memory.
fn relation_paths(
    alloc: Global,
    cat: &Catalog,
    q: &Prepared,
    at: Scanned,
    p: RelSet,
) -> Result<Front<Path>, Memory>
    requires query { IsOverTables cat.now q.now }
    requires relation { at.rel.0 < width q.now }
    requires indexes { AreReached cat.now q.now at.rel at.indexes.now }
    ensures { IfOk result (λ front. AreAllScans cat.now q.now at.entry.rel p front) }
{
    let mut front = Front::new(alloc);
    scans_by(alloc, cat, q, (at.rel, p), at.indexes, &mut front)?;
    bitmaps(alloc, cat, q, at.rel, p, &mut front)?;
    Ok(front)
}

/// Puts a front into a table. The error means out of memory.
fn put(table: &mut Table, s: RelSet, p: RelSet, front: Front<Path>) -> Result<(), Memory>
    ensures here { OnOk result (front_at table.new s p ≡ Some front) }
    ensures others { ChangesOnlyFront s p table.old table.new }
{
    match table.put(s, p, front) {
        Ok(()) => Ok(()),
        Err(_) => Err(AllocError),
    }
}

/// Puts the paths of a relation where the rows of these others are given into a table, if there may be some. The error means
/// out of memory.
fn add_paths(
    alloc: Global,
    cat: &Catalog,
    q: &Prepared,
    at: Scanned,
    p: RelSet,
    table: &mut Table,
) -> Result<(), Memory>
    requires query { IsOverTables cat.now q.now }
    requires relation { at.rel.0 < width q.now }
    requires set { IsSameSet (has at.set.0) (one at.rel.0) }
    requires near { IsNear cat.now q.now at.rel.0 (has at.near.0) }
    requires indexes { AreReached cat.now q.now at.rel at.indexes.now }
    requires base { IsBase cat.now q.now table.old }
    ensures base { OnOk result (IsBase cat.now q.now table.new) }
    ensures dominated { OnOk result (HasScansAt cat.now q.now at.entry.rel at.entry.set p table.new) }
    ensures others { ChangesOnlyFront at.entry.set p table.old table.new }
{
    if !p.within(at.near) {
        return Ok(());
    }
    if !may_be_given(cat, q, at.rel, p) {
        return Ok(());
    }
    let front = relation_paths(alloc, cat, q, at, p)?;
    put(table, at.set, p, front)
}

/// Puts the paths of a relation at each parameterisation into a table. The error means out of memory.
fn add_each(
    alloc: Global,
    cat: &Catalog,
    q: &Prepared,
    at: Scanned,
    all: RelSet,
    table: &mut Table,
) -> Result<(), Memory>
    requires query { IsOverTables cat.now q.now }
    requires relation { at.rel.0 < width q.now }
    requires set { IsSameSet (has at.set.0) (one at.rel.0) }
    requires near { IsNear cat.now q.now at.rel.0 (has at.near.0) }
    requires indexes { AreReached cat.now q.now at.rel at.indexes.now }
    requires all { IsSameSet (has all.0) (all_of_query q.now) }
    requires base { IsBase cat.now q.now table.old }
    ensures base { OnOk result (IsBase cat.now q.now table.new) }
    ensures scans { OnOk result (HaveScansOf cat.now q.now (paths_at table.new) at.entry.rel.0) }
    ensures others { ChangesOnlyScans at.entry.rel table.old table.new }
{
    for bits in 0..all.0 as u32 + 1 {
        add_paths(alloc, cat, q, at, RelSet(bits as u16), table)?;
    }
    Ok(())
}

/// Puts the paths of the relation of a number at each parameterisation into a table. The error means out of memory.
fn add_relation(
    alloc: Global,
    cat: &Catalog,
    q: &Prepared,
    r: RelNo,
    all: RelSet,
    table: &mut Table,
) -> Result<(), Memory>
    requires query { IsOverTables cat.now q.now }
    requires relation { r.0 < width q.now }
    requires all { IsSameSet (has all.0) (all_of_query q.now) }
    requires base { IsBase cat.now q.now table.old }
    ensures base { OnOk result (IsBase cat.now q.now table.new) }
    ensures scans { OnOk result (HaveScansOf cat.now q.now (paths_at table.new) r.0) }
    ensures others { ChangesOnlyScans r table.old table.new }
{
    let indexes = indexes_reached(alloc, cat, q, r)?;
    let at = Scanned {
        rel: r,
        set: RelSet::one(r),
        near: relations_near(cat, q, r),
        indexes: &indexes,
    };
    add_each(alloc, cat, q, at, all, table)
}

/// The paths of each relation, at each parameterisation that its scans may have. The error means out of memory.
pub fn base_table(alloc: Global, cat: &Catalog, q: &Prepared) -> Result<Table, Memory>
    requires query { IsOverTables cat.now q.now }
    ensures base { IfOk result (λ t. IsBase cat.now q.now t) }
    ensures scans { IfOk result (λ t. HasAllScans cat.now q.now t) }
{
    let all = all_relations(q);
    let mut table = Table::new(alloc);
    for r in 0..range_of(q).items().len() {
        add_relation(alloc, cat, q, RelNo(r as u8), all, &mut table)?;
    }
    Ok(table)
}
