//! Scans of a relation by an index, offered to a front.

ghost use Rattle.std.specs.Prelude.{◌≡◌, ◌<◌, ◌↔◌, true, false, IfOk, IsTrue, OnOk, map};
ghost use Rattle.pg_base.specs.Sets.{has};
ghost use Rattle.catalog.specs.Contents.{IsIndex, index_at};
ghost use Rattle.index_match.specs.Conditions.{is_hash};
ghost use Rattle.sql_query.specs.Queries.{width};
ghost use Rattle.plan_tree.specs.Bitmaps.{IsIndexOn};
ghost use Rattle.plan_tree.specs.work.Fronts.{ArePathsOf};
ghost use Rattle.plan_tree.specs.work.Reads.{IsOverTables};
ghost use Rattle.plan_tree.specs.Space.{IsBuilt, may_go};
ghost use Rattle.plan_tree.specs.work.Views.{path, plan};
ghost use Rattle.scan_paths.specs.work.Scans.{tree_of, OffersScans, AreWaysServed, IsIndexServedBy, scan_keys_of};
ghost use Rattle.plan_tree.specs.work.Lists.{IsServedBy};

use catalog::Catalog;
use opfamily::Method;
use pareto::Front;
use pathkeys::{Keys, index_keys};
use pg_base::{IndexNo, Memory, RelNo, RelSet};
use plan_tree::{
    Path, Plan, classes_of, index_scan_cost, is_index_only_scan, is_index_scan, offer_scan,
    range_of,
};
use sql_query::Prepared;
use std::alloc::Global;

/// The scans of a relation by an index, with a parameterisation, of one kind.
#[derive(Clone, Copy)]
pub(crate) struct ByIndex {
    /// The relation.
    pub(crate) rel: RelNo,
    /// The index, of its table.
    pub(crate) index: IndexNo,
    /// The relations whose rows the scan is given.
    pub(crate) param: RelSet,
    /// Index-only.
    pub(crate) only: bool,
}

/// The plan of this scan, forward or backward.
fn plan_of(s: ByIndex, backward: bool) -> Plan
    ensures tree { plan result ≡ tree_of s backward }
{
    let (rel, index, param) = (s.rel, s.index, s.param);
    if s.only {
        Plan::IndexOnly {
            rel,
            index,
            backward,
            param,
        }
    } else {
        Plan::Index {
            rel,
            index,
            backward,
            param,
        }
    }
}

/// The keys of this scan: those of the index, and none with a parameterisation. The error means out of memory.
fn keys_of(
    alloc: Global,
    cat: &Catalog,
    q: &Prepared,
    s: ByIndex,
    backward: bool,
) -> Result<Keys, Memory>
    requires index { IsIndex cat.now s.index }
    ensures keys { IfOk result (λ ks. ks ≡ scan_keys_of cat.now q.now s backward) }
{
    if s.param.0 == 0 {
        index_keys(
            alloc,
            cat,
            range_of(q),
            classes_of(q),
            s.index,
            s.rel,
            backward,
        )
    } else {
        Keys::from_slice(alloc, &[])
    }
}

/// Offers such a scan, which is of the plan space.
fn offer(
    alloc: Global,
    cat: &Catalog,
    q: &Prepared,
    s: ByIndex,
    backward: bool,
    front: &mut Front<Path>,
) -> Result<(), Memory>
    requires query { IsOverTables cat.now q.now }
    requires built { IsBuilt cat.now q.now (tree_of s backward) }
    requires paths { ArePathsOf cat.now q.now (map path front.old) }
    ensures takes { OffersScans cat.now q.now s.rel s.param front.old front.new }
    ensures served { OnOk result (IsServedBy cat.now q.now front.new (tree_of s backward)) }
{
    let keys = keys_of(alloc, cat, q, s, backward)?;
    let cost = index_scan_cost(cat, q, s.rel, s.index, s.param, s.only);
    offer_scan(
        cat,
        q,
        s.rel,
        s.param,
        plan_of(s, backward),
        cost,
        keys,
        front,
    )
}

/// Whether a scan by the index may go backward too: one by a B-tree without a parameterisation.
fn goes_back(cat: &Catalog, s: ByIndex) -> bool
    requires index { IsIndex cat.now s.index }
    ensures { result ≡ may_go true (is_hash (index_at cat.now s.index).method) s.param }
{
    match cat.index(s.index).method {
        Method::Btree => s.param.0 == 0,
        Method::Hash => false,
    }
}

/// Offers such scans either way, of which the forward one is of the plan space.
fn offer_ways(
    alloc: Global,
    cat: &Catalog,
    q: &Prepared,
    s: ByIndex,
    front: &mut Front<Path>,
) -> Result<(), Memory>
    requires query { IsOverTables cat.now q.now }
    requires built { IsBuilt cat.now q.now (tree_of s false) }
    requires paths { ArePathsOf cat.now q.now (map path front.old) }
    ensures takes { OffersScans cat.now q.now s.rel s.param front.old front.new }
    ensures served { OnOk result (AreWaysServed cat.now q.now s front.new) }
{
    offer(alloc, cat, q, s, false, front)?;
    if goes_back(cat, s) {
        offer(alloc, cat, q, s, true, front)?;
    }
    Ok(())
}

/// Whether the forward one of such scans is of the plan space.
fn is_in_space(cat: &Catalog, q: &Prepared, s: ByIndex) -> bool
    requires query { IsOverTables cat.now q.now }
    requires relation { s.rel.0 < width q.now }
    requires index { IsIndexOn cat.now q.now s.rel.0 s.index }
    ensures { IsTrue result ↔ IsBuilt cat.now q.now (tree_of s false) }
{
    if s.only {
        is_index_only_scan(cat, q, s.rel, s.index, false, s.param)
    } else {
        is_index_scan(cat, q, s.rel, s.index, false, s.param)
    }
}

/// Offers such scans, as far as the plan space has them.
fn offer_kind(
    alloc: Global,
    cat: &Catalog,
    q: &Prepared,
    s: ByIndex,
    front: &mut Front<Path>,
) -> Result<(), Memory>
    requires query { IsOverTables cat.now q.now }
    requires relation { s.rel.0 < width q.now }
    requires index { IsIndexOn cat.now q.now s.rel.0 s.index }
    requires paths { ArePathsOf cat.now q.now (map path front.old) }
    ensures takes { OffersScans cat.now q.now s.rel s.param front.old front.new }
    ensures served { OnOk result (AreWaysServed cat.now q.now s front.new) }
{
    if is_in_space(cat, q, s) {
        offer_ways(alloc, cat, q, s, front)?;
    }
    Ok(())
}

/// Offers the scans of a relation by an index of its table, with a parameterisation, as far as the plan space has them: index
/// scans, which `s` is, and index-only ones, forward and backward. The error means out of memory.
pub(crate) fn offer_by_index(
    alloc: Global,
    cat: &Catalog,
    q: &Prepared,
    s: ByIndex,
    front: &mut Front<Path>,
) -> Result<(), Memory>
    requires query { IsOverTables cat.now q.now }
    requires relation { s.rel.0 < width q.now }
    requires index { IsIndexOn cat.now q.now s.rel.0 s.index }
    requires fetching { s.only ≡ false }
    requires paths { ArePathsOf cat.now q.now (map path front.old) }
    ensures takes { OffersScans cat.now q.now s.rel s.param front.old front.new }
    ensures served { OnOk result (IsIndexServedBy cat.now q.now s front.new) }
{
    if !is_in_space(cat, q, s) {
        return Ok(());
    }
    offer_ways(alloc, cat, q, s, front)?;
    let only = ByIndex { only: true, ..s };
    offer_kind(alloc, cat, q, only, front)
}
