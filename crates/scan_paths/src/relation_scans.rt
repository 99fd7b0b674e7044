//! All scans of a relation but those by a bitmap.

ghost use Rattle.std.specs.Prelude.{◌≡◌, ◌<◌, false, All, OnOk, map};
ghost use Rattle.pg_base.specs.Sets.{has};
ghost use Rattle.catalog.specs.Contents.{IsTable};
ghost use Rattle.sql_query.specs.Queries.{width};
ghost use Rattle.plan_tree.specs.Bitmaps.{IsIndexOn, table_of_relation};
ghost use Rattle.plan_tree.specs.work.Fronts.{ArePathsOf, StayDominated, is_no_bitmap};
ghost use Rattle.plan_tree.specs.work.Reads.{IsOverTables};
ghost use Rattle.plan_tree.specs.work.Views.{path};
ghost use Rattle.scan_paths.specs.work.Reached.{AreReached, IsReach, IsReached};
ghost use Rattle.scan_paths.specs.work.Scans.{OffersScans, IsIndexServedBy, AreAllServed, IsSeqServed};
ghost use Rattle.plan_tree.specs.work.Lists.{AreScanOffers, AreDominatedBy};

use crate::index_scans::{ByIndex, offer_by_index};
use crate::reached::{Reached, indexes_reached};
use catalog::Catalog;
use pareto::Front;
use pathkeys::Keys;
use pg_base::{Memory, RelNo, RelSet, TableNo};
use plan_tree::{Path, Plan, offer_scan, range_of, seq_scan_cost};
use sql_query::Prepared;
use std::alloc::Global;

/// Offers the sequential scan of a relation where there is no parameterisation.
fn offer_seq(
    alloc: Global,
    cat: &Catalog,
    q: &Prepared,
    r: RelNo,
    p: RelSet,
    front: &mut Front<Path>,
) -> Result<(), Memory>
    requires query { IsOverTables cat.now q.now }
    requires relation { r.0 < width q.now }
    requires paths { ArePathsOf cat.now q.now (map path front.old) }
    ensures takes { OffersScans cat.now q.now r p front.old front.new }
    ensures served { OnOk result (IsSeqServed cat.now q.now r p front.new) }
{
    if !p.is_empty() {
        return Ok(());
    }
    let keys = Keys::from_slice(alloc, &[])?;
    let cost = seq_scan_cost(cat, q, r);
    offer_scan(cat, q, r, p, Plan::Seq { rel: r }, cost, keys, front)
}

/// The table of a relation.
pub(crate) fn table_of(cat: &Catalog, q: &Prepared, r: RelNo) -> TableNo
    requires query { IsOverTables cat.now q.now }
    requires relation { r.0 < width q.now }
    ensures table { result ≡ table_of_relation q.now r.0 }
    ensures made { IsTable cat.now result }
{
    range_of(q).items()[r.0 as usize].0
}

/// Offers the scans by an index, where those rows may be given to one.
fn offer_reached(
    alloc: Global,
    cat: &Catalog,
    q: &Prepared,
    s: ByIndex,
    others: RelSet,
    front: &mut Front<Path>,
) -> Result<(), Memory>
    requires query { IsOverTables cat.now q.now }
    requires relation { s.rel.0 < width q.now }
    requires index { IsIndexOn cat.now q.now s.rel.0 s.index }
    requires reach { IsReach cat.now q.now s.rel s.index (has others.0) }
    requires fetching { s.only ≡ false }
    requires paths { ArePathsOf cat.now q.now (map path front.old) }
    ensures takes { OffersScans cat.now q.now s.rel s.param front.old front.new }
    ensures served { OnOk result (IsIndexServedBy cat.now q.now s front.new) }
{
    if !s.param.within(others) {
        return Ok(());
    }
    offer_by_index(alloc, cat, q, s, front)
}

/// A relation where the rows of others are given.
#[derive(Clone, Copy)]
struct Given {
    rel: RelNo,
    param: RelSet,
}

/// Offers the scans by each of some indexes of the relation's table.
fn offer_by_each(
    alloc: Global,
    cat: &Catalog,
    q: &Prepared,
    at: Given,
    indexes: &[Reached],
    front: &mut Front<Path>,
) -> Result<(), Memory>
    requires query { IsOverTables cat.now q.now }
    requires relation { at.rel.0 < width q.now }
    requires indexes { All (IsReached cat.now q.now at.rel) indexes.now }
    requires paths { ArePathsOf cat.now q.now (map path front.old) }
    ensures takes { OffersScans cat.now q.now at.rel at.param front.old front.new }
    ensures served { OnOk result (AreAllServed cat.now q.now at front.new indexes.now) }
{
    for x in indexes {
        let s = ByIndex {
            rel: at.rel,
            index: x.index,
            param: at.param,
            only: false,
        };
        offer_reached(alloc, cat, q, s, x.others, front)?;
    }
    Ok(())
}

/// Offers to a front what `scans` offers, by the indexes of the relation's table as `indexes_reached` finds them.
pub fn scans_by(
    alloc: Global,
    cat: &Catalog,
    q: &Prepared,
    at: (RelNo, RelSet),
    indexes: &[Reached],
    front: &mut Front<Path>,
) -> Result<(), Memory>
    requires query { IsOverTables cat.now q.now }
    requires relation { at.0.0 < width q.now }
    requires indexes { AreReached cat.now q.now at.0 indexes.now }
    requires paths { ArePathsOf cat.now q.now (map path front.old) }
    ensures paths { ArePathsOf cat.now q.now (map path front.new) }
    ensures kept { AreScanOffers cat.now q.now is_no_bitmap at.0 at.1 front.old front.new }
    ensures dominated { OnOk result (AreDominatedBy cat.now q.now is_no_bitmap at.0 at.1 front.new) }
    ensures still { StayDominated cat.now q.now (map path front.old) (map path front.new) }
{
    let (r, p) = at;
    offer_seq(alloc, cat, q, r, p, front)?;
    offer_by_each(alloc, cat, q, Given { rel: r, param: p }, indexes, front)
}

/// Offers to a front every admissible scan of relation `r` with the parameterisation `p`, but bitmap scans: without a
/// parameterisation the sequential scan, and by each usable index of the relation's table its scans with their conditions,
/// forward, and backward by a B-tree without a parameterisation; index-only ones by a B-tree that holds each column of the
/// relation that the statement names. With a parameterisation the relations that the conditions name beside `r` are exactly
/// `p`. After it each such plan is dominated by a path of the front. The error means out of memory: the front may then have
/// some of these paths, and what it dominated it still dominates.
pub fn scans(
    alloc: Global,
    cat: &Catalog,
    q: &Prepared,
    r: RelNo,
    p: RelSet,
    front: &mut Front<Path>,
) -> Result<(), Memory>
    requires query { IsOverTables cat.now q.now }
    requires relation { r.0 < width q.now }
    requires paths { ArePathsOf cat.now q.now (map path front.old) }
    ensures paths { ArePathsOf cat.now q.now (map path front.new) }
    ensures kept { AreScanOffers cat.now q.now is_no_bitmap r p front.old front.new }
    ensures dominated { OnOk result (AreDominatedBy cat.now q.now is_no_bitmap r p front.new) }
    ensures still { StayDominated cat.now q.now (map path front.old) (map path front.new) }
{
    let indexes = indexes_reached(alloc, cat, q, r)?;
    scans_by(alloc, cat, q, (r, p), &indexes, front)
}
