//! The bitmap scans that are offered to a front.

ghost use Rattle.std.specs.Prelude.{◌≡◌, ◌<◌, ◌≤◌, ◌^◌, All, IsTrue, OnOk, map};
ghost use Rattle.sql_query.specs.Queries.{width};
ghost use Rattle.plan_tree.specs.work.Fronts.{ArePathsOf, StayDominated, is_bitmap};
ghost use Rattle.plan_tree.specs.work.Reads.{IsOverTables};
ghost use Rattle.plan_tree.specs.work.Views.{path};
ghost use Rattle.bitmap_scan.specs.work.Chosen.{AreChosen};
ghost use Rattle.bitmap_scan.specs.work.ElementTrees.{HasCheaper, IsCheaper, IsKept, lent_trees, marked_trees, AreBitmapOffers, AreLentTogether, AreMarkedTogether};
ghost use Rattle.plan_tree.specs.work.Lists.{AreScanOffers, AreDominatedBy};

use crate::chosen::{are_named, chosen_by, combine, parts_together, used_by};
use crate::element_tree::{ElementTree, Marked, Place};
use crate::elements::keep_all;
use catalog::Catalog;
use index_match::local_clauses;
use pareto::Front;
use path_cost::bitmap;
use pathkeys::Keys;
use pg_base::{Memory, RelNo, RelSet};
use plan_tree::{Path, Plan, classes_of, elements_among, names_exactly, offer_scan, range_of};
use sql_query::Prepared;
use std::alloc::Global;

/// How many sets there are of so many elements, the empty one too.
fn sets_of(n: usize) -> usize
    requires few { n ≤ 8 }
    ensures { result ≡ 2 ^ n }
{
    1 << n
}

/// Whether a path is of the relation where the rows are given, and costs no more in all.
fn is_cheaper(x: &Path, at: Place, cost: u64) -> bool
    requires { at.rel.0 < 16 }
    ensures { IsTrue result → IsCheaper at.entry cost (path x.now) }
{
    if x.cost > cost || x.param != at.param {
        return false;
    }
    x.set == RelSet::one(at.rel)
}

/// Whether some path is so.
fn has_cheaper(paths: &[Path], at: Place, cost: u64) -> bool
    requires { at.rel.0 < 16 }
    ensures { IsTrue result → HasCheaper at.entry cost (map path paths.now) }
{
    for x in paths {
        if is_cheaper(x, at, cost) {
            return true;
        }
    }
    false
}

/// Offers the bitmap scan over the tree of some elements, where there are some and the other relations that their clauses name
/// are exactly those of the parameterisation. It is not made where a path costs no more in all than their parts, which it costs
/// before its first row. The error means out of memory.
fn offer_chosen(
    alloc: Global,
    cat: &Catalog,
    q: &Prepared,
    at: Place,
    chosen: &[&ElementTree],
    front: &mut Front<Path>,
) -> Result<(), Memory>
    requires query { IsOverTables cat.now q.now }
    requires relation { at.rel.0 < width q.now }
    requires chosen { AreChosen cat.now q.now at.rel at.param (lent_trees chosen.now) }
    requires kept { All (λ k. IsKept cat.now q.now at.rel at.param k.now) chosen.now }
    requires paths { ArePathsOf cat.now q.now (map path front.old) }
    ensures paths { ArePathsOf cat.now q.now (map path front.new) }
    ensures kept { AreBitmapOffers cat.now q.now at.entry front.old front.new }
    ensures dominated { OnOk result (AreLentTogether cat.now q.now at.entry chosen.now front.new) }
    ensures still { StayDominated cat.now q.now (map path front.old) (map path front.new) }
{
    cat.lawful();
    let (r, p) = (at.rel, at.param);
    if chosen.is_empty() {
        return Ok(());
    }
    let parts = parts_together(chosen);
    if has_cheaper(front.items(), at, parts) {
        return Ok(());
    }
    let used = used_by(q, chosen);
    if !names_exactly(cat, q, r, p, &used) {
        return Ok(());
    }
    let cost = bitmap(cat, range_of(q), classes_of(q), r, p, &used, parts);
    let bits = combine(alloc, chosen)?;
    let keys = Keys::from_slice(alloc, &[])?;
    let t = Plan::Bitmap {
        rel: r,
        param: p,
        bits,
    };
    offer_scan(cat, q, r, p, t, cost, keys, front)
}

/// Offers the bitmap scan over the tree of the marked elements, where the other relations that they name are those of the
/// parameterisation. The error means out of memory.
fn offer_marked(
    alloc: Global,
    cat: &Catalog,
    q: &Prepared,
    at: Place,
    m: Marked,
    front: &mut Front<Path>,
) -> Result<(), Memory>
    requires query { IsOverTables cat.now q.now }
    requires relation { at.rel.0 < width q.now }
    requires chosen { AreChosen cat.now q.now at.rel at.param (marked_trees m) }
    requires kept { All (IsKept cat.now q.now at.rel at.param) m.kept.now }
    requires paths { ArePathsOf cat.now q.now (map path front.old) }
    ensures paths { ArePathsOf cat.now q.now (map path front.new) }
    ensures kept { AreBitmapOffers cat.now q.now at.entry front.old front.new }
    ensures dominated { OnOk result (AreMarkedTogether cat.now q.now at.entry m.entry front.new) }
    ensures still { StayDominated cat.now q.now (map path front.old) (map path front.new) }
{
    if !are_named(m, at.param) {
        return Ok(());
    }
    let chosen = chosen_by(alloc, m.kept, m.mask)?;
    offer_chosen(alloc, cat, q, at, &chosen, front)
}

/// Offers a front the bitmap scans of relation `r` where the rows of `p` are given: for each set of the first elements that
/// names exactly the relations of `p` beside `r`, the scan over the tree of least part. Trees of the same elements differ in
/// their parts alone, and the cost does not fall where these do not, so every admissible bitmap scan of the plan space is then
/// dominated. Elements are the usable indexes with a condition, then the OR clauses each of whose arms some usable index wholly
/// matches; the first 8 are combined, so there are at most 255 sets. The error means out of memory: what was offered before
/// stays.
pub fn bitmaps(
    alloc: Global,
    cat: &Catalog,
    q: &Prepared,
    r: RelNo,
    p: RelSet,
    front: &mut Front<Path>,
) -> Result<(), Memory>
    requires query { IsOverTables cat.now q.now }
    requires relation { r.0 < width q.now }
    requires paths { ArePathsOf cat.now q.now (map path front.old) }
    ensures paths { ArePathsOf cat.now q.now (map path front.new) }
    ensures kept { AreScanOffers cat.now q.now is_bitmap r p front.old front.new }
    ensures dominated { OnOk result (AreDominatedBy cat.now q.now is_bitmap r p front.new) }
    ensures still { StayDominated cat.now q.now (map path front.old) (map path front.new) }
{
    let local = local_clauses(classes_of(q), r, p);
    let elements = elements_among(cat, q, r, p, &local);
    let at = Place {
        rel: r,
        param: p,
        local: &local,
    };
    let kept = keep_all(alloc, cat, q, at, elements.items())?;
    for mask in 0..sets_of(kept.len()) {
        let m = Marked { kept: &kept, mask };
        offer_marked(alloc, cat, q, at, m, front)?;
    }
    Ok(())
}
