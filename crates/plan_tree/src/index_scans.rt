//! Which scans of a relation by an index there are.

ghost use Rattle.std.specs.Prelude.{◌≡◌, ◌<◌, ◌↔◌, ℕ, IsTrue, length, nat_lt};
ghost use Rattle.pg_base.specs.Sets.{has};
ghost use Rattle.pg_expr.specs.work.AtomSets.{contains};
ghost use Rattle.sql_query.specs.catalog_Contents.{IsIndex, index_at};
ghost use Rattle.index_match.specs.Conditions as forms;
ghost use Rattle.index_match.specs.work.Conditions as forms_work;
ghost use Rattle.index_match.specs.Conditions.{index_conditions};
ghost use Rattle.index_match.specs.work.Conditions.{is_condition_of};
ghost use Rattle.sql_query.specs.Queries.{width};
ghost use Rattle.plan_tree.specs.Bitmaps.{IsIndexOn};
ghost use Rattle.plan_tree.specs.work.Reads.{IsOverTables};
ghost use Rattle.plan_tree.specs.Space as space;
ghost use Rattle.plan_tree.specs.work.Space as space_work;
ghost use Rattle.plan_tree.specs.Space.{IsIndexScan, IsIndexOnlyScan};

use crate::elements::has_some;
use crate::estimates::{classes_of, range_of};
use crate::make::{conditions_found, names_exactly};
use eq_classes::ClauseSet;
use index_match::{covers_columns, usable};
use pg_base::{IndexNo, RelNo, RelSet};
use sql_query::Prepared;
use sql_query::catalog::Catalog;
use sql_query::opfamily::Method;

/// Whether an index has a condition among the clauses of a relation and of its parameterisation, of which this is the
/// set.
fn has_condition(
    cat: &Catalog,
    q: &Prepared,
    r: RelNo,
    i: IndexNo,
    p: RelSet,
    found: &ClauseSet,
) -> bool
    requires found { (n : ℕ) →
        contains found.now n ≡ is_condition_of cat.now q.now.classes i r p n }
    ensures { result ≡ nat_lt 0 (length (index_conditions cat.now q.now.classes i r.0 (has p.0))) }
{
    has_some(classes_of(q), found)
}

/// Whether an index is a hash index.
fn is_hash(cat: &Catalog, i: IndexNo) -> bool
    requires index { IsIndex cat.now i }
    ensures { result ≡ forms.is_hash (index_at cat.now i).method }
{
    match cat.index(i).method {
        Method::Btree => false,
        Method::Hash => true,
    }
}

/// Whether a scan may be by an index with these conditions: a hash index has one.
fn serves(cat: &Catalog, q: &Prepared, r: RelNo, i: IndexNo, p: RelSet, found: &ClauseSet) -> bool
    requires index { IsIndex cat.now i }
    requires found { (n : ℕ) →
        contains found.now n ≡ is_condition_of cat.now q.now.classes i r p n }
    ensures { result ≡ space_work.may_serve cat.now q.now r i p }
{
    !is_hash(cat, i) || has_condition(cat, q, r, i, p, found)
}

/// Whether a scan may go that way: backward is for B-trees without a parameterisation.
fn may_go(backward: bool, hash: bool, p: RelSet) -> bool
    ensures { result ≡ space.may_go backward hash p }
{
    !backward || (!hash && p.0 == 0)
}

/// Whether the plan space has the scan of a relation by an index of its table, forward or backward, with a
/// parameterisation: the index is usable, a hash index has its condition, and the other relations that its conditions
/// name are the parameterisation.
pub fn is_index_scan(
    cat: &Catalog,
    q: &Prepared,
    r: RelNo,
    i: IndexNo,
    backward: bool,
    p: RelSet,
) -> bool
    requires query { IsOverTables cat.now q.now }
    requires relation { r.0 < width q.now }
    requires index { IsIndexOn cat.now q.now r.0 i }
    ensures { IsTrue result ↔ IsIndexScan cat.now q.now r i backward p }
{
    let hash = is_hash(cat, i);
    if !usable(cat, range_of(q), classes_of(q), i, r) || !may_go(backward, hash, p) {
        return false;
    }
    let found = conditions_found(cat, q, r, i, p);
    serves(cat, q, r, i, p, &found) && names_exactly(cat, q, r, p, &found)
}

/// Whether the plan space has the index-only scan of a relation by an index: the scan of this kind by a B-tree that holds each
/// column of the relation that the statement names.
pub fn is_index_only_scan(
    cat: &Catalog,
    q: &Prepared,
    r: RelNo,
    i: IndexNo,
    backward: bool,
    p: RelSet,
) -> bool
    requires query { IsOverTables cat.now q.now }
    requires relation { r.0 < width q.now }
    requires index { IsIndexOn cat.now q.now r.0 i }
    ensures { IsTrue result ↔ IsIndexOnlyScan cat.now q.now r i backward p }
{
    is_index_scan(cat, q, r, i, backward, p)
        && !is_hash(cat, i)
        && covers_columns(cat, i, r, q.used.items())
}
