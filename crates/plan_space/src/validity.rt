//! Which scans of one relation are in the plan space. Nothing is asked of the numbers that stand inside a plan.

ghost use Rattle.std.specs.Prelude.{◌<◌, ◌↔◌, IsTrue};
ghost use Rattle.sql_query.specs.Queries.{width};
ghost use Rattle.plan_tree.specs.work.Reads.{IsOverTables};
ghost use Rattle.plan_tree.specs.Space.{IsIndexScan, IsIndexOnlyScan};

use catalog::Catalog;
use pg_base::{IndexNo, RelNo, RelSet};
use plan_tree::{is_index_on, range_of};
use sql_query::Prepared;

/// Whether a number is that of a relation of the query.
pub(crate) fn is_relation(q: &Prepared, r: RelNo) -> bool
    ensures { IsTrue result ↔ (r.0 < width q.now) }
{
    (r.0 as usize) < range_of(q).items().len()
}

/// Whether an index scan is in the plan space: a scan of a relation of the query by a usable index of its table, with its
/// conditions; a hash index has one; backward is for B-trees without a parameterisation; the other relations that the
/// conditions name are the parameterisation. The numbers may be any. It takes no memory.
pub fn is_index_scan(
    cat: &Catalog,
    q: &Prepared,
    r: RelNo,
    i: IndexNo,
    backward: bool,
    p: RelSet,
) -> bool
    requires query { IsOverTables cat.now q.now }
    ensures valid { IsTrue result ↔ IsIndexScan cat.now q.now r i backward p }
{
    is_relation(q, r)
        && is_index_on(cat, q, r, i)
        && plan_tree::is_index_scan(cat, q, r, i, backward, p)
}

/// Whether an index-only scan is in the plan space: such a scan by a B-tree that holds each column of the relation that
/// the statement names. The numbers may be any. It takes no memory.
pub fn is_index_only_scan(
    cat: &Catalog,
    q: &Prepared,
    r: RelNo,
    i: IndexNo,
    backward: bool,
    p: RelSet,
) -> bool
    requires query { IsOverTables cat.now q.now }
    ensures valid { IsTrue result ↔ IsIndexOnlyScan cat.now q.now r i backward p }
{
    is_relation(q, r)
        && is_index_on(cat, q, r, i)
        && plan_tree::is_index_only_scan(cat, q, r, i, backward, p)
}
