//! The relations whose rows the scans of a relation may be given.

ghost use Rattle.std.specs.Prelude.{◌≡◌, ◌<◌, length};
ghost use Rattle.pg_base.specs.Sets.{has};
ghost use Rattle.pg_expr.specs.work.AtomSets.{contains};
ghost use Rattle.sql_query.specs.Queries.{width};
ghost use Rattle.plan_tree.specs.work.Reads.{IsOverTables};
ghost use Rattle.planner.specs.work.Near.{AreConjuncts, AreNamedWith, HavePairs, IsNear, is_conjunct_naming};

use catalog::Catalog;
use eq_classes::{ClauseSet, note};
use pg_base::{RelNo, RelSet};
use pg_expr::rels;
use plan_tree::{classes_of, others_named, range_of};
use sql_query::Prepared;

/// Whether a clause comes from a conjunct, and names a relation.
fn is_conjunct_of(cat: &Catalog, q: &Prepared, r: RelNo, n: u16) -> bool
    requires query { IsOverTables cat.now q.now }
    requires clause { n < length q.now.classes.clauses }
    ensures { result ≡ is_conjunct_naming q.now r n }
{
    classes_of(q).conjunct(n).is_some() && rels(classes_of(q).clause(n)).has(r)
}

/// The clauses from conjuncts that name a relation.
#[tactic(auto, using(eq_classes::proofs::WordLemmas::grows))]
fn conjuncts_of(cat: &Catalog, q: &Prepared, r: RelNo) -> ClauseSet
    requires query { IsOverTables cat.now q.now }
    ensures { AreConjuncts q.now r.0 (contains result) }
{
    let mut set = ClauseSet::empty();
    for n in 0..classes_of(q).count() {
        let is = is_conjunct_of(cat, q, r, n as u16);
        note(&mut set, n as u16, is);
    }
    set
}

/// The other relations that the clauses name which a scan of a relation tests where the rows of one other are given.
fn named_with(cat: &Catalog, q: &Prepared, r: RelNo, k: RelNo) -> RelSet
    requires query { IsOverTables cat.now q.now }
    requires relation { r.0 < width q.now }
    requires other { k.0 < width q.now }
    ensures { AreNamedWith q.now r k result }
{
    let tested = classes_of(q).param_clauses(r, RelSet::one(k));
    others_named(cat, q, r, &tested)
}

/// The other relations that the clauses name which a scan of a relation tests where the rows of some one other are given.
fn named_with_any(cat: &Catalog, q: &Prepared, r: RelNo) -> RelSet
    requires query { IsOverTables cat.now q.now }
    requires relation { r.0 < width q.now }
    ensures { HavePairs q.now r.0 (width q.now) (has result.0) }
{
    let mut near = RelSet::empty();
    for k in 0..range_of(q).items().len() {
        near = near.union(named_with(cat, q, r, RelNo(k as u8)));
    }
    near
}

/// The relations whose rows some scan of a relation is given, and perhaps more: those that its conjuncts name, and those
/// that its pair clauses name.
pub(crate) fn relations_near(cat: &Catalog, q: &Prepared, r: RelNo) -> RelSet
    requires query { IsOverTables cat.now q.now }
    requires relation { r.0 < width q.now }
    ensures { IsNear cat.now q.now r.0 (has result.0) }
{
    let conjuncts = others_named(cat, q, r, &conjuncts_of(cat, q, r));
    conjuncts.union(named_with_any(cat, q, r))
}
