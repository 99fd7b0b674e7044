//! The conditions of an index among the clauses of a relation and of its parameterisation.

ghost use Rattle.std.specs.Prelude.{◌≡◌, ◌<◌, ◌≤◌, ℕ};
ghost use Rattle.pg_base.specs.Sets.{has};
ghost use Rattle.pg_expr.specs.work.AtomSets.{contains};
ghost use Rattle.catalog.specs.Contents.{IsIndex};
ghost use Rattle.index_match.specs.work.Bounds.{is_bound_of, is_test_of};
ghost use Rattle.index_match.specs.work.Slots as slots;
ghost use Rattle.index_match.specs.work.Slots.{AreLocal, is_number, is_found_at, numbered_by, conditions_for, is_left_over, is_bound, chosen_by};

use crate::bounds::{bounds, note};
use crate::forms::is_condition;
use crate::slots::{Chosen, Conditions};
use catalog::opfamily::Method;
use catalog::{Catalog, IndexDef, RangeTable};
use eq_classes::{Classes, ClauseSet};
use pg_base::{IndexNo, RelNo, RelSet};

/// The conditions of an index, by clause numbers.
#[derive(Drop)]
pub struct Match {
    /// The conditions that bound one contiguous part of the index.
    pub bounds: ClauseSet,
    /// The other conditions, which are tests of the index's entries.
    pub tests: ClauseSet,
}

/// The clauses over a relation alone and those that it tests where the rows of `p` are given.
#[tactic(auto, using(crate::proofs::FoundLemmas::finding))]
pub fn local_clauses(classes: &Classes, r: RelNo, p: RelSet) -> ClauseSet
    requires below { r.0 < 16 }
    ensures { AreLocal classes.now r.0 (has p.0) (contains result) }
{
    let base = classes.base_clauses(r);
    let param = classes.param_clauses(r, p);
    let mut set = ClauseSet::empty();
    for n in 0..classes.count() {
        let is = base.has(n as u16) || param.has(n as u16);
        note(&mut set, n as u16, is);
    }
    set
}

/// The clauses of the relation and its parameterisation that the index may use on some key column.
#[tactic(auto, using(crate::proofs::FoundLemmas::finding))]
fn all_found(def: &IndexDef, classes: &Classes, r: RelNo, p: RelSet, local: &ClauseSet) -> ClauseSet
    requires local { AreLocal classes.now r.0 (has p.0) (contains local.now) }
    ensures { (j : ℕ) → contains result j ≡ is_found_at def.now r p classes.now j }
{
    let mut set = ClauseSet::empty();
    for n in 0..classes.count() {
        let is = local.has(n as u16) && is_condition(def, r, classes.clause(n as u16));
        note(&mut set, n as u16, is);
    }
    set
}

/// The least number of a set alone.
fn least(set: &ClauseSet, end: usize) -> ClauseSet
    requires few { end ≤ 512 }
    ensures { (j : ℕ) → contains result j ≡ is_number j (slots.least (contains set.now) end) }
{
    let mut one = ClauseSet::empty();
    for n in 0..end {
        if set.has(n as u16) {
            one.insert(n as u16);
            return one;
        }
    }
    one
}

/// The conditions of the index: a hash index has the first one alone.
fn found(def: &IndexDef, classes: &Classes, r: RelNo, p: RelSet, local: &ClauseSet) -> ClauseSet
    requires local { AreLocal classes.now r.0 (has p.0) (contains local.now) }
    ensures conditions { numbered_by result classes.now ≡ conditions_for def.now r p classes.now }
{
    let all = all_found(def, classes, r, p, local);
    match def.method {
        Method::Btree => all,
        Method::Hash => least(&all, classes.count()),
    }
}

/// The members of a set, below an end, that another set does not have.
#[tactic(auto, using(eq_classes::proofs::WordLemmas::grows))]
fn without(set: &ClauseSet, other: &ClauseSet, end: usize) -> ClauseSet
    requires few { end ≤ 512 }
    ensures { (j : ℕ) → contains result j ≡ is_left_over set.now other.now end j }
{
    let mut rest = ClauseSet::empty();
    for n in 0..end {
        let is = set.has(n as u16) && !other.has(n as u16);
        note(&mut rest, n as u16, is);
    }
    rest
}

/// The numbers of the bounds among the clauses of a set.
fn bounding(def: &IndexDef, r: RelNo, classes: &Classes, set: &ClauseSet) -> ClauseSet
    ensures { (j : ℕ) → contains result j ≡ is_bound def.now r.0 (chosen_by set.now classes.now) j }
{
    let chosen = Chosen { classes, set };
    let _ = chosen.end();
    bounds(def, r, &Conditions::Clauses(chosen))
}

/// The conditions of index `i` among the clauses that are tested at relation `r` where the rows of `p` are given, of which
/// `local` is the set: what `conditions` finds, for callers that ask of several indexes. It takes no memory.
pub fn conditions_among(
    cat: &Catalog,
    classes: &Classes,
    i: IndexNo,
    r: RelNo,
    p: RelSet,
    local: &ClauseSet,
) -> Match
    requires index { IsIndex cat.now i }
    requires local { AreLocal classes.now r.0 (has p.0) (contains local.now) }
    ensures bounds { (n : ℕ) → contains result.bounds n ≡ is_bound_of cat.now classes.now i r p n }
    ensures tests { (n : ℕ) → contains result.tests n ≡ is_test_of cat.now classes.now i r p n }
{
    let def = cat.index(i);
    let found = found(def, classes, r, p, local);
    let bounds = bounding(def, r, classes, &found);
    let tests = without(&found, &bounds, classes.count());
    Match { bounds, tests }
}

/// The conditions of index `i` for a scan of relation `r`, with `p` as its parameter: the clauses over `r` alone and
/// those that the parameter lets it test, of the forms column op literal that is not NULL and column op column of another
/// relation, either way round, on a key column with an operator of its class's family; for a B-tree IS NULL and IS NOT
/// NULL too. A hash index has the first one alone. The bounds are found from the left over the key columns: the first
/// condition that leaves the column one value (IS NULL or the equality of the key's family), and the next column
/// follows; the first column without such a one gives all its conditions, and none after it gives any. It takes no
/// memory.
pub fn conditions(
    cat: &Catalog,
    range: &RangeTable,
    classes: &Classes,
    i: IndexNo,
    r: RelNo,
    p: RelSet,
) -> Match
    requires index { IsIndex cat.now i }
    requires below { r.0 < 16 }
    ensures bounds { (n : ℕ) → contains result.bounds n ≡ is_bound_of cat.now classes.now i r p n }
    ensures tests { (n : ℕ) → contains result.tests n ≡ is_test_of cat.now classes.now i r p n }
{
    conditions_among(cat, classes, i, r, p, &local_clauses(classes, r, p))
}
