//! Estimated rows. Rows are from 1 to 10^12.

ghost use Rattle.std.specs.Prelude.{◌≡◌, ◌≤◌, ◌<◌, ◌^◌, ◌*◌, ◌&&◌, ℕ, All, length, map, nat_eq};
ghost use Rattle.std.specs.List.{list_any};
ghost use Rattle.pg_base.specs.Sets.{has};
ghost use Rattle.pg_expr.specs.work.AtomSets.{contains};
ghost use Rattle.eq_classes.specs.Clauses.{Clause};
ghost use Rattle.eq_classes.specs.declared.classes.ClassNo.{ClassNo};
ghost use Rattle.cost_rules.specs.work.Costs.{IsEstimate};
ghost use Rattle.path_cost.specs.work.Columns.{AreTables, IsOver};
ghost use Rattle.path_cost.specs.Estimates.{param_rows, product_rows, relations, set_rows, table_rows, kept_by};
ghost use Rattle.path_cost.specs.work.Estimates.{either, pairs_by, is_keyed, is_pair_at};

use crate::conditions::weight;
use crate::ranges::Listing;
use catalog::{Catalog, RangeTable};
use cost_rules::MOST_ESTIMATE;
use eq_classes::{ClassNo, Classes, ClauseSet, note};
use exact_rows::ExactRows;
use pg_base::{RelNo, RelSet};

/// What the clauses of two sets, by their numbers, leave of so many rows.
pub(crate) fn after(
    cat: &Catalog,
    range: &RangeTable,
    classes: &Classes,
    rows: u64,
    one: &ClauseSet,
    other: &ClauseSet,
) -> u64
    requires tables { AreTables cat.now range.now }
    requires clauses { All (λ (k : Clause). IsOver cat.now range.now k.cond) classes.now.clauses }
    requires rows { IsEstimate rows }
    ensures value { result ≡ kept_by cat.now range.now rows (either one.now other.now) classes.now }
    ensures estimate { IsEstimate result }
{
    left_of(
        cat,
        range,
        classes,
        ExactRows::of(u128::from(rows)),
        one,
        other,
    )
}

/// What the clauses of two sets leave of a number of rows of any size.
fn left_of(
    cat: &Catalog,
    range: &RangeTable,
    classes: &Classes,
    rows: ExactRows,
    one: &ClauseSet,
    other: &ClauseSet,
) -> u64
    requires tables { AreTables cat.now range.now }
    requires clauses { All (λ (k : Clause). IsOver cat.now range.now k.cond) classes.now.clauses }
    requires some { 1 ≤ rows }
    ensures value { result ≡ kept_by cat.now range.now rows (either one.now other.now) classes.now }
    ensures estimate { IsEstimate result }
{
    let mut left = rows;
    for n in 0..classes.count() {
        if is_in_either(one, other, n as u16) {
            left.keep(weight(cat, range, Listing::Clauses(classes), n));
        }
    }
    left.up_to(MOST_ESTIMATE)
}

/// Whether a clause is in one of two sets.
pub(crate) fn is_in_either(one: &ClauseSet, other: &ClauseSet, n: u16) -> bool
    requires { n < 512 }
    ensures { result ≡ either one.now other.now n }
{
    one.has(n) || other.has(n)
}

/// The rows of a relation with the relations of a parameterisation, after the clauses that it tests then.
#[tactic(auto, using(crate::proofs::KeptLemmas::params_numbered))]
pub fn rows_param(cat: &Catalog, range: &RangeTable, classes: &Classes, r: RelNo, p: RelSet) -> u64
    requires tables { AreTables cat.now range.now }
    requires clauses { All (λ (k : Clause). IsOver cat.now range.now k.cond) classes.now.clauses }
    requires few { length range.now ≤ 16 }
    requires relation { r.0 < length range.now }
    ensures rows { result ≡ param_rows cat.now range.now classes.now r.0 (has p.0) }
    ensures estimate { IsEstimate result }
{
    let rows = relation_rows(cat, range, r);
    let base = classes.base_clauses(r);
    let param = classes.param_clauses(r, p);
    after(cat, range, classes, rows, &base, &param)
}

/// The rows of a relation's table.
pub(crate) fn relation_rows(cat: &Catalog, range: &RangeTable, r: RelNo) -> u64
    requires tables { AreTables cat.now range.now }
    requires relation { r.0 < length range.now }
    ensures rows { result ≡ table_rows cat.now range.now r.0 }
    ensures estimate { IsEstimate result }
    ensures few { result < 2 ^ 32 }
{
    cat.rows(range.items()[r.0 as usize].0)
}

/// The estimated rows of a set of relations, however they are joined: the product of its relations' rows, then its
/// clauses by number.
#[tactic(auto, using(crate::proofs::KeptLemmas::all_numbered))]
pub fn rows(cat: &Catalog, range: &RangeTable, classes: &Classes, s: RelSet) -> u64
    requires tables { AreTables cat.now range.now }
    requires clauses { All (λ (k : Clause). IsOver cat.now range.now k.cond) classes.now.clauses }
    requires few { length range.now ≤ 16 }
    ensures rows { result ≡ set_rows cat.now range.now classes.now (has s.0) }
    ensures estimate { IsEstimate result }
{
    let product = product(cat, range, s);
    let all = classes.all_clauses(s);
    left_of(cat, range, classes, product, &all, &ClauseSet::empty())
}

/// The rows of the product of a set's relations, exact.
fn product(cat: &Catalog, range: &RangeTable, s: RelSet) -> ExactRows
    requires tables { AreTables cat.now range.now }
    requires few { length range.now ≤ 16 }
    ensures rows { result ≡ product_rows cat.now range.now (relations range.now (has s.0)) }
    ensures some { 1 ≤ result }
{
    let mut rows = ExactRows::of(1);
    for n in 0..range.items().len() {
        let r = RelNo(n as u8);
        if s.has(r) {
            rows.times(relation_rows(cat, range, r));
        }
    }
    rows
}

/// The pairs of rows of two sets that are equal in some classes, before the other clauses that join the sets: a merge by
/// these classes works on so many.
#[tactic(auto, using(crate::proofs::KeptLemmas::used_alone, crate::proofs::KeptLemmas::pairs_numbered))]
pub fn pairs(
    cat: &Catalog,
    range: &RangeTable,
    classes: &Classes,
    a: RelSet,
    b: RelSet,
    keys: &[ClassNo],
) -> u64
    requires tables { AreTables cat.now range.now }
    requires clauses { All (λ (k : Clause). IsOver cat.now range.now k.cond) classes.now.clauses }
    requires few { length range.now ≤ 16 }
    ensures rows { result ≡ pairs_by cat.now range.now classes.now (has a.0) (has b.0) keys.now }
    ensures estimate { IsEstimate result }
{
    let outer = u128::from(rows(cat, range, classes, a));
    let inner = u128::from(rows(cat, range, classes, b));
    let equal = key_pairs(classes, a, b, keys);
    left_of(
        cat,
        range,
        classes,
        ExactRows::of(outer * inner),
        &equal,
        &ClauseSet::empty(),
    )
}

/// The pair clauses of some classes among the clauses that join two sets.
#[tactic(auto, using(eq_classes::proofs::WordLemmas::grows, crate::proofs::KeptLemmas::inside_twice))]
pub fn key_pairs(classes: &Classes, a: RelSet, b: RelSet, keys: &[ClassNo]) -> ClauseSet
    ensures { (k : ℕ) → contains result k ≡ is_keyed (has a.0) (has b.0) keys.now classes.now k }
{
    let joining = classes.join_clauses(a, b);
    let mut set = ClauseSet::empty();
    for n in 0..classes.count() {
        let is = is_key_pair(classes, &joining, n as u16, keys);
        note(&mut set, n as u16, is);
    }
    set
}

/// Whether a clause is in a set and the pair clause of one of some classes.
fn is_key_pair(classes: &Classes, joining: &ClauseSet, n: u16, keys: &[ClassNo]) -> bool
    requires clause { n < length classes.now.clauses }
    requires below { n < 512 }
    ensures { result ≡ contains joining.now n && is_pair_at keys.now classes.now n }
{
    match classes.pair_class(n) {
        Some(class) => joining.has(n) && is_among(keys, class),
        None => false,
    }
}

/// Whether a class is one of some.
fn is_among(keys: &[ClassNo], class: ClassNo) -> bool
    ensures { result ≡ list_any (nat_eq class.0) (map (λ (k : ClassNo). k.0) keys.now) }
{
    for k in keys {
        if class.0 == k.0 {
            return true;
        }
    }
    false
}
