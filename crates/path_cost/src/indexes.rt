//! The costs of indexes over a catalogue, a query's relations and its clauses. Each cost is cut to at most 10^18.

ghost use Rattle.std.specs.Prelude.{◌≡◌, ◌≤◌, ◌<◌, [], ◌∷◌, false, All, length, map};
ghost use Rattle.pg_base.specs.declared.limits.TheConstants.{MOST_ATOMS};
ghost use Rattle.pg_expr.specs.work.AtomSets.{contains};
ghost use Rattle.pg_expr.specs.Pushed.{parts_of};
ghost use Rattle.pg_expr.specs.work.View as view;
ghost use Rattle.catalog.specs.Contents.{Contents, IsIndex};
ghost use Rattle.catalog.specs.Range.{Range};
ghost use Rattle.eq_classes.specs.Classes.{listed};
ghost use Rattle.eq_classes.specs.Clauses.{Clause};
ghost use Rattle.cost_rules.specs.declared.parameters.TheConstants.{MOST_COST};
ghost use Rattle.cost_rules.specs.work.Costs.{IsCost, IsEstimate};
ghost use Rattle.path_cost.specs.work.Columns.{AreTables, IsOver, AreOver};
ghost use Rattle.path_cost.specs.Costs as costs;
ghost use Rattle.path_cost.specs.Estimates.{conditions_from, entry_estimate as entries_of, kept, kept_among};
ghost use Rattle.path_cost.specs.work.Cut.{own_part_cut, part_cut, arm_cut, scan_cut};
ghost use Rattle.path_cost.specs.Costs.{index_rows_found};

use crate::conditions::{share_of, weight};
use crate::estimates::{after, relation_rows};
use crate::ranges::Listing;
use crate::runs::runs;
use crate::scans::{operators_of, relation_pages};
use crate::tables::Relations;
use catalog::opfamily::Method;
use catalog::{Catalog, RangeTable};
use cost_rules::{HASH_DESCENT, MOST_ESTIMATE, Pair, btree_descent, index_entries, index_scan};
use eq_classes::{Classes, ClauseSet};
use exact_rows::ExactRows;
use pg_base::{IndexNo, RelNo, RelSet};
use pg_expr::{AtomSet, Expr};
use std::slice;

/// The entries of an index: the rows of its table at which its predicate, taken as one condition, is true, or all rows.
pub fn entries(cat: &Catalog, i: IndexNo) -> u64
    requires index { IsIndex cat.now i }
    ensures entries { result ≡ entries_of cat.now i }
    ensures estimate { IsEstimate result }
{
    cat.lawful();
    let def = cat.index(i);
    let rows = cat.rows(def.table);
    match &def.predicate {
        Some(predicate) => share_kept(
            rows,
            share_of(cat, Relations::One(def.table), predicate) as u32,
        ),
        None => rows,
    }
}

/// What a share leaves of some rows.
fn share_kept(rows: u64, share: u32) -> u64
    requires rows { IsEstimate rows }
    requires share { share ≤ 1_000_000_000 }
    ensures rows { result ≡ kept rows (share ∷ []) }
    ensures estimate { IsEstimate result }
{
    let mut left = ExactRows::of(u128::from(rows));
    left.keep(share);
    left.up_to(MOST_ESTIMATE)
}

/// The way down an index.
fn descent(cat: &Catalog, i: IndexNo) -> u64
    requires index { IsIndex cat.now i }
    ensures descent { result ≡ costs.descent cat.now i }
    ensures small { result ≤ 2_090 }
{
    match cat.index(i).method {
        Method::Btree => btree_descent(entries(cat, i)),
        Method::Hash => HASH_DESCENT,
    }
}

/// An index's own part in one of so many runs, where so many rows meet its bounds, and so many conditions are made on each
/// entry.
fn own_part(cat: &Catalog, runs: u64, i: IndexNo, rows: u64, conditions: u64) -> u64
    requires index { IsIndex cat.now i }
    requires runs { IsEstimate runs }
    requires rows { IsEstimate rows }
    ensures rule { result ≡ own_part_cut cat.now runs i rows conditions }
    ensures reached { costs.descent cat.now i ≤ result }
    ensures most { result ≤ MOST_COST }
{
    let all = entries(cat, i);
    index_entries(runs, descent(cat, i), rows.min(all), all, conditions)
}

/// How many clauses a set has.
fn count_of(classes: &Classes, set: &ClauseSet) -> u64
    ensures count { result ≡ length (conditions_from 0 (contains set.now) classes.now.clauses) }
{
    let mut count = 0;
    for n in 0..classes.count() {
        if set.has(n as u16) {
            count += 1;
        }
    }
    count
}

/// An index's own part of a scan of a relation where the rows of `p` are given: the way down, the part of its pages that
/// the entries within the bounds have, at random, those of all runs together, and each of these entries with the
/// conditions. It is at most 10^18.
#[tactic(auto, using(crate::proofs::KeptLemmas::used_alone))]
pub fn index_part(
    cat: &Catalog,
    range: &RangeTable,
    classes: &Classes,
    i: IndexNo,
    r: RelNo,
    p: RelSet,
    bounds: &ClauseSet,
    conditions: &ClauseSet,
) -> u64
    requires tables { AreTables cat.now range.now }
    requires clauses { All (λ (k : Clause). IsOver cat.now range.now k.cond) classes.now.clauses }
    requires few { length range.now ≤ 16 }
    requires relation { r.0 < length range.now }
    requires index { IsIndex cat.now i }
    ensures rule { result ≡ part_cut cat.now range.now classes.now i r p bounds.now conditions.now }
    ensures reached { costs.descent cat.now i ≤ result }
    ensures most { result ≤ MOST_COST }
{
    let rows = relation_rows(cat, range, r);
    let within = after(cat, range, classes, rows, bounds, &ClauseSet::empty());
    let runs = runs(cat, range, classes, p);
    own_part(cat, runs, i, within, count_of(classes, conditions))
}

/// The part of the index that serves an arm of an OR where the rows of `p` are given: the parts of the arm's AND, or the
/// arm itself, in order; those of the numbers given, from 0, are its bounds, and all are its conditions. It is at most
/// 10^18.
pub fn arm_part(
    cat: &Catalog,
    range: &RangeTable,
    classes: &Classes,
    i: IndexNo,
    r: RelNo,
    p: RelSet,
    arm: &Expr,
    bounds: &AtomSet,
) -> u64
    requires tables { AreTables cat.now range.now }
    requires clauses { All (λ (k : Clause). IsOver cat.now range.now k.cond) classes.now.clauses }
    requires relations { length range.now ≤ 16 }
    requires over { IsOver cat.now range.now (view.cond arm.now) }
    requires few { length (listed (parts_of false (view.cond arm.now))) ≤ MOST_ATOMS }
    requires relation { r.0 < length range.now }
    requires index { IsIndex cat.now i }
    ensures rule { result ≡ arm_cut cat.now range.now classes.now i r p arm.now bounds.now }
    ensures most { result ≤ MOST_COST }
{
    let parts = parts_of_arm(arm);
    let within = after_parts(cat, range, relation_rows(cat, range, r), parts, bounds);
    let runs = runs(cat, range, classes, p);
    own_part(cat, runs, i, within, parts.len() as u64)
}

/// The parts of an AND, or a condition itself.
#[tactic(auto, using(crate::proofs::PartLemmas::one_over))]
fn parts_of_arm(arm: &Expr) -> &[Expr]
    ensures parts { map view.cond result.now ≡ listed (parts_of false (view.cond arm.now)) }
    ensures over { (c : Contents) (range : Range) → IsOver c range (view.cond arm.now) →
        AreOver c range result.now }
{
    match arm {
        Expr::And(parts) => parts.items(),
        _ => slice::from_ref(arm),
    }
}

/// What some conditions leave of so many rows: those of them whose numbers are in a set.
fn after_parts(
    cat: &Catalog,
    range: &RangeTable,
    rows: u64,
    parts: &[Expr],
    chosen: &AtomSet,
) -> u64
    requires tables { AreTables cat.now range.now }
    requires over { AreOver cat.now range.now parts.now }
    requires few { length parts.now ≤ MOST_ATOMS }
    requires rows { IsEstimate rows }
    ensures value { result ≡ kept_among cat.now range.now rows (contains chosen.now) (map view.cond parts.now) }
    ensures estimate { IsEstimate result }
{
    let mut left = ExactRows::of(u128::from(rows));
    for n in 0..parts.len() {
        if chosen.has(n as u8) {
            left.keep(weight(cat, range, Listing::Parts(parts), n));
        }
    }
    left.up_to(MOST_ESTIMATE)
}

/// An index scan of a relation: the index's own part, of which the way down comes before the first row; the heap pages
/// of the rows found, at random, those of all runs together, but none where the scan is index-only; and each row found
/// with the clauses of the relation and of the parameterisation that are no conditions.
pub fn index(
    cat: &Catalog,
    range: &RangeTable,
    classes: &Classes,
    i: IndexNo,
    r: RelNo,
    p: RelSet,
    bounds: &ClauseSet,
    conditions: &ClauseSet,
    only: bool,
) -> Pair
    requires tables { AreTables cat.now range.now }
    requires clauses { All (λ (k : Clause). IsOver cat.now range.now k.cond) classes.now.clauses }
    requires few { length range.now ≤ 16 }
    requires relation { r.0 < length range.now }
    requires index { IsIndex cat.now i }
    ensures rule { result ≡ scan_cut cat.now range.now classes.now i r p bounds.now conditions.now only }
    ensures cost { IsCost result }
    ensures part_of { part_cut cat.now range.now classes.now i r p bounds.now conditions.now ≤ result.total }
{
    let part = index_part(cat, range, classes, i, r, p, bounds, conditions);
    let found = rows_found(cat, range, classes, i, r, conditions);
    let base = classes.base_clauses(r);
    let param = classes.param_clauses(r, p);
    let ops = operators_of(classes, &base, &param, conditions);
    index_scan(
        runs(cat, range, classes, p),
        descent(cat, i),
        part,
        only,
        found,
        relation_pages(cat, range, r),
        ops,
    )
}

/// The rows that a scan of an index finds.
#[tactic(auto, using(crate::proofs::KeptLemmas::used_alone))]
fn rows_found(
    cat: &Catalog,
    range: &RangeTable,
    classes: &Classes,
    i: IndexNo,
    r: RelNo,
    conditions: &ClauseSet,
) -> u64
    requires tables { AreTables cat.now range.now }
    requires clauses { All (λ (k : Clause). IsOver cat.now range.now k.cond) classes.now.clauses }
    requires relation { r.0 < length range.now }
    requires index { IsIndex cat.now i }
    ensures rows { result ≡ index_rows_found cat.now range.now classes.now i r.0 (contains conditions.now) }
    ensures estimate { IsEstimate result }
{
    let rows = relation_rows(cat, range, r);
    after(cat, range, classes, rows, conditions, &ClauseSet::empty()).min(entries(cat, i))
}
