//! Bounds of a column that a list of conditions has from both sides.

ghost use Rattle.std.specs.Prelude.{◌≡◌, ◌≤◌, ◌<◌, All, Bool, IfSome, IsTrue, Some, length, take};
ghost use Rattle.pg_expr.specs.Typed.{IsTyped};
ghost use Rattle.catalog.specs.Range.{type_in};
ghost use Rattle.path_cost.specs.work.Limits.{HasColumns};
ghost use Rattle.pg_expr.specs.work.View as view;
ghost use Rattle.path_cost.specs.Columns.{stats_of};
ghost use Rattle.path_cost.specs.work.Columns.{AreTables, IsOver, is_column_in};
ghost use Rattle.path_cost.specs.Ranges as ranges;
ghost use Rattle.path_cost.specs.work.Ranges as ranges_work;
ghost use Rattle.path_cost.specs.Ranges.{listed_condition};
ghost use Rattle.path_cost.specs.work.Ranges.{conditions_of};
ghost use Rattle.path_cost.specs.work.Relations.{range_of};
ghost use Rattle.path_cost.specs.Selectivity as sel;
ghost use Rattle.path_cost.specs.work.Selectivity as sel_work;

use crate::conditions::compared;
use crate::shares::{ALL_ROWS, range_share};
use crate::tables::{Relations, known};
use catalog::Catalog;
use eq_classes::Classes;
use pg_expr::{ColRef, Expr, Operand};
use pg_value::{Op, Value};

/// The conditions of a list: the parts of an AND, or the clauses of a query.
#[derive(Clone, Copy)]
pub(crate) enum Listing<'a> {
    Parts(&'a [Expr]),
    Clauses(&'a Classes),
}

impl<'a> Listing<'a> {
    /// How many conditions the list has.
    #[tactic(auto, using(eq_classes::proofs::SearchLemmas::same_length, crate::proofs::ListingLemmas::clause_long))]
    fn count(self) -> usize
        ensures { result ≡ length (conditions_of self.entry) }
    {
        match self {
            Listing::Parts(parts) => parts.len(),
            Listing::Clauses(classes) => classes.count(),
        }
    }

    /// The condition of a number, the first being 0.
    #[tactic(auto, using(eq_classes::proofs::SearchLemmas::same_length, crate::proofs::ListingLemmas::clause_long, crate::proofs::ListingLemmas::part_is, crate::proofs::ListingLemmas::clause_is))]
    pub(crate) fn at(self, n: usize) -> &'a Expr
        requires { n < length (conditions_of self) }
        ensures { view.cond result.now ≡ listed_condition (conditions_of self.entry) n }
    {
        match self {
            Listing::Parts(parts) => &parts[n],
            Listing::Clauses(classes) => {
                classes.count();
                classes.clause(n as u16)
            }
        }
    }
}

/// The bound that a condition is, with whether it is one from below; None where it is none.
fn bound_of(e: &Expr) -> Option<(ColRef, bool)>
    ensures { result ≡ ranges.bound_of (view.cond e.now) }
{
    match e {
        Expr::Compare(op, l, r) => bound_between(*op, l, r),
        _ => None,
    }
}

fn bound_between(op: Op, l: &Operand, r: &Operand) -> Option<(ColRef, bool)>
    ensures { result ≡ ranges.bound_between op l.now r.now }
{
    match l {
        Operand::Col(x) => bound_with(op, *x, r),
        Operand::Lit(_) => None,
    }
}

fn bound_with(op: Op, x: ColRef, r: &Operand) -> Option<(ColRef, bool)>
    ensures { result ≡ ranges.bound_between op (Operand.Col x) r.now }
{
    match r {
        Operand::Lit(v) => {
            if matches!(v, Value::Null) {
                return None;
            }
            side_of(op, x)
        }
        Operand::Col(_) => None,
    }
}

fn side_of(op: Op, x: ColRef) -> Option<(ColRef, bool)>
    ensures { result ≡ ranges.bounded_side op x }
{
    match op {
        Op::Gt | Op::Ge => Some((x, true)),
        Op::Lt | Op::Le => Some((x, false)),
        _ => None,
    }
}

/// Whether a condition is a bound of a column from a side.
fn is_bound_at(x: ColRef, below: bool, e: &Expr) -> bool
    ensures { result ≡ ranges.is_bound_at x below (ranges.bound_of (view.cond e.now)) }
{
    match bound_of(e) {
        Some((y, b)) => x.rel.0 == y.rel.0 && x.col.0 == y.col.0 && is_side(below, b),
        None => false,
    }
}

fn is_side(below: bool, b: bool) -> bool
    ensures { result ≡ ranges.is_side below b }
{
    if below { b } else { !b }
}

/// Whether one of the first `end` conditions of a list is a bound of a column from a side.
#[tactic(auto, using(crate::proofs::ListingLemmas::bound_found, crate::proofs::ListingLemmas::bound_missing))]
fn has_bound(list: Listing, x: ColRef, below: bool, end: usize) -> bool
    requires { end ≤ length (conditions_of list) }
    ensures { result ≡ ranges.has_bound x below (take end (conditions_of list.entry)) }
{
    for n in 0..end {
        if is_bound_at(x, below, list.at(n)) {
            return true;
        }
    }
    false
}

/// The share of a bound.
fn bound_share(cat: &Catalog, relations: Relations, e: &Expr) -> u64
    requires tables { AreTables cat.now (range_of relations) }
    requires columns { HasColumns cat.now (range_of relations) (view.cond e.now) }
    requires typed { IsTyped (type_in cat.now (range_of relations)) (view.cond e.now) }
    ensures share { result ≡ sel.bound_share cat.now (range_of relations.entry) (view.cond e.now) }
    ensures part { result ≤ 1_000_000_000 }
{
    match e {
        Expr::Compare(op, l, r) => compared(cat, relations, *op, l, r),
        _ => ALL_ROWS,
    }
}

/// The least share of the bounds of a column from a side; all rows where there are none.
#[tactic(auto, using(crate::proofs::ListingLemmas::over_at, crate::proofs::RangeLemmas::least_start, crate::proofs::RangeLemmas::least_yes, crate::proofs::RangeLemmas::least_no, crate::proofs::RangeLemmas::least_done))]
fn least_bound(cat: &Catalog, relations: Relations, list: Listing, x: ColRef, below: bool) -> u64
    requires tables { AreTables cat.now (range_of relations) }
    requires over { All (IsOver cat.now (range_of relations)) (conditions_of list) }
    ensures share { result ≡ sel.least_bound cat.now (range_of relations.entry) x below (conditions_of list.entry) }
    ensures part { result ≤ 1_000_000_000 }
{
    let mut least = ALL_ROWS;
    for n in 0..list.count() {
        let e = list.at(n);
        if is_bound_at(x, below, e) {
            least = least.min(bound_share(cat, relations, e));
        }
    }
    least
}

/// What the condition of a number of a list multiplies with as one end of a range: the share of the range, or all rows
/// where one of its bounds stands before it. None where it is no end of a range.
#[tactic(auto, using(crate::proofs::RangeLemmas::range_weight_if))]
pub(crate) fn range_weight(
    cat: &Catalog,
    relations: Relations,
    list: Listing,
    n: usize,
) -> Option<u64>
    requires tables { AreTables cat.now (range_of relations) }
    requires over { All (IsOver cat.now (range_of relations)) (conditions_of list) }
    requires number { n < length (conditions_of list) }
    ensures weight { result ≡ sel.range_weight cat.now (range_of relations.entry) (conditions_of list.entry) n }
    ensures part { IfSome result (λ w. w ≤ 1_000_000_000) }
{
    cat.lawful();
    weight_of(cat, relations, list, n)
}

fn weight_of(cat: &Catalog, relations: Relations, list: Listing, n: usize) -> Option<u64>
    requires tables { AreTables cat.now (range_of relations) }
    requires over { All (IsOver cat.now (range_of relations)) (conditions_of list) }
    requires number { n < length (conditions_of list) }
    ensures weight { result ≡ sel.range_weight cat.now (range_of relations.entry) (conditions_of list.entry) n }
{
    match bound_of(list.at(n)) {
        Some(bound) => end_weight(cat, relations, list, bound.0, n),
        None => None,
    }
}

/// What the bound of a number of a list multiplies with as one end of a range of its column.
fn end_weight(
    cat: &Catalog,
    relations: Relations,
    list: Listing,
    x: ColRef,
    n: usize,
) -> Option<u64>
    requires tables { AreTables cat.now (range_of relations) }
    requires over { All (IsOver cat.now (range_of relations)) (conditions_of list) }
    requires number { n < length (conditions_of list) }
    requires column { IsTrue (is_column_in cat.now (range_of relations) x) }
    ensures weight { (below : Bool) → result ≡ sel.end_weight cat.now (range_of relations.entry) (conditions_of list.entry) (take n (conditions_of list.entry)) (Some (x, below)) }
{
    if !is_ranged(cat, relations, list, x) {
        return None;
    }
    if has_end(list, x, n) {
        return Some(ALL_ROWS);
    }
    Some(column_range(cat, relations, list, x))
}

/// Whether a list bounds a column that has a histogram from both sides.
fn is_ranged(cat: &Catalog, relations: Relations, list: Listing, x: ColRef) -> bool
    requires tables { AreTables cat.now (range_of relations) }
    requires column { IsTrue (is_column_in cat.now (range_of relations) x) }
    ensures { result ≡ sel.is_ranged (stats_of cat.now (range_of relations.entry) x) x (conditions_of list.entry) }
{
    if known(cat, relations, x).histogram.len() == 0 {
        return false;
    }
    let end = list.count();
    has_bound(list, x, true, end) && has_bound(list, x, false, end)
}

/// Whether one of the first `end` conditions of a list is a bound of a column.
fn has_end(list: Listing, x: ColRef, end: usize) -> bool
    requires { end ≤ length (conditions_of list) }
    ensures { result ≡ ranges.has_end x (take end (conditions_of list.entry)) }
{
    has_bound(list, x, true, end) || has_bound(list, x, false, end)
}

/// The bounds of a column in a list, taken together.
fn column_range(cat: &Catalog, relations: Relations, list: Listing, x: ColRef) -> u64
    requires tables { AreTables cat.now (range_of relations) }
    requires over { All (IsOver cat.now (range_of relations)) (conditions_of list) }
    requires column { IsTrue (is_column_in cat.now (range_of relations) x) }
    ensures { result ≡ sel.column_range cat.now (range_of relations.entry) x (conditions_of list.entry) }
{
    let from = least_bound(cat, relations, list, x, true);
    let to = least_bound(cat, relations, list, x, false);
    range_share(&known(cat, relations, x), from, to)
}
