//! The share of rows at which a condition is taken to be true.

ghost use Rattle.std.specs.Prelude.{◌≡◌, ◌≤◌, ◌<◌, All, IsTrue, length};
ghost use Rattle.pg_value.specs.Truths.{IsSameKind};
ghost use Rattle.pg_expr.specs.Columns.{passes_column};
ghost use Rattle.pg_expr.specs.Typed.{AreTyped, IsTyped, some_value};
ghost use Rattle.pg_expr.specs.Cond as conds;
ghost use Rattle.pg_expr.specs.work.View as view;
ghost use Rattle.path_cost.specs.work.Columns.{AreTables, IsOver, is_column_in};
ghost use Rattle.catalog.specs.Range.{type_in};
ghost use Rattle.path_cost.specs.work.Ranges.{conditions_of};
ghost use Rattle.path_cost.specs.work.Relations.{range_of};
ghost use Rattle.path_cost.specs.Selectivity as sel;
ghost use Rattle.path_cost.specs.work.Selectivity as sel_work;
ghost use Rattle.path_cost.specs.work.Limits.{HasColumns, HaveColumns};

use crate::ranges::{Listing, range_weight};
use crate::shares::{ALL_ROWS, HALF, PER_SHARE, UNKNOWN_NULLS, column_literal, holds, two_columns};
use crate::tables::{Relations, column, known, nulls};
use catalog::{Catalog, RangeTable};
use pg_expr::{ColRef, Expr, Operand};
use pg_value::{Op, Truth, Value, commutator};

/// The share of rows at which a condition over a query's relations is taken to be true, in parts per 10^9.
pub fn selectivity(cat: &Catalog, range: &RangeTable, e: &Expr) -> u32
    requires tables { AreTables cat.now range.now }
    requires over { IsOver cat.now range.now (view.cond e.now) }
    ensures share { result ≡ sel.selectivity cat.now range.now (view.cond e.now) }
    ensures part { result ≤ 1_000_000_000 }
{
    share_of(cat, Relations::Of(range), e) as u32
}

/// What the condition of a number of a list multiplies with, in parts per 10^9.
pub(crate) fn weight(cat: &Catalog, range: &RangeTable, list: Listing, n: usize) -> u32
    requires tables { AreTables cat.now range.now }
    requires over { All (IsOver cat.now range.now) (conditions_of list) }
    requires number { n < length (conditions_of list) }
    ensures weight { result ≡ sel.weight cat.now range.now (conditions_of list.entry) n }
    ensures part { result ≤ 1_000_000_000 }
{
    match range_weight(cat, Relations::Of(range), list, n) {
        Some(weight) => weight as u32,
        None => selectivity(cat, range, list.at(n)),
    }
}

/// The share of rows at which a condition over one table or over a query's relations is taken to be true.
#[cycle(share)]
pub(crate) fn share_of(cat: &Catalog, relations: Relations, e: &Expr) -> u64
    requires tables { AreTables cat.now (range_of relations) }
    requires columns { HasColumns cat.now (range_of relations) (view.cond e.now) }
    requires typed { IsTyped (type_in cat.now (range_of relations)) (view.cond e.now) }
    ensures share { result ≡ sel.selectivity cat.now (range_of relations.entry) (view.cond e.now) }
    ensures part { result ≤ 1_000_000_000 }
{
    match e {
        Expr::Compare(op, l, r) => compared(cat, relations, *op, l, r),
        Expr::IsNull(x) => null_share(cat, relations, *x),
        Expr::IsNotNull(x) => ALL_ROWS - null_share(cat, relations, *x),
        Expr::BoolCol(_) => HALF,
        Expr::Const(t) => all_or_none(*t == Truth::True),
        Expr::And(parts) => all_share(cat, relations, parts.items()),
        Expr::Or(parts) => any_share(cat, relations, parts.items()),
        Expr::Not(inner) => ALL_ROWS - share_of(cat, relations, inner),
    }
}

#[cycle(share)]
#[tactic(auto, using(eq_classes::proofs::SearchLemmas::same_length))]
fn all_share(cat: &Catalog, relations: Relations, parts: &[Expr]) -> u64
    requires tables { AreTables cat.now (range_of relations) }
    requires columns { HaveColumns cat.now (range_of relations) (view.conds parts.now) }
    requires typed { AreTyped (type_in cat.now (range_of relations)) (view.conds parts.now) }
    ensures share { result ≡ sel_work.all_share cat.now (range_of relations.entry) parts.now }
    ensures part { result ≤ 1_000_000_000 }
{
    let mut all = ALL_ROWS;
    let mut n = 0;
    for part in parts {
        let share = match range_weight(cat, relations, Listing::Parts(parts), n) {
            Some(weight) => weight,
            None => share_of(cat, relations, part),
        };
        all = both(all, share);
        n += 1;
    }
    all
}

#[cycle(share)]
fn any_share(cat: &Catalog, relations: Relations, parts: &[Expr]) -> u64
    requires tables { AreTables cat.now (range_of relations) }
    requires columns { HaveColumns cat.now (range_of relations) (view.conds parts.now) }
    requires typed { AreTyped (type_in cat.now (range_of relations)) (view.conds parts.now) }
    ensures share { result ≡ sel_work.any_share cat.now (range_of relations.entry) parts.now }
    ensures part { result ≤ 1_000_000_000 }
{
    let mut any = 0;
    for part in parts {
        any = either(any, share_of(cat, relations, part));
    }
    any
}

/// The share of rows that meet both of two conditions, taken as independent.
#[tactic(auto, using(crate::proofs::ShareLemmas::and_most))]
fn both(a: u64, b: u64) -> u64
    requires left { a ≤ 1_000_000_000 }
    requires right { b ≤ 1_000_000_000 }
    ensures share { result ≡ sel.and_share a b }
    ensures part { result ≤ 1_000_000_000 }
{
    a * b / ALL_ROWS
}

/// The share of rows that meet one of two conditions at least.
#[tactic(auto, using(crate::proofs::ShareLemmas::and_most, crate::proofs::ShareLemmas::or_most, crate::proofs::ShareLemmas::and_lower))]
fn either(a: u64, b: u64) -> u64
    requires left { a ≤ 1_000_000_000 }
    requires right { b ≤ 1_000_000_000 }
    ensures share { result ≡ sel.or_share a b }
    ensures part { result ≤ 1_000_000_000 }
{
    (a + b).saturating_sub(a * b / ALL_ROWS)
}

fn all_or_none(all: bool) -> u64
    ensures share { result ≡ sel.all_or_none all }
    ensures part { result ≤ 1_000_000_000 }
{
    if all { ALL_ROWS } else { 0 }
}

/// The share of rows at which a column is NULL.
fn null_share(cat: &Catalog, relations: Relations, x: ColRef) -> u64
    requires tables { AreTables cat.now (range_of relations) }
    requires column { IsTrue (is_column_in cat.now (range_of relations) x) }
    ensures share { result ≡ sel.of_null cat.now (range_of relations.entry) x }
    ensures part { result ≤ 1_000_000_000 }
{
    if column(cat, relations, x).not_null {
        return 0;
    }
    match nulls(cat, relations, x) {
        Some(share) => PER_SHARE * u64::from(share),
        None => UNKNOWN_NULLS,
    }
}

/// The share of rows at which a comparison is true.
pub(crate) fn compared(cat: &Catalog, relations: Relations, op: Op, l: &Operand, r: &Operand) -> u64
    requires tables { AreTables cat.now (range_of relations) }
    requires left { IsTrue (passes_column (is_column_in cat.now (range_of relations)) l.now) }
    requires right { IsTrue (passes_column (is_column_in cat.now (range_of relations)) r.now) }
    requires typed { IsTyped (type_in cat.now (range_of relations)) (conds.compare op l.now r.now) }
    ensures share { result ≡ sel.of_comparison cat.now (range_of relations.entry) op l.now r.now }
    ensures part { result ≤ 1_000_000_000 }
{
    match (l, r) {
        (Operand::Col(x), Operand::Col(y)) => {
            two_columns(op, &known(cat, relations, *x), &known(cat, relations, *y))
        }
        (Operand::Col(x), Operand::Lit(v)) => literal_share(cat, relations, op, *x, v),
        (Operand::Lit(v), Operand::Col(x)) => {
            literal_share(cat, relations, commutator(op), *x, v)
        }
        (Operand::Lit(v), Operand::Lit(w)) => all_or_none(holds(op, v, w)),
    }
}

/// The share of rows at which a comparison of a column with a literal is true; none with NULL.
fn literal_share(cat: &Catalog, relations: Relations, op: Op, x: ColRef, v: &Value) -> u64
    requires tables { AreTables cat.now (range_of relations) }
    requires column { IsTrue (is_column_in cat.now (range_of relations) x) }
    requires kind { IsSameKind (some_value (type_in cat.now (range_of relations) x)) v.now }
    ensures share { result ≡ sel.of_column_and cat.now (range_of relations.entry) op x v.now }
    ensures part { result ≤ 1_000_000_000 }
{
    if matches!(v, Value::Null) {
        return 0;
    }
    column_literal(op, &known(cat, relations, x), v)
}
