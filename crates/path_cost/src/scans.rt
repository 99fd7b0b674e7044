//! Costs of scans over a catalogue, a query's relations and its clauses. Each cost is cut to at most 10^18.

ghost use Rattle.std.specs.Prelude.{◌≡◌, ◌≤◌, ◌<◌, All, length};
ghost use Rattle.eq_classes.specs.Clauses.{Clause};
ghost use Rattle.cost_rules.specs.declared.parameters.TheConstants.{MOST_COST};
ghost use Rattle.cost_rules.specs.work.Costs.{IsCost, IsEstimate, capped_pair};
ghost use Rattle.path_cost.specs.work.Columns.{AreTables, IsOver};
ghost use Rattle.path_cost.specs.Costs.{seq_cost};
ghost use Rattle.path_cost.specs.Estimates.{table_pages};
ghost use Rattle.path_cost.specs.work.Estimates.{either_but};
ghost use Rattle.path_cost.specs.work.Cut.{saturated, operators_but, bitmap_cut};

use crate::estimates::{after, is_in_either, relation_rows};
use crate::runs::runs;
use catalog::{Catalog, RangeTable};
use cost_rules::{Pair, bitmap_scan, seq_scan};
use eq_classes::{Classes, ClauseSet};
use pg_base::{RelNo, RelSet};
use pg_expr::ops;

/// The operators of the clauses of two sets that are not in a third. A number past 2^64 - 1 is answered as 2^64 - 1.
pub fn operators_of(classes: &Classes, one: &ClauseSet, other: &ClauseSet, but: &ClauseSet) -> u64
    ensures { result ≡ saturated (operators_but classes.now one.now other.now but.now) }
{
    let mut sum: u64 = 0;
    for n in 0..classes.count() {
        if is_left(one, other, but, n as u16) {
            sum = sum.saturating_add(ops(classes.clause(n as u16)));
        }
    }
    sum
}

/// Whether a clause is in one of two sets and not in a third.
fn is_left(one: &ClauseSet, other: &ClauseSet, but: &ClauseSet, n: u16) -> bool
    requires { n < 512 }
    ensures { result ≡ either_but one.now other.now but.now n }
{
    is_in_either(one, other, n) && !but.has(n)
}

/// The pages of a relation's table.
pub(crate) fn relation_pages(cat: &Catalog, range: &RangeTable, r: RelNo) -> u64
    requires tables { AreTables cat.now range.now }
    requires relation { r.0 < length range.now }
    ensures pages { result ≡ table_pages cat.now range.now r.0 }
    ensures estimate { IsEstimate result }
{
    cat.pages(range.items()[r.0 as usize].0)
}

/// A sequential scan: every page, and each row with the clauses over the relation alone.
#[tactic(auto, using(crate::proofs::CostLemmas::seq_cut, crate::proofs::CostLemmas::base_operators))]
pub fn seq(cat: &Catalog, range: &RangeTable, classes: &Classes, r: RelNo) -> Pair
    requires tables { AreTables cat.now range.now }
    requires few { length range.now ≤ 16 }
    requires relation { r.0 < length range.now }
    ensures rule { result ≡ capped_pair (seq_cost cat.now range.now classes.now r.0) }
    ensures cost { IsCost result }
{
    let base = classes.base_clauses(r);
    let none = ClauseSet::empty();
    let ops = operators_of(classes, &base, &none, &none);
    seq_scan(
        relation_pages(cat, range, r),
        relation_rows(cat, range, r),
        ops,
    )
}

/// A bitmap scan over the parts of its indexes, together at most 10^18: the rows are those after the clauses that it
/// uses, the heap pages come in order, those of all runs together, and each row is tested by all clauses of the relation
/// and of the parameterisation.
#[tactic(auto, using(crate::proofs::CostLemmas::bitmap_cut, crate::proofs::CostLemmas::local_operators_are, crate::proofs::KeptLemmas::used_alone))]
pub fn bitmap(
    cat: &Catalog,
    range: &RangeTable,
    classes: &Classes,
    r: RelNo,
    p: RelSet,
    used: &ClauseSet,
    parts: u64,
) -> Pair
    requires tables { AreTables cat.now range.now }
    requires clauses { All (λ (k : Clause). IsOver cat.now range.now k.cond) classes.now.clauses }
    requires few { length range.now ≤ 16 }
    requires relation { r.0 < length range.now }
    requires parts { parts ≤ MOST_COST }
    ensures rule { result ≡ bitmap_cut cat.now range.now classes.now r p used.now parts }
    ensures cost { IsCost result }
    ensures part_of { parts ≤ result.total }
{
    let rows = after(
        cat,
        range,
        classes,
        relation_rows(cat, range, r),
        used,
        &ClauseSet::empty(),
    );
    let base = classes.base_clauses(r);
    let param = classes.param_clauses(r, p);
    let ops = operators_of(classes, &base, &param, &ClauseSet::empty());
    let runs = runs(cat, range, classes, p);
    bitmap_scan(runs, parts, rows, relation_pages(cat, range, r), ops)
}
