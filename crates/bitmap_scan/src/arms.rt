//! The indexes of least part for the arms of an OR clause.

ghost use Rattle.std.specs.Prelude.{◌≡◌, ◌<◌, ◌≤◌, ◌++◌, ◌∷◌, [], ℕ, List, All, IfOk, length};
ghost use Rattle.pg_base.specs.declared.limits.TheConstants.{MOST_ATOMS};
ghost use Rattle.pg_base.specs.declared.numbers.IndexNo.{IndexNo};
ghost use Rattle.pg_expr.specs.Columns.{atom_count};
ghost use Rattle.pg_expr.specs.work.View.{cond};
ghost use Rattle.pg_expr.specs.declared.expr.Expr.{Expr};
ghost use Rattle.catalog.specs.Contents.{Contents, IsTable};
ghost use Rattle.cost_rules.specs.work.Costs.{capped};
ghost use Rattle.path_cost.specs.work.Columns.{IsOver};
ghost use Rattle.sql_query.specs.Queries.{width};
ghost use Rattle.plan_tree.specs.Bitmaps.{MatchesArm, table_of_relation};
ghost use Rattle.plan_tree.specs.Costs.{together};
ghost use Rattle.plan_tree.specs.work.Reads.{IsOverTables};
ghost use Rattle.bitmap_scan.specs.work.Arms as arms;
ghost use Rattle.bitmap_scan.specs.work.Arms.{IsLeastMatch, part_for, AreArmsMatched, AreArmsServed};

use catalog::Catalog;
use path_cost::{BITMAP_CHILD, MOST_COST};
use pg_base::{IndexNo, Memory, RelNo, RelSet, TableNo};
use pg_expr::Expr;
use plan_tree::{arm_part_of, matches_arm, range_of};
use sql_query::Prepared;
use std::alloc::Global;

/// One more part beside some parts together, with 100 for each after the first. All are cut to at most 10^18.
pub(crate) fn with_part(sum: u64, part: u64, count: usize) -> u64
    ensures { (ns : List ℕ) (m : ℕ) → sum ≡ capped (together ns) → capped part ≡ capped m →
        count ≡ length ns → result ≡ capped (together (ns ++ m ∷ [])) }
{
    let child = if count == 0 { 0 } else { BITMAP_CHILD };
    sum.saturating_add(part)
        .saturating_add(child)
        .min(MOST_COST)
}

/// The one of lesser part, the first where they tie.
fn lesser(best: Option<(IndexNo, u64)>, i: IndexNo, part: u64) -> Option<(IndexNo, u64)>
    ensures { result ≡ arms.lesser best i part }
{
    match best {
        Some((j, least)) => {
            if least <= part {
                Some((j, least))
            } else {
                Some((i, part))
            }
        }
        None => Some((i, part)),
    }
}

/// The table of a relation.
fn table_of(q: &Prepared, r: RelNo) -> TableNo
    requires relation { r.0 < width q.now }
    ensures table { result ≡ table_of_relation q.now r.0 }
    ensures made { (c : Contents) → IsOverTables c q.now → IsTable c result }
{
    range_of(q).items()[r.0 as usize].0
}

/// The matching index of least part for an arm where the rows of `p` are given, and its part, cut to at most 10^18.
fn least_match(cat: &Catalog, q: &Prepared, r: RelNo, p: RelSet, arm: &Expr) -> (IndexNo, u64)
    requires query { IsOverTables cat.now q.now }
    requires relation { r.0 < width q.now }
    requires over { IsOver cat.now q.now.range (cond arm.now) }
    requires few { atom_count (cond arm.now) ≤ MOST_ATOMS }
    requires some { (i : IndexNo) × MatchesArm cat.now q.now r.0 (cond arm.now) i }
    ensures least { IsLeastMatch cat.now q.now r p (cond arm.now) result.0 }
    ensures part { result.1 ≡ capped (part_for cat.now q.now r p (cond arm.now) result.0) }
{
    let mut best = None;
    for i in cat.indexes(table_of(q, r)) {
        if matches_arm(cat, q, r, arm, *i) {
            best = lesser(best, *i, arm_part_of(cat, q, r, p, arm, *i));
        }
    }
    match best {
        Some(found) => found,
        None => unreachable!(),
    }
}

/// The matching index of least part for each of some arms where the rows of `p` are given, and their parts together, cut to at
/// most 10^18. The error means out of memory.
pub(crate) fn least_matches(
    alloc: Global,
    cat: &Catalog,
    q: &Prepared,
    r: RelNo,
    p: RelSet,
    arms: &[Expr],
) -> Result<(Vec<IndexNo>, u64), Memory>
    requires query { IsOverTables cat.now q.now }
    requires relation { r.0 < width q.now }
    requires over { All (λ (e : Expr). IsOver cat.now q.now.range (cond e)) arms.now }
    requires few { All (λ (e : Expr). atom_count (cond e) ≤ MOST_ATOMS) arms.now }
    requires some { AreArmsMatched cat.now q.now r arms.now }
    ensures { IfOk result (λ found. AreArmsServed cat.now q.now r p arms.now found.0.items found.1) }
{
    let mut indexes = Vec::new(alloc);
    let mut sum = 0;
    for arm in arms {
        let (i, part) = least_match(cat, q, r, p, arm);
        sum = with_part(sum, part, indexes.len());
        indexes.push(i)?;
    }
    Ok((indexes, sum))
}
