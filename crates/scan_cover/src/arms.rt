//! The indexes of least part for the arms of an OR clause.

ghost use Rattle.std.specs.Prelude.{◌≡◌, ◌<◌, ◌≤◌, ◌++◌, ◌∷◌, [], ℕ, List, All, length, map};
ghost use Rattle.pg_base.specs.declared.limits.TheConstants.{MOST_ATOMS};
ghost use Rattle.pg_base.specs.declared.numbers.IndexNo.{IndexNo as Numbered};
ghost use Rattle.pg_expr.specs.Columns.{atom_count};
ghost use Rattle.pg_expr.specs.work.View.{cond};
ghost use Rattle.pg_expr.specs.declared.expr.Expr.{Expr as Condition};
ghost use Rattle.cost_rules.specs.work.Costs.{capped};
ghost use Rattle.path_cost.specs.work.Columns.{IsOver};
ghost use Rattle.sql_query.specs.Queries.{width};
ghost use Rattle.plan_tree.specs.Bitmaps.{MatchesArm};
ghost use Rattle.plan_tree.specs.Costs.{together};
ghost use Rattle.plan_tree.specs.work.Reads.{IsOverTables};
ghost use Rattle.bitmap_scan.specs.work.Arms.{AreServed, IsLeastMatch, part_for};
ghost use Rattle.bitmap_scan.specs.work.Arms as least;
ghost use Rattle.scan_cover.specs.work.Arms.{HaveMatches, PutsLeast};

use crate::filling::Arms;
use crate::indexes_of;
use catalog::Catalog;
use cost_rules::{BITMAP_CHILD, MOST_COST};
use pg_base::{IndexNo, RelNo, RelSet};
use pg_expr::Expr;
use plan_tree::{arm_part_of, matches_arm};
use sql_query::Prepared;

/// One more part beside some parts together, with 100 for each after the first. All are cut to at most 10^18.
pub(crate) fn with_part(sum: u64, part: u64, count: usize) -> u64
    ensures { (ns : List ℕ) (m : ℕ) → sum ≡ capped (together ns) → capped part ≡ capped m →
        count ≡ length ns → result ≡ capped (together (ns ++ m ∷ [])) }
{
    let child = if count == 0 { 0 } else { BITMAP_CHILD };
    sum.saturating_add(part)
        .saturating_add(child)
        .min(MOST_COST)
}

/// The one of lesser part, the first where they tie.
fn lesser(best: Option<(IndexNo, u64)>, i: IndexNo, part: u64) -> Option<(IndexNo, u64)>
    ensures { result ≡ least.lesser best i part }
{
    match best {
        Some((j, least)) => {
            if least <= part {
                Some((j, least))
            } else {
                Some((i, part))
            }
        }
        None => Some((i, part)),
    }
}

/// The matching index of least part for an arm where the rows of `p` are given, and its part, cut to at most 10^18.
pub(crate) fn least_match(
    cat: &Catalog,
    q: &Prepared,
    r: RelNo,
    p: RelSet,
    arm: &Expr,
) -> (IndexNo, u64)
    requires query { IsOverTables cat.now q.now }
    requires relation { r.0 < width q.now }
    requires over { IsOver cat.now q.now.range (cond arm.now) }
    requires few { atom_count (cond arm.now) ≤ MOST_ATOMS }
    requires some { (i : Numbered) × MatchesArm cat.now q.now r.0 (cond arm.now) i }
    ensures least { IsLeastMatch cat.now q.now r p (cond arm.now) result.0 }
    ensures part { result.1 ≡ capped (part_for cat.now q.now r p (cond arm.now) result.0) }
{
    let mut best = None;
    let indexes = indexes_of(cat, q, r);
    for i in indexes {
        if matches_arm(cat, q, r, arm, *i) {
            best = lesser(best, *i, arm_part_of(cat, q, r, p, arm, *i));
        }
    }
    match best {
        Some(found) => found,
        None => unreachable!(),
    }
}

/// The parts of the matching indexes of least part for some arms together where the rows of `p` are given, cut to at most
/// 10^18.
pub(crate) fn arms_part(cat: &Catalog, q: &Prepared, r: RelNo, p: RelSet, arms: &[Expr]) -> u64
    requires query { IsOverTables cat.now q.now }
    requires relation { r.0 < width q.now }
    requires over { All (λ (e : Condition). IsOver cat.now q.now.range (cond e)) arms.now }
    requires few { All (λ (e : Condition). atom_count (cond e) ≤ MOST_ATOMS) arms.now }
    requires some { HaveMatches cat.now q.now r arms.now }
    ensures { (is : List Numbered) × AreServed cat.now q.now r p (map cond arms.now) is result }
{
    let mut sum = 0;
    for n in 0..arms.len() {
        let found = least_match(cat, q, r, p, &arms[n]);
        sum = with_part(sum, found.1, n);
    }
    sum
}

/// Puts in the matching index of least part for each of some arms where the rows of `p` are given.
pub(crate) fn put_least(
    cat: &Catalog,
    q: &Prepared,
    r: RelNo,
    p: RelSet,
    arms: &[Expr],
    into: &mut Arms,
)
    requires query { IsOverTables cat.now q.now }
    requires relation { r.0 < width q.now }
    requires over { All (λ (e : Condition). IsOver cat.now q.now.range (cond e)) arms.now }
    requires few { All (λ (e : Condition). atom_count (cond e) ≤ MOST_ATOMS) arms.now }
    requires some { HaveMatches cat.now q.now r arms.now }
    ensures { PutsLeast cat.now q.now r p arms.now into.old into.new }
{
    for n in 0..arms.len() {
        let found = least_match(cat, q, r, p, &arms[n]);
        into.push(found.0);
    }
}
