//! What bitmap trees and whole plans cost. Each cost is cut to at most 10^18.

ghost use Rattle.std.specs.Prelude.{◌≡◌, ◌<◌, ◌≤◌, ◌-◌, ◌+◌, ◌*◌, ℕ, IfSome, List, MatchOption, length, map, sum};
ghost use Rattle.std.specs.List.{AllZip};
ghost use Rattle.pg_expr.specs.work.AtomSets.{contains};
ghost use Rattle.pg_expr.specs.work.View as view;
ghost use Rattle.sql_query.specs.catalog_Contents.{Contents, IsIndex};
ghost use Rattle.cost_rules.specs.declared.parameters.TheConstants.{BITMAP_CHILD, MOST_COST};
ghost use Rattle.cost_rules.specs.work.Costs.{IsCost, capped, capped_pair};
ghost use Rattle.path_cost.specs.work.Columns.{AreOver};
ghost use Rattle.sql_query.specs.Queries.{width};
ghost use Rattle.plan_tree.specs.work.Bitmaps.{HasNoArms, IsOrOf, AreOfFewAtoms};
ghost use Rattle.plan_tree.specs.work.Costable.{IsCostable, IsMatchedBy, IsCostableTree, AreCostableTrees};
ghost use Rattle.plan_tree.specs.Costs as costs;
ghost use Rattle.plan_tree.specs.work.Costs as costs_work;
ghost use Rattle.plan_tree.specs.work.Reads.{IsOverTables};
ghost use Rattle.plan_tree.specs.work.Views.{bits, bits_all, plan};
ghost use Rattle.plan_tree.specs.work.Held.{used_with_index, used_with_tree, used_with_all, tree_cost};

use crate::bits::BitTree;
use crate::elements::or_arms;
use crate::estimates::{classes_of, range_of, rows_of_set};
use crate::joins::{merge_cost, nest_cost};
use crate::parts::{arm_part_of, index_part_of};
use crate::plan::Plan;
use crate::scans::{bounds_and_tests, index_scan_cost, seq_scan_cost};
use crate::sets::set_of;
use cost_rules::{BITMAP_CHILD, MOST_COST, Pair, sort};
use eq_classes::{ClauseSet, note};
use index_match::conditions;
use path_cost::bitmap;
use pg_base::{IndexNo, RelNo, RelSet};
use pg_expr::Expr;
use sql_query::Prepared;
use sql_query::catalog::Catalog;

/// The part of several indexes together, from the sum of their parts and their number: each after the first is one more child.
fn together(all: u64, count: usize) -> u64
    requires all { all ≤ MOST_COST }
    ensures part { (parts : List ℕ) → all ≡ capped (sum parts) → count ≡ length parts →
        result ≡ capped (costs.together parts) }
    ensures most { result ≤ MOST_COST }
{
    let children = (count as u64)
        .saturating_sub(1)
        .saturating_mul(BITMAP_CHILD);
    all.saturating_add(children).min(MOST_COST)
}

/// The arms of the OR clause of a number. None where the number is that of no OR clause.
pub fn arms_at(q: &Prepared, n: u16) -> Option<&[Expr]>
    ensures arms { MatchOption result (HasNoArms q.now n) (λ arms. IsOrOf q.now n arms.now) }
    ensures over { (c : Contents) → IsOverTables c q.now →
        IfSome result (λ arms. AreOver c q.now.range arms.now) }
    ensures few { (c : Contents) → IsOverTables c q.now →
        IfSome result (λ arms. AreOfFewAtoms arms.now) }
{
    if (n as usize) < classes_of(q).count() {
        or_arms(q, n)
    } else {
        None
    }
}

/// The parts of the indexes of some arms, one for each, together.
fn arms_part(
    cat: &Catalog,
    q: &Prepared,
    r: RelNo,
    p: RelSet,
    arms: &[Expr],
    indexes: &[IndexNo],
) -> u64
    requires query { IsOverTables cat.now q.now }
    requires relation { r.0 < width q.now }
    requires over { AreOver cat.now q.now.range arms.now }
    requires few { AreOfFewAtoms arms.now }
    requires matched { AllZip (IsMatchedBy cat.now r.0) (map view.cond arms.now) indexes.now }
    ensures part { result ≡ capped (costs_work.arms_together cat.now q.now r p arms.now indexes.now) }
    ensures most { result ≤ MOST_COST }
{
    let mut sum = 0;
    for n in 0..arms.len() {
        sum = (sum + arm_part_of(cat, q, r, p, &arms[n], indexes[n])).min(MOST_COST);
    }
    together(sum, arms.len())
}

/// The part of the indexes of a bitmap tree.
#[cycle(parts)]
fn tree_part(cat: &Catalog, q: &Prepared, r: RelNo, p: RelSet, tree: &BitTree) -> u64
    requires query { IsOverTables cat.now q.now }
    requires relation { r.0 < width q.now }
    requires tree { IsCostableTree cat.now q.now r.0 (bits tree.now) }
    ensures part { result ≡ capped (costs.part_of cat.now q.now r p (bits tree.now)) }
    ensures most { result ≤ MOST_COST }
{
    match tree {
        BitTree::Leaf(i) => index_part_of(cat, q, r, p, *i),
        BitTree::And(parts) => trees_part(cat, q, r, p, &parts.items),
        BitTree::Or(n, indexes) => match arms_at(q, *n) {
            Some(arms) => arms_part(cat, q, r, p, arms, indexes),
            None => 0,
        },
    }
}

/// The parts of the indexes of some bitmap trees together.
#[cycle(parts)]
fn trees_part(cat: &Catalog, q: &Prepared, r: RelNo, p: RelSet, trees: &[BitTree]) -> u64
    requires query { IsOverTables cat.now q.now }
    requires relation { r.0 < width q.now }
    requires trees { AreCostableTrees cat.now q.now r.0 (bits_all trees.now) }
    ensures part { result ≡ capped (costs_work.trees_together cat.now q.now r p (bits_all trees.now)) }
    ensures most { result ≤ MOST_COST }
{
    let mut sum = 0;
    for tree in trees {
        sum = (sum + tree_part(cat, q, r, p, tree)).min(MOST_COST);
    }
    together(sum, trees.len())
}

/// Puts in the conditions of an index.
fn use_conditions(
    cat: &Catalog,
    q: &Prepared,
    r: RelNo,
    p: RelSet,
    i: IndexNo,
    used: &mut ClauseSet,
)
    requires few { width q.now ≤ 16 }
    requires relation { r.0 < width q.now }
    requires index { IsIndex cat.now i }
    ensures { (k : ℕ) → contains used.new k ≡ used_with_index cat.now q.now r p i used.old k }
{
    let classes = classes_of(q);
    let found = conditions(cat, range_of(q), classes, i, r, p);
    let all = bounds_and_tests(classes, &found);
    for n in 0..classes.count() {
        note(used, n as u16, all.has(n as u16));
    }
}

/// Puts in the clauses that a bitmap tree uses.
#[cycle(used)]
pub fn use_tree(
    cat: &Catalog,
    q: &Prepared,
    r: RelNo,
    p: RelSet,
    tree: &BitTree,
    used: &mut ClauseSet,
)
    requires few { width q.now ≤ 16 }
    requires relation { r.0 < width q.now }
    requires tree { IsCostableTree cat.now q.now r.0 (bits tree.now) }
    ensures { (k : ℕ) → contains used.new k ≡ used_with_tree cat.now q.now r p tree.now used.old k }
{
    match tree {
        BitTree::Leaf(i) => use_conditions(cat, q, r, p, *i, used),
        BitTree::And(parts) => use_trees(cat, q, r, p, &parts.items, used),
        BitTree::Or(n, _) => {
            let is = (*n as usize) < classes_of(q).count();
            if is {
                used.insert(*n);
            }
        }
    }
}

/// Puts in the clauses that some bitmap trees use.
#[cycle(used)]
fn use_trees(
    cat: &Catalog,
    q: &Prepared,
    r: RelNo,
    p: RelSet,
    trees: &[BitTree],
    used: &mut ClauseSet,
)
    requires few { width q.now ≤ 16 }
    requires relation { r.0 < width q.now }
    requires trees { AreCostableTrees cat.now q.now r.0 (bits_all trees.now) }
    ensures { (k : ℕ) → contains used.new k ≡ used_with_all cat.now q.now r p trees.now used.old k }
{
    for tree in trees {
        use_tree(cat, q, r, p, tree, used);
    }
}

/// The cost of a scan of a relation by a bitmap tree, where the rows of `param` are given. The tree need not be one of
/// the plan space: its indexes are of the catalogue, and each arm of an OR has one that matches it.
pub fn bitmap_scan_cost(
    cat: &Catalog,
    q: &Prepared,
    r: RelNo,
    param: RelSet,
    tree: &BitTree,
) -> Pair
    requires query { IsOverTables cat.now q.now }
    requires relation { r.0 < width q.now }
    requires tree { IsCostableTree cat.now q.now r.0 (bits tree.now) }
    ensures rule { result ≡ capped_pair (tree_cost cat.now q.now r param tree.now) }
    ensures cost { IsCost result }
{
    let mut used = ClauseSet::empty();
    use_tree(cat, q, r, param, tree, &mut used);
    let part = tree_part(cat, q, r, param, tree);
    bitmap(cat, range_of(q), classes_of(q), r, param, &used, part)
}

/// What a plan costs before its first row and in all. The plan need not be of the plan space: its relations are the
/// query's and its indexes the catalogue's, each arm of an OR has an index that matches it, and its merges are by 1 to 3
/// classes.
pub fn cost(cat: &Catalog, q: &Prepared, p: &Plan) -> Pair
    requires query { IsOverTables cat.now q.now }
    requires plan { IsCostable cat.now q.now (plan p.now) }
    ensures rule { result ≡ capped_pair (costs.cost cat.now q.now (plan p.now)) }
    ensures cost { IsCost result }
{
    match p {
        Plan::Seq { rel } => seq_scan_cost(cat, q, *rel),
        Plan::Index {
            rel,
            index,
            param,
            ..
        } => index_scan_cost(cat, q, *rel, *index, *param, false),
        Plan::IndexOnly {
            rel,
            index,
            param,
            ..
        } => index_scan_cost(cat, q, *rel, *index, *param, true),
        Plan::Bitmap { rel, param, bits } => bitmap_scan_cost(cat, q, *rel, *param, bits),
        Plan::Sort { input, .. } => {
            let rows = rows_of_set(cat, q, set_of(input));
            sort(cost(cat, q, input), rows)
        }
        Plan::Nest { outer, inner } => {
            let outer_cost = cost(cat, q, outer);
            let inner_cost = cost(cat, q, inner);
            nest_cost(cat, q, outer, inner, outer_cost, inner_cost)
        }
        Plan::Merge { keys, outer, inner } => {
            let outer_cost = cost(cat, q, outer);
            let inner_cost = cost(cat, q, inner);
            merge_cost(cat, q, keys.items(), outer, inner, outer_cost, inner_cost)
        }
    }
}
