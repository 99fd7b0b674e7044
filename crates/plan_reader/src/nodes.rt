//! Nodes, and what stands beneath them.

ghost use Rattle.std.specs.Prelude.{◌≡◌, ◌<◌, ◌≤◌, ◌+◌, ◌++◌, ℕ, All, IfOk, IfSome, Some, length, option_map};
ghost use Rattle.pg_base.specs.Sets.{has};
ghost use Rattle.plan_tree.specs.Plans as plans;
ghost use Rattle.plan_tree.specs.work.Reads.{ReadsBelow};
ghost use Rattle.plan_tree.specs.work.Views.{plan};
ghost use Rattle.sql_query.specs.WellBound.{IsWellBound};
ghost use Rattle.plan_lines.specs.HasText.{IsText};
ghost use Rattle.plan_reader.specs.Written.{StandsAt};
ghost use Rattle.plan_reader.specs.work.Nodes.{AreSidesAt, FindsMerge, FindsSort, IsTextAt, ReadsPair, ReadsPlan, set_of_sides};
ghost use Rattle.plan_tree.specs.Plans.{nest};

use crate::lines::read_first;
use crate::scans::{bitmap_of, index_of, index_only_of, seq_of};
use catalog::Catalog;
use pathkeys::Keys;
use pg_base::{Memory, RelSet};
use plan_lines::{Kind, Lines, read_node_keys};
use plan_tree::{Plan, set_of};
use sql_query::Prepared;
use std::alloc::Global;

/// A sort of a plan, by the keys that stand behind its words.
fn sort_of(
    alloc: Global,
    behind: &[u8],
    cat: &Catalog,
    q: &Prepared,
    input: Plan,
) -> Result<Option<Plan>, Memory>
    requires bound { IsWellBound cat.now q.now }
    requires input { IsText cat.now q.now (plan input) }
    ensures has { IfOk result (λ o. IfSome o (λ p. IsText cat.now q.now (plan p))) }
    ensures stands { (d : ℕ) → d ≤ 64 → StandsAt (d + 1) (plan input) →
        IfOk result (λ o. IfSome o (λ p. StandsAt d (plan p))) }
    ensures only { IfOk result (λ o. FindsSort cat.now q.now behind.now (plan input) o) }
{
    let set = set_of(&input);
    match read_node_keys(alloc, behind, cat, q, set)? {
        Some(keys) => {
            let input = Box::new(alloc, input)?;
            Ok(Some(Plan::Sort { keys, input }))
        }
        None => Ok(None),
    }
}

/// A nested loop of two plans.
fn nest_of(alloc: Global, outer: Plan, inner: Plan) -> Result<Option<Plan>, Memory>
    ensures only { IfOk result (λ o. option_map plan o ≡ Some (nest (plan outer) (plan inner))) }
{
    let outer = Box::new(alloc, outer)?;
    let inner = Box::new(alloc, inner)?;
    Ok(Some(Plan::Nest { outer, inner }))
}

/// A merge of two plans by keys.
fn merged(alloc: Global, keys: Keys, outer: Plan, inner: Plan) -> Result<Plan, Memory>
    ensures { IfOk result (λ p. plan p ≡ plans.merge keys (plan outer) (plan inner)) }
{
    let outer = Box::new(alloc, outer)?;
    let inner = Box::new(alloc, inner)?;
    Ok(Plan::Merge { keys, outer, inner })
}

/// The relations of two plans.
fn both_sets(outer: &Plan, inner: &Plan) -> RelSet
    requires outer { ReadsBelow 16 (plan outer.now) }
    requires inner { ReadsBelow 16 (plan inner.now) }
    ensures { (k : ℕ) → has result.0 k ≡ set_of_sides (plan outer.now) (plan inner.now) k }
{
    set_of(outer).union(set_of(inner))
}

/// A merge of two plans, by the keys that stand behind its words.
fn merge_of(
    alloc: Global,
    behind: &[u8],
    cat: &Catalog,
    q: &Prepared,
    outer: Plan,
    inner: Plan,
) -> Result<Option<Plan>, Memory>
    requires bound { IsWellBound cat.now q.now }
    requires outer { IsText cat.now q.now (plan outer) }
    requires inner { IsText cat.now q.now (plan inner) }
    ensures has { IfOk result (λ o. IfSome o (λ p. IsText cat.now q.now (plan p))) }
    ensures stands { (d : ℕ) → d ≤ 64 → StandsAt (d + 1) (plan outer) →
        StandsAt (d + 1) (plan inner) → IfOk result (λ o. IfSome o (λ p. StandsAt d (plan p))) }
    ensures only { IfOk result (λ o. FindsMerge cat.now q.now behind.now outer inner o) }
{
    let set = both_sets(&outer, &inner);
    match read_node_keys(alloc, behind, cat, q, set)? {
        Some(keys) => {
            let made = merged(alloc, keys, outer, inner)?;
            Ok(Some(made))
        }
        None => Ok(None),
    }
}

/// The plan whose lines come next at a depth; its numbers are put behind others. None where those of none come next. The error
/// means out of memory.
#[cycle(read_node)]
pub(crate) fn read_node(
    alloc: Global,
    at: &mut Lines,
    cat: &Catalog,
    q: &Prepared,
    depth: u8,
    numbers: &mut Vec<(u64, u64)>,
) -> Result<Option<Plan>, Memory>
    requires bound { IsWellBound cat.now q.now }
    requires deep { depth ≤ 65 }
    ensures has { IfOk result (λ o. IfSome o (λ p. IsTextAt cat.now q.now depth (plan p))) }
    ensures only { IfOk result (λ o.
        ReadsPlan cat.now q.now depth at.old at.new numbers.old numbers.new o) }
{
    if depth > 64 {
        return Ok(None);
    }
    let Some(line) = read_first(at, cat, q, depth) else {
        return Ok(None);
    };
    numbers.push(line.numbers)?;
    match line.kind {
        Kind::Seq => Ok(seq_of(line.behind, cat, q)),
        Kind::Index => Ok(index_of(line.behind, cat, q)),
        Kind::IndexOnly => Ok(index_only_of(line.behind, cat, q)),
        Kind::Bitmap => bitmap_of(alloc, at, cat, q, depth, line.behind),
        Kind::Sort => match read_node(alloc, at, cat, q, depth + 1, numbers)? {
            Some(input) => sort_of(alloc, line.behind, cat, q, input),
            None => Ok(None),
        },
        Kind::Nest => match read_pair(alloc, at, cat, q, depth, numbers)? {
            Some((outer, inner)) => nest_of(alloc, outer, inner),
            None => Ok(None),
        },
        Kind::Merge => match read_pair(alloc, at, cat, q, depth, numbers)? {
            Some((outer, inner)) => merge_of(alloc, line.behind, cat, q, outer, inner),
            None => Ok(None),
        },
    }
}

/// The two plans whose lines come next one deeper than a depth.
#[cycle(read_node)]
fn read_pair(
    alloc: Global,
    at: &mut Lines,
    cat: &Catalog,
    q: &Prepared,
    depth: u8,
    numbers: &mut Vec<(u64, u64)>,
) -> Result<Option<(Plan, Plan)>, Memory>
    requires bound { IsWellBound cat.now q.now }
    requires deep { depth ≤ 64 }
    ensures has { IfOk result (λ o. IfSome o (λ s. AreSidesAt cat.now q.now (depth + 1) s)) }
    ensures only { IfOk result (λ o.
        ReadsPair cat.now q.now depth at.old at.new numbers.old numbers.new o) }
{
    let outer = match read_node(alloc, at, cat, q, depth + 1, numbers)? {
        Some(outer) => outer,
        None => return Ok(None),
    };
    match read_node(alloc, at, cat, q, depth + 1, numbers)? {
        Some(inner) => Ok(Some((outer, inner))),
        None => Ok(None),
    }
}
