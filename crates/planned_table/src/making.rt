//! Entries for paths, and the certificate that they make.

ghost use Rattle.std.specs.Prelude.{◌≡◌, ◌≤◌, ℕ, [], All, Contains, IfOk, Some, length, map, not, take};
ghost use Rattle.pg_base.specs.declared.rel_set.RelSet.{RelSet};
ghost use Rattle.pathkeys.specs.Keys as keys;
ghost use Rattle.pathkeys.specs.work.Keys as keys_work;
ghost use Rattle.sql_query.specs.Queries.{width};
ghost use Rattle.plan_tree.specs.work.Reads.{ReadsBelow};
ghost use Rattle.plan_tree.specs.work.Views.{path, plan};
ghost use Rattle.plan_tree.specs.Plans as plans;
ghost use Rattle.plan_check.specs.Certificates.{plan_at, plan_by};
ghost use Rattle.plan_check.specs.Limit.{MOST_ENTRIES};
ghost use Rattle.plan_check.specs.Views as views;
ghost use Rattle.plan_check.specs.work.Views as views_work;
ghost use Rattle.certificate_laws.specs.work.Kept.{AreEntriesOf, AreOf, IsEntryOf};
ghost use Rattle.certificate_laws.specs.work.Made.{AreMadeInTurn, IsSideAmong};
ghost use Rattle.planned_table.specs.work.Gathering.{shown};
ghost use Rattle.planned_table.specs.work.Numbering.{IsMadeBefore, present, present_before, trees};

use crate::numbering::{number_of, side_of};
use pathkeys::{Keys, covers};
use pg_base::Memory;
use plan_check::{Certificate, Entries, Entry, Node, Side};
use plan_tree::{Path, Plan};
use sql_query::Prepared;
use std::alloc::{AllocError, Global};

/// What the entry of a merge is, by the numbers of its sides among the first paths of a list. The error means out of memory.
fn merge_of(
    alloc: Global,
    listed: &[&Path],
    first: usize,
    keys: &Keys,
    outer: &Plan,
    inner: &Plan,
) -> Result<Node, Memory>
    requires few { length listed.now ≤ MOST_ENTRIES }
    requires within { first ≤ length listed.now }
    requires below { ReadsBelow 16 (plan outer.now) × ReadsBelow 16 (plan inner.now) }
    requires outer { IsSideAmong (take first (trees listed.now)) keys.now (plan outer.now) }
    requires inner { IsSideAmong (take first (trees listed.now)) keys.now (plan inner.now) }
    ensures { (w : ℕ) (set param : RelSet) → IfOk result (λ n.
        plan_by w (present_before first listed.now) set param (views_work.node n)
        ≡ Some (plans.merge keys.now (plan outer.now) (plan inner.now))) }
{
    let outer = side_of(listed, first, outer);
    let inner = side_of(listed, first, inner);
    let made = keys.copy(alloc)?;
    Ok(Node::Merge(made, outer, inner))
}

/// What the entry of a path is, where a join goes by the numbers of its sides among the first paths of a list. The error means
/// out of memory.
fn node_of(
    alloc: Global,
    q: &Prepared,
    listed: &[&Path],
    first: usize,
    p: &Path,
) -> Result<Node, Memory>
    requires few { length listed.now ≤ MOST_ENTRIES }
    requires within { first ≤ length listed.now }
    requires below { ReadsBelow 16 (path p.now).tree }
    requires made { IsMadeBefore q.now first listed.now (path p.now) }
    ensures { IfOk result (λ n.
        plan_by (width q.now) (present_before first listed.now)
        p.now.set p.now.param (views_work.node n) ≡ Some (path p.now).tree) }
{
    match &p.plan {
        Plan::Seq { .. } => Ok(Node::Seq),
        Plan::Index {
            index,
            backward,
            ..
        } => Ok(Node::Index(*index, *backward)),
        Plan::IndexOnly {
            index,
            backward,
            ..
        } => Ok(Node::IndexOnly(*index, *backward)),
        Plan::Bitmap { bits, .. } => {
            let bits = bits.copy(alloc)?;
            Ok(Node::Bitmap(bits))
        }
        Plan::Sort { .. } => unreachable!(),
        Plan::Nest { outer, inner } => {
            let outer = number_of(listed, first, outer);
            let inner = number_of(listed, first, inner);
            Ok(Node::Nest(outer, inner))
        }
        Plan::Merge { keys, outer, inner } => { merge_of(alloc, listed, first, keys, outer, inner) }
    }
}

/// The entry of a path. The error means out of memory.
fn entry_of(
    alloc: Global,
    q: &Prepared,
    listed: &[&Path],
    first: usize,
    p: &Path,
) -> Result<Entry, Memory>
    requires few { length listed.now ≤ MOST_ENTRIES }
    requires within { first ≤ length listed.now }
    requires below { ReadsBelow 16 (path p.now).tree }
    requires made { IsMadeBefore q.now first listed.now (path p.now) }
    ensures { IfOk result (λ e.
        IsEntryOf (width q.now) (present_before first listed.now) (views_work.entry e) (path p.now)) }
{
    let node = node_of(alloc, q, listed, first, p)?;
    let keys = p.keys.copy(alloc)?;
    Ok(Entry {
        set: p.set,
        param: p.param,
        node,
        startup: p.startup,
        cost: p.cost,
        rows: p.rows,
        keys,
    })
}

/// An entry for each path of a list, in order. The error means out of memory.
fn entries_of(alloc: Global, q: &Prepared, listed: &[&Path]) -> Result<Vec<Entry>, Memory>
    requires few { length listed.now ≤ MOST_ENTRIES }
    requires below { All (ReadsBelow 16) (trees listed.now) }
    requires made { AreMadeInTurn (width q.now) (shown listed.now) }
    ensures { IfOk result (λ es.
        AreEntriesOf (width q.now) [] (map views_work.entry es.items) (shown listed.now)) }
{
    let mut entries = Vec::new(alloc);
    for n in 0..listed.len() {
        let entry = entry_of(alloc, q, listed, n, listed[n])?;
        entries.push(entry)?;
    }
    Ok(entries)
}

/// The best plan of a list of paths, where it is the plan of one of them in the order asked for.
fn best_of(listed: &[&Path], p: &Path, order: &Keys) -> Side
    requires few { length listed.now ≤ MOST_ENTRIES }
    requires below { ReadsBelow 16 (path p.now).tree }
    requires there { Contains (trees listed.now) (path p.now).tree }
    ensures sorted { result.sort ≡ not (keys.covers (path p.now).keys order.now) }
    ensures number { plan_at (present (trees listed.now)) result.entry ≡ Some (path p.now).tree }
{
    Side {
        sort: !covers(&p.keys, order),
        entry: number_of(listed, listed.len(), &p.plan),
    }
}

/// The certificate of paths, of which one in the order asked for is the best. More than 2^32 - 1 of them count as out of
/// memory.
pub(crate) fn certificate_of(
    alloc: Global,
    q: &Prepared,
    listed: &[&Path],
    best: &Path,
    order: &Keys,
) -> Result<Certificate, Memory>
    requires below { All (ReadsBelow 16) (trees listed.now) }
    requires made { AreMadeInTurn (width q.now) (shown listed.now) }
    requires there { Contains (trees listed.now) (path best.now).tree }
    ensures entries { IfOk result (λ t. AreOf q.now (views_work.certificate t) (shown listed.now)) }
    ensures sorted { IfOk result (λ t.
        t.best.sort ≡ not (keys.covers (path best.now).keys order.now)) }
    ensures best { IfOk result (λ t.
        plan_at (present (trees listed.now)) t.best.entry ≡ Some (path best.now).tree) }
    ensures few { IfOk result (λ t. length t.entries ≤ MOST_ENTRIES) }
{
    if listed.len() > u32::MAX as usize {
        return Err(AllocError);
    }
    let entries = entries_of(alloc, q, listed)?;
    let best = best_of(listed, best, order);
    Ok(Certificate {
        entries: Entries::from_vec(alloc, entries)?,
        best,
    })
}
