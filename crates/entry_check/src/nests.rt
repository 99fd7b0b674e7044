//! Nested loops of right entries, in numbers.

ghost use Rattle.std.specs.Prelude.{◌≡◌, ◌<◌, ◌↔◌, IfNone, IfSome, IsTrue, Some, slice_get};
ghost use Rattle.catalog.specs.Contents.{Contents};
ghost use Rattle.entry_check.specs.work.Parts.{IsJoinCost, IsReckoned};
ghost use Rattle.plan_tree.specs.Plans.{nest};
ghost use Rattle.plan_tree.specs.work.Reads.{IsOverTables};
ghost use Rattle.plan_check.specs.work.Views.{entry};
ghost use Rattle.plan_check.specs.work.Joining.{MayNest};
ghost use Rattle.entry_check.specs.work.Owning.{HasRight};
ghost use Rattle.entry_check.specs.work.Working.{AreGiven, AreNestOperators, IsNestWork};
ghost use Rattle.entry_check.specs.work.Making.{HaveNoNest, IsNestOf};

use crate::numbers::numbers_of;
use crate::parts::part_of;
use crate::{Part, nest_operators, set_rows};
use catalog::Catalog;
use cost_rules::Pair;
use pg_base::RelSet;
use plan_check::{Candidate, Entry, MOST_SETS};
use sql_query::Prepared;

/// Whether two entries may be the sides of a nested loop.
fn may_nest(a: &Entry, b: &Entry) -> bool
    ensures { IsTrue result ↔ MayNest (entry a.now) (entry b.now) }
{
    !a.set.meets(b.set) && a.param.is_empty() && b.param.within(a.set)
}

/// What all nested loops of two sets have in common.
#[derive(Clone, Copy)]
pub struct NestWork {
    /// The relations of the outer side.
    pub outer: RelSet,
    /// The relations of the inner side.
    pub inner: RelSet,
    /// The relations of both sides.
    pub set: RelSet,
    /// How many rows both are taken to give.
    pub rows: u64,
    /// The operators that each pair of rows goes through, where the inner side is given no rows.
    pub ops: u64,
    /// The operators that each pair of rows goes through where the inner side is given the rows of the set of a number, for the
    /// sets for which that was worked out.
    pub given: [Option<u64>; MOST_SETS],
}

/// What all nested loops of two sets have in common, but for those whose inner side is given rows.
pub fn nest_work(cat: &Catalog, q: &Prepared, outer: RelSet, inner: RelSet) -> NestWork
    requires query { IsOverTables cat.now q.now }
    ensures work { IsNestWork cat.now q.now result }
    ensures outer { result.outer ≡ outer }
    ensures inner { result.inner ≡ inner }
{
    let set = outer.union(inner);
    let rows = set_rows(cat, q, set);
    let ops = nest_operators(q, outer, inner, RelSet(0));
    NestWork {
        outer,
        inner,
        set,
        rows,
        ops,
        given: [None; MOST_SETS],
    }
}

/// Works out the operators where the inner side is given the rows of a set, if that is within the outer one.
fn work_out(q: &Prepared, work: &mut NestWork, p: RelSet)
    requires few { p.0 < 1024 }
    ensures work { (c : Contents) → IsNestWork c q.now work.old → IsNestWork c q.now work.new }
    ensures outer { work.new.outer ≡ work.old.outer }
    ensures inner { work.new.inner ≡ work.old.inner }
{
    if p.within(work.outer) {
        work.given[p.0 as usize] = Some(nest_operators(q, work.outer, work.inner, p));
    }
}

/// What all nested loops of two sets have in common, whatever rows the inner side is given.
pub fn nest_work_given(cat: &Catalog, q: &Prepared, outer: RelSet, inner: RelSet) -> NestWork
    requires query { IsOverTables cat.now q.now }
    ensures work { IsNestWork cat.now q.now result }
    ensures outer { result.outer ≡ outer }
    ensures inner { result.inner ≡ inner }
{
    let mut work = nest_work(cat, q, outer, inner);
    for bits in 0..MOST_SETS {
        work_out(q, &mut work, RelSet(bits as u16));
    }
    work
}

/// The operators that were worked out for a set, if they were.
fn worked_out(work: &NestWork, p: RelSet) -> Option<u64>
    requires few { p.0 < 1024 }
    ensures { slice_get work.now.given p.0 ≡ Some result }
{
    work.given[p.0 as usize]
}

/// The operators that each pair of rows goes through, where the inner side is given the rows of `p`.
fn operators_given(q: &Prepared, work: &NestWork, p: RelSet) -> u64
    requires tested { AreNestOperators q.now work.now.outer.0 work.now.inner.0 0 work.now.ops }
    requires given { AreGiven q.now work.now }
    ensures { AreNestOperators q.now work.now.outer.0 work.now.inner.0 p.0 result }
{
    if p.0 == 0 {
        return work.ops;
    }
    if p.0 as usize >= MOST_SETS {
        return nest_operators(q, work.outer, work.inner, p);
    }
    match worked_out(work, p) {
        Some(ops) => ops,
        None => nest_operators(q, work.outer, work.inner, p),
    }
}

/// The cost of a nested loop of the two sets, as a path keeps it, cut to at most 10^18.
fn nest_cost(q: &Prepared, work: &NestWork, outer: Part, inner: Part) -> Pair
    requires outer { IsReckoned outer }
    requires inner { IsReckoned inner }
    requires outer_set { outer.set.0 ≡ work.now.outer.0 }
    requires inner_set { inner.set.0 ≡ work.now.inner.0 }
    requires tested { AreNestOperators q.now work.now.outer.0 work.now.inner.0 0 work.now.ops }
    requires given { AreGiven q.now work.now }
    ensures { (c : Contents) → IsJoinCost c q.now outer inner nest result }
{
    let ops = operators_given(q, work, inner.param);
    cost_rules::nest(outer.cost, inner.cost, outer.rows, inner.rows, ops)
}

/// What the nested loop of two right entries says, from what all those of their sets have in common. None exactly where the
/// plan space has none of their plans, or it is not admissible.
pub fn nest_with<'a>(
    cat: &Catalog,
    q: &Prepared,
    work: &NestWork,
    a: &'a Entry,
    b: &Entry,
) -> Option<Candidate<'a>>
    requires query { IsOverTables cat.now q.now }
    requires work { IsNestWork cat.now q.now work.now }
    requires outer_set { a.now.set.0 ≡ work.now.outer.0 }
    requires inner_set { b.now.set.0 ≡ work.now.inner.0 }
    requires outer { HasRight cat.now q.now (entry a.now) }
    requires inner { HasRight cat.now q.now (entry b.now) }
    ensures some { IfSome result (λ x. IsNestOf cat.now q.now a.now b.now x) }
    ensures none { IfNone result (HaveNoNest cat.now q.now a.now b.now) }
{
    cat.lawful();
    if !may_nest(a, b) {
        return None;
    }
    let outer = part_of(cat, q, a);
    let inner = part_of(cat, q, b);
    let own = numbers_of(q, nest_cost(q, work, outer, inner), work.rows)?;
    Some(Candidate {
        set: work.set,
        param: RelSet(0),
        startup: own.startup,
        cost: own.cost,
        rows: own.rows,
        keys: a.keys.items(),
    })
}

/// What the nested loop of two right entries says. None exactly where the plan space has none of their plans, or it is
/// not admissible.
pub fn nest_of<'a>(cat: &Catalog, q: &Prepared, a: &'a Entry, b: &Entry) -> Option<Candidate<'a>>
    requires query { IsOverTables cat.now q.now }
    requires outer { HasRight cat.now q.now (entry a.now) }
    requires inner { HasRight cat.now q.now (entry b.now) }
    ensures some { IfSome result (λ x. IsNestOf cat.now q.now a.now b.now x) }
    ensures none { IfNone result (HaveNoNest cat.now q.now a.now b.now) }
{
    let work = nest_work(cat, q, a.set, b.set);
    nest_with(cat, q, &work, a, b)
}
