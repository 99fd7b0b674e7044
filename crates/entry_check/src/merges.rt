//! Merges of right entries, as they stand or sorted, in numbers.

ghost use Rattle.std.specs.Prelude.{◌≡◌, ◌≤◌, ◌↔◌, IfNone, IfSome, IsTrue, cond, length};
ghost use Rattle.cost_rules.specs.work.Costs.{IsEstimate};
ghost use Rattle.entry_check.specs.work.Parts.{IsMergeCost, IsReckoned};
ghost use Rattle.pathkeys.specs.work.Finding.{class_numbers};
ghost use Rattle.plan_tree.specs.work.Reads.{IsOverTables};
ghost use Rattle.plan_check.specs.work.Views.{entry};
ghost use Rattle.entry_check.specs.work.Owning.{HasRight};
ghost use Rattle.entry_check.specs.work.Working.{IsMergeWork};
ghost use Rattle.entry_check.specs.work.Making.{HaveNoMerge, IsMergeOf};
ghost use Rattle.entry_check.specs.work.Telling.{HasList, IsMergeListOf, TellsMayMerge};

use crate::numbers::numbers_of;
use crate::parts::side_of;
use crate::{Part, merge_operators, set_rows};
use catalog::Catalog;
use cost_rules::Pair;
use eq_classes::ClassNo;
use path_cost::pairs;
use pg_base::RelSet;
use plan_check::{Candidate, Entry, begin_with};
use plan_tree::{classes_of, range_of};
use sql_query::Prepared;

/// Whether an entry is sorted by a list, or has keys that begin with it.
pub fn has_list(e: &Entry, list: &[ClassNo], sort: bool) -> bool
    ensures { IsTrue result ↔ HasList e.now list.now sort }
{
    sort || begin_with(e.keys.items(), list)
}

/// Whether two entries may be the sides of a merge by a list that is one of a merge of their sets.
fn may_merge(list: &[ClassNo], a: &Entry, b: &Entry, sorts: (bool, bool)) -> bool
    ensures { TellsMayMerge list.now a.now b.now sorts result }
{
    !a.set.meets(b.set)
        && a.param.is_empty()
        && b.param.is_empty()
        && has_list(a, list, sorts.0)
        && has_list(b, list, sorts.1)
}

/// The keys of a merge: those of its outer side.
fn keys_of<'a>(list: &'a [ClassNo], a: &'a Entry, sort: bool) -> &'a [ClassNo]
    ensures { class_numbers result.now ≡ cond sort (class_numbers list.now) a.now.keys }
{
    if sort { list } else { a.keys.items() }
}

/// What all merges of two sets by a list have in common.
#[derive(Clone, Copy)]
pub struct MergeWork<'a> {
    /// The list.
    pub list: &'a [ClassNo],
    /// The relations of the outer side.
    pub outer: RelSet,
    /// The relations of the inner side.
    pub inner: RelSet,
    /// The relations of both sides.
    pub set: RelSet,
    /// How many rows both are taken to give.
    pub rows: u64,
    /// The pairs of rows that are equal in the classes of the list.
    pub equal: u64,
    /// The operators that each of these goes through.
    pub ops: u64,
}

/// What all merges of two sets by a list have in common.
pub fn merge_work<'a>(
    cat: &Catalog,
    q: &Prepared,
    list: &'a [ClassNo],
    outer: RelSet,
    inner: RelSet,
) -> MergeWork<'a>
    requires query { IsOverTables cat.now q.now }
    ensures work { IsMergeWork cat.now q.now result }
    ensures list { result.list.now ≡ list.now }
    ensures outer { result.outer ≡ outer }
    ensures inner { result.inner ≡ inner }
{
    let set = outer.union(inner);
    let rows = set_rows(cat, q, set);
    let equal = pairs(cat, range_of(q), classes_of(q), outer, inner, list);
    let ops = merge_operators(q, list, outer, inner);
    MergeWork {
        list,
        outer,
        inner,
        set,
        rows,
        equal,
        ops,
    }
}

/// The cost of a merge of the two sets by the list, as a path keeps it, cut to at most 10^18.
fn merge_cost(q: &Prepared, work: &MergeWork, outer: Part, inner: Part) -> Pair
    requires outer { IsReckoned outer }
    requires inner { IsReckoned inner }
    requires outer_set { outer.set.0 ≡ work.now.outer.0 }
    requires inner_set { inner.set.0 ≡ work.now.inner.0 }
    requires some_keys { 1 ≤ length work.now.list.now }
    requires few_keys { length work.now.list.now ≤ 3 }
    requires bounded { IsEstimate work.now.equal }
    ensures { IsMergeCost q.now work.now outer inner result }
{
    cost_rules::merge(
        outer.cost,
        inner.cost,
        outer.rows,
        inner.rows,
        work.list.len() as u64,
        work.equal,
        work.ops,
    )
}

/// What the merge of two right entries says, each sorted by the list or not, from what all those of their sets by the list
/// have in common. None exactly where the plan space has none of their plans, or it is not admissible. The condition is
/// that the list is one of a merge of their sets.
pub fn merge_with<'a>(
    cat: &Catalog,
    q: &Prepared,
    work: &MergeWork<'a>,
    a: &'a Entry,
    b: &Entry,
    sorts: (bool, bool),
) -> Option<Candidate<'a>>
    requires query { IsOverTables cat.now q.now }
    requires work { IsMergeWork cat.now q.now work.now }
    requires outer_set { a.now.set.0 ≡ work.now.outer.0 }
    requires inner_set { b.now.set.0 ≡ work.now.inner.0 }
    requires outer { HasRight cat.now q.now (entry a.now) }
    requires inner { HasRight cat.now q.now (entry b.now) }
    requires list { IsMergeListOf cat.now q.now a.now b.now work.now.list.now }
    ensures some { IfSome result (λ x. IsMergeOf cat.now q.now work.now.list.now sorts a.now b.now x) }
    ensures none { IfNone result (HaveNoMerge cat.now q.now work.now.list.now sorts a.now b.now) }
{
    cat.lawful();
    if !may_merge(work.list, a, b, sorts) {
        return None;
    }
    let outer = side_of(cat, q, a, sorts.0);
    let inner = side_of(cat, q, b, sorts.1);
    let own = numbers_of(q, merge_cost(q, work, outer, inner), work.rows)?;
    Some(Candidate {
        set: work.set,
        param: RelSet(0),
        startup: own.startup,
        cost: own.cost,
        rows: own.rows,
        keys: keys_of(work.list, a, sorts.0),
    })
}

/// What the merge of two right entries by a list says, each sorted by the list or not. None exactly where the plan space
/// has none of their plans, or it is not admissible. The condition is that the list is one of a merge of their sets.
pub fn merge_of<'a>(
    cat: &Catalog,
    q: &Prepared,
    list: &'a [ClassNo],
    a: &'a Entry,
    b: &Entry,
    sorts: (bool, bool),
) -> Option<Candidate<'a>>
    requires query { IsOverTables cat.now q.now }
    requires outer { HasRight cat.now q.now (entry a.now) }
    requires inner { HasRight cat.now q.now (entry b.now) }
    requires list { IsMergeListOf cat.now q.now a.now b.now list.now }
    ensures some { IfSome result (λ x. IsMergeOf cat.now q.now list.now sorts a.now b.now x) }
    ensures none { IfNone result (HaveNoMerge cat.now q.now list.now sorts a.now b.now) }
{
    let work = merge_work(cat, q, list, a.set, b.set);
    merge_with(cat, q, &work, a, b, sorts)
}
