//! Likely plans, found by adding one relation after another (own, in the manner of PostgreSQL's search by left-deep trees,
//! src/backend/optimizer/geqo/geqo_eval.c). They are a guess, and nothing else rests on them.

ghost use Rattle.std.specs.Prelude.{◌<◌, IfOk, map};
ghost use Rattle.pg_base.specs.Sets.{has};
ghost use Rattle.plan_tree.specs.work.Reads.{IsOverTables};
ghost use Rattle.plan_tree.specs.work.Views.{path};
ghost use Rattle.join_search.specs.work.Joins.{ArePlaced, HaveSameScans};
ghost use Rattle.join_search.specs.work.Splits.{AreTargetPaths, IsTarget, IsTask};
ghost use Rattle.join_search.specs.work.Tables.{paths_at};
ghost use Rattle.std.specs.Prelude.{◌≡◌};
ghost use Rattle.join_search.specs.work.Outcomes.{AreTaskPaths};

use crate::by_sets::{front_of, offer_side};
use crate::offers::least_cost;
use crate::splits::{Target, Task, all_relations, is_single, set_rows, whole_rows};
use crate::table::Table;
use crate::useful::{Asked, order_asked};
use catalog::Catalog;
use eq_classes::ClauseSet;
use kept_paths::KeptPaths;
use pareto::Front;
use path_cost::operators_of;
use pg_base::{Memory, RelNo, RelSet};
use plan_tree::{Path, classes_of, range_of};
use sql_query::Prepared;
use std::alloc::{AllocError, Global};

/// The joins of a part of a set with the rest of it, either way round. The error means out of memory.
fn joins_either(alloc: Global, at: &Target, part: RelSet) -> Result<Front<Path>, Memory>
    requires at { IsTarget at.now }
    ensures { IfOk result (λ f. AreTargetPaths at.now (map path f)) }
{
    let mut kept = KeptPaths::new(alloc);
    offer_side(alloc, at, part, &mut kept)?;
    offer_side(alloc, at, at.set.minus(part), &mut kept)?;
    front_of(alloc, at, kept)
}

/// The joins of a part of a set with the rest of it over a table. The error means out of memory.
fn joins_with(
    alloc: Global,
    task: &Task,
    table: &Table,
    set: RelSet,
    part: RelSet,
) -> Result<Front<Path>, Memory>
    requires task { IsTask task.now }
    requires placed { ArePlaced task.now.cat.now task.now.q.now (paths_at table.now) }
    ensures { IfOk result (λ f. AreTaskPaths task.now set f) }
{
    let rows = set_rows(task.cat, task.q, set);
    let all = all_relations(task.q);
    let outside = all.minus(set);
    let at = Target {
        cat: task.cat,
        q: task.q,
        asked: task.asked,
        whole: task.whole,
        order: task.order,
        table,
        set,
        rows,
        outside,
    };
    joins_either(alloc, &at, part)
}

/// The joins of a part of a set with the rest of it over a table, of those that cost less than a limit. The error means out of
/// memory.
fn joins_below(
    alloc: Global,
    task: &Task,
    limit: u64,
    table: &Table,
    set: RelSet,
    part: RelSet,
) -> Result<Front<Path>, Memory>
    requires task { IsTask task.now }
    requires placed { ArePlaced task.now.cat.now task.now.q.now (paths_at table.now) }
{
    let below = Task {
        cat: task.cat,
        q: task.q,
        asked: Asked {
            every_key: task.asked.every_key,
            limit,
        },
        whole: task.whole,
        order: task.order,
    };
    joins_with(alloc, &below, table, set, part)
}

/// Whether some clause joins a relation with a set.
fn is_joined(q: &Prepared, set: RelSet, r: RelNo) -> bool
    requires { r.0 < 16 }
{
    let classes = classes_of(q);
    let none = ClauseSet::empty();
    let joining = classes.join_clauses(set, RelSet::one(r));
    operators_of(classes, &joining, &none, &none) > 0
}

/// A set with one more relation, the one whose joins with it cost least: of those that a clause joins with it, or of all. The
/// set itself where there is none. The error means out of memory.
fn nearest_of(
    alloc: Global,
    task: &Task,
    table: &Table,
    set: RelSet,
    of_all: bool,
) -> Result<RelSet, Memory>
    requires task { IsTask task.now }
    requires placed { ArePlaced task.now.cat.now task.now.q.now (paths_at table.now) }
{
    let mut least = u64::MAX;
    let mut found = set;
    for r in 0..range_of(task.q).items().len() {
        let more = set.union(RelSet::one(RelNo(r as u8)));
        if more.0 != set.0 && (of_all || is_joined(task.q, set, RelNo(r as u8))) {
            let front = joins_below(alloc, task, least, table, more, set)?;
            let cost = least_cost(front.items());
            if cost < least {
                least = cost;
                found = more;
            }
        }
    }
    Ok(found)
}

/// A set with one more relation that a clause joins with it, if there is one, else with any: the one whose joins with it cost
/// least. The error means out of memory.
fn nearest(alloc: Global, task: &Task, table: &Table, set: RelSet) -> Result<RelSet, Memory>
    requires task { IsTask task.now }
    requires placed { ArePlaced task.now.cat.now task.now.q.now (paths_at table.now) }
{
    let found = nearest_of(alloc, task, table, set, false)?;
    if found.0 != set.0 {
        return Ok(found);
    }
    nearest_of(alloc, task, table, set, true)
}

/// A table with the joins of a part of a set with the rest, where the set has more than one relation. The error means out of
/// memory.
fn add_joins(
    alloc: Global,
    task: &Task,
    before: Table,
    set: RelSet,
    part: RelSet,
) -> Result<Table, Memory>
    requires task { IsTask task.now }
    requires placed { ArePlaced task.now.cat.now task.now.q.now (paths_at before) }
    ensures placed { IfOk result (λ t. ArePlaced task.now.cat.now task.now.q.now (paths_at t)) }
    ensures scans { IfOk result (λ t. HaveSameScans t before) }
{
    if is_single(set) {
        return Ok(before);
    }
    let front = joins_with(alloc, task, &before, set, part)?;
    let mut table = before;
    match table.put(set, RelSet(0), front) {
        Ok(()) => Ok(table),
        Err(_) => Err(AllocError),
    }
}

/// The table with the joins of one relation after another, the first one first. The error means out of memory.
fn joined(alloc: Global, task: &Task, base: Table) -> Result<Table, Memory>
    requires task { IsTask task.now }
    requires placed { ArePlaced task.now.cat.now task.now.q.now (paths_at base) }
    ensures placed { IfOk result (λ t. ArePlaced task.now.cat.now task.now.q.now (paths_at t)) }
    ensures scans { IfOk result (λ t. HaveSameScans t base) }
{
    let mut set = RelSet(1);
    let mut table = base;
    for _n in 1..range_of(task.q).items().len() {
        let more = nearest(alloc, task, &table, set)?;
        table = add_joins(alloc, task, table, more, set)?;
        set = more;
    }
    Ok(table)
}

/// The paths of single relations with those of one plan or more of all relations, where such are found: to the first relation
/// one is added after another, each time that whose joins then cost least. The fronts of single relations stay as they are. The
/// error means out of memory.
pub fn likely_plans(
    alloc: Global,
    cat: &Catalog,
    q: &Prepared,
    asked: Asked,
    base: Table,
) -> Result<Table, Memory>
    requires query { IsOverTables cat.now q.now }
    requires placed { ArePlaced cat.now q.now (paths_at base) }
    ensures placed { IfOk result (λ t. ArePlaced cat.now q.now (paths_at t)) }
    ensures scans { IfOk result (λ t. HaveSameScans t base) }
{
    let order = order_asked(alloc, q)?;
    let whole = whole_rows(cat, q);
    let task = Task {
        cat,
        q,
        asked,
        whole,
        order: &order,
    };
    joined(alloc, &task, base)
}
