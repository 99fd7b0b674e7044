//! The numbers of a grouped query.

ghost use Rattle.std.specs.Prelude.{◌≡◌, ◌<◌, All, IfOk, length, map};
ghost use Rattle.pg_base.specs.Sets.{has};
ghost use Rattle.pathkeys.specs.work.Finding.{class_numbers};
ghost use Rattle.sql_query.specs.Queries.{all_of_query};
ghost use Rattle.sql_query.specs.WellBound.{IsWellBound};
ghost use Rattle.plan_tree.specs.Space.{IsSameSet};
ghost use Rattle.group_values.specs.work.GroupCosts.{IsTask};
ghost use Rattle.group_explain.specs.GroupPlans as plans;
ghost use Rattle.group_explain.specs.work.GroupPlans as plans_work;
ghost use Rattle.group_explain.specs.GroupPlans.{distinct_of};
ghost use Rattle.group_explain.specs.work.GroupPlans.{IsTaskOf};
ghost use Rattle.group_explain.specs.Texts.{group_query};

use crate::keys::{group_keys, line_keys};
use crate::{Asked, group_task};
use catalog::Catalog;
use eq_classes::ClassNo;
use group_query::number_of_calls;
use group_values::GroupTask;
use path_cost::distinct;
use pathkeys::Keys;
use pg_base::{Memory, RelSet};
use plan_tree::{classes_of, range_of};
use reply::join_search::all_relations;
use sql_query::{Grouped, Prepared};
use std::alloc::Global;

/// How many different values the first member of a class is taken to have.
fn values_of(cat: &Catalog, q: &Prepared, all: RelSet, class: ClassNo) -> u64
    requires bound { IsWellBound cat.now q.now }
    requires all { IsSameSet (has all.0) (all_of_query q.now) }
    requires class { class.0 < length q.now.classes.classes }
    ensures { result ≡ distinct_of cat.now q.now class.0 }
{
    match classes_of(q).member(class, all) {
        Some(x) => distinct(cat, range_of(q), x),
        None => 1,
    }
}

/// How many different values the first member of each of some classes is taken to have.
fn values_of_each(
    alloc: Global,
    cat: &Catalog,
    q: &Prepared,
    keys: &[ClassNo],
) -> Result<Vec<u64>, Memory>
    requires bound { IsWellBound cat.now q.now }
    requires classes { All (λ n. n < length q.now.classes.classes) (class_numbers keys.now) }
    ensures { IfOk result (λ v.
        v.items ≡ map (distinct_of cat.now q.now) (class_numbers keys.now)) }
{
    let all = all_relations(q);
    let mut values = Vec::new(alloc);
    for n in 0..keys.len() {
        values.push(values_of(cat, q, all, keys[n]))?;
    }
    Ok(values)
}

/// The numbers of a grouped query with these keys, by which the costs of its plans go.
fn task_by(
    alloc: Global,
    cat: &Catalog,
    g: &Grouped,
    keys: &Keys,
    sorted_by: &Keys,
) -> Result<GroupTask, Memory>
    requires bound { IsWellBound cat.now g.now.base }
    requires groups { keys.now ≡ plans.group_keys (group_query g.now) }
    requires lines { sorted_by.now ≡ plans.line_keys (group_query g.now) }
    ensures numbers { IfOk result IsTask }
    ensures task { IfOk result (IsTaskOf cat.now (group_query g.now)) }
{
    let distinct = values_of_each(alloc, cat, &g.base, keys.items())?;
    let asked = Asked {
        group_keys: keys,
        line_keys: sorted_by,
        calls: number_of_calls(g) as u64,
    };
    Ok(group_task(cat, &g.base, all_relations(&g.base), asked, distinct))
}

/// The numbers of a grouped query, by which the costs of its plans go. The error means out of memory.
pub(crate) fn task_of(alloc: Global, cat: &Catalog, g: &Grouped) -> Result<GroupTask, Memory>
    requires bound { IsWellBound cat.now g.now.base }
    ensures numbers { IfOk result IsTask }
    ensures task { IfOk result (IsTaskOf cat.now (group_query g.now)) }
{
    let keys = group_keys(alloc, g)?;
    let sorted_by = line_keys(alloc, g)?;
    task_by(alloc, cat, g, &keys, &sorted_by)
}
