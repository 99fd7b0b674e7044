//! What the grouping of a query asks, in numbers.

ghost use Rattle.std.specs.Prelude.{◌≡◌, map};
ghost use Rattle.pg_base.specs.Sets.{has};
ghost use Rattle.sql_query.specs.Queries.{all_of_query};
ghost use Rattle.sql_query.specs.WellBound.{IsWellBound};
ghost use Rattle.plan_tree.specs.Space.{IsSameSet};
ghost use Rattle.group_values.specs.work.GroupCosts.{IsTask};
ghost use Rattle.group_explain.specs.GroupPlans.{GroupQuery, distinct_of};
ghost use Rattle.group_explain.specs.work.GroupPlans.{IsAskedBy, IsTaskOf};

use catalog::Catalog;
use group_values::GroupTask;
use path_cost::rows;
use pathkeys::{Keys, covers};
use pg_base::RelSet;
use plan_tree::{classes_of, range_of};
use sql_query::Prepared;

/// The classes of a grouping, and its calls.
#[derive(Clone, Copy)]
pub struct Asked<'a> {
    /// The classes of the GROUP BY columns, without those that have a constant or stood before.
    pub group_keys: &'a Keys,
    /// The classes of the ORDER BY columns.
    pub line_keys: &'a Keys,
    /// How many calls there are.
    pub calls: u64,
}

/// The numbers of a grouping: the rows that all relations are taken to give, and of the first member of each group key, which
/// is given, the number of different values.
pub fn group_task(
    cat: &Catalog,
    q: &Prepared,
    all: RelSet,
    asked: Asked<'_>,
    distinct: Vec<u64>,
) -> GroupTask
    requires bound { IsWellBound cat.now q.now }
    requires all { IsSameSet (has all.0) (all_of_query q.now) }
    requires distinct { distinct.items ≡ map (distinct_of cat.now q.now) asked.group_keys.now }
    ensures task { IsTask result }
    ensures is { (g : GroupQuery) → g.base ≡ q.now →
        IsAskedBy g asked.entry.group_keys.now asked.entry.line_keys.now asked.entry.calls →
        IsTaskOf cat.now g result }
{
    cat.lawful();
    GroupTask {
        rows: rows(cat, range_of(q), classes_of(q), all),
        distinct,
        calls: asked.calls,
        sort_sorted: !covers(asked.group_keys, asked.line_keys),
        sort_hashed: !asked.line_keys.items().is_empty(),
    }
}
