//! Sets of relations and their divisions into two sides.

ghost use Rattle.std.specs.Prelude.{◌≡◌, ◌<◌, ◌≤◌, ◌^◌, ◌↔◌, IsTrue, true};
ghost use Rattle.pg_base.specs.Sets.{has};
ghost use Rattle.cost_rules.specs.work.Costs.{IsEstimate};
ghost use Rattle.path_cost.specs.Estimates as numbers;
ghost use Rattle.path_cost.specs.work.Estimates as numbers_work;
ghost use Rattle.plan_tree.specs.Costs as costs;
ghost use Rattle.plan_tree.specs.work.Costs as costs_work;
ghost use Rattle.plan_tree.specs.work.Paths.{IsPathOf};
ghost use Rattle.plan_tree.specs.work.Reads.{IsOverTables};
ghost use Rattle.plan_tree.specs.Space.{IsSameSet};
ghost use Rattle.plan_tree.specs.work.Views.{path};
ghost use Rattle.sql_query.specs.Queries.{all_of_query, width};
ghost use Rattle.join_search.specs.work.Joins.{IsSingle};
ghost use Rattle.join_search.specs.work.Splits.{HasSome};
ghost use Rattle.join_search.specs.work.Sufficing.{AreWholeRows};

use crate::table::Table;
use crate::useful::Asked;
use catalog::Catalog;
use cost_rules::MOST_ESTIMATE;
use path_cost::rows;
use pathkeys::Keys;
use pg_base::{RelNo, RelSet};
use plan_tree::{Path, classes_of, estimate, range_of};
use sql_query::Prepared;

/// What a search is over.
#[derive(Clone, Copy)]
pub(crate) struct Task<'a> {
    pub(crate) cat: &'a Catalog,
    /// The query.
    pub(crate) q: &'a Prepared,
    /// What is asked of the search.
    pub(crate) asked: Asked,
    /// The rows of all relations, by which a window's price goes.
    pub(crate) whole: u64,
    /// The order keys of the query.
    pub(crate) order: &'a Keys,
}

/// A set of relations whose joins are looked for, over the fronts of smaller ones.
#[derive(Clone, Copy)]
pub(crate) struct Target<'a> {
    pub(crate) cat: &'a Catalog,
    /// The query.
    pub(crate) q: &'a Prepared,
    /// What is asked of the search.
    pub(crate) asked: Asked,
    /// The rows of all relations, by which a window's price goes.
    pub(crate) whole: u64,
    /// The order keys of the query.
    pub(crate) order: &'a Keys,
    /// The fronts.
    pub(crate) table: &'a Table,
    /// The set.
    pub(crate) set: RelSet,
    /// The rows of a join of all its relations.
    pub(crate) rows: u64,
    /// The relations of the query that are not of the set.
    pub(crate) outside: RelSet,
}

/// A set of relations divided into the sides of its joins, with what all of these are computed from.
#[derive(Clone, Copy)]
pub(crate) struct Split<'a> {
    pub(crate) cat: &'a Catalog,
    /// The query.
    pub(crate) q: &'a Prepared,
    /// What is asked of the search.
    pub(crate) asked: Asked,
    /// The rows of all relations, by which a window's price goes.
    pub(crate) whole: u64,
    /// The order keys of the query.
    pub(crate) order: &'a Keys,
    /// The fronts.
    pub(crate) table: &'a Table,
    /// The relations of both sides.
    pub(crate) set: RelSet,
    /// The rows of the join.
    pub(crate) rows: u64,
    /// The relations of the query that are in neither side.
    pub(crate) outside: RelSet,
    /// The outer relations.
    pub(crate) outer: RelSet,
    /// The inner ones.
    pub(crate) inner: RelSet,
    /// The rows of the outer side.
    pub(crate) outer_rows: u64,
    /// The rows of the inner side, where it is given none.
    pub(crate) inner_rows: u64,
    /// The paths of the outer side.
    pub(crate) outers: &'a [Path],
    /// The paths of the inner side that are given no rows.
    pub(crate) inners: &'a [Path],
}

/// The set of all relations.
pub fn all_relations(q: &Prepared) -> RelSet
    requires few { width q.now ≤ 16 }
    ensures { IsSameSet (has result.0) (all_of_query q.now) }
{
    let mut all = RelSet::empty();
    for r in 0..range_of(q).items().len() {
        all = all.union(RelSet::one(RelNo(r as u8)));
    }
    all
}

/// How many sets there are of the first relations, the empty one too.
pub(crate) fn sets_of(relations: usize) -> u32
    requires few { relations ≤ 16 }
    ensures { result ≡ 2 ^ relations }
{
    1 << relations
}

/// A relation of a set.
pub(crate) fn some_relation(s: RelSet) -> RelNo
    requires some { HasSome s }
    ensures { has s.0 result.0 ≡ true }
{
    match s.first() {
        Some(r) => r,
        None => unreachable!(),
    }
}

/// Whether a set has one relation alone.
pub(crate) fn is_single(s: RelSet) -> bool
    ensures { IsTrue result ↔ IsSingle s }
{
    match s.first() {
        Some(r) => s.0 == RelSet::one(r).0,
        None => false,
    }
}

/// The rows that a set of relations is taken to give.
pub(crate) fn set_rows(cat: &Catalog, q: &Prepared, s: RelSet) -> u64
    requires query { IsOverTables cat.now q.now }
    ensures rows { result ≡ numbers.set_rows cat.now q.now.range q.now.classes (has s.0) }
    ensures estimate { IsEstimate result }
{
    rows(cat, range_of(q), classes_of(q), s)
}

/// The rows that all relations of a query are taken to give.
pub(crate) fn whole_rows(cat: &Catalog, q: &Prepared) -> u64
    requires query { IsOverTables cat.now q.now }
    ensures { AreWholeRows cat.now q.now result }
{
    let all = all_relations(q);
    set_rows(cat, q, all)
}

/// The rows that a path is taken to give: its own number, which is one that costs are computed from.
pub(crate) fn path_rows(cat: &Catalog, q: &Prepared, p: &Path) -> u64
    requires query { IsOverTables cat.now q.now }
    requires path { IsPathOf cat.now q.now (path p.now) }
    ensures rows { result ≡ costs.estimate cat.now q.now (path p.now).tree }
    ensures estimate { IsEstimate result }
{
    if p.rows == 0 || p.rows > MOST_ESTIMATE {
        return estimate(cat, q, &p.plan);
    }
    p.rows
}
