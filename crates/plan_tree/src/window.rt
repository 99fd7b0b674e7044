//! What a query's window asks of its plans.

ghost use Rattle.std.specs.Prelude.{◌≡◌, ◌≤◌};
ghost use Rattle.sql_query.specs.catalog_Contents.{Contents};
ghost use Rattle.cost_rules.specs.work.Costs.{IsCost, IsEstimate, capped_pair};
ghost use Rattle.plan_tree.specs.Costs as costs;
ghost use Rattle.plan_tree.specs.work.Costs as costs_work;
ghost use Rattle.plan_tree.specs.Least.{IsAdmissible};
ghost use Rattle.plan_tree.specs.Paths.{startup_kept};
ghost use Rattle.plan_tree.specs.work.Paths.{HasItsNumbers, kept_cost, cost_kept};
ghost use Rattle.plan_tree.specs.Plans as plans;
ghost use Rattle.plan_tree.specs.work.Views.{path};

use crate::path::Path;
use cost_rules::{Pair, price};
use sql_query::catalog::Catalog;
use sql_query::{Prepared, Window};

/// What a path keeps of its startup: all of it where the query has a window, else 0.
pub fn startup_of(q: &Prepared, cost: Pair) -> u64
    ensures { result ≡ startup_kept q.now.window cost.startup }
{
    match q.window {
        None => 0,
        Some(_) => cost.startup,
    }
}

/// What a path keeps of a cost.
pub fn kept_of(q: &Prepared, cost: Pair) -> Pair
    requires { IsCost cost }
    ensures kept { result ≡ kept_cost q.now.window cost }
    ensures cost { IsCost result }
{
    Pair {
        startup: startup_of(q, cost),
        total: cost.total,
    }
}

/// The cost of an admissible path: what it keeps of its plan's.
pub fn cost_of(cat: &Catalog, q: &Prepared, p: &Path) -> Pair
    requires numbers { HasItsNumbers cat.now q.now (path p.now) }
    requires admissible { IsAdmissible cat.now q.now (path p.now).tree }
    ensures kept { result ≡ capped_pair (cost_kept cat.now q.now (path p.now).tree) }
    ensures cost { IsCost result }
{
    cat.lawful();
    Pair {
        startup: p.startup,
        total: p.cost,
    }
}

/// How many of so many rows a window asks for.
pub fn asked(w: Window, rows: u64) -> u64
    ensures rows { result ≡ costs.asked w rows }
    ensures most { result ≤ rows }
{
    match w.limit {
        None => rows,
        Some(limit) => rows.min(limit.saturating_add(w.offset)),
    }
}

/// The price of a plan of all relations, of which what a path keeps of its cost, and its rows are given.
pub fn price_of(q: &Prepared, cost: Pair, rows: u64) -> u64
    requires startup { cost.startup ≤ cost.total }
    requires rows { IsEstimate rows }
    ensures price { (c : Contents) (p : plans.Plan) → cost ≡ cost_kept c q.now p →
        rows ≡ costs.query_rows c q.now → result ≡ costs.price c q.now p }
    ensures most { result ≤ cost.total }
{
    match q.window {
        None => cost.total,
        Some(w) => price(cost, asked(w, rows), rows),
    }
}
