//! What a plan is computed by as a side of a join.

ghost use Rattle.std.specs.Prelude.{◌≡◌};
ghost use Rattle.pg_base.specs.Sets.{has};
ghost use Rattle.cost_rules.specs.work.Costs.{IsEstimate};
ghost use Rattle.path_cost.specs.Estimates as numbers;
ghost use Rattle.path_cost.specs.work.Estimates as numbers_work;
ghost use Rattle.plan_tree.specs.work.Reads.{IsOverTables};

use catalog::Catalog;
use cost_rules::Pair;
use path_cost::rows;
use pg_base::RelSet;
use plan_tree::{classes_of, range_of};
use sql_query::Prepared;

/// What a plan is computed by as a side of a join.
#[derive(Clone, Copy, Debug)]
pub struct Part {
    /// The relations that it reads.
    pub set: RelSet,
    /// The other relations whose rows it is given.
    pub param: RelSet,
    /// What it costs, cut to at most 10^18; before its first row 0 where the query has no window.
    pub cost: Pair,
    /// How many rows it is taken to give.
    pub rows: u64,
}

/// The rows that a set of relations is taken to give, however they are joined.
pub fn set_rows(cat: &Catalog, q: &Prepared, s: RelSet) -> u64
    requires query { IsOverTables cat.now q.now }
    ensures rows { result ≡ numbers.set_rows cat.now q.now.range q.now.classes (has s.0) }
    ensures estimate { IsEstimate result }
{
    rows(cat, range_of(q), classes_of(q), s)
}
