//! Sets of relations.

ghost use Rattle.std.specs.Prelude.{◌≤◌};
ghost use Rattle.pg_base.specs.Sets.{has};
ghost use Rattle.plan_tree.specs.Space.{IsSameSet};
ghost use Rattle.sql_query.specs.Queries.{all_of_query, width};

use pg_base::{RelNo, RelSet};
use plan_tree::range_of;
use sql_query::Prepared;

/// The set of all relations of a query.
pub fn all_relations(q: &Prepared) -> RelSet
    requires few { width q.now ≤ 16 }
    ensures { IsSameSet (has result.0) (all_of_query q.now) }
{
    let mut all = RelSet::empty();
    for r in 0..range_of(q).items().len() {
        all = all.union(RelSet::one(RelNo(r as u8)));
    }
    all
}
