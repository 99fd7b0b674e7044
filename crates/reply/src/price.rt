//! The price of a plan that a query is answered by.

ghost use Rattle.std.specs.Prelude.{◌≡◌};
ghost use Rattle.plan_tree.specs.Costs.{price};
ghost use Rattle.plan_tree.specs.Least.{IsAdmissible};
ghost use Rattle.plan_tree.specs.work.Paths.{IsFinishedPath};
ghost use Rattle.plan_tree.specs.work.Views.{path};

use catalog::Catalog;
use plan_tree::{Path, cost_of, price_of};
use sql_query::Prepared;

/// The price of an admissible finished plan.
pub(crate) fn best_price(cat: &Catalog, q: &Prepared, best: &Path) -> u64
    requires finished { IsFinishedPath cat.now q.now (path best.now) }
    requires admissible { IsAdmissible cat.now q.now (path best.now).tree }
    ensures { result ≡ price cat.now q.now (path best.now).tree }
{
    cat.lawful();
    price_of(q, cost_of(cat, q, best), best.rows)
}
