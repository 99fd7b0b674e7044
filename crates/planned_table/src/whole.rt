//! A plan of a query, and its table.

ghost use Rattle.std.specs.Prelude.{◌≡◌, Contains, IfErr, IfNone, IfOk, IfSome, Some};
ghost use Rattle.pg_base.specs.Sets.{has};
ghost use Rattle.pathkeys.specs.Keys as keys;
ghost use Rattle.pathkeys.specs.work.Keys as keys_work;
ghost use Rattle.sql_query.specs.Queries.{all_of_query};
ghost use Rattle.sql_query.specs.WellBound.{IsWellBound};
ghost use Rattle.plan_tree.specs.Least.{IsAdmissible, IsBestPlan, HasNoPlan};
ghost use Rattle.plan_tree.specs.work.Paths.{IsFinishedPath};
ghost use Rattle.plan_tree.specs.Space.{IsSameSet};
ghost use Rattle.plan_tree.specs.work.Reads.{IsOverTables};
ghost use Rattle.join_search.specs.work.Tables.{none, paths_at};
ghost use Rattle.certificate_laws.specs.planner_Finishing.{IsWhole, finished};
ghost use Rattle.plan_tree.specs.work.Views.{path};
ghost use Rattle.pg_value.specs.Sorting.{IsInOrder};
ghost use Rattle.certificate_laws.specs.planner_least_plan_PlanFault_TheVariants.{CostLimit};
ghost use Rattle.plan_check.specs.Certificates.{finish_at};
ghost use Rattle.plan_check.specs.Tables.{IsPlanTable};
ghost use Rattle.plan_check.specs.work.Views.{certificate};
ghost use Rattle.certificate_laws.specs.certificate_text_HasText.{HasText};
ghost use Rattle.certificate_laws.specs.work.Arms.{HasArmsInOrs};
ghost use Rattle.certificate_laws.specs.Printing.{printing_order};
ghost use Rattle.certificate_laws.specs.work.Printing.{path_order};
ghost use Rattle.certificate_laws.specs.work.Searched.{AreOfFronts, IsSearched};
ghost use Rattle.planned_table.specs.work.Gathering.{shown};
ghost use Rattle.planned_table.specs.work.Numbering.{HasBestEntryFor};

use crate::gathering::gathered;
use crate::making::certificate_of;
use crate::printing::sort_paths;
use catalog::Catalog;
use certificate_laws::planner::{PlanFault, base_table, finish, least_place, whole_paths};
use cost_rules::MOST_COST;
use join_search::{Asked, Table, all_relations, order_asked, search};
use pathkeys::Keys;
use pg_base::{Memory, RelSet};
use plan_check::Certificate;
use plan_tree::{Path, range_of};
use sql_query::Prepared;
use std::alloc::Global;

/// What a query is answered by, and why no other plan undercuts it.
pub struct Tabled {
    /// A path of a finished plan: one of all relations, in the order asked for.
    pub best: Path,
    /// The kept paths as entries of a table, of which the best one stands for the same plan.
    pub table: Certificate,
}

impl Drop for Tabled {
    fn drop(self) {
        let Tabled { best: _, table: _ } = self;
    }
}

/// The fronts of a search for the plans of a query.
#[derive(Clone, Copy)]
struct Searched<'a> {
    cat: &'a Catalog,
    /// The query.
    q: &'a Prepared,
    /// The fronts.
    table: &'a Table,
    /// All relations of the query.
    all: RelSet,
}

/// The fronts of a search for every key and every cost. The error means out of memory.
fn whole_table(alloc: Global, cat: &Catalog, q: &Prepared) -> Result<Table, Memory>
    requires query { IsOverTables cat.now q.now }
    ensures { IfOk result (λ t. IsSearched cat.now q.now (paths_at t)) }
{
    let asked = Asked {
        every_key: true,
        limit: MOST_COST,
    };
    let base = base_table(alloc, cat, q)?;
    let table = search(alloc, cat, q, asked, base)?;
    Ok(table)
}

/// The paths of a table in the order of printing. The error means out of memory.
fn listed_paths<'a>(
    alloc: Global,
    cat: &Catalog,
    q: &Prepared,
    table: &'a Table,
    all: RelSet,
) -> Result<Vec<&'a Path>, Memory>
    requires query { IsOverTables cat.now q.now }
    requires all { IsSameSet (has all.0) (all_of_query q.now) }
    requires searched { IsSearched cat.now q.now (paths_at table.now) }
    ensures paths { IfOk result (λ listed. AreOfFronts (paths_at table.now) (shown listed.items)) }
    ensures ordered { IfOk result (λ listed. IsInOrder path_order (shown listed.items)) }
{
    let mut listed = gathered(alloc, table, range_of(q).items().len(), all)?;
    sort_paths(&mut listed)?;
    Ok(listed)
}

/// The certificate of a table's paths, of which one of all relations in the order asked for is the best plan. The error means
/// out of memory.
fn certified(alloc: Global, at: &Searched, best: &Path, order: &Keys) -> Result<Certificate, Memory>
    requires bound { IsWellBound at.now.cat.now at.now.q.now }
    requires query { IsOverTables at.now.cat.now at.now.q.now }
    requires all { IsSameSet (has at.now.all.0) (all_of_query at.now.q.now) }
    requires searched { IsSearched at.now.cat.now at.now.q.now (paths_at at.now.table.now) }
    requires order { order.now ≡ keys.order_keys at.now.q.now.classes at.now.q.now.order }
    requires best { Contains (paths_at at.now.table.now at.now.all none) (path best.now) }
    requires least { IsBestPlan at.now.cat.now at.now.q.now
        (finished at.now.cat.now at.now.q.now (path best.now).tree) }
    ensures table { IfOk result (λ t. IsPlanTable at.now.cat.now at.now.q.now (certificate t)) }
    ensures unfolds { IfOk result (λ t.
        finish_at at.now.q.now (certificate t) (certificate t).best
        ≡ Some (finished at.now.cat.now at.now.q.now (path best.now).tree)) }
    ensures ordered { IfOk result (λ t. IsInOrder printing_order (certificate t).entries) }
    ensures text { IfOk result (λ t.
        HasArmsInOrs at.now.q.now → HasText at.now.cat.now at.now.q.now (certificate t)) }
{
    let cat: &Catalog = at.cat;
    cat.lawful();
    let listed = listed_paths(alloc, cat, at.q, at.table, at.all)?;
    let made = certificate_of(alloc, at.q, &listed, best, order)?;
    Ok(made)
}

/// A path of all relations whose plan, in the order asked for, is of the least price. None exactly where no finished plan is
/// admissible.
fn least_path<'a>(
    cat: &Catalog,
    q: &Prepared,
    table: &'a Table,
    all: RelSet,
    order: &Keys,
) -> Option<&'a Path>
    requires all { IsSameSet (has all.0) (all_of_query q.now) }
    requires searched { IsSearched cat.now q.now (paths_at table.now) }
    requires order { order.now ≡ keys.order_keys q.now.classes q.now.order }
    ensures there { IfSome result (λ p. Contains (paths_at table.now all none) (path p.now)) }
    ensures whole { IfSome result (λ p. IsWhole cat.now q.now (path p.now)) }
    ensures admissible { IfSome result (λ p.
        IsAdmissible cat.now q.now (finished cat.now q.now (path p.now).tree)) }
    ensures best { IfSome result (λ p.
        IsBestPlan cat.now q.now (finished cat.now q.now (path p.now).tree)) }
    ensures none { IfNone result (HasNoPlan cat.now q.now) }
{
    cat.lawful();
    let paths = whole_paths(table, all);
    match least_place(cat, q, paths, order) {
        Some(least) => Some(&paths[least.at]),
        None => None,
    }
}

/// A path of least price over a table of fronts, with the table's certificate. `CostLimit` comes only where no finished plan
/// is admissible.
fn tabled_of(
    alloc: Global,
    cat: &Catalog,
    q: &Prepared,
    table: &Table,
    order: Keys,
) -> Result<Tabled, PlanFault>
    requires bound { IsWellBound cat.now q.now }
    requires query { IsOverTables cat.now q.now }
    requires searched { IsSearched cat.now q.now (paths_at table.now) }
    requires order { order ≡ keys.order_keys q.now.classes q.now.order }
    ensures best { IfOk result (λ t. IsFinishedPath cat.now q.now (path t.best)) }
    ensures least { IfOk result (λ t. IsBestPlan cat.now q.now (path t.best).tree) }
    ensures limit { IfErr result (λ e. e ≡ CostLimit → HasNoPlan cat.now q.now) }
    ensures table { IfOk result (λ t. IsPlanTable cat.now q.now (certificate t.table)) }
    ensures unfolds { IfOk result (λ t.
        HasBestEntryFor q.now (certificate t.table) (path t.best).tree) }
    ensures ordered { IfOk result (λ t. IsInOrder printing_order (certificate t.table).entries) }
    ensures text { IfOk result (λ t.
        HasArmsInOrs q.now → HasText cat.now q.now (certificate t.table)) }
{
    let all = all_relations(q);
    let least = match least_path(cat, q, table, all, &order) {
        Some(least) => least,
        None => return Err(PlanFault::CostLimit),
    };
    let at = Searched { cat, q, table, all };
    let made = certified(alloc, &at, least, &order)?;
    let best = finish(alloc, cat, q, least, order)?;
    Ok(Tabled { best, table: made })
}

/// A plan of least price, as `planner::plan` gives one, with a table of the query: a path for each admissible scan and each
/// admissible join of kept paths that none of them dominates, in the order of printing. The table has a text where no OR of the
/// query is without arms, as none is that SQL writes; it is of version 2 where the query has a window. `CostLimit` comes
/// exactly where no finished plan is below 10^18. `Memory` means out of memory; a table of more than 2^32 - 1 entries counts as
/// that.
pub fn plan_with_table(alloc: Global, cat: &Catalog, q: &Prepared) -> Result<Tabled, PlanFault>
    requires bound { IsWellBound cat.now q.now }
    ensures best { IfOk result (λ t. IsFinishedPath cat.now q.now (path t.best)) }
    ensures least { IfOk result (λ t. IsBestPlan cat.now q.now (path t.best).tree) }
    ensures limit { IfErr result (λ e. e ≡ CostLimit → HasNoPlan cat.now q.now) }
    ensures table { IfOk result (λ t. IsPlanTable cat.now q.now (certificate t.table)) }
    ensures unfolds { IfOk result (λ t.
        HasBestEntryFor q.now (certificate t.table) (path t.best).tree) }
    ensures ordered { IfOk result (λ t. IsInOrder printing_order (certificate t.table).entries) }
    ensures text { IfOk result (λ t.
        HasArmsInOrs q.now → HasText cat.now q.now (certificate t.table)) }
{
    let order = order_asked(alloc, q)?;
    let table = whole_table(alloc, cat, q)?;
    tabled_of(alloc, cat, q, &table, order)
}
