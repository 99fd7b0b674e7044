//! Right entries as sides of joins.

ghost use Rattle.std.specs.Prelude.{◌≡◌};
ghost use Rattle.pg_base.specs.Sets.{has};
ghost use Rattle.plan_tree.specs.work.Reads.{IsOverTables};
ghost use Rattle.plan_tree.specs.Space.{IsEmpty};
ghost use Rattle.entry_check.specs.work.Parts.{IsEntryPart, IsReckoned, IsSidePart};
ghost use Rattle.plan_check.specs.work.Views.{entry};
ghost use Rattle.entry_check.specs.work.Owning.{HasRight};

use crate::{Part, sorted};
use catalog::Catalog;
use cost_rules::Pair;
use plan_check::{Entry, counted};
use sql_query::Prepared;

/// What a right entry is computed by as a side of a join.
pub(crate) fn part_of(cat: &Catalog, q: &Prepared, e: &Entry) -> Part
    requires query { IsOverTables cat.now q.now }
    requires right { HasRight cat.now q.now (entry e.now) }
    ensures part { IsEntryPart cat.now q.now e.now result }
    ensures reckoned { IsReckoned result }
    ensures set { result.set.0 ≡ e.now.set.0 }
{
    cat.lawful();
    Part {
        set: e.set,
        param: e.param,
        cost: Pair {
            startup: counted(q, e.startup),
            total: e.cost,
        },
        rows: e.rows,
    }
}

/// What a right entry that is given no rows is computed by as a side of a merge, sorted by its list or not.
pub(crate) fn side_of(cat: &Catalog, q: &Prepared, e: &Entry, sort: bool) -> Part
    requires query { IsOverTables cat.now q.now }
    requires right { HasRight cat.now q.now (entry e.now) }
    requires whole { IsEmpty (has e.now.param.0) }
    ensures part { IsSidePart cat.now q.now e.now sort result }
    ensures reckoned { IsReckoned result }
    ensures set { result.set.0 ≡ e.now.set.0 }
{
    let part = part_of(cat, q, e);
    if sort { sorted(q, part) } else { part }
}
