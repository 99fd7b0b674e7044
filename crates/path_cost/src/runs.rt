//! How often a scan is run.

ghost use Rattle.std.specs.Prelude.{◌≡◌, ◌≤◌, All, length};
ghost use Rattle.pg_base.specs.Sets.{has};
ghost use Rattle.eq_classes.specs.Clauses.{Clause};
ghost use Rattle.cost_rules.specs.work.Costs.{IsEstimate};
ghost use Rattle.path_cost.specs.work.Columns.{AreTables, IsOver};
ghost use Rattle.path_cost.specs.Runs.{runs as runs_of};
ghost use Rattle.path_cost.specs.work.Runs.{lesser_with};

use crate::estimates::rows;
use catalog::{Catalog, RangeTable};
use eq_classes::Classes;
use pg_base::{RelNo, RelSet};

/// The lesser of two numbers, of which the first may be none.
fn lesser(least: Option<u64>, n: u64) -> u64
    ensures { result ≡ lesser_with least n }
{
    match least {
        Some(m) => m.min(n),
        None => n,
    }
}

/// The runs for which a scan is priced that is given the rows of the relations of `p`, once for each outer row: the
/// fewest estimated rows that one of them has, alone; one run where `p` is empty.
pub(crate) fn runs(cat: &Catalog, range: &RangeTable, classes: &Classes, p: RelSet) -> u64
    requires tables { AreTables cat.now range.now }
    requires clauses { All (λ (k : Clause). IsOver cat.now range.now k.cond) classes.now.clauses }
    requires few { length range.now ≤ 16 }
    ensures runs { result ≡ runs_of cat.now range.now classes.now (has p.0) }
    ensures estimate { IsEstimate result }
{
    let mut least = None;
    for n in 0..range.items().len() {
        let q = RelNo(n as u8);
        if p.has(q) {
            least = Some(lesser(least, rows(cat, range, classes, RelSet::one(q))));
        }
    }
    least.unwrap_or(1)
}
