//! Certificates checked.

ghost use Rattle.std.specs.Prelude.{◌≡◌, ℕ, slice_get, suc};
ghost use Rattle.pg_base.specs.Sets.{has};
ghost use Rattle.plan_tree.specs.work.Reads.{IsOverTables};
ghost use Rattle.scan_cover.specs.work.Limits.{HasFewAtoms};
ghost use Rattle.plan_check.specs.work.Views.{certificate};
ghost use Rattle.plan_check.specs.work.Placing.{ArePlaced};
ghost use Rattle.plan_check.specs.Reasons.{AreUndominated};
ghost use Rattle.plan_check.specs.Verdicts.{AreWhole, IsVerdict};
ghost use Rattle.plan_check.specs.declared.verdict.Verdict.TheVariants as verdicts;
ghost use Rattle.certificate_check.specs.work.Checked.{AreSortedByKeys, HasCheapest, LeavesNoneOut};

use crate::cover::open_candidate;
use crate::judge_best;
use catalog::Catalog;
use plan_check::{Certificate, Judged, Reason, SetPlaces, Verdict};
use plan_laws::plans_are_sorted;
use scan_cover::entry_check::judge_table;
use sql_query::Prepared;

/// What is said of a certificate whose entries are right, whose best plan is finished, and of which no entry dominates
/// another.
fn judge_whole(j: &Judged) -> Verdict
    requires query { IsOverTables j.now.cat.now j.now.q.now }
    requires atoms { HasFewAtoms j.now.q.now }
    requires placed { ArePlaced (certificate j.now.t.now).entries j.now.places.now }
    requires whole { AreWhole j.now.cat.now j.now.q.now (certificate j.now.t.now) }
    requires undominated { AreUndominated j.now.cat.now j.now.q.now (certificate j.now.t.now) }
    ensures { IsVerdict j.now.cat.now j.now.q.now (certificate j.now.t.now) result }
{
    if let Some((node, x)) = open_candidate(j) {
        return Verdict::No(Reason::Uncovered {
            node,
            startup: x.startup,
            cost: x.cost,
            rows: x.rows,
        });
    }
    match judge_best(j.cat, j.q, j.t) {
        Some((printed, own)) => Verdict::No(Reason::NotBest { printed, own }),
        None => Verdict::Valid,
    }
}

/// What is said of a certificate: the first reason that its entries give, or what is said of it as a whole.
fn judge_all(j: &Judged) -> Verdict
    requires query { IsOverTables j.now.cat.now j.now.q.now }
    requires atoms { HasFewAtoms j.now.q.now }
    requires placed { ArePlaced (certificate j.now.t.now).entries j.now.places.now }
    ensures { IsVerdict j.now.cat.now j.now.q.now (certificate j.now.t.now) result }
{
    match judge_table(j) {
        Some(reason) => Verdict::No(reason),
        None => judge_whole(j),
    }
}

/// Checks a certificate, whoever made it: it is valid exactly where it is a table of the query; else the answer is the first
/// reason for which it is none. In order: the first entry that is none of the plan space or not as it says, or the first
/// number of it that is not its own; a best plan that is not finished; the first entry that another dominates, and the
/// first that does; a plan that an entry must dominate and none does; a best plan that is not the least. Where it is valid,
/// each admissible plan of the plan space that is no sort is dominated by an entry; where some finished plan is admissible
/// the best plan is, and is of no greater price; where the best plan is not admissible, none is; and the rows of each entry's
/// plan are sorted by the keys that the entry says. It takes no memory.
pub fn check(cat: &Catalog, q: &Prepared, t: &Certificate) -> Verdict
    requires query { IsOverTables cat.now q.now }
    requires atoms { HasFewAtoms q.now }
    ensures verdict { IsVerdict cat.now q.now (certificate t.now) result }
    ensures dominated { result ≡ verdicts.Valid → LeavesNoneOut cat.now q.now (certificate t.now) }
    ensures best { result ≡ verdicts.Valid → HasCheapest cat.now q.now (certificate t.now) }
    ensures sorted { result ≡ verdicts.Valid → AreSortedByKeys cat.now q.now (certificate t.now) }
{
    plans_are_sorted();
    cat.lawful();
    let places = SetPlaces::of(t.entries.items(), t.entries.order());
    let j = Judged {
        cat,
        q,
        t,
        places: &places,
    };
    judge_all(&j)
}
