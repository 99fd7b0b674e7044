//! The best plan of a certificate, and the first reason among the entries.

ghost use Rattle.std.specs.Prelude.{◌≡◌, ◌≤◌, IfNone, IfSome, MatchOption, length, nat_lt};
ghost use Rattle.pathkeys.specs.Keys as lists;
ghost use Rattle.pathkeys.specs.work.Keys as lists_work;
ghost use Rattle.plan_tree.specs.work.Reads.{IsOverTables};
ghost use Rattle.sql_query.specs.Queries.{width};
ghost use Rattle.plan_check.specs.work.Views.{certificate};
ghost use Rattle.plan_check.specs.work.Placing.{ArePlaced};
ghost use Rattle.plan_check.specs.Reasons.{AllRight, HasBest};
ghost use Rattle.entry_check.specs.work.Telling.{HasSoundEntries, IsEntryOfSide, IsReasonOfEntries, IsUnfinishedSide, TellsOrdered, TellsWhole};

use crate::entries::entry_before;
use crate::judging::judge_entries;
use catalog::Catalog;
use pathkeys::order_key;
use plan_check::{Certificate, Entry, Judged, Reason, Side, first_dominated};
use plan_space::{has_all, order_begun};
use plan_tree::classes_of;
use sql_query::Prepared;

/// Whether a right entry is of all relations of the query, and is given no rows.
fn is_whole(q: &Prepared, e: &Entry) -> bool
    requires few { width q.now ≤ 16 }
    ensures { TellsWhole q.now e.now result }
{
    if !has_all(q, e.set) {
        return false;
    }
    e.param.is_empty()
}

/// Whether the query's ORDER BY has a key.
fn has_order(q: &Prepared) -> bool
    ensures { result ≡ nat_lt 0 (length (lists.order_keys q.now.classes q.now.order)) }
{
    match order_key(classes_of(q), q.order.items(), 0) {
        Some(_) => true,
        None => false,
    }
}

/// Whether a right entry, sorted into the order asked for or not, is in that order.
fn is_ordered(q: &Prepared, e: &Entry, sort: bool) -> bool
    ensures { TellsOrdered q.now e.now sort result }
{
    if sort {
        return has_order(q);
    }
    match order_begun(q, e.keys.items()) {
        Some(_) => true,
        None => false,
    }
}

/// The entry of a side, where that is a finished plan. None exactly where it is none.
pub fn finished_side<'a>(
    cat: &Catalog,
    q: &Prepared,
    t: &'a Certificate,
    s: Side,
) -> Option<&'a Entry>
    requires query { IsOverTables cat.now q.now }
    requires right { AllRight cat.now q.now (certificate t.now) }
    ensures some { IfSome result (λ e. IsEntryOfSide cat.now q.now t.now s e.now) }
    ensures none { IfNone result (IsUnfinishedSide cat.now q.now t.now s) }
{
    match entry_before(cat, q, t, t.entries.items().len(), s.entry) {
        Some(e) => {
            if !is_whole(q, e) {
                return None;
            }
            if !is_ordered(q, e, s.sort) {
                return None;
            }
            Some(e)
        }
        None => None,
    }
}

/// The first reason that is seen before any plan besides the entries is looked at: an entry that is not right, a best plan
/// that is not finished, an entry that another dominates. None exactly where there is none of these. The condition is that
/// the places are those of the entries. It takes no memory.
pub fn judge_table(j: &Judged) -> Option<Reason>
    requires query { IsOverTables j.now.cat.now j.now.q.now }
    requires placed { ArePlaced (certificate j.now.t.now).entries j.now.places.now }
    ensures { MatchOption result (HasSoundEntries j.now) (λ r. IsReasonOfEntries j.now r) }
{
    match judge_entries(j.cat, j.q, j.t) {
        Some(reason) => Some(reason),
        None => match finished_side(j.cat, j.q, j.t, j.t.best) {
            Some(_best) => match first_dominated(j) {
                Some(found) => Some(Reason::Dominated {
                    entry: found.0,
                    by: found.1,
                }),
                None => None,
            },
            None => Some(Reason::BadNode { entry: 0 }),
        },
    }
}
