//! The reason for which an entry is not right.

ghost use Rattle.std.specs.Prelude.{◌≡◌, ◌≢◌, ◌+◌, ◌<◌, IfNone, IfSome, Some, false, length, true};
ghost use Rattle.plan_tree.specs.work.Reads.{IsOverTables};
ghost use Rattle.sql_query.specs.declared.window.Window.{Window as Asked};
ghost use Rattle.plan_check.specs.Tables.{IsStartup};
ghost use Rattle.plan_check.specs.work.Views.{certificate};
ghost use Rattle.plan_check.specs.Reasons.{AreRight};
ghost use Rattle.entry_check.specs.work.Telling.{DiffersBy, IsFaultOf, JudgesEntries, SaysNumbers};

use crate::entries::own_at;
use crate::numbers::Own;
use catalog::Catalog;
use plan_check::{Certificate, Entry, Number, Reason};
use sql_query::Prepared;

/// Whether two startups are equal, where the query has a window; where it has none, they are not compared.
fn start_alike(q: &Prepared, a: u64, b: u64) -> bool
    ensures yes { result ≡ true → IsStartup q.now.window a b }
    ensures no { result ≡ false → (w : Asked) × (q.now.window ≡ Some w) × (a ≢ b) }
{
    match q.window {
        None => true,
        Some(_) => a == b,
    }
}

/// The first number of an entry that is not its plan's, with what the entry has and what it is: the startup, where the
/// query has a window, then the total, then the rows. None exactly where each is.
fn difference(q: &Prepared, e: &Entry, own: Own) -> Option<(Number, u64, u64)>
    ensures some { IfSome result (λ d. DiffersBy q.now e.now own d.0 d.1 d.2) }
    ensures none { IfNone result (SaysNumbers q.now e.now own) }
{
    if !start_alike(q, e.startup, own.startup) {
        return Some((Number::Startup, e.startup, own.startup));
    }
    if e.cost != own.cost {
        return Some((Number::Total, e.cost, own.cost));
    }
    if e.rows != own.rows {
        return Some((Number::Rows, e.rows, own.rows));
    }
    None
}

/// The fault of the entry at place `n`, from 0, where those before it are right: it is none of the plan space or not as it
/// says, else the first number that is not its own, with what the entry has and what it is. None exactly where it is right.
/// It takes no memory.
pub fn judge_entry(cat: &Catalog, q: &Prepared, t: &Certificate, n: usize) -> Option<Reason>
    requires query { IsOverTables cat.now q.now }
    requires within { n < length (certificate t.now).entries }
    requires before { AreRight cat.now q.now (certificate t.now) n }
    ensures fault { IfSome result (λ r. IsFaultOf cat.now q.now (certificate t.now) n r) }
    ensures right { IfNone result (AreRight cat.now q.now (certificate t.now) (n + 1)) }
{
    let e = &t.entries.items()[n];
    let number = n as u32 + 1;
    match own_at(cat, q, t, n, e) {
        Some(own) => match difference(q, e, own) {
            Some(found) => Some(Reason::BadNumber {
                entry: number,
                what: found.0,
                printed: found.1,
                own: found.2,
            }),
            None => None,
        },
        None => Some(Reason::BadNode { entry: number }),
    }
}

/// The fault of the first entry that is not right, by rising number. None exactly where each entry is right. It takes no
/// memory.
pub fn judge_entries(cat: &Catalog, q: &Prepared, t: &Certificate) -> Option<Reason>
    requires query { IsOverTables cat.now q.now }
    ensures { JudgesEntries cat.now q.now t.now result }
{
    for n in 0..t.entries.items().len() {
        if let Some(reason) = judge_entry(cat, q, t, n) {
            return Some(reason);
        }
    }
    None
}
