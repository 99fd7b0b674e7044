//! The reply to a query, written to out.

ghost use Rattle.std.specs.Prelude.{◌≡◌, ◌+◌, ◌≤◌, ◌++◌, All, IfErr, OnErr, OnOk};
ghost use Rattle.std.specs.Io.KnownBytes.{Appends};
ghost use Rattle.pg_base.specs.Writing.{AppendsPrefix};
ghost use Rattle.sql_query.specs.WellBound.{IsWellBound};
ghost use Rattle.sql_query.specs.Worlds.{world};
ghost use Rattle.executor.specs.store_work_Kept.{IsStoreOf};
ghost use Rattle.plan_tree.specs.Least.{IsBestPlan, HasNoPlan};
ghost use Rattle.plan_tree.specs.work.Paths.{IsFinishedPath};
ghost use Rattle.plan_tree.specs.work.Views.{path};
ghost use Rattle.reply.specs.work.Drawing.{Draws, drawn_behind};
ghost use Rattle.reply.specs.Effort.{HasRisen, limit_in, offset_in};
ghost use Rattle.reply.specs.Putting.{HasWriteCause};
ghost use Rattle.reply.specs.Replies.{HasBegun, HasReplied, IsAnswerTo, IsExplanationOf, traces};
ghost use Rattle.reply.specs.work.Replies.{HasBegunPrinting, HasPrinted, Leaves, LeavesPrinted};
ghost use Rattle.reply.specs.work.Settings.{IsSetting, result_shown, window_fetches, window_looks, world_of};
ghost use Rattle.executor.specs.work.Numbers.{IsTupleOf};

use crate::best::best_path;
use crate::pending::{Page, flush, put};
use crate::rows::put_window;
use crate::setting::Setting;
use crate::shown::shown_text;
use crate::stop::{Broken, Stop};
use catalog::Catalog;
use executor::plan_laws::{finished_plans_are_ordered, plans_give_their_tuples};
use executor::store::Store;
use executor::{Rows, tuples_have_rows};
use heap::Counters;
use pg_base::{Sink, Steps};
use plan_tree::Path;
use reply_text::count_line;
use sql_query::Prepared;
use std::alloc::Global;

/// Prints the answer to a query: the text of a plan that no admissible one undercuts in price, a line for each row
/// that the plan gives, in its order, which is that of ORDER BY, and the number of these rows. They are the query's meaning,
/// each as often. Where the query has a window, the line of LIMIT and OFFSET comes first, and of these rows those behind the
/// offset are printed, up to the limit; no tuple is drawn behind the last one.
///
/// The plan that is printed is the one that is run; each row is written, or held to be, before the next one is drawn. Rows are
/// fetched as often as the plan fetches them, and entries and rows already found looked at as often as it does at most, with 32
/// more looks for each printed row. Under LIMIT one scan fetches the rows up to and with that of the last tuple drawn; any
/// plan fetches all of its rows where it gives fewer tuples, none where no tuple is asked for, and else no more than all.
///
/// At `Write` and `Memory` out has a prefix of that, or is as before; at `Write` its count of faults rose. `NoPlan` comes only
/// where each finished plan costs 10^18 or more, and changes nothing.
pub fn answer<C: Counters, K: Sink>(
    alloc: Global,
    cat: &Catalog,
    q: &Prepared,
    store: &Store<C>,
    out: &mut K,
    fetches: &mut Steps<C::Fetches>,
    reads: &mut Steps<C::Looks>,
) -> Result<(), Stop>
    requires bound { IsWellBound cat.now q.now }
    requires store { IsStoreOf cat.now store.now }
    ensures answered { OnOk result (HasReplied (IsAnswerTo (world cat.now store.now.stored) q.now)
        (traces (K.held out.old) fetches.old reads.old)
        (traces (K.held out.new) fetches.new reads.new)) }
    ensures stopped { IfErr result (λ stop.
        Leaves stop (IsAnswerTo (world cat.now store.now.stored) q.now)
        (traces (K.held out.old) fetches.old reads.old)
        (traces (K.held out.new) fetches.new reads.new)) }
    ensures no_plan { IfErr result (λ stop. stop ≡ Stop.NoPlan → HasNoPlan cat.now q.now) }
    ensures cause { HasWriteCause Stop.Write (K.faults out.old) (K.faults out.new) result }
{
    let best = best_path(alloc, cat, q)?;
    let at = Setting {
        alloc,
        cat,
        q,
        store,
    };
    answer_by(&at, &best, out, fetches, reads)?;
    Ok(())
}

/// Prints the text of a plan of a query that no admissible one undercuts in price, where the query has a window under the line
/// of LIMIT and OFFSET. No row is read. At `Write` and `Memory` out has a prefix of that, or is as before; at `Write` its
/// count of faults rose. `NoPlan` comes only where each finished plan costs 10^18 or more, and changes nothing.
pub fn explain_query<K: Sink>(
    alloc: Global,
    cat: &Catalog,
    q: &Prepared,
    out: &mut K,
) -> Result<(), Stop>
    requires bound { IsWellBound cat.now q.now }
    ensures explained { OnOk result
        (HasPrinted (IsExplanationOf cat.now q.now) (K.held out.old) (K.held out.new)) }
    ensures stopped { IfErr result (λ stop.
        LeavesPrinted stop (IsExplanationOf cat.now q.now) (K.held out.old) (K.held out.new)) }
    ensures no_plan { IfErr result (λ stop. stop ≡ Stop.NoPlan → HasNoPlan cat.now q.now) }
    ensures cause { HasWriteCause Stop.Write (K.faults out.old) (K.faults out.new) result }
{
    let best = best_path(alloc, cat, q)?;
    explain_by(alloc, cat, q, &best, out)?;
    Ok(())
}

/// Prints the answer to a query by a best plan.
fn answer_by<C: Counters, K: Sink>(
    at: &Setting<C>,
    best: &Path,
    out: &mut K,
    fetches: &mut Steps<C::Fetches>,
    reads: &mut Steps<C::Looks>,
) -> Result<(), Broken>
    requires setting { IsSetting at.now }
    requires finished { IsFinishedPath at.now.cat.now at.now.q.now (path best.now) }
    requires best { IsBestPlan at.now.cat.now at.now.q.now (path best.now).tree }
    ensures ok { OnOk result (HasReplied (IsAnswerTo (world_of at.now) at.now.q.now)
        (traces (K.held out.old) fetches.old reads.old)
        (traces (K.held out.new) fetches.new reads.new)) }
    ensures err { OnErr result (HasBegun (IsAnswerTo (world_of at.now) at.now.q.now)
        (traces (K.held out.old) fetches.old reads.old)
        (traces (K.held out.new) fetches.new reads.new)) }
    ensures cause { HasWriteCause Broken.Write (K.faults out.old) (K.faults out.new) result }
{
    plans_give_their_tuples();
    finished_plans_are_ordered();
    tuples_have_rows();
    let text = shown_text(at.alloc, at.cat, at.q, best)?;
    let mut rows = Rows::start(at.alloc, at.cat, at.q, &best.plan, at.store)?;
    put_result(at, &text, &mut rows, out, fetches, reads)
}

/// Prints a text, a line for each tuple that is to be drawn and that LIMIT and OFFSET let through, with the values that it
/// shows, and the number of these. Each line is written, or held to be, before the next tuple is drawn, and none is drawn
/// behind the last one. Where out fails, or memory is wanted, out has a prefix of that.
pub fn put_result<C: Counters, K: Sink>(
    at: &Setting<C>,
    text: &[u8],
    rows: &mut Rows<C>,
    out: &mut K,
    fetches: &mut Steps<C::Fetches>,
    reads: &mut Steps<C::Looks>,
) -> Result<(), Broken>
    requires setting { IsSetting at.now }
    requires tuples { All (IsTupleOf (world_of at.now) at.now.q.now) rows.old.left }
    ensures ok { OnOk result (Appends (K.held out.old) (K.held out.new)
        (text.now ++ result_shown at.now rows.old.left)) }
    ensures err { OnErr result (AppendsPrefix (K.held out.old) (K.held out.new)
        (text.now ++ result_shown at.now rows.old.left)) }
    ensures cause { HasWriteCause Broken.Write (K.faults out.old) (K.faults out.new) result }
    ensures drawn { let window = at.now.q.now.window in OnOk result
        (Draws (drawn_behind (offset_in window) (limit_in window) rows.old.left)
        rows.old rows.new fetches.old fetches.new) }
    ensures fetches { OnOk result
        (HasRisen (window_fetches at.now rows.old) fetches.old fetches.new) }
    ensures fewer { fetches.new ≤ fetches.old + (window_fetches at.now rows.old).most }
    ensures reads { reads.new ≤ reads.old + window_looks at.now rows.old }
{
    let mut page = Page::new(at, text)?;
    let count = put_window(at, rows, out, &mut page, fetches, reads)?;
    let line = count_line(at.alloc, count)?;
    put(out, &mut page.pending, &line)?;
    flush(out, &page.pending)
}

/// Prints the text of a best plan of a query.
fn explain_by<K: Sink>(
    alloc: Global,
    cat: &Catalog,
    q: &Prepared,
    best: &Path,
    out: &mut K,
) -> Result<(), Broken>
    requires bound { IsWellBound cat.now q.now }
    requires finished { IsFinishedPath cat.now q.now (path best.now) }
    requires best { IsBestPlan cat.now q.now (path best.now).tree }
    ensures ok { OnOk result
        (HasPrinted (IsExplanationOf cat.now q.now) (K.held out.old) (K.held out.new)) }
    ensures err { OnErr result
        (HasBegunPrinting (IsExplanationOf cat.now q.now) (K.held out.old) (K.held out.new)) }
    ensures cause { HasWriteCause Broken.Write (K.faults out.old) (K.faults out.new) result }
{
    let text = shown_text(alloc, cat, q, best)?;
    flush(out, &text)
}
