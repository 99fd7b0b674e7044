//! The reply, written to out.

ghost use Rattle.std.specs.Prelude.{◌≡◌, None, OnErr, OnOk};
ghost use Rattle.plan_reply.specs.Told.{IsGoodPlan, IsPlanReplyTo};
ghost use Rattle.plan_reply.specs.work.Told.{IsTold};
ghost use Rattle.plan_tree.specs.work.Views.{plan};
ghost use Rattle.reply.specs.Putting.{HasWriteCause};
ghost use Rattle.reply.specs.Replies.{HasBegun, HasReplied, traces};
ghost use Rattle.reply.specs.work.Settings.{IsSetting, world_of};

use crate::told::Told;
use executor::{Rows, tuples_have_rows};
use heap::Counters;
use pg_base::{Sink, Steps};
use plan_tree::Plan;
use reply::{Broken, Setting, flush, put_result};

/// Prints a block that is the text of a good plan, and that plan's rows.
fn answer_by<C: Counters, K: Sink>(
    at: &Setting<C>,
    p: &Plan,
    block: &[u8],
    out: &mut K,
    fetches: &mut Steps<C::Fetches>,
    reads: &mut Steps<C::Looks>,
) -> Result<(), Broken>
    requires setting { IsSetting at.now }
    requires good { IsGoodPlan at.now.cat.now at.now.q.now block.now (plan p.now) }
    requires whole { at.now.q.now.window ≡ None }
    ensures ok { OnOk result (HasReplied (IsPlanReplyTo (world_of at.now) at.now.q.now block.now)
        (traces (K.held out.old) fetches.old reads.old)
        (traces (K.held out.new) fetches.new reads.new)) }
    ensures err { OnErr result (HasBegun (IsPlanReplyTo (world_of at.now) at.now.q.now block.now)
        (traces (K.held out.old) fetches.old reads.old)
        (traces (K.held out.new) fetches.new reads.new)) }
    ensures cause { HasWriteCause Broken.Write (K.faults out.old) (K.faults out.new) result }
{
    tuples_have_rows();
    let mut rows = Rows::start(at.alloc, at.cat, at.q, p, at.store)?;
    put_result(at, block, &mut rows, out, fetches, reads)
}

/// Prints the answer to a block: of a good plan the block, a line for each row that the plan gives, in its order, and the
/// number of these rows; else the line alone. The rows are the query's meaning, each as often, in its ORDER BY. The plan is the
/// one that is run, and each row is written, or held to be, before the next one is drawn. Rows are fetched as often as the plan
/// fetches them, and entries and rows already found looked at as often as it does at most, with 32 more looks for each row; for
/// a line alone nothing is fetched and nothing looked at. The conditions are a query without LIMIT and OFFSET that is bound to
/// the catalogue of the store, and what `judge_text` gave for this block and query. At an error out has a prefix of that, or is
/// as before; at `Write` its count of faults rose.
pub fn answer_told<C: Counters, K: Sink>(
    at: &Setting<C>,
    told: &Told,
    block: &[u8],
    out: &mut K,
    fetches: &mut Steps<C::Fetches>,
    reads: &mut Steps<C::Looks>,
) -> Result<(), Broken>
    requires setting { IsSetting at.now }
    requires told { IsTold at.now.cat.now at.now.q.now block.now told.now }
    requires whole { at.now.q.now.window ≡ None }
    ensures ok { OnOk result (HasReplied (IsPlanReplyTo (world_of at.now) at.now.q.now block.now)
        (traces (K.held out.old) fetches.old reads.old)
        (traces (K.held out.new) fetches.new reads.new)) }
    ensures err { OnErr result (HasBegun (IsPlanReplyTo (world_of at.now) at.now.q.now block.now)
        (traces (K.held out.old) fetches.old reads.old)
        (traces (K.held out.new) fetches.new reads.new)) }
    ensures cause { HasWriteCause Broken.Write (K.faults out.old) (K.faults out.new) result }
{
    match told {
        Told::Line(line) => flush(out, line),
        Told::Plan(p) => answer_by(at, p, block, out, fetches, reads),
    }
}
