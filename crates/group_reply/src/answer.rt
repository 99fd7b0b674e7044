//! The reply to a SELECT that groups.

ghost use Rattle.std.specs.Prelude.{◌≡◌, ◌≢◌, IfErr, OnErr, OnOk};
ghost use Rattle.sql_query.specs.Grouped.{GroupedQuery};
ghost use Rattle.sql_query.specs.Worlds.{world};
ghost use Rattle.plan_tree.specs.work.Views.{path};
ghost use Rattle.store.specs.work.Kept.{IsStoreOf};
ghost use Rattle.group_explain.specs.reply_Putting.{HasWriteCause};
ghost use Rattle.group_explain.specs.reply_Replies.{HasBegun, HasReplied, Reply, traces};
ghost use Rattle.group_explain.specs.reply_work_Replies.{Leaves};
ghost use Rattle.group_explain.specs.reply_Settings.{IsSetting, world_of};
ghost use Rattle.group_query.specs.Grouping.{IsWellGrouped};
ghost use Rattle.group_explain.specs.Plans.{HasNoGroupPlan, IsGroupedExplanationOf};
ghost use Rattle.group_explain.specs.work.Plans.{IsOverInput, IsReady};
ghost use Rattle.group_reply.specs.work.Drawing.{IsInputFor, chosen_reply};
ghost use Rattle.group_reply.specs.Replies.{IsGroupedAnswerTo};

use crate::drawing::draw_lines;
use crate::lines::put_answer;
use catalog::Catalog;
use executor::plan_laws::values_fit_their_types;
use executor::{Rows, tuples_have_rows};
use group_explain::reply::{Broken, Setting, Stop};
use group_explain::{Chosen, choose_groups, group_text};
use heap::Counters;
use pg_base::{Sink, Steps};
use sql_query::Grouped;
use std::alloc::Global;
use store::Store;

/// Prints the answer to a grouped SELECT: the text of a plan that groups, which no admissible one undercuts in price, a line
/// for each group of the tuples that its input gives, and the number of these lines. They are as a bag one line for each group
/// of the query's meaning, and stand in ORDER BY.
///
/// The plan that is printed is the one that is run. Rows are fetched as often as the input fetches them, and entries and rows
/// already found looked at as often as it does at most, with 32 more looks for each of its tuples.
///
/// At `Write` and `Memory` out has a prefix of that, or is as before; at `Write` its count of faults rose. `NoPlan` comes only
/// where each plan that groups costs 10^18 or more, and changes nothing.
pub fn answer_groups<C: Counters, K: Sink>(
    alloc: Global,
    cat: &Catalog,
    mut g: Grouped,
    store: &Store<C>,
    out: &mut K,
    fetches: &mut Steps<C::Fetches>,
    reads: &mut Steps<C::Looks>,
) -> Result<(), Stop>
    requires bound { IsWellGrouped cat.now g }
    requires store { IsStoreOf cat.now store.now }
    ensures answered { OnOk result
        (HasReplied (IsGroupedAnswerTo (world cat.now store.now.stored) g)
        (traces (K.held out.old) fetches.old reads.old)
        (traces (K.held out.new) fetches.new reads.new)) }
    ensures stopped { IfErr result (λ stop.
        Leaves stop (IsGroupedAnswerTo (world cat.now store.now.stored) g)
        (traces (K.held out.old) fetches.old reads.old)
        (traces (K.held out.new) fetches.new reads.new)) }
    ensures no_plan { IfErr result (λ stop. stop ≡ Stop.NoPlan → HasNoGroupPlan cat.now g) }
    ensures cause { HasWriteCause Stop.Write (K.faults out.old) (K.faults out.new) result }
{
    let chosen = choose_groups(alloc, cat, &mut g)?;
    let at = Setting {
        alloc,
        cat,
        q: &g.base,
        store,
    };
    answer_by(&at, &g, &chosen, out, fetches, reads)?;
    Ok(())
}

/// Whether a grouped SELECT has an answer, and its EXPLAIN one. Nothing is read or printed. `NoPlan` comes only where each
/// plan that groups costs 10^18 or more; the other error is out of memory.
pub fn plan_groups<C: Counters>(
    alloc: Global,
    cat: &Catalog,
    mut g: Grouped,
    store: &Store<C>,
) -> Result<(), Stop>
    requires bound { IsWellGrouped cat.now g }
    requires store { IsStoreOf cat.now store.now }
    ensures answer { OnOk result
        ((r : Reply) × IsGroupedAnswerTo (world cat.now store.now.stored) g r) }
    ensures explanation { OnOk result ((r : Reply) × IsGroupedExplanationOf cat.now g r) }
    ensures no_plan { IfErr result (λ stop. stop ≡ Stop.NoPlan → HasNoGroupPlan cat.now g) }
    ensures unwritten { IfErr result (λ stop. stop ≢ Stop.Write) }
{
    choose_groups(alloc, cat, &mut g)?;
    Ok(())
}

/// Prints the text of a plan that groups, and what it gives.
fn answer_by<C: Counters, K: Sink>(
    at: &Setting<C>,
    g: &Grouped,
    chosen: &Chosen,
    out: &mut K,
    fetches: &mut Steps<C::Fetches>,
    reads: &mut Steps<C::Looks>,
) -> Result<(), Broken>
    requires setting { IsSetting at.now }
    requires ready { IsReady at.now.cat.now g.now chosen.now }
    requires input { IsInputFor (world_of at.now) at.now.q.now g.now
        chosen.now.plan.form (path chosen.now.input).tree }
    ensures ok { (asked : GroupedQuery) → IsOverInput chosen.now.plan.form asked g.now → OnOk result
        (HasReplied (λ r. r ≡ chosen_reply (world_of at.now) at.now.q.now asked chosen.now)
        (traces (K.held out.old) fetches.old reads.old)
        (traces (K.held out.new) fetches.new reads.new)) }
    ensures err { (asked : GroupedQuery) → IsOverInput chosen.now.plan.form asked g.now →
        OnErr result
        (HasBegun (λ r. r ≡ chosen_reply (world_of at.now) at.now.q.now asked chosen.now)
        (traces (K.held out.old) fetches.old reads.old)
        (traces (K.held out.new) fetches.new reads.new)) }
    ensures cause { HasWriteCause Broken.Write (K.faults out.old) (K.faults out.new) result }
{
    tuples_have_rows();
    values_fit_their_types();
    let text = group_text(at.alloc, at.cat, g, chosen)?;
    let mut rows = Rows::start(at.alloc, at.cat, at.q, &chosen.input.plan, at.store)?;
    let lines = draw_lines(at, g, chosen.plan, &mut rows, fetches, reads)?;
    put_answer(at, g, &text, lines.items(), out)
}
