//! EXPLAIN of a grouped query.

ghost use Rattle.std.specs.Prelude.{◌≡◌, IfErr, OnErr, OnOk};
ghost use Rattle.sql_query.specs.Grouped.{GroupedQuery};
ghost use Rattle.group_query.specs.Grouping.{IsWellGrouped};
ghost use Rattle.reply.specs.Putting.{HasWriteCause};
ghost use Rattle.reply.specs.work.Replies.{HasBegunPrinting, HasPrinted, LeavesPrinted};
ghost use Rattle.group_explain.specs.Plans.{HasNoGroupPlan, IsGroupedExplanationOf};
ghost use Rattle.group_explain.specs.work.Plans.{IsChosen, IsOverInput, IsReady};

use crate::choice::choose_groups;
use crate::chosen::Chosen;
use crate::text::group_text;
use catalog::Catalog;
use pg_base::Sink;
use reply::{Broken, Stop, flush};
use sql_query::Grouped;
use std::alloc::Global;

/// Prints the text of the plan chosen for a grouped query.
fn explain_by<K: Sink>(
    alloc: Global,
    cat: &Catalog,
    g: &Grouped,
    x: &Chosen,
    out: &mut K,
) -> Result<(), Broken>
    requires ready { IsReady cat.now g.now x.now }
    ensures ok { (first : GroupedQuery) → IsChosen cat.now first x.now →
        IsOverInput x.now.plan.form first g.now → OnOk result
        (HasPrinted (IsGroupedExplanationOf cat.now first)
        (K.held out.old) (K.held out.new)) }
    ensures err { (first : GroupedQuery) → IsChosen cat.now first x.now →
        IsOverInput x.now.plan.form first g.now → OnErr result
        (HasBegunPrinting (IsGroupedExplanationOf cat.now first)
        (K.held out.old) (K.held out.new)) }
    ensures cause { HasWriteCause Broken.Write (K.faults out.old) (K.faults out.new) result }
{
    let text = group_text(alloc, cat, g, x)?;
    flush(out, &text)
}

/// Prints the text of the plan chosen for a grouped query that is lent, as `explain_groups` does.
fn explain_lent<K: Sink>(
    alloc: Global,
    cat: &Catalog,
    g: &mut Grouped,
    out: &mut K,
) -> Result<(), Stop>
    requires bound { IsWellGrouped cat.now g.old }
    ensures explained { OnOk result
        (HasPrinted (IsGroupedExplanationOf cat.now g.old) (K.held out.old) (K.held out.new)) }
    ensures stopped { IfErr result (λ stop.
        LeavesPrinted stop (IsGroupedExplanationOf cat.now g.old)
        (K.held out.old) (K.held out.new)) }
    ensures no_plan { IfErr result (λ stop. stop ≡ Stop.NoPlan → HasNoGroupPlan cat.now g.old) }
    ensures cause { HasWriteCause Stop.Write (K.faults out.old) (K.faults out.new) result }
{
    let x = choose_groups(alloc, cat, g)?;
    explain_by(alloc, cat, g, &x, out)?;
    Ok(())
}

/// Prints the text of a plan that groups, which no plan that groups undercuts. No row is read. At `Write` and `Memory` out has
/// a prefix of that, or is as before; at `Write` its count of faults rose. `NoPlan` comes only where each plan that groups
/// costs 10^18 or more, and changes nothing.
pub fn explain_groups<K: Sink>(
    alloc: Global,
    cat: &Catalog,
    g: Grouped,
    out: &mut K,
) -> Result<(), Stop>
    requires bound { IsWellGrouped cat.now g }
    ensures explained { OnOk result
        (HasPrinted (IsGroupedExplanationOf cat.now g) (K.held out.old) (K.held out.new)) }
    ensures stopped { IfErr result (λ stop.
        LeavesPrinted stop (IsGroupedExplanationOf cat.now g) (K.held out.old) (K.held out.new)) }
    ensures no_plan { IfErr result (λ stop. stop ≡ Stop.NoPlan → HasNoGroupPlan cat.now g) }
    ensures cause { HasWriteCause Stop.Write (K.faults out.old) (K.faults out.new) result }
{
    let mut g = g;
    explain_lent(alloc, cat, &mut g, out)
}
