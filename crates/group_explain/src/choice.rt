//! The choice of a plan for a grouped query.

ghost use Rattle.std.specs.Prelude.{◌≡◌, ◌≢◌, IfErr, IfOk, None, Some, option_map};
ghost use Rattle.catalog.specs.Contents.{Contents};
ghost use Rattle.sql_query.specs.Queries.{in_order_of};
ghost use Rattle.sql_query.specs.WellBound.{IsWellBound};
ghost use Rattle.plan_tree.specs.work.Views.{path};
ghost use Rattle.group_values.specs.declared.form.Form.TheVariants.{Sorted as SortedForm};
ghost use Rattle.group_values.specs.work.Choice.{input_of};
ghost use Rattle.group_values.specs.work.GroupCosts.{IsTask};
ghost use Rattle.group_explain.specs.GroupPlans.{GroupQuery};
ghost use Rattle.group_explain.specs.work.GroupPlans.{AreInputs, IsBestOf, IsLeastGroupPlan};
ghost use Rattle.group_query.specs.Grouping as grouping;
ghost use Rattle.group_query.specs.Grouping.{IsWellGrouped};
ghost use Rattle.group_explain.specs.Plans.{HasNoGroupPlan};
ghost use Rattle.group_explain.specs.work.Plans.{IsChosen, IsReady, input_base, over_base};

use crate::choose_plan;
use crate::chosen::Chosen;
use crate::keys::group_order;
use crate::task::task_of;
use catalog::Catalog;
use group_values::{Form, GroupPlan, GroupTask};
use pg_base::Memory;
use plan_tree::Path;
use reply::Stop;
use reply::planner::{PlanFault, plan};
use sql_query::{Grouped, OrderList, Prepared};
use std::alloc::{AllocError, Global};

/// The best plan of a query, none where no finished one costs less than 10^18. The error means out of memory.
fn best_plan(alloc: Global, cat: &Catalog, q: &Prepared) -> Result<Option<Path>, Memory>
    requires bound { IsWellBound cat.now q.now }
    ensures { IfOk result (λ found. IsBestOf cat.now q.now (option_map path found)) }
{
    match plan(alloc, cat, q) {
        Ok(planned) => Ok(Some(planned.best)),
        Err(PlanFault::CostLimit) => Ok(None),
        Err(PlanFault::Memory) => Err(AllocError),
    }
}

/// Has the tuples of a query asked for in another order.
fn put_order(q: &mut Prepared, order: OrderList)
    ensures { q.new ≡ in_order_of q.old order }
{
    q.order = order;
}

/// Has the tuples of a grouped query asked for in the order of the GROUP BY columns. The error means out of memory.
fn ask_by_groups(alloc: Global, g: &mut Grouped) -> Result<(), Memory>
    ensures { IfOk result (λ _. g.new ≡ over_base (input_base SortedForm g.old) g.old) }
{
    let order = group_order(alloc, g)?;
    put_order(&mut g.base, order);
    Ok(())
}

/// Has them asked for as a form does, where they are asked for in the order of the GROUP BY columns.
fn ask_for(alloc: Global, form: Form, g: &mut Grouped)
    requires { g.old.base.order ≡ grouping.group_items g.old.base.classes g.old.keys }
    ensures { g.new ≡ over_base (input_base form g.old) g.old }
{
    match form {
        Form::Sorted => {}
        Form::Hashed => put_order(&mut g.base, OrderList::from_vec(Vec::new(alloc))),
    }
}

/// A plan that groups, with its input.
fn over_one(task: GroupTask, plan: GroupPlan, input: Option<Path>) -> Chosen
    requires input { option_map path input ≢ None }
    ensures task { result.task ≡ task }
    ensures plan { result.plan ≡ plan }
    ensures input { option_map path input ≡ Some (path result.input) }
{
    match input {
        Some(input) => Chosen { task, plan, input },
        None => unreachable!(),
    }
}

/// A plan that groups, with its input of two.
fn over_input(task: GroupTask, plan: GroupPlan, plain: Option<Path>, sorted: Option<Path>) -> Chosen
    requires input { input_of plan.form (option_map path plain) (option_map path sorted) ≢ None }
    ensures task { result.task ≡ task }
    ensures plan { result.plan ≡ plan }
    ensures input { input_of plan.form (option_map path plain) (option_map path sorted) ≡
        Some (path result.input) }
{
    match plan.form {
        Form::Sorted => over_one(task, plan, sorted),
        Form::Hashed => over_one(task, plan, plain),
    }
}

/// The least plan that groups over two best plans.
fn least_plan(task: &GroupTask, plain: &Option<Path>, sorted: &Option<Path>) -> Option<GroupPlan>
    requires { IsTask task.now }
    ensures { (c : Contents) (g : GroupQuery) →
        AreInputs c g task.now (option_map path plain.now) (option_map path sorted.now) →
        IsLeastGroupPlan c g task.now result }
{
    choose_plan(task, plain.as_ref(), sorted.as_ref())
}

/// A plan that groups which no plan that groups undercuts: sorted groups over the least plan in the order of the GROUP BY
/// columns, or hashed ones over the least plan in no order. The base is left in the order that the chosen input is asked in,
/// and nothing else of the query is changed. `NoPlan` comes only where each plan that groups costs 10^18 or more; the other
/// error is out of memory.
pub fn choose_groups(alloc: Global, cat: &Catalog, g: &mut Grouped) -> Result<Chosen, Stop>
    requires bound { IsWellGrouped cat.now g.old }
    ensures chosen { IfOk result (IsChosen cat.now g.old) }
    ensures base { IfOk result (λ x. g.new ≡ over_base (input_base x.plan.form g.old) g.old) }
    ensures ready { IfOk result (IsReady cat.now g.new) }
    ensures no_plan { IfErr result (λ stop. stop ≡ Stop.NoPlan → HasNoGroupPlan cat.now g.old) }
    ensures unwritten { IfErr result (λ stop. stop ≢ Stop.Write) }
{
    let task = task_of(alloc, cat, g)?;
    let plain = best_plan(alloc, cat, &g.base)?;
    ask_by_groups(alloc, g)?;
    let sorted = best_plan(alloc, cat, &g.base)?;
    match least_plan(&task, &plain, &sorted) {
        Some(plan) => {
            ask_for(alloc, plan.form, g);
            Ok(over_input(task, plan, plain, sorted))
        }
        None => Err(Stop::NoPlan),
    }
}
