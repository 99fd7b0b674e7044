//! The least plan that groups.

ghost use Rattle.std.specs.Prelude.{◌≡◌, ◌<◌, ℕ, true, IfSome};
ghost use Rattle.cost_rules.specs.declared.parameters.TheConstants.{MOST_COST};
ghost use Rattle.group_values.specs.declared.form.Form.{Form as AnyForm};
ghost use Rattle.group_values.specs.work.Choice.{HasAtMost, IsNoLess, IsPlanOver, candidate, input_of, lesser};
ghost use Rattle.group_values.specs.work.GroupCosts.{IsTask, group_total, is_offered};

use crate::Form;
use crate::costs::{group_total, groups, sorts_after};
use crate::task::{GroupPlan, GroupTask};
use cost_rules::MOST_COST;

/// The least plan that groups: sorted over a plan that is sorted by the group keys, or hashed over any plan. Of each of these
/// inputs the least total is given, none where no such plan is below 10^18. None where no plan that groups is below 10^18.
pub fn choose(task: &GroupTask, plain: Option<u64>, sorted: Option<u64>) -> Option<GroupPlan>
    requires { IsTask task.now }
    ensures is { IfSome result (IsPlanOver task.now plain sorted) }
    ensures least { (form : AnyForm) (input : ℕ) → IsNoLess (input_of form plain sorted) input → is_offered form task.now ≡ true → group_total form task.now input < MOST_COST →
        HasAtMost result (group_total form task.now input) }
{
    let by_order = candidate(Form::Sorted, task, sorted);
    let by_hash = candidate(Form::Hashed, task, plain);
    lesser(by_order, by_hash)
}

/// The plan of a form over an input of this total, where there is one and it is below 10^18.
fn candidate(form: Form, task: &GroupTask, input: Option<u64>) -> Option<GroupPlan>
    requires { IsTask task.now }
    ensures { result ≡ candidate form task.now input }
{
    let input = input?;
    if !is_offered(form, task) {
        return None;
    }
    let cost = group_total(form, task, input);
    if cost >= MOST_COST {
        return None;
    }
    Some(GroupPlan {
        form,
        sort_after: sorts_after(form, task),
        cost,
        rows: groups(task),
    })
}

/// Whether a form is offered: only with group keys is there something to hash.
fn is_offered(form: Form, task: &GroupTask) -> bool
    ensures { result ≡ is_offered form task.now }
{
    match form {
        Form::Sorted => true,
        Form::Hashed => !task.distinct.is_empty(),
    }
}

/// The one of two plans that costs less, the former where they cost the same.
fn lesser(a: Option<GroupPlan>, b: Option<GroupPlan>) -> Option<GroupPlan>
    ensures { result ≡ lesser a b }
{
    match a {
        None => b,
        Some(p) => match b {
            None => Some(p),
            Some(q) => Some(if q.cost < p.cost { q } else { p }),
        },
    }
}
