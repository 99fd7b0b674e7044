//! The least plan that groups.

ghost use Rattle.std.specs.Prelude.{◌≡◌, option_map};
ghost use Rattle.catalog.specs.Contents.{Contents};
ghost use Rattle.plan_tree.specs.work.Views.{path};
ghost use Rattle.group_values.specs.work.GroupCosts.{IsTask};
ghost use Rattle.group_explain.specs.GroupPlans.{GroupQuery};
ghost use Rattle.group_explain.specs.work.GroupPlans.{AreInputs, IsLeastGroupPlan};

use group_values::{GroupPlan, GroupTask, choose};
use plan_tree::Path;

/// The least of all plans that group the tuples of a query, by the least plan of its relations in no order and the least one in
/// the order of the group keys, each none where no such plan costs less than 10^18. None where no plan that groups does.
pub fn choose_plan(
    task: &GroupTask,
    plain: Option<&Path>,
    sorted: Option<&Path>,
) -> Option<GroupPlan>
    requires { IsTask task.now }
    ensures { (c : Contents) (g : GroupQuery) →
        AreInputs c g task.now (option_map (λ p. path p.now) plain.entry)
        (option_map (λ p. path p.now) sorted.entry) →
        IsLeastGroupPlan c g task.now result }
{
    choose(task, total_of(plain), total_of(sorted))
}

/// What a plan costs in all, where there is one.
fn total_of(path: Option<&Path>) -> Option<u64>
    ensures { result ≡ option_map (λ p. p.now.cost) path.entry }
{
    match path {
        Some(path) => Some(path.cost),
        None => None,
    }
}
