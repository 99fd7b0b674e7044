//! The plan that is chosen for a grouped query.

use group_values::{GroupPlan, GroupTask};
use plan_tree::Path;

/// A plan that groups, by which a grouped query is answered.
pub struct Chosen {
    /// What its cost goes by.
    pub task: GroupTask,
    /// How it groups, with its cost in all and its groups.
    pub plan: GroupPlan,
    /// The path of the plan whose tuples it groups.
    pub input: Path,
}

impl Drop for Chosen {
    fn drop(self) {
        let Chosen {
            task: _,
            plan: _,
            input: _,
        } = self;
    }
}
