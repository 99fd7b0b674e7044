//! Plans with the numbers by which they are compared (PostgreSQL, src/backend/optimizer/util/pathnode.c, add_path).

ghost use Rattle.std.specs.Prelude.{◌≡◌, IfOk};
ghost use Rattle.plan_tree.specs.work.Views.{path};

use crate::plan::Plan;
use pareto::Ranked;
use pathkeys::{Keys, covers};
use pg_base::{Memory, RelSet};
use std::alloc::Global;

/// A plan with what it is compared by. It is a path of a catalogue and a query where its plan is of the query's plan
/// space for its set and parameterisation and each number and the keys are the plan's.
pub struct Path {
    /// The plan.
    pub plan: Plan,
    /// The relations that it reads.
    pub set: RelSet,
    /// The other relations whose rows it is given.
    pub param: RelSet,
    /// What it costs before its first row, where the query has a window; else 0.
    pub startup: u64,
    /// What it costs in all.
    pub cost: u64,
    /// How many rows it is taken to give.
    pub rows: u64,
    /// The classes by which its rows are sorted.
    pub keys: Keys,
}

impl Drop for Path {
    fn drop(self) {
        let Path {
            plan: _,
            set: _,
            param: _,
            startup: _,
            cost: _,
            rows: _,
            keys: _,
        } = self;
    }
}

impl Path {
    /// The path's plan, itself.
    pub fn into_plan(self) -> Plan
        ensures { result ≡ self.plan }
    {
        let Path {
            plan,
            set: _,
            param: _,
            startup: _,
            cost: _,
            rows: _,
            keys: _,
        } = self;
        plan
    }

    /// A path of the same plan, numbers and keys. The error means out of memory.
    pub fn copy(&self, alloc: Global) -> Result<Path, Memory>
        ensures { IfOk result (λ p. path p ≡ path self.now) }
    {
        let plan = self.plan.copy(alloc)?;
        let keys = self.keys.copy(alloc)?;
        Ok(Path {
            plan,
            set: self.set,
            param: self.param,
            startup: self.startup,
            cost: self.cost,
            rows: self.rows,
            keys,
        })
    }
}

/// A path is at most another of the same set and parameterisation where neither of its costs is greater and its keys
/// begin with the other's.
impl Ranked for Path {
    ghost use Rattle.plan_tree.specs.work.Paths.{is_at_most};
    ghost use Rattle.plan_tree.specs.work.Views.{path};
    ghost use Rattle.plan_tree.specs.work.Ranks.{at-most-refl, at-most-trans};

    ghost is_at_most = { λ a b. is_at_most (path a) (path b) };

    fn at_most(&self, other: &Path) -> bool {
        self.set.0 == other.set.0
            && (self.param.0 == other.param.0
                && (self.startup <= other.startup
                    && (self.cost <= other.cost && covers(&self.keys, &other.keys))))
    }

    ghost reflexive = { λ a. at-most-refl (path a) };

    ghost transitive = { λ a b c. at-most-trans (path a) (path b) (path c) };
}
