//! Plans with the numbers that are written beside their nodes.

ghost use Rattle.std.specs.Prelude.{◌≡◌};

use plan_tree::Plan;
use std::marker::Model;

/// A cost and a number of rows for each node of a plan, the root's first, an outer side's before an inner's; the nodes of
/// bitmap trees have none. Contracts see the list.
#[derive(Drop)]
pub struct Numbers {
    items: Vec<(u64, u64)>,
}

impl Model for Numbers {
    ghost use Rattle.std.specs.Prelude.{List, ℕ};

    ghost Value = { List (ℕ × ℕ) };

    ghost view = { λ n. n.items.items };
}

impl Numbers {
    /// The list of some pairs.
    pub fn from_vec(items: Vec<(u64, u64)>) -> Numbers
        ensures { result ≡ items.items }
    {
        Numbers { items }
    }

    /// The pairs in order, lent.
    pub fn items(&self) -> &[(u64, u64)]
        ensures { result.now ≡ self.now }
    {
        &self.items
    }
}

/// A plan, and the numbers that are written beside its nodes, which may be any.
#[derive(Drop)]
pub struct Written {
    /// The plan.
    pub plan: Plan,
    /// The numbers.
    pub numbers: Numbers,
}
