//! Laws of the costs of plans that group.

ghost use Rattle.std.specs.Prelude.{◌≤◌, ℕ};
ghost use Rattle.group_values.specs.declared.form.Form.{Form};
ghost use Rattle.group_values.specs.declared.task.GroupTask.{GroupTask};
ghost use Rattle.group_values.specs.work.GroupCosts.{group_total};

/// A plan that groups costs no less than its input, and no less where its input does not: so of all inputs of a form the least
/// one is enough.
pub fn group_costs_rise()
    ensures input { (form : Form) (task : GroupTask) (a : ℕ) → a ≤ group_total form task a }
    ensures rises { (form : Form) (task : GroupTask) (a b : ℕ) → a ≤ b → group_total form task a ≤ group_total form task b }
{}
