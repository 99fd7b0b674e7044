//! Laws of costs.

ghost use Rattle.std.specs.Prelude.{◌≡◌, ◌≤◌, ℕ};
ghost use Rattle.cost_rules.specs.declared.pair.Pair.{Pair};
ghost use Rattle.cost_rules.specs.Powers.{log_up};
ghost use Rattle.cost_rules.specs.work.Powers.{IsLeastPower};
ghost use Rattle.cost_rules.specs.Costs.{sort_cost, nest_cost, merge_cost, price_of};
ghost use Rattle.cost_rules.specs.work.Costs.{IsAtMost, IsCost, capped_pair};

/// The rules of sorts and joins raise neither number of a plan where neither number of a child rises, they give at
/// least each child's total, and a price does not fall where neither number falls.
pub fn rising_costs()
    ensures sort { (a b : Pair) (n : ℕ) → IsAtMost a b → IsAtMost (sort_cost a n) (sort_cost b n) }
    ensures nest { (o p i j : Pair) (ro ri ops : ℕ) → IsAtMost o p → IsAtMost i j →
        IsAtMost (nest_cost o i ro ri ops) (nest_cost p j ro ri ops) }
    ensures merge { (o p i j : Pair) (ro ri k pairs ops : ℕ) → IsAtMost o p → IsAtMost i j →
        IsAtMost (merge_cost o i ro ri k pairs ops) (merge_cost p j ro ri k pairs ops) }
    ensures sort_child { (a : Pair) (n : ℕ) → a.total ≤ (sort_cost a n).total }
    ensures nest_children { (o i : Pair) (ro ri ops : ℕ) → 1 ≤ ro →
        (o.total ≤ (nest_cost o i ro ri ops).total) × (i.total ≤ (nest_cost o i ro ri ops).total) }
    ensures merge_children { (o i : Pair) (ro ri k pairs ops : ℕ) →
        (o.total ≤ (merge_cost o i ro ri k pairs ops).total) × (i.total ≤ (merge_cost o i ro ri k pairs ops).total) }
    ensures sort_startup { (a : Pair) (n : ℕ) → (sort_cost a n).startup ≤ (sort_cost a n).total }
    ensures nest_startup { (o i : Pair) (ro ri ops : ℕ) → 1 ≤ ro → o.startup ≤ o.total → i.startup ≤ i.total →
        (nest_cost o i ro ri ops).startup ≤ (nest_cost o i ro ri ops).total }
    ensures merge_startup { (o i : Pair) (ro ri k pairs ops : ℕ) → o.startup ≤ o.total → i.startup ≤ i.total →
        (merge_cost o i ro ri k pairs ops).startup ≤ (merge_cost o i ro ri k pairs ops).total }
    ensures price { (a b : Pair) (f n : ℕ) → 1 ≤ n → f ≤ n → a.startup ≤ a.total → IsAtMost a b → price_of a f n
        ≤ price_of b f n }
{}

/// Cutting costs to 10^18 before a rule of sorts or joins changes nothing of what the rule gives once it is cut. A cost
/// that was cut is no more before the first row than in all where it was not, and what is at most another stays so.
pub fn capped_children()
    ensures sort { (a : Pair) (n : ℕ) → capped_pair (sort_cost (capped_pair a) n) ≡ capped_pair (sort_cost a n) }
    ensures nest { (o i : Pair) (ro ri ops : ℕ) → 1 ≤ ro →
        capped_pair (nest_cost (capped_pair o) (capped_pair i) ro ri ops) ≡ capped_pair (nest_cost o i ro ri ops) }
    ensures merge { (o i : Pair) (ro ri k pairs ops : ℕ) →
        capped_pair (merge_cost (capped_pair o) (capped_pair i) ro ri k pairs ops) ≡ capped_pair (merge_cost o i ro ri k pairs ops) }
    ensures rising { (a b : Pair) → IsAtMost a b → IsAtMost (capped_pair a) (capped_pair b) }
    ensures cost { (a : Pair) → a.startup ≤ a.total → IsCost (capped_pair a) }
{}

/// `log_up b n` is the least power to which b, at least 2, is at least n.
pub fn least_powers()
    ensures { (b n : ℕ) → 2 ≤ b → IsLeastPower b n (log_up b n) }
{}
