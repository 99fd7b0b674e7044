//! The law by which a search through sets of relations finds a least plan. Source: PostgreSQL,
//! src/backend/optimizer/README (Join Tree Construction).

ghost use Rattle.std.specs.Prelude.{◌≡◌, ◌<◌, ◌↔◌, ℕ, Bool, true, false, List, Contains};
ghost use Rattle.plan_tree.specs.catalog_Contents.{Contents};
ghost use Rattle.plan_tree.specs.sql_query_Queries.{Query};
ghost use Rattle.plan_tree.specs.Costs.{price};
ghost use Rattle.plan_tree.specs.work.Costs.{HaveRows};
ghost use Rattle.plan_tree.specs.Least.{Dominates, IsAdmissible, IsLeast};
ghost use Rattle.plan_tree.specs.Plans.{Plan, is_sort};
ghost use Rattle.plan_tree.specs.Space.{IsBuilt};
ghost use Rattle.plan_laws.specs.Closed.{IsUndercut};
ghost use Rattle.plan_laws.specs.work.Closed.{IsClosed};
ghost use Rattle.plan_laws.specs.work.Useful.{HasEnough, IsBelow, IsClosedBelow, IsLeastKept, Suffices};

/// Where some plans dominate each admissible scan and each admissible join of their own, they dominate each admissible
/// plan of the space that is no sort.
pub fn admissible_plans_are_dominated()
    ensures { (c : Contents) (q : Query) (kept : List Plan) → HaveRows c q →
        IsClosed c q (Contains kept) → (t : Plan) → IsBuilt c q t → is_sort t ≡ false →
        IsAdmissible c q t → IsUndercut c q (Contains kept) t }
{}

/// Where some plans suffice for each scan and each join of their own below a limit, they suffice for each plan of the
/// space below it that is no sort.
pub fn kept_plans_suffice()
    ensures { (c : Contents) (q : Query) (every : Bool) (kept : List Plan) (limit : ℕ) →
        HaveRows c q → IsClosedBelow c q every (Contains kept) limit → (t : Plan) → IsBuilt c q t →
        is_sort t ≡ false → IsBelow c q limit t → HasEnough c q every (Contains kept) limit t }
{}

/// Where every list of keys counts, a plan suffices for another exactly where it dominates it.
pub fn sufficing_by_every_list_is_domination()
    ensures { (c : Contents) (q : Query) (p other : Plan) →
        Suffices c q true p other ↔ Dominates c q p other }
{}

/// Of plans that are kept below a limit, a finished one of no greater price than any other, and of a price below the
/// limit, is of no greater price than any admissible finished plan.
pub fn least_kept_plan_is_least()
    ensures { (c : Contents) (q : Query) (every : Bool) (kept : List Plan) (limit : ℕ) →
        HaveRows c q → IsClosedBelow c q every (Contains kept) limit → (b : Plan) →
        IsLeastKept c q (Contains kept) b → price c q b < limit → IsLeast c q b }
{}
