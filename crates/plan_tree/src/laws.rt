//! Laws of plans: what their costs depend on, and which plan may stand in the place of another. The laws of what plans
//! give when they run stand apart.

ghost use Rattle.std.specs.Prelude.{◌≡◌, ◌≤◌, ◌↔◌, ℕ, false, IsTrue};
ghost use Rattle.sql_query.specs.catalog_Contents.{Contents, IsLawful};
ghost use Rattle.sql_query.specs.Queries.{Query};
ghost use Rattle.cost_rules.specs.work.Costs.{IsAtMost};
ghost use Rattle.pathkeys.specs.Keys.{Keys};
ghost use Rattle.plan_tree.specs.Plans.{Plan, sort, nest, merge, set_of, given_scan, is_sort, joins};
ghost use Rattle.plan_tree.specs.Costs.{cost, estimate, price};
ghost use Rattle.plan_tree.specs.work.Costs.{HaveRows};
ghost use Rattle.plan_tree.specs.Space.{IsLike, IsBuilt, IsFinished};
ghost use Rattle.plan_tree.specs.work.Costable.{IsCostable};
ghost use Rattle.plan_tree.specs.Least.{IsAdmissible, Dominates};
ghost use Rattle.plan_tree.specs.work.Least.{StandsFor};
ghost use Rattle.plan_tree.specs.work.Paths.{Path, HasItsNumbers, is_at_most};

/// Plans of the same set and parameterisation are taken to give the same rows, and a join with them tests the same
/// clauses.
pub fn like_plans()
    ensures given { (p other : Plan) → IsLike p other → given_scan p ≡ given_scan other }
    ensures rows { (c : Contents) (q : Query) (p other : Plan) → IsLike p other →
        estimate c q p ≡ estimate c q other }
    ensures clauses { (o p i j : Plan) → IsLike o p → IsLike i j →
        joins (set_of o) i ≡ joins (set_of p) j }
{}

/// A child replaced by a plan of the same set and parameterisation, neither of whose costs is greater, raises neither
/// cost of a sort or a join.
pub fn replaced_children()
    ensures sort { (c : Contents) (q : Query) (keys : Keys) (p other : Plan) → IsLike p other →
        IsAtMost (cost c q p) (cost c q other) →
        IsAtMost (cost c q (sort keys p)) (cost c q (sort keys other)) }
    ensures nest { (c : Contents) (q : Query) (o p i j : Plan) → IsLike o p → IsLike i j →
        IsAtMost (cost c q o) (cost c q p) → IsAtMost (cost c q i) (cost c q j) →
        IsAtMost (cost c q (nest o i)) (cost c q (nest p j)) }
    ensures merge { (c : Contents) (q : Query) (keys : Keys) (o p i j : Plan) → IsLike o p →
        IsLike i j → IsAtMost (cost c q o) (cost c q p) → IsAtMost (cost c q i) (cost c q j) →
        IsAtMost (cost c q (merge keys o i)) (cost c q (merge keys p j)) }
{}

/// Domination is reflexive and transitive.
pub fn domination()
    ensures reflexive { (c : Contents) (q : Query) (p : Plan) → Dominates c q p p }
    ensures transitive { (c : Contents) (q : Query) (a b d : Plan) → Dominates c q a b →
        Dominates c q b d → Dominates c q a d }
{}

/// A plan that dominates another may stand in its place as a side of a join, by itself or under the same sort. A join
/// stays one, and dominates the other, where plans that may stand there take the places of its sides.
pub fn dominating_sides()
    ensures plain { (c : Contents) (q : Query) (p o : Plan) → is_sort p ≡ false →
        is_sort o ≡ false → Dominates c q p o → StandsFor c q p o }
    ensures sorted { (c : Contents) (q : Query) (keys : Keys) (p o : Plan) → Dominates c q p o →
        StandsFor c q (sort keys p) (sort keys o) }
    ensures nest { (c : Contents) (q : Query) (o p i j : Plan) → IsBuilt c q p → IsBuilt c q j →
        is_sort p ≡ false → is_sort j ≡ false → Dominates c q p o → Dominates c q j i →
        IsBuilt c q (nest o i) → IsBuilt c q (nest p j) × Dominates c q (nest p j) (nest o i) }
    ensures merge { (c : Contents) (q : Query) (keys : Keys) (o p i j : Plan) → IsBuilt c q p →
        IsBuilt c q j → StandsFor c q p o → StandsFor c q j i → IsBuilt c q (merge keys o i) →
        IsBuilt c q (merge keys p j) × Dominates c q (merge keys p j) (merge keys o i) }
{}

/// A finished plan stays one where a plan that dominates it takes its place, or that of the input of the sort on its
/// top. Where each table has a row, a plan that dominates another is of no greater price.
pub fn dominating_finish()
    ensures plain { (c : Contents) (q : Query) (p o : Plan) → IsBuilt c q p → is_sort p ≡ false →
        is_sort o ≡ false → Dominates c q p o → IsFinished c q o → IsFinished c q p }
    ensures sorted { (c : Contents) (q : Query) (keys : Keys) (p o : Plan) → IsBuilt c q p →
        is_sort p ≡ false → Dominates c q p o → IsFinished c q (sort keys o) →
        IsFinished c q (sort keys p) × Dominates c q (sort keys p) (sort keys o) }
    ensures price { (c : Contents) (q : Query) (p o : Plan) → HaveRows c q → Dominates c q p o →
        price c q p ≤ price c q o }
{}

/// Where each table has a row, each estimate is at least 1, a plan costs no more before its first row than in all, and
/// at least as much as each child.
pub fn cost_bounds()
    ensures rows { (c : Contents) (q : Query) (p : Plan) → HaveRows c q → 1 ≤ estimate c q p }
    ensures startup { (c : Contents) (q : Query) (p : Plan) → HaveRows c q →
        (cost c q p).startup ≤ (cost c q p).total }
    ensures sort { (c : Contents) (q : Query) (keys : Keys) (p : Plan) →
        (cost c q p).total ≤ (cost c q (sort keys p)).total }
    ensures nest { (c : Contents) (q : Query) (o i : Plan) → HaveRows c q →
        ((cost c q o).total ≤ (cost c q (nest o i)).total) ×
        ((cost c q i).total ≤ (cost c q (nest o i)).total) }
    ensures merge { (c : Contents) (q : Query) (keys : Keys) (o i : Plan) →
        ((cost c q o).total ≤ (cost c q (merge keys o i)).total) ×
        ((cost c q i).total ≤ (cost c q (merge keys o i)).total) }
{}

/// The tables of lawful contents have rows. The children of an admissible plan are admissible.
pub fn admissible_children()
    ensures rows { (c : Contents) (q : Query) → IsLawful c → HaveRows c q }
    ensures sort { (c : Contents) (q : Query) (keys : Keys) (p : Plan) →
        IsAdmissible c q (sort keys p) → IsAdmissible c q p }
    ensures nest { (c : Contents) (q : Query) (o i : Plan) → HaveRows c q →
        IsAdmissible c q (nest o i) → IsAdmissible c q o × IsAdmissible c q i }
    ensures merge { (c : Contents) (q : Query) (keys : Keys) (o i : Plan) →
        IsAdmissible c q (merge keys o i) → IsAdmissible c q o × IsAdmissible c q i }
{}

/// Of two paths of one query the one is at most the other exactly where its plan dominates the other's.
pub fn at_most_is_domination()
    ensures { (c : Contents) (q : Query) (a b : Path) → HasItsNumbers c q a → HasItsNumbers c q b →
        IsTrue (is_at_most a b) ↔ Dominates c q a.tree b.tree }
{}

/// A plan of the space has a cost, and so has a sort of it by any classes.
pub fn built_plans_are_costable()
    ensures built { (c : Contents) (q : Query) (p : Plan) → IsBuilt c q p → IsCostable c q p }
    ensures sorted { (c : Contents) (q : Query) (keys : Keys) (p : Plan) → IsBuilt c q p →
        IsCostable c q (sort keys p) }
{}
