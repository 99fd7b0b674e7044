//! Laws of catalogues that differ in their indexes alone. Own.

ghost use Rattle.std.specs.Prelude.{◌≡◌, ◌<◌, ◌&&◌, ◌++◌, ℕ, Bool, List, length, filter, slice_index_or};
ghost use Rattle.std.specs.List.{items_where_true};
ghost use Rattle.pg_base.specs.declared.numbers.IndexNo.{IndexNo};
ghost use Rattle.pg_base.specs.declared.numbers.RelNo.{RelNo};
ghost use Rattle.pg_base.specs.declared.rel_set.RelSet.{RelSet};
ghost use Rattle.pg_expr.specs.Cond.{Cond};
ghost use Rattle.catalog.specs.Contents.{Contents, TableDef, NamedIndex, index_at, no_index};
ghost use Rattle.catalog.specs.Range.{Range};
ghost use Rattle.path_cost.specs.Estimates.{kept};
ghost use Rattle.path_cost.specs.Selectivity.{weights};
ghost use Rattle.sql_query.specs.Queries.{Query};
ghost use Rattle.sql_query.specs.WellBound.{IsWellBound};
ghost use Rattle.plan_tree.specs.Costs.{cost, price, scan_cost};
ghost use Rattle.plan_tree.specs.Least.{IsBestPlan, HasNoPlan};
ghost use Rattle.plan_tree.specs.Plans.{Plan};
ghost use Rattle.plan_tree.specs.Space.{IsFinished};
ghost use Rattle.plan_laws.specs.work.Fewer.{HasRoom, KeepsRead};
ghost use Rattle.plan_laws.specs.Moved.{HasPrice, added_from, over};
ghost use Rattle.plan_laws.specs.work.Moved.{Moves, is_read, moved};

/// The estimated rows after conditions read no index.
pub fn estimates_read_no_index()
    ensures { (tables : List TableDef) (a b : List NamedIndex) (range : Range) (n : ℕ)
        (es : List Cond) (ns : List ℕ) →
        kept n (weights (over tables b) range es ns) ≡ kept n (weights (over tables a) range es ns) }
{}

/// What a scan by an index costs reads the definition of the index, not its number.
pub fn scans_read_definitions()
    ensures { (tables : List TableDef) (a b : List NamedIndex) (i j : IndexNo) →
        index_at (over tables b) j ≡ index_at (over tables a) i → (q : Query) (r : RelNo)
        (p : RelSet) (only : Bool) →
        scan_cost (over tables b) q r j p only ≡ scan_cost (over tables a) q r i p only }
{}

/// Where a map of index numbers takes the indexes of each table of a query, in order, to ones of the same definitions, it
/// takes finished plans to finished plans of the same cost and price; where one goes back, plans of the least price to
/// plans of the least price.
pub fn finished_plans_move()
    ensures finished { (tables : List TableDef) (a b : List NamedIndex) (q : Query)
        (f : IndexNo → IndexNo) → Moves (over tables a) (over tables b) q f → (p : Plan) →
        IsFinished (over tables a) q p → IsFinished (over tables b) q (moved f p) }
    ensures price { (tables : List TableDef) (a b : List NamedIndex) (q : Query)
        (f : IndexNo → IndexNo) → Moves (over tables a) (over tables b) q f → (p : Plan) →
        IsFinished (over tables a) q p →
        price (over tables b) q (moved f p) ≡ price (over tables a) q p }
    ensures best { (tables : List TableDef) (a b : List NamedIndex) (q : Query)
        (f g : IndexNo → IndexNo) → Moves (over tables a) (over tables b) q f →
        Moves (over tables b) (over tables a) q g → (p : Plan) → IsBestPlan (over tables a) q p →
        IsBestPlan (over tables b) q (moved f p) }
{}

/// The least price of a query, or that it has none, reads the indexes on its tables alone: it is the same over two lists
/// of indexes that have the same ones on these, in the same order. So of a set of candidates added behind the indexes
/// only those on its tables count.
pub fn prices_read_the_tables_of_the_query()
    ensures price { (tables : List TableDef) (q : Query) (a b : List NamedIndex) →
        filter (is_read q) a ≡ filter (is_read q) b → (n : ℕ) → HasPrice (over tables a) q n →
        HasPrice (over tables b) q n }
    ensures none { (tables : List TableDef) (q : Query) (a b : List NamedIndex) →
        filter (is_read q) a ≡ filter (is_read q) b → HasNoPlan (over tables a) q →
        HasNoPlan (over tables b) q }
    ensures candidates { (q : Query) (indexes candidates : List NamedIndex)
        (set concerned : ℕ → Bool) →
        ((k : ℕ) → k < length candidates → concerned k ≡ is_read q (slice_index_or candidates k no_index)) →
        filter (is_read q) (indexes ++ added_from 0 set candidates) ≡
        filter (is_read q) (indexes ++ added_from 0 (λ k. set k && concerned k) candidates) }
{}

/// A least price reads the indexes that a plan of it reads: where bitmaps have room for each element, it is the least over
/// any part of the indexes that has these, in the same order. Where no finished plan is admissible, none is with fewer
/// indexes.
pub fn least_prices_read_the_indexes_of_a_plan()
    ensures price { (tables : List TableDef) (q : Query) (indexes : List NamedIndex)
        (kept : List Bool) (p : Plan) → HasRoom (over tables indexes) q →
        IsBestPlan (over tables indexes) q p → KeepsRead (over tables indexes) p kept →
        HasPrice (over tables (items_where_true kept indexes)) q (price (over tables indexes) q p) }
    ensures none { (tables : List TableDef) (q : Query) (indexes : List NamedIndex)
        (kept : List Bool) → HasRoom (over tables indexes) q → HasNoPlan (over tables indexes) q →
        HasNoPlan (over tables (items_where_true kept indexes)) q }
{}

/// A query well bound over some tables is well bound over them whatever indexes there are.
pub fn well_bound_queries_read_no_index()
    ensures { (tables : List TableDef) (a b : List NamedIndex) (q : Query) →
        IsWellBound (over tables a) q → IsWellBound (over tables b) q }
{}

/// A query has no two least prices, and none where no finished plan is admissible.
pub fn a_query_has_one_least_price()
    ensures one { (c : Contents) (q : Query) (m n : ℕ) → HasPrice c q m → HasPrice c q n → m ≡ n }
    ensures none { (c : Contents) (q : Query) (n : ℕ) → HasPrice c q n → ¬ HasNoPlan c q }
{}
