//! Laws of the paths that a search keeps. Source: PostgreSQL, src/backend/optimizer/README (Join Tree Construction); the
//! order of printing is own.

ghost use Rattle.std.specs.Prelude.{List};
ghost use Rattle.pg_value.specs.Sorting.{IsInOrder};
ghost use Rattle.catalog.specs.Contents.{Contents};
ghost use Rattle.sql_query.specs.Queries.{Query, width};
ghost use Rattle.plan_tree.specs.work.Costs.{HaveRows};
ghost use Rattle.plan_tree.specs.work.Paths.{Path};
ghost use Rattle.plan_tree.specs.work.Reads.{IsOverTables};
ghost use Rattle.planner.specs.join_search_Tables.{Fronts};
ghost use Rattle.plan_check.specs.Certificates.{Certificate};
ghost use Rattle.certificate_laws.specs.work.Kept.{AreKept, AreOf};
ghost use Rattle.certificate_laws.specs.work.Made.{AreMadeInTurn};
ghost use Rattle.certificate_laws.specs.Printing.{printing_order};
ghost use Rattle.certificate_laws.specs.work.Printing.{path_order};
ghost use Rattle.certificate_laws.specs.work.Searched.{AreOfFronts, IsSearched};

/// The paths of the fronts of a search for every key and every cost dominate each admissible scan and each admissible join
/// of their plans, and none of them dominates another.
pub fn searched_paths_are_kept()
    ensures { (c : Contents) (q : Query) (fronts : Fronts) (paths : List Path) → HaveRows c q →
        IsSearched c q fronts → AreOfFronts fronts paths → AreKept c q paths }
{}

/// In the order of printing each of them is a scan, or a join of plans that stand before it.
pub fn paths_are_made_in_turn()
    ensures { (c : Contents) (q : Query) (fronts : Fronts) (paths : List Path) → IsOverTables c q →
        IsSearched c q fronts → AreOfFronts fronts paths → IsInOrder path_order paths →
        AreMadeInTurn (width q) paths }
{}

/// Entries for paths that stand in the order of printing do too.
pub fn printed_entries_are_ordered()
    ensures { (q : Query) (t : Certificate) (paths : List Path) → AreOf q t paths →
        IsInOrder path_order paths → IsInOrder printing_order t.entries }
{}
