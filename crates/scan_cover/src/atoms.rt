//! Laws of the atoms of OR clauses, and of the arms of bitmaps by them. Own.

ghost use Rattle.std.specs.Prelude.{◌≤◌, ℕ, List, length, take};
ghost use Rattle.std.specs.List.{AllZip};
ghost use Rattle.pg_base.specs.Sets.{has};
ghost use Rattle.pg_base.specs.declared.limits.TheConstants.{MOST_ATOMS};
ghost use Rattle.pg_base.specs.declared.numbers.RelNo.{RelNo};
ghost use Rattle.pg_base.specs.declared.rel_set.RelSet.{RelSet};
ghost use Rattle.catalog.specs.Contents.{Contents};
ghost use Rattle.sql_query.specs.Queries.{Query};
ghost use Rattle.sql_query.specs.WellBound.{IsWellBound};
ghost use Rattle.plan_tree.specs.Bitmaps.{AreElements, Element, MOST_ELEMENTS};
ghost use Rattle.plan_tree.specs.Plans.{BitTree};
ghost use Rattle.bitmap_scan.specs.work.Chosen.{IsLeastTree, marked};
ghost use Rattle.scan_cover.specs.work.Limits.{HasFewAtoms, arms_of_all};

/// The OR clauses of a well bound query together have no more atoms than a statement may have.
pub fn few_atoms()
    ensures { (c : Contents) (q : Query) → IsWellBound c q → HasFewAtoms q }
{}

/// Where they have not, the arms of any of the first 8 elements, each element in a tree of least part, are no more either.
pub fn arms_fit()
    ensures { (c : Contents) (q : Query) (r : RelNo) (p : RelSet) → HasFewAtoms q →
        (es : List Element) (n : ℕ) (bs : List BitTree) → AreElements c q r.0 (has p.0) es →
        AllZip (IsLeastTree c q r p) (marked n (take MOST_ELEMENTS es)) bs → length (arms_of_all bs) ≤ MOST_ATOMS }
{}
