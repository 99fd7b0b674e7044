//! Laws of what ANALYZE finds.

ghost use Rattle.std.specs.Prelude.{◌<◌, ℕ, length, slice_index_or};
ghost use Rattle.heap.specs.Stored.{IsLawfulData, Stored};
ghost use Rattle.catalog.specs.Indexes.{no_column};
ghost use Rattle.catalog.specs.work.Analysed.{FitColumns, IsAllowedTable};
ghost use Rattle.catalog.specs.Statistics.{IsLawfulStatistics};
ghost use Rattle.analyze.specs.Analysis.{statistics_of, table_statistics};

/// What is found of lawful rows is lawful: of each column its statistics, with values of its type, and of the table its rows and
/// pages. So a catalogue never refuses it.
pub fn analysis_is_lawful()
    ensures columns { (h : Stored) → IsLawfulData h → (k : ℕ) → k < length h.columns → IsLawfulStatistics (slice_index_or h.columns k no_column).typed (statistics_of h k) }
    ensures fit { (h : Stored) → IsLawfulData h → FitColumns h.columns (table_statistics h).columns }
    ensures allowed { (h : Stored) → IsLawfulData h → IsAllowedTable (table_statistics h) }
{}
