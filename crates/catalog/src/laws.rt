//! Laws of what a catalogue holds.

ghost use Rattle.std.specs.Prelude.{◌≡◌, ◌≢◌, ◌≤◌, ◌+◌, ◌*◌, ℕ, Some, length, take};
ghost use Rattle.pg_base.specs.declared.limits.TheConstants.{MOST_INDEXES, MOST_TABLES};
ghost use Rattle.pg_base.specs.declared.numbers.ColNo.{ColNo};
ghost use Rattle.pg_base.specs.declared.numbers.TableNo.{TableNo};
ghost use Rattle.opfamily.specs.pg_value_value_SqlType.{SqlType};
ghost use Rattle.catalog.specs.Contents.{Contents, IsColumn, IsLawful, IsTable, stats_at, table_at, table_at, with_loaded, with_sizes, with_stats};
ghost use Rattle.catalog.specs.Indexes.{type_at};
ghost use Rattle.catalog.specs.Statistics.{AreAllowed, AreValuesOf, IsLawfulStatistics, Statistics, shares};
ghost use Rattle.catalog.specs.Tables.{pages_of, rows_of};
ghost use Rattle.catalog.specs.declared.limits.TheConstants.{MOST_NUMBER, WHOLE_SHARE};

/// Statistics are not refused exactly where they are lawful. With the NULLs, the first shares of lawful statistics are at most the
/// whole, however many are taken. What lawful contents know of a column is lawful.
pub fn statistics_laws()
    ensures lawful { (t : SqlType) (s : Statistics) → AreValuesOf t s → AreAllowed s → IsLawfulStatistics t s }
    ensures allowed { (t : SqlType) (s : Statistics) → IsLawfulStatistics t s → AreAllowed s }
    ensures prefix { (t : SqlType) (s : Statistics) → IsLawfulStatistics t s →
        (k : ℕ) → s.nulls + shares (take k s.common) ≤ WHOLE_SHARE }
    ensures of_column { (c : Contents) (t : TableNo) (x : ColNo) (s : Statistics) → IsLawful c → IsTable c t →
        IsColumn c t x → stats_at c t x ≡ Some s → IsLawfulStatistics (type_at (table_at c t).columns x) s }
{}

/// There are at most 8 indexes for each of 64 tables, so that each number of an index is below 512.
pub fn index_laws()
    ensures { (c : Contents) → IsLawful c → length c.indexes ≤ MOST_INDEXES * MOST_TABLES }
{}

/// Each table of lawful contents has a row and a page at least, and not more than a statement may give where no more rows
/// are loaded.
pub fn size_laws()
    ensures rows { (c : Contents) (t : TableNo) → IsLawful c → IsTable c t → 1 ≤ rows_of c t }
    ensures pages { (c : Contents) (t : TableNo) → IsLawful c → IsTable c t → 1 ≤ pages_of c t }
    ensures most_rows { (c : Contents) (t : TableNo) → IsLawful c → IsTable c t → (table_at c t).loaded ≤ MOST_NUMBER →
        rows_of c t ≤ MOST_NUMBER }
    ensures most_pages { (c : Contents) (t : TableNo) → IsLawful c → IsTable c t → (table_at c t).loaded ≤ MOST_NUMBER →
        pages_of c t ≤ MOST_NUMBER }
{}

/// What a statement gave for a table or a column stands, and stands in place of what an earlier one gave for it.
pub fn replacement_laws()
    ensures rows { (c : Contents) (t : TableNo) (rows pages : ℕ) → IsTable c t →
        rows_of (with_sizes c t rows pages) t ≡ rows }
    ensures pages { (c : Contents) (t : TableNo) (rows pages : ℕ) → IsTable c t →
        pages_of (with_sizes c t rows pages) t ≡ pages }
    ensures loaded { (c : Contents) (t : TableNo) (rows pages loaded : ℕ) → IsTable c t →
        rows_of (with_loaded (with_sizes c t rows pages) t loaded) t ≡ rows }
    ensures sizes { (c : Contents) (t : TableNo) (rows pages more held : ℕ) → IsTable c t →
        with_sizes (with_sizes c t rows pages) t more held ≡ with_sizes c t more held }
    ensures known { (c : Contents) (t : TableNo) (x : ColNo) (s : Statistics) → IsLawful c → IsTable c t → IsColumn c t x →
        stats_at (with_stats c t x s) t x ≡ Some s }
    ensures columns { (c : Contents) (t : TableNo) (x y : ColNo) (s : Statistics) → IsTable c t → x.0 ≢ y.0 →
        stats_at (with_stats c t x s) t y ≡ stats_at c t y }
    ensures replaced { (c : Contents) (t : TableNo) (x : ColNo) (s u : Statistics) → IsTable c t →
        with_stats (with_stats c t x s) t x u ≡ with_stats c t x u }
{}
