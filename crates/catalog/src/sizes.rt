//! The rows of tables, their sizes, and what is known of their columns.

ghost use Rattle.std.specs.Prelude.{◌≡◌, ◌<◌, ◌≤◌, ◌^◌, All, IfErr, List, MatchOption, OnErr, OnOk, Some, length, map, true, option_copied};
ghost use Rattle.std.specs.Option.{option_map};
ghost use Rattle.catalog.specs.Contents.{IsColumn, IsTable, stats_at, table_at, with_loaded, with_sizes, with_stats};
ghost use Rattle.catalog.specs.Analysed.{with_analysis};
ghost use Rattle.catalog.specs.work.Analysed.{FitColumns, IsAllowedTable, IsColumnRefusal, IsTableRefusal};
ghost use Rattle.catalog.specs.work.Known.{statistics};
ghost use Rattle.opfamily.specs.pg_value_columns_Column.{Column};
ghost use Rattle.catalog.specs.Indexes.{type_at};
ghost use Rattle.catalog.specs.Statistics.{AreAllowed, AreValuesOf, is_count as is_a_count};
ghost use Rattle.catalog.specs.Tables.{IsSizeRefusal, IsStatisticsRefusal, pages_of, rows_of};

use crate::contents::Catalog;
use crate::fault::CatalogFault;
use crate::limits::ROWS_PER_PAGE;
use crate::statistics::{ColumnStats, TableStats, first_refused, is_count};
use crate::table::{Sizes, Table};
use pg_base::{ColNo, TableNo};

impl Catalog {
    /// Keeps the number of rows loaded into a table, in place of the former.
    pub fn set_loaded(&mut self, t: TableNo, rows: u32)
        requires { IsTable self.old t }
        ensures { self.new ≡ with_loaded self.old t rows }
    {
        self.tables[t.0 as usize].loaded = rows;
    }

    /// Keeps the rows and pages given for a table, in place of any former ones. The rows are place 0 and the pages
    /// place 1, and each is from 1 to 10^9; the first that is not is refused, and then nothing changes.
    pub fn set_rows(&mut self, t: TableNo, rows: u64, pages: u64) -> Result<(), CatalogFault>
        requires { IsTable self.old t }
        ensures rows { OnOk result (is_a_count rows ≡ true) }
        ensures pages { OnOk result (is_a_count pages ≡ true) }
        ensures kept { OnOk result (self.new ≡ with_sizes self.old t rows pages) }
        ensures cause { IfErr result (IsSizeRefusal rows pages) }
        ensures unchanged { OnErr result (self.new ≡ self.old) }
    {
        if !is_count(rows) {
            return Err(CatalogFault::BadNumber(0));
        }
        if !is_count(pages) {
            return Err(CatalogFault::BadNumber(1));
        }
        self.tables[t.0 as usize].sizes = Some(Sizes { rows, pages });
        Ok(())
    }

    /// Keeps what is known of a column, in place of what was. The values of `s` are of the column's type, and none is
    /// NULL. It is refused at the first place, in text order, of a number or literal that is not allowed; then nothing
    /// changes. No memory is taken.
    pub fn set_column(&mut self, t: TableNo, c: ColNo, s: ColumnStats) -> Result<(), CatalogFault>
        requires table { IsTable self.old t }
        requires column { IsColumn self.old t c }
        requires values { AreValuesOf (type_at (table_at self.old t).columns c) (statistics s) }
        ensures allowed { OnOk result (AreAllowed (statistics s)) }
        ensures kept { OnOk result (self.new ≡ with_stats self.old t c (statistics s)) }
        ensures cause { IfErr result (IsStatisticsRefusal (statistics s)) }
        ensures unchanged { OnErr result (self.new ≡ self.old) }
    {
        if let Some(place) = first_refused(&s) {
            return Err(CatalogFault::BadNumber(place));
        }
        self.tables[t.0 as usize].stats[c.0 as usize] = Some(s);
        Ok(())
    }

    /// Keeps what was found of a table by its rows, in place of all that was known of its size and of its columns. There is
    /// one entry for each column, and its values are of the column's type, and none is NULL. It is refused where
    /// `set_rows` or `set_column`, for the columns from the left, would refuse it; then nothing changes. No memory is taken.
    pub fn replace_stats(&mut self, t: TableNo, s: TableStats) -> Result<(), CatalogFault>
        requires table { IsTable self.old t }
        requires values { FitColumns (table_at self.old t).columns s.columns }
        ensures allowed { OnOk result (IsAllowedTable s) }
        ensures kept { OnOk result (self.new ≡ with_analysis self.old t s) }
        ensures cause { IfErr result (IsTableRefusal s) }
        ensures unchanged { OnErr result (self.new ≡ self.old) }
    {
        judge_table(&s)?;
        let table = &mut self.tables[t.0 as usize];
        keep(table, s);
        Ok(())
    }

    /// The number of rows of a table for estimates: those given, else the rows loaded, at least 1.
    pub fn rows(&self, t: TableNo) -> u64
        requires { IsTable self.now t }
        ensures rows { result ≡ rows_of self.now t }
        ensures some { 1 ≤ result }
        ensures few { result < 2 ^ 32 }
    {
        let (_, table) = self.entry(t);
        match &table.sizes {
            Some(sizes) => sizes.rows,
            None => u64::from(table.loaded).max(1),
        }
    }

    /// The number of pages of a table for estimates: those given, else one for each hundred rows, the last not always
    /// full.
    pub fn pages(&self, t: TableNo) -> u64
        requires { IsTable self.now t }
        ensures pages { result ≡ pages_of self.now t }
        ensures some { 1 ≤ result }
        ensures few { result < 2 ^ 32 }
    {
        let (_, table) = self.entry(t);
        match &table.sizes {
            Some(sizes) => sizes.pages,
            None => u64::from(table.loaded).max(1).div_ceil(ROWS_PER_PAGE),
        }
    }

    /// What is known of a column. None where no statement gave anything.
    pub fn stats(&self, t: TableNo, c: ColNo) -> Option<&ColumnStats>
        requires table { IsTable self.now t }
        requires column { IsColumn self.now t c }
        ensures { option_map statistics (option_copied result) ≡ stats_at self.now t c }
    {
        let (_, table) = self.entry(t);
        table.stats[c.0 as usize].as_ref()
    }
}

/// Why what was found of a table is refused. Its columns' values are of their types.
fn judge_table(s: &TableStats) -> Result<(), CatalogFault>
    requires values { (columns : List Column) × FitColumns columns s.now.columns }
    ensures allowed { OnOk result (IsAllowedTable s.now) }
    ensures cause { IfErr result (IsTableRefusal s.now) }
{
    if !is_count(s.rows) {
        return Err(CatalogFault::BadNumber(0));
    }
    if !is_count(s.pages) {
        return Err(CatalogFault::BadNumber(1));
    }
    match refused_column(s.columns.items()) {
        Some(place) => Err(CatalogFault::BadNumber(place)),
        None => Ok(()),
    }
}

/// The first place of the first of some columns' statistics of which something is refused. None where nothing is.
fn refused_column(columns: &[ColumnStats]) -> Option<u8>
    requires { (types : List Column) × FitColumns types (map statistics columns.now) }
    ensures { MatchOption result (All AreAllowed (map statistics columns.now)) (IsColumnRefusal (map statistics columns.now)) }
{
    for column in columns {
        if let Some(place) = first_refused(column) {
            return Some(place);
        }
    }
    None
}

/// Keeps what was found of a table.
fn keep(table: &mut Table, s: TableStats)
    requires long { length table.old.stats.items ≡ length s.columns }
    ensures sizes { table.new.sizes ≡ Some (record { rows = s.rows; pages = s.pages }) }
    ensures stats { map (option_map statistics) table.new.stats.items ≡ map Some s.columns }
    ensures others { (table.new.names ≡ table.old.names) × (table.new.columns ≡ table.old.columns) × (table.new.loaded ≡ table.old.loaded) × (table.new.indexes.items ≡ table.old.indexes.items) }
{
    table.sizes = Some(Sizes {
        rows: s.rows,
        pages: s.pages,
    });
    put_each(&mut table.stats, s.columns.into_vec());
}

/// Puts what is known of each column in place of what was.
fn put_each(stats: &mut Vec<Option<ColumnStats>>, columns: Vec<ColumnStats>)
    requires { length stats.old.items ≡ length columns.items }
    ensures { stats.new.items ≡ map Some columns.items }
{
    let mut left = columns;
    'columns: while let Some(column) = left.pop() {
        let place = left.len();
        stats[place] = Some(column);
    }
}
