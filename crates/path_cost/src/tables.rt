//! The tables of a condition's relations, and what is known of their columns.

ghost use Rattle.std.specs.Prelude.{◌≡◌, ◌<◌, ◌≤◌, IfSome, IsTrue, length};
ghost use Rattle.catalog.specs.work.Entries.{statistics};
ghost use Rattle.catalog.specs.Range.{column_at, table_of, type_in};
ghost use Rattle.path_cost.specs.Columns.{stats_of};
ghost use Rattle.path_cost.specs.work.Columns.{AreTables, is_column_in, nulls_known};
ghost use Rattle.path_cost.specs.work.Known.{IsLawfulKnown, statistics_of};
ghost use Rattle.path_cost.specs.work.Relations.{range_of};

use crate::known::Known;
use crate::shares::UNKNOWN_DISTINCT;
use catalog::{Catalog, ColumnStats, RangeTable};
use pg_base::TableNo;
use pg_expr::ColRef;
use pg_value::{Column, SqlType};

/// The relations of a condition: one table as relation 0, or those of a query.
#[derive(Clone, Copy)]
pub(crate) enum Relations<'a> {
    One(TableNo),
    Of(&'a RangeTable),
}

impl<'a> Relations<'a> {
    /// The table of a column's relation.
    fn table(self, x: ColRef) -> TableNo
        requires { x.rel.0 < length (range_of self) }
        ensures { result ≡ table_of (range_of self.entry) x }
    {
        match self {
            Relations::One(t) => t,
            Relations::Of(range) => range.items()[x.rel.0 as usize].0,
        }
    }
}

/// The column of a relation's table.
#[tactic(auto, using(crate::proofs::ColumnLemmas::column_laws))]
pub(crate) fn column(cat: &Catalog, relations: Relations, x: ColRef) -> Column
    requires tables { AreTables cat.now (range_of relations) }
    requires column { IsTrue (is_column_in cat.now (range_of relations) x) }
    ensures { result ≡ column_at cat.now (range_of relations.entry) x }
{
    cat.columns(relations.table(x)).items()[x.col.0 as usize]
}

/// What is known of a column. Of one without statistics at most 200 different values and no NULLs are taken.
#[tactic(auto, using(crate::proofs::ColumnLemmas::column_laws, crate::proofs::ColumnLemmas::lent_lawful, crate::proofs::ColumnLemmas::unknown_lawful))]
pub(crate) fn known<'a>(cat: &'a Catalog, relations: Relations, x: ColRef) -> Known<'a>
    requires tables { AreTables cat.now (range_of relations) }
    requires column { IsTrue (is_column_in cat.now (range_of relations) x) }
    ensures stats { statistics_of result ≡ stats_of cat.now (range_of relations.entry) x }
    ensures typed { result.typed ≡ type_in cat.now (range_of relations.entry) x }
    ensures lawful { IsLawfulKnown result }
{
    cat.lawful();
    let t = relations.table(x);
    let typed = column(cat, relations, x).typed;
    match cat.stats(t, x.col) {
        Some(s) => lent(typed, s),
        None => Known {
            typed,
            distinct: cat.rows(t).min(UNKNOWN_DISTINCT),
            nulls: 0,
            common: &[],
            histogram: &[],
        },
    }
}

/// How many different values, beside NULL, a column is taken to have: as its statistics say, else as many as the table's rows, 200 at
/// most (PostgreSQL, src/include/utils/selfuncs.h, DEFAULT_NUM_DISTINCT).
pub fn distinct(cat: &Catalog, range: &RangeTable, x: ColRef) -> u64
    requires tables { AreTables cat.now range.now }
    requires column { IsTrue (is_column_in cat.now range.now x) }
    ensures value { result ≡ (stats_of cat.now range.now x).distinct }
{
    known(cat, Relations::Of(range), x).distinct
}

/// A column's statistics, lent.
fn lent(typed: SqlType, s: &ColumnStats) -> Known
    ensures stats { statistics_of result ≡ statistics s.now }
    ensures typed { result.typed ≡ typed }
{
    Known {
        typed,
        distinct: s.distinct,
        nulls: s.nulls,
        common: &s.common,
        histogram: &s.histogram,
    }
}

/// The share of a column's NULLs that a statement gave, in parts per million. None where none did.
#[tactic(auto, using(crate::proofs::ColumnLemmas::column_laws, crate::proofs::ColumnLemmas::nulls_most))]
pub(crate) fn nulls(cat: &Catalog, relations: Relations, x: ColRef) -> Option<u32>
    requires tables { AreTables cat.now (range_of relations) }
    requires column { IsTrue (is_column_in cat.now (range_of relations) x) }
    ensures given { result ≡ nulls_known cat.now (range_of relations.entry) x }
    ensures part { IfSome result (λ n. n ≤ 1_000_000) }
{
    cat.lawful();
    match cat.stats(relations.table(x), x.col) {
        Some(s) => Some(s.nulls),
        None => None,
    }
}
