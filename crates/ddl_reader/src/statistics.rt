//! STATISTICS: the size of a table, and what is known of a column.

ghost use Rattle.std.specs.Prelude.{◌≡◌, ◌≤◌, ◌-◌, ◌^◌, ◌⊎◌, min, ◌++◌, map, IfOk, OnOk};
ghost use Rattle.std.specs.List.{flat_map};
ghost use Rattle.pg_base.specs.declared.numbers.TableNo.{TableNo};
ghost use Rattle.pg_base.specs.declared.numbers.ColNo.{ColNo};
ghost use Rattle.sql_grammar.specs.Terminals.{token_of, t_number};
ghost use Rattle.sql_grammar.specs.Faults.{bytes_of};
ghost use Rattle.catalog.specs.Contents.{IsTable, IsColumn, table_at};
ghost use Rattle.catalog.specs.Indexes.{type_at};
ghost use Rattle.ddl_reader.specs.work.AsMeant.{Tells, SpellsSizes, SpellsColumn, common_seen, starts_seen, value_seen, start_seen, SpellsSizesPart, SpellsLists, SpellsColumnPart};
ghost use Rattle.ddl_reader.specs.work.Readings.{statistics_read, IsMadeAs, ReadsLists, ReadsColumnPart, ReadsSizesPart, ReadsSizes, ReadsColumnStatistics};
ghost use Rattle.ddl_reader.specs.work.Statistics.{table_spelled, column_spelled};

use crate::ddl::{Ddl, Read};
use crate::literals::{CommonRead, common, histogram};
use crate::words::{name, number, word_fault};
use catalog::{Catalog, ColumnStats};
use expr_reader::{Cursor, Number, Placed, Spelled};
use pg_base::{Code, ColNo, Memory, Refusal, TableNo};
use pg_value::{SqlType, Value};
use sql_grammar::Symbol;
use std::alloc::Global;

/// A column of a table, and the numbers of its different values and of its NULLs.
#[derive(Clone, Copy)]
struct Counted {
    table: TableNo,
    col: ColNo,
    distinct: Number,
    nulls: Number,
}

/// The table of this name. An unknown one is refused (42P01) at its name.
pub(crate) fn table_of(cat: &Catalog, name: &Spelled) -> Result<TableNo, Refusal>
    ensures told { Tells TableNo TableNo (λ t. t) result (table_spelled cat.now name.now) }
    ensures there { IfOk result (IsTable cat.now) }
{
    match cat.table(name.bytes.items()) {
        Some(table) => Ok(table),
        None => Err(word_fault(Code::S2, name.token)),
    }
}

/// The column of this name, of a table. An unknown one is refused (42703) at its name.
fn column_of(cat: &Catalog, table: TableNo, name: &Spelled) -> Result<ColNo, Refusal>
    requires { IsTable cat.now table }
    ensures told { Tells ColNo ColNo (λ c. c) result (column_spelled cat.now table name.now) }
    ensures there { IfOk result (IsColumn cat.now table) }
{
    match cat.column(table, name.bytes.items()) {
        Some(col) => Ok(col),
        None => Err(word_fault(Code::S3, name.token)),
    }
}

/// The type of a column of a table.
fn type_of(cat: &Catalog, table: TableNo, col: ColNo) -> SqlType
    requires table { IsTable cat.now table }
    requires column { IsColumn cat.now table col }
    ensures { result ≡ type_at (table_at cat.now table).columns col }
{
    cat.columns(table).items()[col.0 as usize].typed
}

/// A number, or 2^32 - 1 where it is more.
fn narrow(n: u64) -> u32
    ensures { result ≡ min n (2 ^ 32 - 1) }
{
    n.min(u64::from(u32::MAX)) as u32
}

/// Common values with their shares. The places of both are put behind `at`.
fn common_values(
    alloc: Global,
    read: Vec<CommonRead>,
    at: &mut Vec<u32>,
) -> Result<Vec<(Value, u32)>, Memory>
    ensures values { IfOk result (λ v. v.items ≡ map common_seen read.items) }
    ensures places { OnOk result (at.new.items ≡ at.old.items ++ flat_map starts_seen read.items) }
{
    let mut values = Vec::new(alloc);
    for one in read {
        let CommonRead { literal, share } = one;
        let Placed {
            value,
            token: place,
        } = literal;
        values.push((value, narrow(share.value)))?;
        at.push(place.start)?;
        at.push(share.token.start)?;
    }
    Ok(values)
}

/// The bounds of a histogram. Their places are put behind `at`.
fn bound_values(alloc: Global, read: Vec<Placed>, at: &mut Vec<u32>) -> Result<Vec<Value>, Memory>
    ensures values { IfOk result (λ v. v.items ≡ map value_seen read.items) }
    ensures places { OnOk result (at.new.items ≡ at.old.items ++ map start_seen read.items) }
{
    let mut values = Vec::new(alloc);
    for one in read {
        let Placed { value, token } = one;
        values.push(value)?;
        at.push(token.start)?;
    }
    Ok(values)
}

/// The statistics of a column with these common values and bounds.
fn made(
    alloc: Global,
    counted: Counted,
    common: Vec<CommonRead>,
    bounds: Vec<Placed>,
) -> Result<Read, Refusal>
    ensures { IsMadeAs result (statistics_read counted common.items bounds.items) }
{
    let mut at = Vec::new(alloc);
    at.push(counted.distinct.token.start)?;
    at.push(counted.nulls.token.start)?;
    let common = common_values(alloc, common, &mut at)?;
    let histogram = bound_values(alloc, bounds, &mut at)?;
    let stats = ColumnStats {
        distinct: counted.distinct.value,
        nulls: narrow(counted.nulls.value),
        common,
        histogram,
    };
    Ok(Read {
        ddl: Ddl::Column {
            table: counted.table,
            col: counted.col,
            stats,
        },
        at,
    })
}

/// The lists of literals of a column of type `t`, which are bound from the left.
fn lists(alloc: Global, t: SqlType, counted: Counted, from: &mut Cursor) -> Result<Read, Refusal>
    requires { SpellsLists from.old }
    ensures { ReadsLists t counted from.old result }
{
    let common = common(alloc, t, from)?;
    let bounds = histogram(alloc, t, from)?;
    made(alloc, counted, common, bounds)
}

/// STATISTICS of a column of a table, from the column's name on. An unknown column is refused (42703) at its name.
fn column(alloc: Global, cat: &Catalog, table: TableNo, from: &mut Cursor) -> Result<Read, Refusal>
    requires there { IsTable cat.now table }
    requires words { SpellsColumnPart from.old }
    ensures { ReadsColumnPart cat.now table from.old result }
{
    let title = name(alloc, from)?;
    let col = column_of(cat, table, &title)?;
    from.skip(1);
    let distinct = number(from);
    from.skip(1);
    let nulls = number(from);
    let counted = Counted {
        table,
        col,
        distinct,
        nulls,
    };
    lists(alloc, type_of(cat, table, col), counted, from)
}

/// STATISTICS of a table, from ROWS on.
fn sizes(alloc: Global, table: TableNo, from: &mut Cursor) -> Result<Read, Refusal>
    requires { SpellsSizesPart from.old }
    ensures { ReadsSizesPart table from.old result }
{
    from.skip(1);
    let rows = number(from);
    from.skip(1);
    let pages = number(from);
    let mut at = Vec::new(alloc);
    at.push(rows.token.start)?;
    at.push(pages.token.start)?;
    Ok(Read {
        ddl: Ddl::Rows {
            table,
            rows: rows.value,
            pages: pages.value,
        },
        at,
    })
}

/// STATISTICS from the table's name on. The table's name is bound (42P01), then a column's (42703), then all literals, from the left.
pub fn statistics(alloc: Global, cat: &Catalog, from: &mut Cursor) -> Result<Read, Refusal>
    requires { SpellsSizes from.old ⊎ SpellsColumn from.old }
    ensures sizes { ReadsSizes cat.now from.old result }
    ensures column { ReadsColumnStatistics cat.now from.old result }
{
    let title = name(alloc, from)?;
    let table = table_of(cat, &title)?;
    if from.takes_mark(Symbol::Dot) {
        return column(alloc, cat, table, from);
    }
    sizes(alloc, table, from)
}
