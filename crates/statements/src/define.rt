//! CREATE TABLE, COPY, STATISTICS and ANALYZE, carried out.

ghost use Rattle.std.specs.Prelude.{◌≡◌, ◌≤◌, ◌+◌, ◌*◌, ◌^◌, ◌<◌, ℕ, List, All, IfErr, IfOk, Ok, OnErr, OnOk, length, slice_range, true, []};
ghost use Rattle.pg_base.specs.declared.limits.TheConstants.{MOST_SCRIPT_BYTES};
ghost use Rattle.sql_lex.specs.Words.{AreWords};
ghost use Rattle.sql_grammar.specs.Faults.{terminals};
ghost use Rattle.catalog.specs.Contents.{IsColumn, IsTable, table_at};
ghost use Rattle.catalog.specs.work.Entries.{statistics};
ghost use Rattle.catalog.specs.Indexes.{type_at};
ghost use Rattle.catalog.specs.Statistics.{AreAllowed, AreValuesOf, is_count};
ghost use Rattle.pg_base.specs.Names.{IsName};
ghost use Rattle.catalog.specs.Tables.{IsAcceptable};
ghost use Rattle.ddl_reader.specs.Block.{IsBlockEnd};
ghost use Rattle.ddl_reader.specs.work.Statements.{begins_ddl};
ghost use Rattle.ddl_reader.specs.Tables.{sizes_for, statistics_for, table as table_of};
ghost use Rattle.heap.specs.Stored.{Stored};
ghost use Rattle.sql_query.specs.Worlds.{world};
ghost use Rattle.store.specs.Actions as actions;
ghost use Rattle.store.specs.work.Actions as actions_work;
ghost use Rattle.store.specs.Kept.{load_looks};
ghost use Rattle.store.specs.work.Kept.{IsStoreOf, Kept, loaded_block, stored_of};
ghost use Rattle.statements.specs.work.Steps.{IsDefined, Refuses, RefusesData, RefusesDefinition};

use crate::end::End;
use crate::faults::{endless, refused_data, refused_statistics, refused_table, word_ends};
use catalog::{Catalog, ColumnStats};
use ddl_reader::{Ddl, Read, block_end, read_ddl};
use heap::Counters;
use pg_base::{ColNo, Steps, TableNo};
use pg_value::{Bytes, Columns};
use sql_lex::Tokens;
use std::alloc::Global;
use store::{Store, fill, gather, make};

/// Carries out the definition of these tokens and gives the offset after it. A refused one changes nothing.
pub(crate) fn define<C: Counters>(
    alloc: Global,
    text: &[u8],
    tokens: &Tokens,
    catalog: &mut Catalog,
    store: &mut Store<C>,
    reads: &mut Steps<C::Looks>,
) -> Result<u32, End>
    requires short { length text.now ≤ MOST_SCRIPT_BYTES }
    requires words { (from : ℕ) × AreWords text.now from tokens.now }
    requires opens { begins_ddl (terminals text.now tokens.now) ≡ true }
    requires store { IsStoreOf catalog.old store.old }
    ensures defined { IfOk result (λ next.
        IsDefined (world catalog.old store.old.stored) (world catalog.new store.new.stored)
        text.now tokens.now next reads.old reads.new) }
    ensures refused { IfErr result (λ e.
        Refuses e (world catalog.old store.old.stored) text.now tokens.now reads.old reads.new) }
    ensures store { IsStoreOf catalog.new store.new }
    ensures unchanged { OnErr result ((catalog.new ≡ catalog.old) × (store.new ≡ store.old)) }
{
    let read = read_ddl(alloc, catalog, text, tokens)?;
    let Read { ddl, at, .. } = read;
    match ddl {
        Ddl::Table {
            name,
            names,
            columns,
        } => {
            let asked = NewTable {
                name,
                names,
                columns,
            };
            table(alloc, catalog, store, &at, asked)?;
            Ok(tokens.end())
        }
        Ddl::Rows { table, rows, pages } => {
            size(catalog, &at, table, rows, pages)?;
            Ok(tokens.end())
        }
        Ddl::Column { table, col, stats } => {
            describe(catalog, &at, table, col, stats)?;
            Ok(tokens.end())
        }
        Ddl::Analyze { table } => {
            gather(alloc, catalog, store, table, reads)?;
            Ok(tokens.end())
        }
        Ddl::Copy { table, start } => data(catalog, store, text, table, start, reads),
    }
}

/// What CREATE TABLE says of its table: the columns stand in the order of their names.
#[derive(Drop)]
struct NewTable {
    name: Bytes,
    names: Vec<Bytes>,
    columns: Columns,
}

/// Makes the table whose name and columns' names stand at these offsets.
fn table<C: Counters>(
    alloc: Global,
    catalog: &mut Catalog,
    store: &mut Store<C>,
    at: &[u32],
    asked: NewTable,
) -> Result<(), End>
    requires store { IsStoreOf catalog.old store.old }
    requires width { length asked.names.items ≡ length asked.columns }
    requires name { IsName asked.name }
    requires names { All IsName asked.names.items }
    requires places { length at.now ≡ length asked.names.items + 1 }
    requires within { All (λ a. a ≤ 2 ^ 31) at.now }
    ensures accepted { OnOk result (IsAcceptable catalog.old asked.name asked.names.items) }
    ensures made { OnOk result
        (actions_work.IsWorldAfter (actions.make asked.name asked.names.items asked.columns)
        catalog.old store.old catalog.new store.new) }
    ensures refused { IfErr result (λ e.
        RefusesDefinition e (world catalog.old store.old.stored) []
        (table_of asked.name asked.names.items asked.columns) at.now) }
    ensures store { IsStoreOf catalog.new store.new }
    ensures unchanged { OnErr result ((catalog.new ≡ catalog.old) × (store.new ≡ store.old)) }
{
    let NewTable {
        name,
        names,
        columns,
    } = asked;
    let ends = word_ends(alloc, at, &name, &names)?;
    match make(alloc, catalog, store, name, names, columns) {
        Ok(()) => Ok(()),
        Err(refused) => Err(refused_table(refused, at, &ends)),
    }
}

/// Keeps the rows and pages of a table, whose numbers stand at these offsets. Its rows stay as they are.
fn size(catalog: &mut Catalog, at: &[u32], table: TableNo, rows: u64, pages: u64) -> Result<(), End>
    requires table { IsTable catalog.old table }
    requires places { length at.now ≡ 2 }
    ensures accepted { OnOk result ((is_count rows ≡ true) × (is_count pages ≡ true)) }
    ensures made { OnOk result ((stored : List Stored) →
        world catalog.new stored ≡
        actions.after (world catalog.old stored) (actions.size table rows pages)) }
    ensures refused { (stored : List Stored) (text : List ℕ) → IfErr result (λ e.
        RefusesDefinition e (world catalog.old stored) text (sizes_for table rows pages) at.now) }
    ensures store { (k : Kept) → IsStoreOf catalog.old k → IsStoreOf catalog.new k }
    ensures unchanged { OnErr result (catalog.new ≡ catalog.old) }
{
    match catalog.set_rows(table, rows, pages) {
        Ok(()) => Ok(()),
        Err(refused) => Err(refused_statistics(refused, at)),
    }
}

/// Keeps what is known of a column of a table, whose numbers and literals stand at these offsets. The table's rows stay as they
/// are.
fn describe(
    catalog: &mut Catalog,
    at: &[u32],
    table: TableNo,
    col: ColNo,
    stats: ColumnStats,
) -> Result<(), End>
    requires table { IsTable catalog.old table }
    requires column { IsColumn catalog.old table col }
    requires values { AreValuesOf (type_at (table_at catalog.old table).columns col)
        (statistics stats) }
    requires places { length at.now ≡
        2 + (2 * length (statistics stats).common + length (statistics stats).histogram) }
    ensures accepted { OnOk result (AreAllowed (statistics stats)) }
    ensures made { OnOk result ((stored : List Stored) →
        world catalog.new stored ≡
        actions.after (world catalog.old stored) (actions.describe table col (statistics stats))) }
    ensures refused { (stored : List Stored) (text : List ℕ) → IfErr result (λ e.
        RefusesDefinition e (world catalog.old stored) text
        (statistics_for table col (statistics stats)) at.now) }
    ensures store { (k : Kept) → IsStoreOf catalog.old k → IsStoreOf catalog.new k }
    ensures unchanged { OnErr result (catalog.new ≡ catalog.old) }
{
    match catalog.set_column(table, col, stats) {
        Ok(()) => Ok(()),
        Err(refused) => Err(refused_statistics(refused, at)),
    }
}

/// Loads the COPY data that begin at an offset into a table, and gives the offset after the line that ends them.
fn data<C: Counters>(
    catalog: &mut Catalog,
    store: &mut Store<C>,
    text: &[u8],
    table: TableNo,
    start: u32,
    reads: &mut Steps<C::Looks>,
) -> Result<u32, End>
    requires short { length text.now ≤ MOST_SCRIPT_BYTES }
    requires start { start ≤ length text.now }
    requires store { IsStoreOf catalog.old store.old }
    requires table { IsTable catalog.old table }
    ensures loaded { IfOk result (λ next. (end : ℕ) × (s : Stored) ×
        IsBlockEnd text.now start end next ×
        (loaded_block store.old table (slice_range text.now start end) ≡ Ok s) ×
        actions_work.IsWorldAfter (actions.fill table s) catalog.old store.old catalog.new store.new ×
        (reads.new ≡ reads.old + load_looks catalog.old table (stored_of store.old table) s)) }
    ensures refused { IfErr result (λ e.
        RefusesData e (world catalog.old store.old.stored) text.now table start
        reads.old reads.new) }
    ensures store { IsStoreOf catalog.new store.new }
    ensures unchanged { OnErr result ((catalog.new ≡ catalog.old) × (store.new ≡ store.old)) }
{
    let Some((end, next)) = block_end(text, start) else {
        return Err(End::Fault(endless(start)));
    };
    match fill(
        catalog,
        store,
        table,
        &text[start as usize..end as usize],
        reads,
    ) {
        Ok(()) => Ok(next),
        Err(refused) => Err(refused_data(refused, table, start)),
    }
}
