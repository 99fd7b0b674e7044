//! Definitions carried out on a catalogue, and queries read over it.

ghost use Rattle.std.specs.Prelude.{◌≤◌, ◌<◌, ◌^◌, ℕ, IfOk, length};
ghost use Rattle.sql_lex.specs.Words.{AreWords};
ghost use Rattle.sql_query.specs.Queries.{width};
ghost use Rattle.sql_query.specs.WellBound.{IsWellBound};
ghost use Rattle.plan_tree.specs.work.Reads.{IsOverTables};

use catalog::{Catalog, CatalogFault};
use ddl_reader::{Ddl, Read, is_index, read_ddl};
use expr_reader::Cursor;
use index_reader::{ReadIndex, read_index};
use pg_base::Refusal;
use query_reader::read_select;
use sql_grammar::Word;
use sql_lex::{Tokens, lex_statement};
use sql_query::Prepared;
use std::alloc::{AllocError, Global};

/// The most bytes of a statement.
const MOST_BYTES: usize = 1000;

/// Why a statement was not taken.
#[derive(Debug, Drop)]
pub enum Stopped {
    /// A statement has more than `MOST_BYTES` bytes.
    Long,
    /// The statement is none of those that are taken.
    Other,
    /// The statement was not read.
    Refused(Refusal),
    /// The catalogue refused it.
    Catalog(CatalogFault),
    /// Out of memory.
    Memory,
}

impl From<AllocError> for Stopped {
    fn from(_: AllocError) -> Stopped {
        Stopped::Memory
    }
}

impl From<Refusal> for Stopped {
    fn from(refusal: Refusal) -> Stopped {
        Stopped::Refused(refusal)
    }
}

impl From<CatalogFault> for Stopped {
    fn from(fault: CatalogFault) -> Stopped {
        Stopped::Catalog(fault)
    }
}

/// Carries out a new table or statistics. COPY and ANALYZE change nothing, since no rows are loaded.
fn describe(alloc: Global, cat: &mut Catalog, text: &[u8], tokens: &Tokens) -> Result<(), Stopped>
    requires short { length text.now ≤ 2 ^ 31 }
    requires words { (from : ℕ) × AreWords text.now from tokens.now }
{
    let read = read_ddl(alloc, cat, text, tokens)?;
    let Read { ddl, .. } = read;
    match ddl {
        Ddl::Table {
            name,
            names,
            columns,
        } => {
            cat.add_table(name, names, columns)?;
        }
        Ddl::Rows { table, rows, pages } => cat.set_rows(table, rows, pages)?,
        Ddl::Column { table, col, stats } => cat.set_column(table, col, stats)?,
        Ddl::Copy { .. } | Ddl::Analyze { .. } => {}
    }
    Ok(())
}

/// Carries out a definition. COPY loads no rows.
pub fn define(alloc: Global, cat: &mut Catalog, text: &[u8]) -> Result<(), Stopped> {
    if text.len() > MOST_BYTES {
        return Err(Stopped::Long);
    }
    let tokens = lex_statement(alloc, text, 0)?;
    if !is_index(text, &tokens) {
        return describe(alloc, cat, text, &tokens);
    }
    let read = read_index(alloc, cat, text, &tokens)?;
    let ReadIndex { name, def, .. } = read;
    cat.add_index(name, def)?;
    Ok(())
}

/// Whether the first word is SELECT.
fn is_select(text: &[u8], tokens: &Tokens) -> bool
    requires short { length text.now ≤ 2 ^ 31 }
    requires words { (from : ℕ) × AreWords text.now from tokens.now }
{
    let mut from = Cursor::new(text, tokens, 0);
    from.takes(Word::Select)
}

/// The query that a SELECT means.
pub fn query(alloc: Global, cat: &Catalog, text: &[u8]) -> Result<Prepared, Stopped>
    ensures bound { IfOk result (IsWellBound cat.now) }
    ensures over { IfOk result (IsOverTables cat.now) }
    ensures some { IfOk result (λ q. 0 < width q) }
{
    if text.len() > MOST_BYTES {
        return Err(Stopped::Long);
    }
    let tokens = lex_statement(alloc, text, 0)?;
    if !is_select(text, &tokens) {
        return Err(Stopped::Other);
    }
    let q = read_select(alloc, cat, text, &tokens, 0)?;
    Ok(q)
}
