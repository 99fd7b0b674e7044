//! CREATE TABLE.

ghost use Rattle.std.specs.Prelude.{◌≡◌, ◌≤◌, ◌<◌, length, map, slice_get, Some, MatchResult};
ghost use Rattle.pg_base.specs.declared.faults.Code.TheVariants.{S15};
ghost use Rattle.pg_base.specs.declared.faults.Limit.TheVariants.{Columns as ColumnLimit};
ghost use Rattle.pg_base.specs.declared.faults.Refusal.TheVariants as refusal;
ghost use Rattle.pg_base.specs.declared.limits.TheConstants.{MOST_COLUMNS};
ghost use Rattle.sql_grammar.specs.Faults.{fault_at};
ghost use Rattle.ddl_reader.specs.declared.columns.ColumnDef.{ColumnDef};
ghost use Rattle.ddl_reader.specs.work.AsMeant.{seen, SpellsTable};
ghost use Rattle.ddl_reader.specs.Tables.{table_reading};
ghost use Rattle.ddl_reader.specs.work.Readings.{IsMadeAs, ReadsTable};

use crate::columns::{ColumnDef, columns};
use crate::ddl::{Ddl, Read};
use crate::words::{name, word_fault};
use expr_reader::{Cursor, Spelled};
use pg_base::{Code, Limit, MOST_COLUMNS, Refusal};
use pg_value::Columns;
use std::alloc::Global;

/// The table of this name with these columns.
fn made(alloc: Global, name: Spelled, defs: Vec<ColumnDef>) -> Result<Read, Refusal>
    requires some { 0 < length defs.items }
    requires few { length defs.items ≤ MOST_COLUMNS }
    ensures { IsMadeAs result (table_reading name.bytes name.token (map seen defs.items)) }
{
    let mut names = Vec::new(alloc);
    let mut columns = Vec::new(alloc);
    let mut at = Vec::new(alloc);
    let Spelled { bytes, token } = name;
    at.push(token.start)?;
    for def in defs {
        let ColumnDef { name, column } = def;
        let Spelled { bytes, token } = name;
        names.push(bytes)?;
        columns.push(column)?;
        at.push(token.start)?;
    }
    Ok(Read {
        ddl: Ddl::Table {
            name: bytes,
            names,
            columns: Columns::from_vec(columns),
        },
        at,
    })
}

/// The limit of a table's columns (54000): the fault is at the first name too many.
fn limit(defs: &[ColumnDef]) -> Result<(), Refusal>
    ensures { MatchResult result
        (λ _. length defs.now ≤ MOST_COLUMNS)
        (λ e. (d : ColumnDef) × (slice_get defs.now MOST_COLUMNS ≡ Some d) × (e ≡ refusal.Fault (fault_at (S15 ColumnLimit) d.name.token))) }
{
    if defs.len() > MOST_COLUMNS {
        return Err(word_fault(Code::S15(Limit::Columns), defs[MOST_COLUMNS].name.token));
    }
    Ok(())
}

/// CREATE TABLE from its name on. Its columns are bound from the left (42704), then counted (54000).
pub fn table(alloc: Global, from: &mut Cursor) -> Result<Read, Refusal>
    requires { SpellsTable from.old }
    ensures { ReadsTable from.old result }
{
    let title = name(alloc, from)?;
    from.skip(1);
    let defs = columns(alloc, from)?;
    limit(&defs)?;
    made(alloc, title, defs)
}
