//! The columns of CREATE TABLE.

ghost use Rattle.std.specs.Prelude.{◌≡◌, ◌≤◌, ◌<◌, List, ◌∷◌, ◌++◌, length, IfOk, OnOk};
ghost use Rattle.sql_grammar.specs.Terminals.{Terminal};
ghost use Rattle.sql_grammar.specs.Syntax.{ColDef};
ghost use Rattle.sql_grammar.specs.Words.{words_of_nulls, words_of_coldef};
ghost use Rattle.ddl_reader.specs.declared.columns.ColumnDef.{ColumnDef};
ghost use Rattle.ddl_reader.specs.Columns.{refuses_null, defined_column, further, BoundColumn, Kind, bound_column, bound_all};
ghost use Rattle.ddl_reader.specs.work.Columns.{written_column, type_read as type_read_of};
ghost use Rattle.ddl_reader.specs.work.AsMeant.{ends_column, ends_nulls, words_of_body, IsAsMeant, Tells, seen, AreColumnsMeant};
ghost use Rattle.expr_reader.specs.work.Reading.{IfFirst, StandsFirst, Yields, StandsList, IfList, LeavesRest};

use crate::types::{TypeRead, type_of, type_read};
use crate::words::name;
use expr_reader::{Cursor, Spelled};
use pg_base::Refusal;
use pg_value::Column;
use sql_grammar::{Symbol, Word};
use std::alloc::Global;

/// A column with its type.
#[derive(Debug, Drop)]
pub struct ColumnDef {
    /// Its name.
    pub name: Spelled,
    /// Its type, and whether it takes no NULL.
    pub column: Column,
}

/// Whether NOT NULL stands next. It is taken, and so is NULL.
fn not_null(from: &mut Cursor) -> bool
    ensures ahead { length from.new ≤ length from.old }
    ensures read { Yields words_of_nulls ends_nulls refuses_null from.old result from.new }
{
    if from.takes(Word::Not) {
        from.skip(1);
        return true;
    }
    if from.takes(Word::Null) {
        return false;
    }
    false
}

/// The column of this name and of this type. An unknown type is refused (42704) at its first word, and a number that it does
/// not take (22023) at the number.
fn bind(name: Spelled, kind: TypeRead, not_null: bool) -> Result<ColumnDef, Refusal>
    ensures { (k : Kind) → kind ≡ type_read_of k →
        Tells ColumnDef BoundColumn seen result (bound_column (written_column name k not_null)) }
{
    let typed = type_of(kind)?;
    Ok(ColumnDef {
        name,
        column: Column { typed, not_null },
    })
}

/// The next column.
fn one_column(alloc: Global, from: &mut Cursor) -> Result<ColumnDef, Refusal>
    requires { StandsFirst words_of_coldef ends_column from.old }
    ensures read { IfFirst words_of_coldef ends_column from.old
        (λ x rest. IsAsMeant ColumnDef BoundColumn seen result (bound_column (defined_column x))) }
    ensures left { OnOk result (LeavesRest words_of_coldef ends_column from.old from.new) }
    ensures ahead { OnOk result (length from.new ≤ length from.old) }
{
    let title = name(alloc, from)?;
    let kind = type_read(alloc, from)?;
    let not_null = not_null(from);
    bind(title, kind, not_null)
}

/// The columns up to `)`, which is left.
pub fn columns(alloc: Global, from: &mut Cursor) -> Result<Vec<ColumnDef>, Refusal>
    requires { StandsList words_of_body from.old }
    ensures some { IfOk result (λ v. 0 < length v.items) }
    ensures read { IfList words_of_body from.old
        (λ x xs m rest. AreColumnsMeant result (bound_all (defined_column x ∷ further xs))) }
{
    let mut all = Vec::new(alloc);
    let first = one_column(alloc, from)?;
    all.push(first)?;
    'more: while from.takes_mark(Symbol::Comma) {
        let next = one_column(alloc, from)?;
        all.push(next)?;
    }
    Ok(all)
}
