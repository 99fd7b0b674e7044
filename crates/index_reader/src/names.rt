//! Names of columns, and the columns of INCLUDE.

ghost use Rattle.std.specs.Prelude.{◌≡◌, ◌≤◌, List, ◌∷◌, length, IfOk, OnOk};
ghost use Rattle.pg_base.specs.declared.faults.Code.TheVariants.{S3};
ghost use Rattle.sql_grammar.specs.Terminals.{Terminal, Ident, t_name};
ghost use Rattle.sql_grammar.specs.Words.{words_of_include};
ghost use Rattle.catalog.specs.Contents.{IsTable, IsColumn};
ghost use Rattle.catalog.specs.Tables.{column_named};
ghost use Rattle.expr_reader.specs.work.Reads.{Reads};
ghost use Rattle.expr_reader.specs.Lists.{further_parts};
ghost use Rattle.ddl_reader.specs.Statistics.{known};
ghost use Rattle.index_reader.specs.Keys.{name_bound, include_names};
ghost use Rattle.index_reader.specs.work.Reads.{ends_include, words_of_names_left, ReadsEach};
ghost use Rattle.expr_reader.specs.work.Reading.{StandsFirst, IfFirst, IfNext, StandsList, IfList};

use catalog::Catalog;
use expr_reader::{Cursor, Spelled};
use pg_base::{Code, ColNo, Fault, Refusal, TableNo};
use sql_grammar::{Free, Symbol, fault_at};
use sql_lex::Token;
use std::alloc::Global;

/// A column, and the token of its name.
#[derive(Clone, Copy, Debug, PartialEq, Eq)]
pub struct NamedColumn {
    /// The column.
    pub col: ColNo,
    /// Where its name stands.
    pub token: Token,
}

/// The column of this name, of a table. An unknown one is refused (42703) at its name.
pub fn column_of(cat: &Catalog, table: TableNo, name: &Spelled) -> Result<ColNo, Fault>
    requires { IsTable cat.now table }
    ensures told { result ≡ known S3 name.now.token (column_named cat.now table name.now.bytes) }
    ensures there { IfOk result (IsColumn cat.now table) }
{
    match cat.column(table, name.bytes.items()) {
        Some(col) => Ok(col),
        None => Err(fault_at(Code::S3, name.token)),
    }
}

/// The column that is named next.
fn one_name(
    alloc: Global,
    cat: &Catalog,
    table: TableNo,
    from: &mut Cursor,
) -> Result<NamedColumn, Refusal>
    requires there { IsTable cat.now table }
    requires words { (n : Ident) × (rest : List Terminal) × (from.old ≡ t_name n ∷ rest) }
    ensures read { IfNext t_name from.old
        (λ n rest. Reads (λ k. k) (name_bound cat.now table n) rest result from.new) }
    ensures ahead { OnOk result (length from.new ≤ length from.old) }
{
    let name = from.expect_name(alloc)?;
    let col = column_of(cat, table, &name)?;
    Ok(NamedColumn {
        col,
        token: name.token,
    })
}

/// The columns that are named next, up to `)`, which is taken.
fn names(
    alloc: Global,
    cat: &Catalog,
    table: TableNo,
    from: &mut Cursor,
) -> Result<Vec<NamedColumn>, Refusal>
    requires there { IsTable cat.now table }
    requires words { StandsList words_of_names_left from.old }
    ensures { IfList words_of_names_left from.old (λ n ns m rest.
        ReadsEach (name_bound cat.now table) (n ∷ further_parts (λ x. x) ns) rest result from.new) }
{
    let mut all = Vec::new(alloc);
    let first = one_name(alloc, cat, table, from)?;
    all.push(first)?;
    'more: while from.takes_mark(Symbol::Comma) {
        let next = one_name(alloc, cat, table, from)?;
        all.push(next)?;
    }
    from.skip(1);
    Ok(all)
}

/// The columns of INCLUDE; none where it is not next.
pub fn include(
    alloc: Global,
    cat: &Catalog,
    table: TableNo,
    from: &mut Cursor,
) -> Result<Vec<NamedColumn>, Refusal>
    requires there { IsTable cat.now table }
    requires words { StandsFirst words_of_include ends_include from.old }
    ensures { IfFirst words_of_include ends_include from.old (λ c rest.
        ReadsEach (name_bound cat.now table) (include_names c) rest result from.new) }
{
    if !from.takes_free(Free::Include) {
        return Ok(Vec::new(alloc));
    }
    from.skip(1);
    names(alloc, cat, table, from)
}
