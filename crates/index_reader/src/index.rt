//! A new index from its name on.

ghost use Rattle.std.specs.Prelude.{◌≡◌, ◌≤◌, ◌++◌, ◌∷◌, map, option_map, true, IfOk, MatchResult};
ghost use Rattle.pg_base.specs.declared.faults.Code.TheVariants.{S2};
ghost use Rattle.pg_expr.specs.work.View.{cond};
ghost use Rattle.sql_grammar.specs.Terminals.{Terminal, Ident};
ghost use Rattle.sql_lex.specs.declared.tokens.Token.{Token};
ghost use Rattle.expr_reader.specs.Reading.{spelled};
ghost use Rattle.catalog.specs.Contents.{IsTable, IsLawful};
ghost use Rattle.catalog.specs.work.Entries.{index_of};
ghost use Rattle.catalog.specs.Tables.{table_named};
ghost use Rattle.ddl_reader.specs.Statistics.{known};
ghost use Rattle.index_reader.specs.Meaning.{index_reading, name_tokens};
ghost use Rattle.index_reader.specs.work.Reads.{index_meant, AreOfCand, ReadsCand};

use crate::keys::{KeyRead, keys};
use crate::limits::{check_atoms, check_columns, name_tokens_of};
use crate::methods::{MethodRead, using};
use crate::names::{NamedColumn, include};
use crate::predicate::predicate;
use crate::table_scope::TableScope;
use catalog::{Catalog, IndexDef};
use expr_reader::{Cursor, Spelled};
use opfamily::IndexKey;
use pg_base::{Code, ColNo, Fault, Memory, Refusal, TableNo};
use pg_expr::Expr;
use pg_value::Bytes;
use sql_grammar::fault_at;
use sql_lex::Token;
use std::alloc::Global;

/// A new index, bound to the catalogue, with the byte offsets in the script at which a refusal of the catalogue stands.
#[derive(Drop)]
pub struct ReadIndex {
    /// Its name, in small letters.
    pub name: Bytes,
    /// Its definition.
    pub def: IndexDef,
    /// The offset of the new name, then those of the key columns' names, then those of INCLUDE.
    pub at: Vec<u32>,
    /// The offset of the word after USING; 0, where there is none.
    pub method: u32,
}

/// The table of this name. An unknown one is refused (42P01) at its name.
fn table_of(cat: &Catalog, name: &Spelled) -> Result<TableNo, Fault>
    ensures told { result ≡ known S2 name.now.token (table_named cat.now name.now.bytes) }
    ensures there { IfOk result (IsTable cat.now) }
    ensures lawful { IsLawful cat.now }
{
    match cat.table(name.bytes.items()) {
        Some(table) => Ok(table),
        None => Err(fault_at(Code::S2, name.token)),
    }
}

/// The keys alone.
fn index_keys(alloc: Global, keys: &[KeyRead]) -> Result<Vec<IndexKey>, Memory>
    ensures { IfOk result (λ v. v.items ≡ map (λ (k : KeyRead). k.key) keys.now) }
{
    let mut all = Vec::new(alloc);
    for key in keys {
        all.push(key.key)?;
    }
    Ok(all)
}

/// The columns alone.
fn columns(alloc: Global, names: &[NamedColumn]) -> Result<Vec<ColNo>, Memory>
    ensures { IfOk result (λ v. v.items ≡ map (λ (n : NamedColumn). n.col) names.now) }
{
    let mut all = Vec::new(alloc);
    for name in names {
        all.push(name.col)?;
    }
    Ok(all)
}

/// The offsets of a new name and of columns' names.
fn places(alloc: Global, title: Token, names: &[Token]) -> Result<Vec<u32>, Memory>
    ensures { IfOk result (λ v. v.items ≡ title.start ∷ map (λ (u : Token). u.start) names.now) }
{
    let mut all = Vec::new(alloc);
    all.push(title.start)?;
    for name in names {
        all.push(name.start)?;
    }
    Ok(all)
}

/// What is bound of a new index, apart from its condition.
struct Parts {
    name: Spelled,
    table: TableNo,
    method: MethodRead,
    keys: Vec<KeyRead>,
    names: Vec<NamedColumn>,
}

/// The index of these parts, with its columns' names at these tokens.
fn made(
    alloc: Global,
    parts: Parts,
    tokens: &[Token],
    predicate: Option<Expr>,
) -> Result<ReadIndex, Memory>
    requires { tokens.now ≡ name_tokens parts.keys.items parts.names.items }
    ensures { IfOk result (λ r. (n : Ident) → parts.name ≡ spelled n →
        index_meant r ≡ index_reading n parts.table parts.method parts.keys.items parts.names.items (option_map cond predicate)) }
{
    let Parts {
        name,
        table,
        method,
        keys,
        names,
    } = parts;
    let Spelled { bytes, token } = name;
    let def = IndexDef {
        table,
        method: method.method,
        keys: index_keys(alloc, &keys)?,
        include: columns(alloc, &names)?,
        predicate,
    };
    Ok(ReadIndex {
        name: bytes,
        def,
        at: places(alloc, token, tokens)?,
        method: method.at,
    })
}

/// A new index from its name on, in a statement that begins at this token. Names bind from the left, then the condition; then
/// come the limits.
pub fn index(
    alloc: Global,
    cat: &Catalog,
    start: Token,
    from: &mut Cursor,
) -> Result<ReadIndex, Refusal>
    requires { AreOfCand from.old }
    ensures { ReadsCand cat.now start from.old result }
{
    let name = from.expect_name(alloc)?;
    from.skip(1);
    let of = from.expect_name(alloc)?;
    let table = table_of(cat, &of)?;
    let method = using(alloc, from)?;
    from.skip(1);
    let keys = keys(alloc, cat, table, method.method, from)?;
    let names = include(alloc, cat, table, from)?;
    let scope = TableScope::new(cat, table, of.bytes.items());
    let predicate = predicate(alloc, &scope, from)?;
    let tokens = name_tokens_of(alloc, &keys, &names)?;
    check_columns(&tokens)?;
    check_atoms(start, &predicate)?;
    let parts = Parts {
        name,
        table,
        method,
        keys,
        names,
    };
    Ok(made(alloc, parts, &tokens, predicate)?)
}
