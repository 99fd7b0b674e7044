//! The key columns.

ghost use Rattle.std.specs.Prelude.{◌≡◌, ◌≤◌, length, OnOk};
ghost use Rattle.catalog.specs.Contents.{IsTable, IsColumn, table_at};
ghost use Rattle.catalog.specs.Indexes.{type_at};
ghost use Rattle.index_reader.specs.Keys.{key_bound, all_key_trees};
ghost use Rattle.index_reader.specs.work.Reads.{words_of_keys_left, ReadsEach, StandsKey, ReadsIndexKey};
ghost use Rattle.expr_reader.specs.work.Reading.{StandsList, IfList};

use crate::classes::op_class;
use crate::names::column_of;
use catalog::Catalog;
use expr_reader::{Cursor, descending, nulls_first};
use opfamily::{IndexKey, Method};
use pg_base::{ColNo, Refusal, TableNo};
use pg_value::SqlType;
use sql_grammar::Symbol;
use sql_lex::Token;
use std::alloc::Global;

/// A key column, and the token of its name.
#[derive(Clone, Copy, Debug, PartialEq, Eq)]
pub struct KeyRead {
    /// The key.
    pub key: IndexKey,
    /// Where the column's name stands.
    pub token: Token,
}

/// The type of a column of a table.
fn type_of(cat: &Catalog, table: TableNo, col: ColNo) -> SqlType
    requires table { IsTable cat.now table }
    requires column { IsColumn cat.now table col }
    ensures { result ≡ type_at (table_at cat.now table).columns col }
{
    cat.columns(table).items()[col.0 as usize].typed
}

/// The key column that is next: its name is bound (42703), then its operator class (42704, 42804).
fn one_key(
    alloc: Global,
    cat: &Catalog,
    table: TableNo,
    method: Method,
    from: &mut Cursor,
) -> Result<KeyRead, Refusal>
    requires there { IsTable cat.now table }
    requires words { StandsKey from.old }
    ensures read { ReadsIndexKey cat.now table method from.old result from.new }
    ensures ahead { OnOk result (length from.new ≤ length from.old) }
{
    let name = from.expect_name(alloc)?;
    let col = column_of(cat, table, &name)?;
    let class = op_class(alloc, method, type_of(cat, table, col), from)?;
    let descending = descending(from);
    let nulls_first = nulls_first(from, descending);
    let key = IndexKey {
        col,
        class,
        descending,
        nulls_first,
    };
    Ok(KeyRead {
        key,
        token: name.token,
    })
}

/// The key columns up to `)`, which is taken.
pub fn keys(
    alloc: Global,
    cat: &Catalog,
    table: TableNo,
    method: Method,
    from: &mut Cursor,
) -> Result<Vec<KeyRead>, Refusal>
    requires there { IsTable cat.now table }
    requires words { StandsList words_of_keys_left from.old }
    ensures { IfList words_of_keys_left from.old (λ x xs m rest.
        ReadsEach (key_bound cat.now table method) (all_key_trees x xs) rest result from.new) }
{
    let mut all = Vec::new(alloc);
    let first = one_key(alloc, cat, table, method, from)?;
    all.push(first)?;
    'more: while from.takes_mark(Symbol::Comma) {
        let next = one_key(alloc, cat, table, method, from)?;
        all.push(next)?;
    }
    from.skip(1);
    Ok(all)
}
