//! Binding the lists of a grouped SELECT, item by item.

ghost use Rattle.std.specs.Prelude.{◌≡◌, Ok, map};
ghost use Rattle.expr_reader.specs.Lists.{bound_each};
ghost use Rattle.query_reader.specs.work.Conveys.{Conveys};
ghost use Rattle.query_reader.specs.work.Scope.{visible_in, types_in};
ghost use Rattle.group_reader.specs.work.Adds.{AddsParts};
ghost use Rattle.group_reader.specs.Binding.{has_no_least as has_no_least_of, over_column as over_one, over_rows as over_all};
ghost use Rattle.group_reader.specs.work.Meaning.{column_call, column_meant, columns_said, known as known_call, list_said, listed_said, shown_at, sorting_column as sorted_by, sorting_said};

use crate::parts::Part;
use crate::written::{Column, Listed, Sorting};
use eq_classes::OrderItem;
use expr_reader::{ColumnPlaces, Scope, Spelled, found_column};
use pg_base::{Code, Fault, Refusal};
use pg_expr::ColRef;
use pg_value::SqlType;
use query_reader::{Item, Relations, add_item};
use sql_grammar::fault_at;
use sql_lex::Token;
use sql_query::Item as Shown;
use std::alloc::Global;

/// The column that is meant, or its fault.
fn column(relations: &Relations, column: &Column) -> Result<ColRef, Fault>
    ensures { result ≡ column_meant (visible_in relations.now) column.now }
{
    let name = &column.name;
    match &column.qualifier {
        None => {
            let found = relations.column(None, name.bytes.items());
            found_column(found, name.token, name.token)
        }
        Some(alias) => {
            let found = relations.column(Some(alias.bytes.items()), name.bytes.items());
            found_column(found, alias.token, name.token)
        }
    }
}

/// The call of a name over all rows; None where there is none.
fn over_rows(name: &[u8]) -> Option<Shown>
    ensures { result ≡ over_all name.now }
{
    if name == b"count".as_slice() {
        Some(Shown::CountAll)
    } else {
        None
    }
}

/// Whether there is no min and no max of this type.
fn has_no_least(typed: SqlType) -> bool
    ensures { result ≡ has_no_least_of typed }
{
    matches!(typed, SqlType::Bool | SqlType::Uuid)
}

/// The call of a name over a column of this type; None where there is none.
fn over_column(name: &[u8], typed: SqlType, column: ColRef) -> Option<Shown>
    ensures { result ≡ over_one name.now typed column }
{
    if name == b"count".as_slice() {
        return Some(Shown::Count(column));
    }
    if has_no_least(typed) {
        return None;
    }
    if name == b"min".as_slice() {
        return Some(Shown::Min(column));
    }
    if name == b"max".as_slice() {
        return Some(Shown::Max(column));
    }
    None
}

/// The call, or the fault of its name where there is none.
fn known(call: Option<Shown>, name: Token) -> Result<Part, Fault>
    ensures { result ≡ known_call name call }
{
    match call {
        Some(call) => Ok(Part::Called(call)),
        None => Err(fault_at(Code::S9, name)),
    }
}

/// A call over a column, which is bound first.
fn call(relations: &Relations, name: &Spelled, over: &Column) -> Result<Part, Fault>
    ensures { result ≡
        column_call (visible_in relations.now) (types_in relations.now) name.now over.now }
{
    let over = column(relations, over)?;
    let typed = relations.typed(over);
    known(over_column(name.bytes.items(), typed, over), name.token)
}

/// Adds columns that are shown, each an error at this word where it is not grouped.
fn add_shown(columns: &[ColRef], word: Token, parts: &mut Vec<Part>) -> Result<(), Refusal>
    ensures { AddsParts (Ok (map (shown_at word) columns.now))
        parts.old.items parts.new.items result }
{
    for column in columns {
        parts.push(Part::Shown(*column, word))?;
    }
    Ok(())
}

/// Adds the columns of an item that is no call.
fn add_columns(
    alloc: Global,
    relations: &Relations,
    item: &Item,
    word: Token,
    parts: &mut Vec<Part>,
) -> Result<(), Refusal>
    ensures { AddsParts (columns_said (visible_in relations.now) item.now word)
        parts.old.items parts.new.items result }
{
    let mut columns = Vec::new(alloc);
    add_item(relations, item, &mut columns)?;
    add_shown(&columns, word, parts)
}

/// Adds an item of the list: its columns, or a call.
fn add_listed(
    alloc: Global,
    relations: &Relations,
    listed: &Listed,
    parts: &mut Vec<Part>,
) -> Result<(), Refusal>
    ensures { AddsParts (listed_said (visible_in relations.now) (types_in relations.now) listed.now)
        parts.old.items parts.new.items result }
{
    match listed {
        Listed::Columns(item, word) => add_columns(alloc, relations, item, *word, parts),
        Listed::OverRows(name) => {
            parts.push(known(over_rows(name.bytes.items()), name.token)?)?;
            Ok(())
        }
        Listed::OverColumn(name, over) => {
            parts.push(call(relations, name, over)?)?;
            Ok(())
        }
    }
}

/// Adds all items of the list from the left, up to the first fault.
pub fn add_list(
    alloc: Global,
    relations: &Relations,
    list: &[Listed],
    parts: &mut Vec<Part>,
) -> Result<(), Refusal>
    ensures { AddsParts (list_said (visible_in relations.now) (types_in relations.now) list.now)
        parts.old.items parts.new.items result }
{
    for listed in list {
        add_listed(alloc, relations, listed, parts)?;
    }
    Ok(())
}

/// The column of an item of ORDER BY: a name alone is sought among the columns that the list shows first.
fn sorting_column(
    relations: &Relations,
    shown: &ColumnPlaces,
    written: &Column,
) -> Result<ColRef, Fault>
    ensures { result ≡ sorted_by (visible_in relations.now) shown.now written.now }
{
    match &written.qualifier {
        None => {
            let name = &written.name;
            let found = relations.ordering(name.bytes.items(), shown);
            found_column(found, name.token, name.token)
        }
        Some(_) => column(relations, written),
    }
}

/// An item of ORDER BY.
fn sorting(
    relations: &Relations,
    shown: &ColumnPlaces,
    sorting: &Sorting,
) -> Result<OrderItem, Fault>
    ensures { result ≡ sorting_said (visible_in relations.now) shown.now sorting.now }
{
    let col = sorting_column(relations, shown, &sorting.column)?;
    Ok(OrderItem {
        col,
        descending: sorting.descending,
        nulls_first: sorting.nulls_first,
    })
}

/// The items of ORDER BY from the left, or the first fault, where these columns are shown.
fn sorted(
    alloc: Global,
    relations: &Relations,
    shown: &ColumnPlaces,
    sorts: &[Sorting],
) -> Result<Vec<OrderItem>, Refusal>
    ensures { Conveys (λ is v. v.items ≡ is)
        (bound_each (sorting_said (visible_in relations.now) shown.now) sorts.now) result }
{
    let mut all = Vec::new(alloc);
    for written in sorts {
        all.push(sorting(relations, shown, written)?)?;
    }
    Ok(all)
}

/// The items of ORDER BY from the left, or the first fault. The columns that are shown are placed once for all of them.
pub fn sort_items(
    alloc: Global,
    relations: &Relations,
    shown: &[ColRef],
    sorts: &[Sorting],
) -> Result<Vec<OrderItem>, Refusal>
    ensures { Conveys (λ is v. v.items ≡ is)
        (bound_each (sorting_said (visible_in relations.now) shown.now) sorts.now) result }
{
    sorted(alloc, relations, &ColumnPlaces::of(shown), sorts)
}

/// Columns from the left, or the first fault.
pub fn columns(
    alloc: Global,
    relations: &Relations,
    written: &[Column],
) -> Result<Vec<ColRef>, Refusal>
    ensures { Conveys (λ xs v. v.items ≡ xs)
        (bound_each (column_meant (visible_in relations.now)) written.now) result }
{
    let mut all = Vec::new(alloc);
    for one in written {
        all.push(column(relations, one)?)?;
    }
    Ok(all)
}
