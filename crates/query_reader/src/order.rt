//! ORDER BY: its items read and bound.

ghost use Rattle.std.specs.Prelude.{◌≤◌, All, IfOk, OnOk, length};
ghost use Rattle.sql_grammar.specs.Words.{words_of_col, words_of_ordering, words_of_orderings, words_of_order};
ghost use Rattle.sql_grammar.specs.work.Unique.{ends_col};
ghost use Rattle.query_reader.specs.work.Ends.{ends_order, ends_ordering};
ghost use Rattle.query_reader.specs.work.Scope.{visible_in, IsSeenColumn};
ghost use Rattle.expr_reader.specs.work.Reading.{StandsFirst, StandsListed};
ghost use Rattle.query_reader.specs.work.Reads.{ReadsOrderColumn, ReadsOrdering, ReadsOrderings, ReadsOrderBy};

use crate::relations::Relations;
use eq_classes::OrderItem;
use expr_reader::{ColumnPlaces, Cursor, Scope, descending, found_column, nulls_first};
use pg_base::Refusal;
use pg_expr::ColRef;
use sql_grammar::{Symbol, Word};
use std::alloc::Global;

/// The column that is next: a name alone is sought in the select list first.
fn order_column(
    alloc: Global,
    relations: &Relations,
    select: &ColumnPlaces,
    from: &mut Cursor,
) -> Result<ColRef, Refusal>
    requires { StandsFirst words_of_col ends_col from.old }
    ensures read { ReadsOrderColumn (visible_in relations.now) select.now from.old result from.new }
    ensures ahead { length from.new ≤ length from.old }
{
    let first = from.expect_name(alloc)?;
    if !from.takes_mark(Symbol::Dot) {
        let found = relations.ordering(first.bytes.items(), select);
        return Ok(found_column(found, first.token, first.token)?);
    }
    let second = from.expect_name(alloc)?;
    let found = relations.column(Some(first.bytes.items()), second.bytes.items());
    Ok(found_column(found, first.token, second.token)?)
}

/// The item that is next.
fn order_item(
    alloc: Global,
    relations: &Relations,
    select: &ColumnPlaces,
    from: &mut Cursor,
) -> Result<OrderItem, Refusal>
    requires { StandsFirst words_of_ordering ends_ordering from.old }
    ensures read { ReadsOrdering (visible_in relations.now) select.now from.old result from.new }
    ensures ahead { OnOk result (length from.new ≤ length from.old) }
{
    let col = order_column(alloc, relations, select, from)?;
    let descending = descending(from);
    let nulls_first = nulls_first(from, descending);
    Ok(OrderItem {
        col,
        descending,
        nulls_first,
    })
}

/// The items from the left.
fn order_items(
    alloc: Global,
    relations: &Relations,
    select: &ColumnPlaces,
    from: &mut Cursor,
) -> Result<Vec<OrderItem>, Refusal>
    requires { StandsListed words_of_ordering words_of_orderings ends_order from.old }
    ensures { ReadsOrderings (visible_in relations.now) select.now from.old result from.new }
{
    let mut all = Vec::new(alloc);
    let first = order_item(alloc, relations, select, from)?;
    all.push(first)?;
    'more: while from.takes_mark(Symbol::Comma) {
        let next = order_item(alloc, relations, select, from)?;
        all.push(next)?;
    }
    Ok(all)
}

/// The items of ORDER BY where the list shows these columns, or its first fault; none where no ORDER is next.
pub fn order_by(
    alloc: Global,
    relations: &Relations,
    select: &[ColRef],
    from: &mut Cursor,
) -> Result<Vec<OrderItem>, Refusal>
    requires { StandsFirst words_of_order ends_order from.old }
    ensures read { ReadsOrderBy (visible_in relations.now) select.now from.old result from.new }
    ensures over { IfOk result (λ v. All (λ i. IsSeenColumn relations.now i.col) v.items) }
{
    if !from.takes(Word::Order) {
        return Ok(Vec::new(alloc));
    }
    relations.see_their_columns();
    from.skip(1);
    order_items(alloc, relations, &ColumnPlaces::of(select), from)
}
