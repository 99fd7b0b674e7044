//! The lists of a grouped SELECT together: which columns are grouped, and what follows from them.

ghost use Rattle.std.specs.Prelude.{◌≡◌, ◌<◌, ◌≤◌, ◌^◌, ◌++◌, IfOk, length, map, filter_map};
ghost use Rattle.eq_classes.specs.declared.order.OrderItem.{OrderItem};
ghost use Rattle.pg_expr.specs.work.View.{cond};
ghost use Rattle.group_query.specs.Grouping.{plain_item};
ghost use Rattle.group_query.specs.Shapes.{place_in};
ghost use Rattle.query_reader.specs.work.Conveys.{Conveys};
ghost use Rattle.query_reader.specs.work.Scope.{visible_in};
ghost use Rattle.group_reader.specs.Binding.{column_by_call, column_of_part, item_in, named_in_lists, shown_column, shown_columns, ungrouped_items, ungrouped_part};
ghost use Rattle.group_reader.specs.work.Binding.{ungrouped_words};
ghost use Rattle.group_reader.specs.work.Meaning.{first_of, keys_said, last_word};
ghost use Rattle.group_reader.specs.work.Seen.{lists_of, with_found, words_said};

use crate::bind::{add_list, columns, sort_items};
use crate::parts::Part;
use crate::written::{Sorting, Words};
use eq_classes::OrderItem;
use expr_reader::ColumnPlaces;
use pg_base::{Code, Memory, Refusal};
use pg_expr::{ColRef, Expr};
use query_reader::{Relations, columns_in_all};
use sql_grammar::fault_at;
use sql_lex::Token;
use sql_query::Item;
use std::alloc::Global;

/// The lists of a grouped SELECT with their names bound.
#[derive(Drop)]
pub struct Lists {
    /// What the list shows.
    pub parts: Vec<Part>,
    /// The items of ORDER BY.
    pub order: Vec<OrderItem>,
    /// The GROUP BY columns.
    pub keys: Vec<ColRef>,
}

/// Adds what is found.
fn add_found(found: Option<ColRef>, all: &mut Vec<ColRef>) -> Result<(), Memory>
    ensures { IfOk result (λ _. all.new.items ≡ with_found all.old.items found) }
{
    if let Some(column) = found {
        all.push(column)?;
    }
    Ok(())
}

/// The column that a part shows.
fn shown(part: Part) -> Option<ColRef>
    ensures { result ≡ shown_column part }
{
    match part {
        Part::Shown(column, _) => Some(column),
        Part::Called(_) => None,
    }
}

/// The columns that are shown.
fn shown_columns(alloc: Global, parts: &[Part]) -> Result<Vec<ColRef>, Memory>
    ensures { IfOk result (λ v. v.items ≡ shown_columns parts.now) }
{
    let mut all = Vec::new(alloc);
    for part in parts {
        add_found(shown(*part), &mut all)?;
    }
    Ok(all)
}

/// The word of the error of a part that shows a column that is not grouped.
fn ungrouped_part(keys: &ColumnPlaces, part: Part) -> Option<Token>
    ensures { result ≡ ungrouped_part keys.now part }
{
    match part {
        Part::Shown(column, word) => { if keys.has(column) { None } else { Some(word) } }
        Part::Called(_) => None,
    }
}

/// The first such word of the list.
fn first_part(keys: &ColumnPlaces, parts: &[Part]) -> Option<Token>
    ensures { result ≡ first_of (filter_map (ungrouped_part keys.now) parts.now) }
{
    for part in parts {
        let word = ungrouped_part(keys, *part);
        if word.is_some() {
            return word;
        }
    }
    None
}

/// The last word of the first item of ORDER BY whose column is not grouped; the items stand beside them as they are written.
fn first_item(keys: &ColumnPlaces, order: &[OrderItem], sorts: &[Sorting]) -> Option<Token>
    ensures { result ≡ first_of (ungrouped_items keys.now order.now (map last_word sorts.now)) }
{
    let end = order.len().min(sorts.len());
    for n in 0..end {
        if !keys.has(order[n].col) {
            return Some(sorts[n].column.name.token);
        }
    }
    None
}

/// The word of the first column that is none of these: in the list, then in ORDER BY.
fn first_outside(
    keys: &ColumnPlaces,
    parts: &[Part],
    order: &[OrderItem],
    sorts: &[Sorting],
) -> Option<Token>
    ensures { result ≡ first_of (filter_map (ungrouped_part keys.now) parts.now
        ++ ungrouped_items keys.now order.now (map last_word sorts.now)) }
{
    let word = first_part(keys, parts);
    if word.is_some() {
        return word;
    }
    first_item(keys, order, sorts)
}

/// The word of the first column that is not grouped: in the list, then in ORDER BY. The GROUP BY columns are placed once for
/// all of them.
fn first_ungrouped(lists: &Lists, sorts: &[Sorting]) -> Option<Token>
    ensures { result ≡ first_of (ungrouped_words (lists_of lists.now) (map last_word sorts.now)) }
{
    first_outside(
        &ColumnPlaces::of(&lists.keys),
        &lists.parts,
        &lists.order,
        sorts,
    )
}

/// The columns by which rows are grouped: those that the list shows behind DISTINCT, else those of GROUP BY. Where a list shows
/// more than can be numbered, there is no memory.
fn keys(
    alloc: Global,
    relations: &Relations,
    words: &Words,
    parts: &[Part],
) -> Result<Vec<ColRef>, Refusal>
    requires written { length words.now.columns.items < 2 ^ 32 }
    ensures meaning { Conveys (λ xs v. v.items ≡ xs)
        (keys_said (visible_in relations.now) words.now.distinct words.now.columns.items parts.now) result }
    ensures few { IfOk result (λ v. length v.items < 2 ^ 32) }
{
    if !words.distinct {
        return columns(alloc, relations, &words.columns);
    }
    let shown = shown_columns(alloc, parts)?;
    if shown.len() > u32::MAX as usize {
        return Err(Refusal::Memory);
    }
    Ok(shown)
}

/// The lists with their names bound: the list first, then ORDER BY, then GROUP BY, then that what is shown and what orders is
/// grouped.
pub fn bound_lists(alloc: Global, relations: &Relations, words: &Words) -> Result<Lists, Refusal>
    requires written { length words.now.columns.items < 2 ^ 32 }
    ensures meaning { Conveys (λ m l. lists_of l ≡ m) (words_said relations.now words.now) result }
    ensures few { IfOk result (λ l. length l.keys.items < 2 ^ 32) }
{
    let mut parts = Vec::new(alloc);
    add_list(alloc, relations, &words.listed, &mut parts)?;
    let shown = shown_columns(alloc, &parts)?;
    let order = sort_items(alloc, relations, &shown, &words.sorts)?;
    let keys = keys(alloc, relations, words, &parts)?;
    let lists = Lists { parts, order, keys };
    match first_ungrouped(&lists, &words.sorts) {
        Some(word) => Err(Refusal::Fault(fault_at(Code::S18, word))),
        None => Ok(lists),
    }
}

/// The items of which the classes are made: those of ORDER BY, and behind them the GROUP BY columns.
pub fn class_items(
    alloc: Global,
    order: &[OrderItem],
    keys: &[ColRef],
) -> Result<Vec<OrderItem>, Memory>
    ensures { IfOk result (λ v. v.items ≡ order.now ++ map plain_item keys.now) }
{
    let mut all = Vec::from_slice(alloc, order)?;
    for key in keys {
        all.push(OrderItem {
            col: *key,
            descending: false,
            nulls_first: false,
        })?;
    }
    Ok(all)
}

/// The column that a call is over.
fn named_by(item: Item) -> Option<ColRef>
    ensures { result ≡ column_by_call item }
{
    match item {
        Item::Key(_) | Item::CountAll => None,
        Item::Count(column) | Item::Min(column) | Item::Max(column) => Some(column),
    }
}

/// The column that a part names.
fn column_of(part: Part) -> Option<ColRef>
    ensures { result ≡ column_of_part part }
{
    match part {
        Part::Shown(column, _) => Some(column),
        Part::Called(item) => named_by(item),
    }
}

/// The columns that the list names.
fn part_columns(alloc: Global, parts: &[Part]) -> Result<Vec<ColRef>, Memory>
    ensures { IfOk result (λ v. v.items ≡ filter_map column_of_part parts.now) }
{
    let mut all = Vec::new(alloc);
    for part in parts {
        add_found(column_of(*part), &mut all)?;
    }
    Ok(all)
}

/// The columns of an order.
fn order_columns(alloc: Global, order: &[OrderItem]) -> Result<Vec<ColRef>, Memory>
    ensures { IfOk result (λ xs. xs.items ≡ map (λ (i : OrderItem). i.col) order.now) }
{
    let mut all = Vec::new(alloc);
    for item in order {
        all.push(item.col)?;
    }
    Ok(all)
}

/// Every column that is named.
pub fn used(alloc: Global, lists: &Lists, written: &[Expr]) -> Result<Vec<ColRef>, Memory>
    ensures { IfOk result
        (λ v. v.items ≡ named_in_lists (lists_of lists.now) (map cond written.now)) }
{
    let mut used = part_columns(alloc, &lists.parts)?;
    let mut more = columns_in_all(alloc, written)?;
    let mut sorted = order_columns(alloc, &lists.order)?;
    let mut last = Vec::from_slice(alloc, &lists.keys)?;
    sorted.append(&mut last)?;
    more.append(&mut sorted)?;
    used.append(&mut more)?;
    Ok(used)
}

/// The place of a column among the GROUP BY columns, where it stands first; 0 where it does not stand there.
fn place(keys: &ColumnPlaces, column: ColRef) -> u32
    requires { length keys.now < 2 ^ 32 }
    ensures { result ≡ place_in keys.now column }
{
    match keys.place(column) {
        Some(place) => place as u32,
        None => 0,
    }
}

/// What a part shows.
fn item(keys: &ColumnPlaces, part: Part) -> Item
    requires { length keys.now < 2 ^ 32 }
    ensures { result ≡ item_in keys.now part }
{
    match part {
        Part::Shown(column, _) => Item::Key(place(keys, column)),
        Part::Called(item) => item,
    }
}

/// What the parts show, where the GROUP BY columns stand at these places.
fn items_at(alloc: Global, keys: &ColumnPlaces, parts: &[Part]) -> Result<Vec<Item>, Memory>
    requires { length keys.now < 2 ^ 32 }
    ensures { IfOk result (λ v. v.items ≡ map (item_in keys.now) parts.now) }
{
    let mut all = Vec::new(alloc);
    for part in parts {
        all.push(item(keys, *part))?;
    }
    Ok(all)
}

/// What the parts show. The GROUP BY columns are placed once for all of them.
pub fn items(alloc: Global, keys: &[ColRef], parts: &[Part]) -> Result<Vec<Item>, Memory>
    requires { length keys.now < 2 ^ 32 }
    ensures { IfOk result (λ v. v.items ≡ map (item_in keys.now) parts.now) }
{
    items_at(alloc, &ColumnPlaces::of(keys), parts)
}
