//! Binding the names of a SELECT to a catalogue.

ghost use Rattle.std.specs.Prelude.{◌≡◌, ◌<◌, ◌∷◌, length, IfOk, map};
ghost use Rattle.pg_expr.specs.work.View.{cond};
ghost use Rattle.sql_grammar.specs.FromParts.{groups_after};
ghost use Rattle.expr_reader.specs.Conditions.{next, the_column};
ghost use Rattle.query_reader.specs.work.Adds.{Adds, AddsAll};
ghost use Rattle.query_reader.specs.Binding.{alone, bound_from, bound_over, item_columns, list_columns, named_in};
ghost use Rattle.query_reader.specs.work.Scope.{visible_in};
ghost use Rattle.query_reader.specs.work.Select.{IsBoundByItself, IsBoundAs};
ghost use Rattle.query_reader.specs.work.From.{HaveNames};
ghost use Rattle.query_reader.specs.work.Reads.{StandsAfterFrom, IfAfterFrom, StandsFrom, IfFrom};

use crate::conditions::{classes_within, written_conjuncts};
use crate::named;
use crate::order::order_by;
use crate::relations::Relations;
use crate::sources::Sources;
use crate::window::window;
use crate::written::Item;
use catalog::{Catalog, RangeTable};
use eq_classes::OrderItem;
use expr_reader::{Cursor, Found, Scope, found_column};
use pg_base::{Memory, Refusal};
use pg_expr::{ColRef, Expr, Exprs};
use sql_lex::Token;
use sql_query::{ColList, OrderList, Prepared};
use std::alloc::Global;

/// Adds the column that was found.
fn add_column(
    found: Found,
    qualifier: Token,
    name: Token,
    all: &mut Vec<ColRef>,
) -> Result<(), Refusal>
    ensures { Adds (next (the_column found qualifier name) alone) all.old.items all.new.items result }
{
    all.push(found_column(found, qualifier, name)?)?;
    Ok(())
}

/// Adds the columns of an item over the visible relations, or tells its first fault: an unknown qualifier (42P01), an unknown
/// column (42703) or one that several have (42702), with its word.
pub fn add_item(relations: &Relations, item: &Item, all: &mut Vec<ColRef>) -> Result<(), Refusal>
    ensures { Adds (item_columns (visible_in relations.now) item.now)
        all.old.items all.new.items result }
{
    match item {
        Item::Every => relations.add_all(all),
        Item::EveryOf(qualifier) => relations.add_under(qualifier, all),
        Item::Bare(name) => {
            let found = relations.column(None, name.bytes.items());
            add_column(found, name.token, name.token, all)
        }
        Item::Qualified(qualifier, name) => {
            let found = relations.column(Some(qualifier.bytes.items()), name.bytes.items());
            add_column(found, qualifier.token, name.token, all)
        }
    }
}

/// Adds the columns of all items from the left, up to the first fault, as [`add_item`] tells it.
pub fn add_items(
    relations: &Relations,
    items: &[Item],
    all: &mut Vec<ColRef>,
) -> Result<(), Refusal>
    ensures { AddsAll (list_columns (visible_in relations.now) items.now)
        all.old.items all.new.items result }
{
    for item in items {
        add_item(relations, item, all)?;
    }
    Ok(())
}

/// The columns of an order.
fn order_columns(alloc: Global, order: &[OrderItem]) -> Result<Vec<ColRef>, Memory>
    ensures { IfOk result (λ xs. xs.items ≡ map (λ (i : OrderItem). i.col) order.now) }
{
    let mut all = Vec::new(alloc);
    for item in order {
        all.push(item.col)?;
    }
    Ok(all)
}

/// Every column that is named: those shown, then those of the conjuncts, then those of ORDER BY.
fn used_columns(
    alloc: Global,
    select: &[ColRef],
    written: &[Expr],
    order: &[OrderItem],
) -> Result<Vec<ColRef>, Memory>
    ensures { IfOk result (λ xs. xs.items ≡ named_in select.now (map cond written.now) order.now) }
{
    let mut used = Vec::from_slice(alloc, select)?;
    let mut more = named::columns_in_all(alloc, written)?;
    let mut last = order_columns(alloc, order)?;
    more.append(&mut last)?;
    used.append(&mut more)?;
    Ok(used)
}

/// The query over the relations of FROM with the conjuncts of its conditions: WHERE, then the items, then ORDER BY, then LIMIT
/// and OFFSET, then the limits.
fn over(
    alloc: Global,
    sources: Sources,
    items: &[Item],
    start: Token,
    from: &mut Cursor,
) -> Result<Prepared, Refusal>
    requires some { 0 < length sources.range }
    requires words { StandsAfterFrom from.old }
    ensures meaning { IfAfterFrom from.old
        (λ w y v. IsBoundAs (bound_over start items.now w y v sources.entry) result) }
    ensures itself { IfOk result (λ q. HaveNames q.range → IsBoundByItself sources.entry.contents q) }
{
    let Sources {
        cat,
        relations,
        mut written,
    } = sources;
    let range = Relations::new(cat, &relations, 0);
    let mut more = written_conjuncts(alloc, &range, from)?;
    written.append(&mut more.items)?;
    let mut select = Vec::new(alloc);
    add_items(&range, items, &mut select)?;
    let order = order_by(alloc, &range, &select, from)?;
    let window = window(from)?;
    let classes = classes_within(alloc, &range, &written, &order, start)?;
    let used = used_columns(alloc, &select, &written, &order)?;
    drop(range);
    Ok(Prepared {
        range: RangeTable::from_vec(relations),
        classes,
        select: ColList::from_vec(select),
        order: OrderList::from_vec(order),
        used: ColList::from_vec(used),
        where_all: Exprs::from_vec(written),
        window,
    })
}

/// The query that a SELECT means, or its first fault of binding: `items`, with its FROM, its WHERE, its ORDER BY, its LIMIT
/// and its OFFSET next, in a statement that begins at `start`.
pub fn bind(
    alloc: Global,
    cat: &Catalog,
    items: &[Item],
    start: Token,
    from: &mut Cursor,
) -> Result<Prepared, Refusal>
    requires { StandsFrom from.old }
    ensures meaning { IfFrom from.old (λ g gs w y v.
        IsBoundAs (bound_from cat.now start items.now (g ∷ groups_after gs) w y v) result) }
    ensures itself { IfOk result (λ q. HaveNames q.range → IsBoundByItself cat.now q) }
{
    let mut sources = Sources::new(alloc, cat);
    sources.take_groups(alloc, from)?;
    over(alloc, sources, items, start, from)
}
