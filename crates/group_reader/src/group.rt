//! A SELECT that groups: its words read, and its names bound.

ghost use Rattle.std.specs.Prelude.{◌≡◌, ◌<◌, ◌≤◌, ◌^◌, ℕ, All, IfOk, drop, length, map};
ghost use Rattle.pg_expr.specs.work.View.{cond};
ghost use Rattle.path_cost.specs.work.Columns.{IsOver};
ghost use Rattle.sql_lex.specs.Words.{AreWords};
ghost use Rattle.sql_grammar.specs.Faults.{terminals};
ghost use Rattle.sql_grammar.specs.Syntax.{GroupedSelect};
ghost use Rattle.expr_reader.specs.Conditions.{next};
ghost use Rattle.query_reader.specs.Binding.{limited, past_limit};
ghost use Rattle.query_reader.specs.work.Conveys.{Conveys};
ghost use Rattle.query_reader.specs.work.From.{AreRelations, HaveNames};
ghost use Rattle.group_reader.specs.work.Seen.{IsReady, grouped_of, words_said};
ghost use Rattle.group_reader.specs.work.Selected.{IsGroupedAt, IsGroupedByItself, BindsGrouped, BindsGroupsOver, BindsGroups};
ghost use Rattle.group_reader.specs.work.Written.{columns_written, sorts_written};
ghost use Rattle.group_reader.specs.work.Reads.{begins_distinct, begins_items, behind_distinct, StandsGrouping, IfGrouping, StandsGroupedAfterFrom, StandsGroupedFrom};

use crate::lists::{Lists, bound_lists, class_items, items, used};
use crate::read::{group_columns, list, sorts};
use crate::written::{Listed, Words};
use catalog::{Catalog, RangeTable};
use eq_classes::Classes;
use expr_reader::Cursor;
use pg_base::{Memory, Refusal, TableNo};
use pg_expr::{ColRef, Expr, Exprs};
use pg_value::Bytes;
use query_reader::{Relations, Sources, classes_within, written_conjuncts};
use sql_grammar::{Class, Free, Symbol};
use sql_lex::{Token, Tokens};
use sql_query::{ColList, Grouped, Item, ItemList, OrderList, Prepared};
use std::alloc::Global;

/// What a grouped query is made of beside its relations and its conjuncts.
#[derive(Drop)]
pub struct Ready {
    /// Its lists.
    pub lists: Lists,
    /// The classes of its conjuncts, of ORDER BY and of the GROUP BY columns.
    pub classes: Classes,
    /// Every column that it names.
    pub used: Vec<ColRef>,
    /// What it shows.
    pub items: Vec<Item>,
}

/// The lists bound over these relations and conjuncts, and what is made of them.
fn make_ready(
    alloc: Global,
    relations: &Relations,
    written: &[Expr],
    words: &Words,
    start: Token,
) -> Result<Ready, Refusal>
    requires over { All (IsOver relations.now.contents relations.now.range) (map cond written.now) }
    requires are { AreRelations relations.now.contents relations.now.range }
    requires all { relations.now.first ≡ 0 }
    requires keys { length words.now.columns.items < 2 ^ 32 }
    ensures meaning { Conveys (IsReady relations.now (map cond written.now))
        (next (words_said relations.now words.now)
        (limited start (past_limit (map cond written.now)))) result }
    ensures few { IfOk result (λ r. length r.lists.keys.items < 2 ^ 32) }
{
    let lists = bound_lists(alloc, relations, words)?;
    let behind = class_items(alloc, &lists.order, &lists.keys)?;
    let classes = classes_within(alloc, relations, written, &behind, start)?;
    let used = used(alloc, &lists, written)?;
    let items = items(alloc, &lists.keys, &lists.parts)?;
    Ok(Ready {
        lists,
        classes,
        used,
        items,
    })
}

/// The lists as they are written, of which the first is read: GROUP BY and ORDER BY are next.
fn words(
    alloc: Global,
    listed: Vec<Listed>,
    distinct: bool,
    from: &mut Cursor,
) -> Result<Words, Memory>
    requires { StandsGrouping from.old }
    ensures read { IfOk result (λ w. IfGrouping from.old (λ b y.
        (w.columns.items ≡ columns_written b) × (w.sorts.items ≡ sorts_written y))) }
    ensures listed { IfOk result (λ w. w.listed.items ≡ listed.items) }
    ensures distinct { IfOk result (λ w. w.distinct ≡ distinct) }
{
    let columns = group_columns(alloc, from)?;
    let sorts = sorts(alloc, from)?;
    Ok(Words {
        listed,
        columns,
        distinct,
        sorts,
    })
}

/// The grouped query of these relations and conjuncts.
fn finished(
    alloc: Global,
    relations: Vec<(TableNo, Bytes)>,
    written: Vec<Expr>,
    ready: Ready,
) -> Grouped
    ensures { result ≡ grouped_of relations.items (map cond written.items) ready }
{
    let Ready {
        lists,
        classes,
        used,
        items,
    } = ready;
    let Lists { order, keys, .. } = lists;
    let base = Prepared {
        range: RangeTable::from_vec(relations),
        classes,
        select: ColList::from_vec(Vec::new(alloc)),
        order: OrderList::from_vec(Vec::new(alloc)),
        used: ColList::from_vec(used),
        where_all: Exprs::from_vec(written),
        window: None,
    };
    Grouped {
        base,
        keys: ColList::from_vec(keys),
        items: ItemList::from_vec(items),
        order: OrderList::from_vec(order),
    }
}

/// The grouped query over the relations of FROM with the conjuncts of its conditions: WHERE, then the lists, then the limits.
fn over(
    alloc: Global,
    sources: Sources,
    listed: Vec<Listed>,
    distinct: bool,
    start: Token,
    from: &mut Cursor,
) -> Result<Grouped, Refusal>
    requires some { 0 < length sources.range }
    requires few { length listed.items < 2 ^ 32 }
    requires room { length from.old < 2 ^ 32 }
    requires words { StandsGroupedAfterFrom from.old }
    ensures meaning { BindsGroupsOver start sources.entry listed.items distinct from.old result }
    ensures itself { IfOk result (λ g. HaveNames g.base.range →
        IsGroupedByItself sources.entry.contents g) }
{
    let Sources {
        cat,
        relations,
        mut written,
    } = sources;
    let range = Relations::new(cat, &relations, 0);
    let mut more = written_conjuncts(alloc, &range, from)?;
    written.append(&mut more.items)?;
    let words = words(alloc, listed, distinct, from)?;
    let ready = make_ready(alloc, &range, &written, &words, start)?;
    drop(range);
    Ok(finished(alloc, relations, written, ready))
}

/// The grouped query that a SELECT means, or its first fault of binding: this list, with its FROM, its WHERE, its GROUP BY and
/// its ORDER BY next, in a statement that begins at this token.
fn bind(
    alloc: Global,
    cat: &Catalog,
    listed: Vec<Listed>,
    distinct: bool,
    start: Token,
    from: &mut Cursor,
) -> Result<Grouped, Refusal>
    requires few { length listed.items < 2 ^ 32 }
    requires room { length from.old < 2 ^ 32 }
    requires words { StandsGroupedFrom from.old }
    ensures meaning { BindsGroups cat.now start listed.items distinct from.old result }
    ensures itself { IfOk result (λ q. HaveNames q.base.range → IsGroupedByItself cat.now q) }
{
    let mut sources = Sources::new(alloc, cat);
    sources.take_groups(alloc, from)?;
    over(alloc, sources, listed, distinct, start, from)
}

/// Whether a list begins with the next word: a `*` or a name.
fn begins_list(from: &Cursor) -> bool
    ensures { result ≡ begins_items from.now }
{
    match from.peek() {
        Some(Class::Mark(Symbol::Star)) => true,
        Some(Class::Name(_)) => true,
        _ => false,
    }
}

/// Whether DISTINCT stands behind the SELECT at this token: a list begins behind it.
fn is_distinct(text: &[u8], tokens: &Tokens, first: u32) -> bool
    requires short { length text.now ≤ 2 ^ 31 }
    requires words { (from : ℕ) × AreWords text.now from tokens.now }
    requires within { first ≤ length tokens.now }
    ensures { result ≡ begins_distinct (drop 1 (terminals text.now (drop first tokens.now))) }
{
    let mut from = Cursor::new(text, tokens, first);
    from.skip(1);
    if !from.takes_free(Free::Distinct) {
        return false;
    }
    begins_list(&from)
}

/// Passes over DISTINCT, where it stands there.
fn pass(from: &mut Cursor, distinct: bool)
    ensures { from.new ≡ behind_distinct distinct from.old }
{
    if distinct {
        from.skip(1);
    }
}

/// The SELECT that groups of a statement, read as a whole; it begins at token `first`.
pub fn read_grouped(
    alloc: Global,
    cat: &Catalog,
    text: &[u8],
    tokens: &Tokens,
    first: u32,
) -> Result<Grouped, Refusal>
    requires short { length text.now ≤ 2 ^ 31 }
    requires words { (from : ℕ) × AreWords text.now from tokens.now }
    requires within { first < length tokens.now }
    requires select { (x : GroupedSelect) × IsGroupedAt text.now tokens.now first x }
    ensures meaning { BindsGrouped cat.now text.now tokens.now first result }
    ensures itself { IfOk result (IsGroupedByItself cat.now) }
{
    let mut from = Cursor::new(text, tokens, first);
    from.skip(1);
    let distinct = is_distinct(text, tokens, first);
    pass(&mut from, distinct);
    let listed = list(alloc, &mut from)?;
    bind(alloc, cat, listed, distinct, tokens.items()[0], &mut from)
}
