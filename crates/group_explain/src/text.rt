//! The text of a plan that groups.

ghost use Rattle.std.specs.Prelude.{◌≡◌, ◌<◌, ◌++◌, All, IfOk, OnOk, length, true};
ghost use Rattle.std.specs.Fmt.{decimal};
ghost use Rattle.reply.specs.explain_Texts.{figures_text};
ghost use Rattle.sql_query.specs.Grouped.{GroupedQuery};
ghost use Rattle.sql_query.specs.WellBound.{IsWellBound};
ghost use Rattle.group_explain.specs.GroupPlans as plans;
ghost use Rattle.group_explain.specs.work.GroupPlans as plans_work;
ghost use Rattle.group_explain.specs.work.Plans.{IsOverInput, IsReady, chosen_lines, chosen_text};
ghost use Rattle.group_explain.specs.Texts as texts;
ghost use Rattle.group_explain.specs.work.Texts as texts_work;
ghost use Rattle.group_explain.specs.Texts.{group_query, input_depth as depth_of};

use crate::chosen::Chosen;
use crate::keys::{group_keys, line_keys};
use catalog::Catalog;
use cost_rules::Pair;
use group_values::{Form, group_cost};
use pathkeys::Keys;
use pg_base::Memory;
use reply::explain::{numbers, plan_text_at, put_keys};
use reply::join_search::all_relations;
use sql_query::Grouped;
use std::alloc::Global;

/// Appends keys by their first members among all relations.
fn put_all_keys(text: &mut Vec<u8>, cat: &Catalog, g: &Grouped, keys: &Keys) -> Result<(), Memory>
    requires bound { IsWellBound cat.now g.now.base }
    requires classes { All (λ n. n < length g.now.base.classes.classes) keys.now }
    ensures { OnOk result
        (text.new.items ≡ text.old.items ++ texts.all_keys_text cat.now g.now keys.now) }
{
    put_keys(text, cat, &g.base, all_relations(&g.base), keys.items())
}

/// Appends the name of a form.
fn put_form(text: &mut Vec<u8>, form: Form) -> Result<(), Memory>
    ensures { OnOk result (text.new.items ≡ text.old.items ++ texts.form_name form) }
{
    match form {
        Form::Sorted => text.extend_from_slice(b"GroupAggregate by "),
        Form::Hashed => text.extend_from_slice(b"HashAggregate by "),
    }
}

/// Appends what the node that groups is.
fn put_group_title(
    text: &mut Vec<u8>,
    cat: &Catalog,
    g: &Grouped,
    form: Form,
    keys: &Keys,
) -> Result<(), Memory>
    requires bound { IsWellBound cat.now g.now.base }
    requires keys { keys.now ≡ plans.group_keys (group_query g.now) }
    ensures { OnOk result
        (text.new.items ≡ text.old.items ++ texts.group_title cat.now g.now form) }
{
    if keys.items().is_empty() {
        text.extend_from_slice(b"Aggregate")
    } else {
        put_form(text, form)?;
        put_all_keys(text, cat, g, keys)
    }
}

/// Appends what a node costs in all, and its estimated rows.
fn put_figures(alloc: Global, text: &mut Vec<u8>, total: u64, rows: u64) -> Result<(), Memory>
    ensures { OnOk result (text.new.items ≡ text.old.items ++ figures_text (decimal total) rows) }
{
    let cost = Pair { startup: 0, total };
    let figures = numbers(alloc, None, cost, rows)?;
    text.extend_from_slice(figures.as_bytes())
}

/// Appends the line of the node that groups, without what stands before it.
fn put_group_line(
    alloc: Global,
    text: &mut Vec<u8>,
    cat: &Catalog,
    g: &Grouped,
    x: &Chosen,
    total: u64,
) -> Result<(), Memory>
    requires bound { IsWellBound cat.now g.now.base }
    ensures { OnOk result
        (text.new.items ≡ text.old.items ++ texts_work.titled_line cat.now g.now x.now.plan total) }
{
    let keys = group_keys(alloc, g)?;
    put_group_title(text, cat, g, x.plan.form, &keys)?;
    put_figures(alloc, text, total, x.plan.rows)
}

/// Appends the line of the sort of the groups.
fn put_sort_line(
    alloc: Global,
    text: &mut Vec<u8>,
    cat: &Catalog,
    g: &Grouped,
    x: &Chosen,
) -> Result<(), Memory>
    requires bound { IsWellBound cat.now g.now.base }
    ensures { OnOk result
        (text.new.items ≡
        text.old.items ++ texts.sort_line cat.now g.now x.now.plan.cost x.now.plan.rows) }
{
    let keys = line_keys(alloc, g)?;
    text.extend_from_slice(b"Sort by ")?;
    put_all_keys(text, cat, g, &keys)?;
    put_figures(alloc, text, x.plan.cost, x.plan.rows)
}

/// Appends the line of the sort of the groups, and that of the node that groups beneath.
fn put_both_lines(
    alloc: Global,
    text: &mut Vec<u8>,
    cat: &Catalog,
    g: &Grouped,
    x: &Chosen,
) -> Result<(), Memory>
    requires ready { IsReady cat.now g.now x.now }
    ensures { OnOk result
        (text.new.items ≡ text.old.items ++ chosen_lines cat.now g.now x.now true) }
{
    put_sort_line(alloc, text, cat, g, x)?;
    text.extend_from_slice(b"  ->  ")?;
    let total = group_cost(x.plan.form, &x.task, x.input.cost);
    put_group_line(alloc, text, cat, g, x, total)
}

/// Appends the lines above the input plan.
fn put_lines_above(
    alloc: Global,
    text: &mut Vec<u8>,
    cat: &Catalog,
    g: &Grouped,
    x: &Chosen,
) -> Result<(), Memory>
    requires ready { IsReady cat.now g.now x.now }
    ensures { OnOk result
        (text.new.items ≡
        text.old.items ++ chosen_lines cat.now g.now x.now x.now.plan.sort_after) }
{
    if x.plan.sort_after {
        put_both_lines(alloc, text, cat, g, x)
    } else {
        put_group_line(alloc, text, cat, g, x, x.plan.cost)
    }
}

/// The depth of the first line of the input: beneath the node that groups, which may stand beneath the sort of the groups.
fn input_depth(sort_after: bool) -> u8
    ensures { result ≡ depth_of sort_after }
{
    if sort_after { 2 } else { 1 }
}

/// The text of the plan chosen for a grouped query, whose base is in the order that the chosen input is asked in, as
/// `choose_groups` leaves it: the line of the sort of the groups, where there is one on top, that of the node that groups, with
/// what it costs in 1/400 of a sequential page and its estimated groups, and the lines of the input plan beneath. The error
/// means out of memory.
pub fn group_text(alloc: Global, cat: &Catalog, g: &Grouped, x: &Chosen) -> Result<Vec<u8>, Memory>
    requires ready { IsReady cat.now g.now x.now }
    ensures { (first : GroupedQuery) → IsOverInput x.now.plan.form first g.now →
        IfOk result (λ text. text.items ≡ chosen_text cat.now first x.now) }
{
    let mut text = Vec::new(alloc);
    put_lines_above(alloc, &mut text, cat, g, x)?;
    let depth = input_depth(x.plan.sort_after);
    let input = plan_text_at(alloc, cat, &g.base, &x.input, depth)?;
    text.extend_from_slice(input.items())?;
    Ok(text)
}
