//! Reading the words of a grouped SELECT that the grammar has accepted. Each part is asked for only where the words left are
//! those of some tree, so that only running out of memory is left to refuse it.

ghost use Rattle.std.specs.Prelude.{◌≡◌, ◌∷◌, ◌≤◌, length, IfOk};
ghost use Rattle.sql_grammar.specs.Terminals.{t_key};
ghost use Rattle.sql_grammar.specs.work.Unique.{ends_col};
ghost use Rattle.sql_grammar.specs.Words.{words_of_col, words_of_group_by, words_of_group_columns, words_of_grouped_item, words_of_order, words_of_ordering, words_of_orderings};
ghost use Rattle.sql_grammar.specs.declared.class.Word.TheVariants.{From};
ghost use Rattle.expr_reader.specs.Lists.{further_parts};
ghost use Rattle.query_reader.specs.work.Ends.{ends_order, ends_ordering};
ghost use Rattle.group_reader.specs.work.Ends.{ends_columns, ends_listed};
ghost use Rattle.group_reader.specs.work.Written.{called_over, column_written, columns_listed, columns_written, listed_of, sorting_of, sorts_written};
ghost use Rattle.expr_reader.specs.work.Reading.{StandsFirst, Yields, StandsList, IfList, StandsListed, IfListed};
ghost use Rattle.query_reader.specs.work.Reads.{StandsAfterName, YieldsAfterName};
ghost use Rattle.group_reader.specs.work.Reads.{StandsArgument, YieldsArgument, words_of_grouped_list};

use crate::written::{Column, Listed, Sorting};
use expr_reader::{Cursor, Spelled, descending, nulls_first};
use pg_base::Memory;
use query_reader::Item;
use sql_grammar::{Symbol, Word};
use std::alloc::Global;

/// The column that is next.
fn column(alloc: Global, from: &mut Cursor) -> Result<Column, Memory>
    requires { StandsFirst words_of_col ends_col from.old }
    ensures read { IfOk result
        (λ x. Yields words_of_col ends_col column_written from.old x from.new) }
    ensures ahead { length from.new ≤ length from.old }
{
    let first = from.expect_name(alloc)?;
    if !from.takes_mark(Symbol::Dot) {
        return Ok(Column {
            qualifier: None,
            name: first,
        });
    }
    let name = from.expect_name(alloc)?;
    Ok(Column {
        qualifier: Some(first),
        name,
    })
}

/// What a call is of, behind its `(`, with its `)`.
fn call(alloc: Global, from: &mut Cursor, name: Spelled) -> Result<Listed, Memory>
    requires { StandsArgument from.old }
    ensures read { IfOk result (λ x. YieldsArgument (called_over name) from.old x from.new) }
    ensures ahead { length from.new ≤ length from.old }
{
    if from.takes_mark(Symbol::Star) {
        from.skip(1);
        return Ok(Listed::OverRows(name));
    }
    let column = column(alloc, from)?;
    from.skip(1);
    Ok(Listed::OverColumn(name, column))
}

/// An item whose first name is taken and that is no call.
fn after_name(alloc: Global, from: &mut Cursor, first: Spelled) -> Result<Listed, Memory>
    requires { StandsAfterName from.old }
    ensures read { IfOk result (λ x. YieldsAfterName first columns_listed from.old x from.new) }
    ensures ahead { length from.new ≤ length from.old }
{
    if !from.takes_mark(Symbol::Dot) {
        let word = first.token;
        return Ok(Listed::Columns(Item::Bare(first), word));
    }
    let word = from.token();
    if from.takes_mark(Symbol::Star) {
        return Ok(Listed::Columns(Item::EveryOf(first), word));
    }
    let second = from.expect_name(alloc)?;
    Ok(Listed::Columns(Item::Qualified(first, second), word))
}

/// The item of the list that is next.
fn listed(alloc: Global, from: &mut Cursor) -> Result<Listed, Memory>
    requires { StandsFirst words_of_grouped_item ends_listed from.old }
    ensures read { IfOk result
        (λ x. Yields words_of_grouped_item ends_listed listed_of from.old x from.new) }
    ensures ahead { length from.new ≤ length from.old }
{
    let word = from.token();
    if from.takes_mark(Symbol::Star) {
        return Ok(Listed::Columns(Item::Every, word));
    }
    let first = from.expect_name(alloc)?;
    if from.takes_mark(Symbol::Open) {
        return call(alloc, from, first);
    }
    after_name(alloc, from, first)
}

/// The items of the list, up to FROM.
fn items(alloc: Global, from: &mut Cursor) -> Result<Vec<Listed>, Memory>
    requires { StandsList words_of_grouped_list from.old }
    ensures { IfOk result (λ v. IfList words_of_grouped_list from.old (λ i is f rest.
        (v.items ≡ listed_of i ∷ further_parts listed_of is) × (from.new ≡ t_key From f ∷ rest))) }
{
    let mut all = Vec::new(alloc);
    all.push(listed(alloc, from)?)?;
    'more: while from.takes_mark(Symbol::Comma) {
        all.push(listed(alloc, from)?)?;
    }
    Ok(all)
}

/// The list and FROM, from the word after SELECT on.
pub fn list(alloc: Global, from: &mut Cursor) -> Result<Vec<Listed>, Memory>
    requires { StandsList words_of_grouped_list from.old }
    ensures { IfOk result (λ v. IfList words_of_grouped_list from.old (λ i is f rest.
        (v.items ≡ listed_of i ∷ further_parts listed_of is) × (from.new ≡ rest))) }
{
    let items = items(alloc, from)?;
    from.skip(1);
    Ok(items)
}

/// The columns that are next, with a comma between them.
fn columns(alloc: Global, from: &mut Cursor) -> Result<Vec<Column>, Memory>
    requires { StandsListed words_of_col words_of_group_columns ends_columns from.old }
    ensures { IfOk result (λ v.
        IfListed words_of_col words_of_group_columns ends_columns from.old (λ c cs rest.
        (v.items ≡ column_written c ∷ further_parts column_written cs) × (from.new ≡ rest))) }
{
    let mut all = Vec::new(alloc);
    all.push(column(alloc, from)?)?;
    'more: while from.takes_mark(Symbol::Comma) {
        all.push(column(alloc, from)?)?;
    }
    Ok(all)
}

/// The columns of GROUP BY; none where no GROUP is next.
pub fn group_columns(alloc: Global, from: &mut Cursor) -> Result<Vec<Column>, Memory>
    requires { StandsFirst words_of_group_by ends_columns from.old }
    ensures { IfOk result
        (λ v. Yields words_of_group_by ends_columns columns_written from.old v.items from.new) }
{
    if !from.takes(Word::Group) {
        return Ok(Vec::new(alloc));
    }
    from.skip(1);
    columns(alloc, from)
}

/// The item of ORDER BY that is next.
fn sorting(alloc: Global, from: &mut Cursor) -> Result<Sorting, Memory>
    requires { StandsFirst words_of_ordering ends_ordering from.old }
    ensures read { IfOk result
        (λ x. Yields words_of_ordering ends_ordering sorting_of from.old x from.new) }
    ensures ahead { length from.new ≤ length from.old }
{
    let column = column(alloc, from)?;
    let descending = descending(from);
    let nulls_first = nulls_first(from, descending);
    Ok(Sorting {
        column,
        descending,
        nulls_first,
    })
}

/// The items of ORDER BY that are next, with a comma between them.
fn sortings(alloc: Global, from: &mut Cursor) -> Result<Vec<Sorting>, Memory>
    requires { StandsListed words_of_ordering words_of_orderings ends_order from.old }
    ensures { IfOk result (λ v.
        IfListed words_of_ordering words_of_orderings ends_order from.old (λ o os rest.
        (v.items ≡ sorting_of o ∷ further_parts sorting_of os) × (from.new ≡ rest))) }
{
    let mut all = Vec::new(alloc);
    all.push(sorting(alloc, from)?)?;
    'more: while from.takes_mark(Symbol::Comma) {
        all.push(sorting(alloc, from)?)?;
    }
    Ok(all)
}

/// The items of ORDER BY; none where no ORDER is next.
pub fn sorts(alloc: Global, from: &mut Cursor) -> Result<Vec<Sorting>, Memory>
    requires { StandsFirst words_of_order ends_order from.old }
    ensures { IfOk result
        (λ v. Yields words_of_order ends_order sorts_written from.old v.items from.new) }
{
    if !from.takes(Word::Order) {
        return Ok(Vec::new(alloc));
    }
    from.skip(1);
    sortings(alloc, from)
}
