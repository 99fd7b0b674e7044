//! Reading the words of a SELECT that the grammar has accepted. Each part is asked for only where the words left are those of
//! some tree, so that only running out of memory is left to refuse it.

ghost use Rattle.std.specs.Prelude.{◌≡◌, List, ◌∷◌, ◌≤◌, length, IfOk};
ghost use Rattle.sql_grammar.specs.Terminals.{Terminal, Ident, t_key, t_name};
ghost use Rattle.sql_grammar.specs.Words.{words_of_output, words_of_alias, words_of_joins, words_of_relation};
ghost use Rattle.sql_grammar.specs.declared.class.Word.TheVariants.{From};
ghost use Rattle.expr_reader.specs.Reading.{spelled};
ghost use Rattle.expr_reader.specs.work.Reading.{StandsFirst, IfFirst, Yields, YieldsNext, StandsList, IfList};
ghost use Rattle.query_reader.specs.Written.{item_of, items_of, alias_of as alias_value, source_of};
ghost use Rattle.query_reader.specs.work.Ends.{ends_item, ends_alias, ends_group};
ghost use Rattle.query_reader.specs.work.Joins.{IsNext};
ghost use Rattle.query_reader.specs.work.Reads.{words_of_list, StandsAfterName, YieldsAfterName};

use crate::written::{Item, Joining, Source};
use expr_reader::{Cursor, Spelled};
use pg_base::Memory;
use sql_grammar::{Symbol, Word};
use std::alloc::Global;

/// A name.
fn name(alloc: Global, from: &mut Cursor) -> Result<Spelled, Memory>
    requires { (n : Ident) × (rest : List Terminal) × (from.old ≡ t_name n ∷ rest) }
    ensures read { IfOk result (λ x. YieldsNext t_name spelled from.old x from.new) }
    ensures ahead { length from.new ≤ length from.old }
{
    let Some(found) = from.name(alloc)? else {
        unreachable!();
    };
    Ok(found)
}

/// The item of a SELECT's list that is next: a star, or a column. The refusal is out of memory alone.
pub fn list_item(alloc: Global, from: &mut Cursor) -> Result<Item, Memory>
    requires { StandsFirst words_of_output ends_item from.old }
    ensures read { IfOk result (λ x. Yields words_of_output ends_item item_of from.old x from.new) }
    ensures ahead { length from.new ≤ length from.old }
{
    if from.takes_mark(Symbol::Star) {
        return Ok(Item::Every);
    }
    let first = name(alloc, from)?;
    after_name(alloc, from, first)
}

/// An item whose first name is taken: the rest of it is next. The refusal is out of memory alone.
pub fn after_name(alloc: Global, from: &mut Cursor, first: Spelled) -> Result<Item, Memory>
    requires { StandsAfterName from.old }
    ensures read { IfOk result (λ x. YieldsAfterName first item_of from.old x from.new) }
    ensures ahead { length from.new ≤ length from.old }
{
    if !from.takes_mark(Symbol::Dot) {
        return Ok(Item::Bare(first));
    }
    if from.takes_mark(Symbol::Star) {
        return Ok(Item::EveryOf(first));
    }
    let second = name(alloc, from)?;
    Ok(Item::Qualified(first, second))
}

/// An alias, where there is one.
fn alias(alloc: Global, from: &mut Cursor) -> Result<Option<Spelled>, Memory>
    requires { StandsFirst words_of_alias ends_alias from.old }
    ensures { IfOk result (λ x. Yields words_of_alias ends_alias alias_value from.old x from.new) }
{
    if from.takes(Word::As) {
        return Ok(Some(name(alloc, from)?));
    }
    from.name(alloc)
}

/// A relation of FROM.
pub fn source(alloc: Global, from: &mut Cursor) -> Result<Source, Memory>
    requires { StandsFirst words_of_relation ends_alias from.old }
    ensures { IfOk result (λ x. Yields words_of_relation ends_alias source_of from.old x from.new) }
{
    let table = name(alloc, from)?;
    let alias = alias(alloc, from)?;
    Ok(Source { table, alias })
}

/// How the next relation of a group is joined, by the words before it; None where no join is next.
pub fn joining(from: &mut Cursor) -> Option<Joining>
    requires { StandsFirst words_of_joins ends_group from.old }
    ensures { IfFirst words_of_joins ends_group from.old (λ js rest. IsNext result js rest from.new) }
{
    if from.takes(Word::Cross) {
        from.skip(1);
        return Some(Joining::Cross);
    }
    if from.takes(Word::Inner) {
        from.skip(1);
        return Some(Joining::On);
    }
    if from.takes(Word::Join) {
        return Some(Joining::On);
    }
    None
}

/// The items of the list, up to FROM.
fn items(alloc: Global, from: &mut Cursor) -> Result<Vec<Item>, Memory>
    requires { StandsList words_of_list from.old }
    ensures { IfOk result (λ v. IfList words_of_list from.old (λ o os f rest.
        (v.items ≡ item_of o ∷ items_of os) × (from.new ≡ t_key From f ∷ rest))) }
{
    let mut all = Vec::new(alloc);
    all.push(list_item(alloc, from)?)?;
    'more: while from.takes_mark(Symbol::Comma) {
        all.push(list_item(alloc, from)?)?;
    }
    Ok(all)
}

/// The list and FROM, from the word after SELECT on.
pub fn list(alloc: Global, from: &mut Cursor) -> Result<Vec<Item>, Memory>
    requires { StandsList words_of_list from.old }
    ensures { IfOk result (λ v. IfList words_of_list from.old (λ o os f rest.
        (v.items ≡ item_of o ∷ items_of os) × (from.new ≡ rest))) }
{
    let items = items(alloc, from)?;
    from.skip(1);
    Ok(items)
}
