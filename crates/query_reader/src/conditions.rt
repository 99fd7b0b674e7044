//! The conjuncts of conditions, and their classes.

ghost use Rattle.std.specs.Prelude.{◌≡◌, ◌≤◌, ◌-◌, ◌^◌, All, IfOk, length, map, min};
ghost use Rattle.pg_expr.specs.Columns.{atom_count_of};
ghost use Rattle.pg_expr.specs.work.View.{cond, conds};
ghost use Rattle.eq_classes.specs.Classes.{conjuncts_in};
ghost use Rattle.eq_classes.specs.Holding.{IsClassTable};
ghost use Rattle.sql_grammar.specs.work.Unique.{ends_expr};
ghost use Rattle.sql_grammar.specs.Words.{words_of_expr, words_of_where};
ghost use Rattle.query_reader.specs.Binding.{limited, past_limit};
ghost use Rattle.query_reader.specs.work.Binding.{premises_of};
ghost use Rattle.query_reader.specs.work.Ends.{ends_where};
ghost use Rattle.query_reader.specs.work.Scope.{visible_in, types_in, AreConditionsOver, IsSeenColumn};
ghost use Rattle.query_reader.specs.work.Conveys.{Conveys};
ghost use Rattle.expr_reader.specs.work.Reading.{StandsFirst};
ghost use Rattle.query_reader.specs.work.Reads.{ReadsConjuncts, ReadsWhere};

use crate::relations::Relations;
use eq_classes::{Classes, OrderItem};
use expr_reader::{Cursor, conjunct_count, take_expr};
use pg_base::{Code, Limit, MOST_ATOMS, MOST_CONJUNCTS, Memory, Refusal};
use pg_expr::{Expr, Exprs, conjuncts, ops, push_not};
use sql_grammar::{Word, fault_at};
use sql_lex::Token;
use std::alloc::Global;

/// The conjuncts, as written, of the condition that is next over the visible columns, or its first fault.
pub fn conjuncts_next(
    alloc: Global,
    relations: &Relations,
    from: &mut Cursor,
) -> Result<Exprs, Refusal>
    requires { StandsFirst words_of_expr ends_expr from.old }
    ensures read { ReadsConjuncts (visible_in relations.now) (types_in relations.now)
        from.old result from.new }
    ensures over { IfOk result (λ es. AreConditionsOver relations.now (map cond es.items.items)) }
    ensures ahead { length from.new ≤ length from.old }
{
    relations.see_their_columns();
    let condition = take_expr(alloc, relations, from)?;
    Ok(conjuncts(alloc, condition)?)
}

/// The conjuncts of WHERE as written, or its first fault; none where no WHERE is next.
pub fn written_conjuncts(
    alloc: Global,
    relations: &Relations,
    from: &mut Cursor,
) -> Result<Exprs, Refusal>
    requires { StandsFirst words_of_where ends_where from.old }
    ensures read { ReadsWhere (visible_in relations.now) (types_in relations.now)
        from.old result from.new }
    ensures over { IfOk result (λ es. AreConditionsOver relations.now (map cond es.items.items)) }
{
    if !from.takes(Word::Where) {
        return Ok(Exprs::from_vec(Vec::new(alloc)));
    }
    conjuncts_next(alloc, relations, from)
}

/// The conjuncts in pushed form.
fn pushed_conjuncts(alloc: Global, written: &[Expr]) -> Result<Exprs, Memory>
    ensures { IfOk result (λ es. map cond es.items.items ≡ conjuncts_in (map cond written.now)) }
{
    let mut all = Vec::new(alloc);
    for part in written {
        let pushed = push_not(alloc, part.copy(alloc)?)?;
        let mut parts = conjuncts(alloc, pushed)?;
        all.append(&mut parts.items)?;
    }
    Ok(Exprs::from_vec(all))
}

/// The number of atoms of conditions; 2^64 - 1 where there are more.
fn atoms(written: &[Expr]) -> u64
    ensures { result ≡ min (atom_count_of (conds written.now)) (2 ^ 64 - 1) }
{
    let mut count: u64 = 0;
    for part in written {
        count = count.saturating_add(ops(part));
    }
    count
}

/// The number of conjuncts of conditions in pushed form; 2^64 - 1 where there are more.
fn pushed_count(written: &[Expr]) -> u64
    ensures { result ≡ min (length (conjuncts_in (map cond written.now))) (2 ^ 64 - 1) }
{
    let mut count: u64 = 0;
    for part in written {
        count = count.saturating_add(conjunct_count(part, false));
    }
    count
}

/// The first limit that conjuncts are past, found before their pushed form is made.
fn past_limit(written: &[Expr]) -> Option<Limit>
    ensures { result ≡ past_limit (map cond written.now) }
{
    if pushed_count(written) > MOST_CONJUNCTS as u64 {
        return Some(Limit::Conjuncts);
    }
    if atoms(written) > MOST_ATOMS as u64 {
        return Some(Limit::Atoms);
    }
    None
}

/// The classes of conjuncts as written and of an order, or the limit that is passed (54000, at the statement's first token).
pub fn classes_within(
    alloc: Global,
    relations: &Relations,
    written: &[Expr],
    order: &[OrderItem],
    start: Token,
) -> Result<Classes, Refusal>
    requires over { AreConditionsOver relations.now (map cond written.now) }
    requires order { All (λ (i : OrderItem). IsSeenColumn relations.now i.col) order.now }
    requires few { length relations.now.range ≤ 16 }
    ensures { Conveys (λ ws t. IsClassTable (premises_of relations.now order.now ws) t)
        (limited start (past_limit (map cond written.now)) (map cond written.now)) result }
{
    if let Some(limit) = past_limit(written) {
        return Err(Refusal::Fault(fault_at(Code::S15(limit), start)));
    }
    let pushed = pushed_conjuncts(alloc, written)?;
    Ok(Classes::build(alloc, pushed, order, relations)?)
}
