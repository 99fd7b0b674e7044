//! A side of a comparison: a column that is looked up, a literal, or a type's name and a quoted text.

ghost use Rattle.std.specs.Prelude.{◌≡◌, ◌≤◌, List, ◌∷◌, length, Contains, IfOk};
ghost use Rattle.sql_grammar.specs.work.Unique.{ends_col, ends_operand};
ghost use Rattle.sql_grammar.specs.Words.{words_of_col, words_of_operand};
ghost use Rattle.sql_grammar.specs.Terminals.{Terminal, Ident, Said, t_name, t_quoted};
ghost use Rattle.expr_reader.specs.Conditions.{the_column, of_typed};
ghost use Rattle.expr_reader.specs.Scope.{columns_in_scope};
ghost use Rattle.expr_reader.specs.work.Reading.{StandsFirst};
ghost use Rattle.expr_reader.specs.work.Expressions.{ReadsColumn, ReadsSide, ReadsOperand};
ghost use Rattle.expr_reader.specs.work.Written.{side_read};

use crate::found::Found;
use crate::literal::literal;
use crate::scope::Scope;
use crate::types::type_named;
use crate::written::Side;
use crate::{Cursor, Spelled};
use pg_base::{Code, Fault, Memory, Refusal};
use pg_expr::ColRef;
use sql_grammar::{Class, Symbol, fault_at};
use sql_lex::Token;
use std::alloc::Global;

/// The column that was found, or its fault: where the qualifier is unknown, at the qualifier (42P01), and else at the name, as
/// an unknown one (42703) or one that several visible columns have (42702).
pub fn found_column(found: Found, qualifier: Token, name: Token) -> Result<ColRef, Fault>
    ensures { result ≡ the_column found qualifier name }
{
    match found {
        Found::One(column) => Ok(column),
        Found::NoTable => Err(fault_at(Code::S2, qualifier)),
        Found::NoColumn => Err(fault_at(Code::S3, name)),
        Found::Many => Err(fault_at(Code::S4, name)),
    }
}

/// The column that is next, bound to the visible ones. The condition is that the words that are left begin with one, and that
/// no dot follows it. The refusal is `Memory`, or the column's fault as `found_column` gives it.
pub fn take_column<S: Scope>(alloc: Global, scope: &S, from: &mut Cursor) -> Result<ColRef, Refusal>
    requires { StandsFirst words_of_col ends_col from.old }
    ensures read { ReadsColumn (S.visible scope.now) from.old result from.new }
    ensures ahead { length from.new ≤ length from.old }
    ensures visible { IfOk result (Contains (columns_in_scope (S.visible scope.now))) }
{
    let first = from.expect_name(alloc)?;
    if !from.takes_mark(Symbol::Dot) {
        let found = scope.column(None, first.bytes.items());
        return Ok(found_column(found, first.token, first.token)?);
    }
    let second = from.expect_name(alloc)?;
    let found = scope.column(Some(first.bytes.items()), second.bytes.items());
    Ok(found_column(found, first.token, second.token)?)
}

/// The column that is next, with its type and the token of its first word.
fn column<S: Scope>(alloc: Global, scope: &S, from: &mut Cursor) -> Result<Side, Refusal>
    requires { StandsFirst words_of_col ends_col from.old }
    ensures read { ReadsSide (S.visible scope.now) (S.type_of scope.now) from.old result from.new }
    ensures ahead { length from.new ≤ length from.old }
{
    let first = from.token();
    let c = take_column(alloc, scope, from)?;
    Ok(Side::Column(c, scope.typed(c), first))
}

/// The name of a type and the quoted text that are next.
fn typed(alloc: Global, from: &mut Cursor) -> Result<Side, Memory>
    requires { (n : Ident) × (q : Said) × (rest : List Terminal) × (from.old ≡ t_name n ∷ t_quoted q ∷ rest) }
    ensures read { IfOk result (λ s. (n : Ident) (q : Said) (rest : List Terminal) → from.old ≡ t_name n ∷ t_quoted q ∷ rest →
        (s ≡ side_read (of_typed n q)) × (from.new ≡ rest)) }
    ensures ahead { length from.new ≤ length from.old }
{
    let name = from.expect_name(alloc)?;
    let Some(text) = from.quoted(alloc)? else {
        unreachable!();
    };
    let Spelled { bytes, token: _ } = text;
    Ok(Side::Typed(type_named(name.bytes.items()), name.token, bytes))
}

/// The operand that is next, which begins with a name.
fn named<S: Scope>(alloc: Global, scope: &S, from: &mut Cursor) -> Result<Side, Refusal>
    requires stands { StandsFirst words_of_operand ends_operand from.old }
    requires name { (n : Ident) × (left : List Terminal) × (from.old ≡ t_name n ∷ left) }
    ensures read { ReadsOperand (S.visible scope.now) (S.type_of scope.now) from.old result from.new }
    ensures ahead { length from.new ≤ length from.old }
{
    if from.is_before_quoted() {
        return Ok(typed(alloc, from)?);
    }
    column(alloc, scope, from)
}

/// The operand that is next.
pub fn operand<S: Scope>(alloc: Global, scope: &S, from: &mut Cursor) -> Result<Side, Refusal>
    requires { StandsFirst words_of_operand ends_operand from.old }
    ensures read { ReadsOperand (S.visible scope.now) (S.type_of scope.now) from.old result from.new }
    ensures ahead { length from.new ≤ length from.old }
{
    match from.peek() {
        Some(Class::Name(_)) => named(alloc, scope, from),
        _ => Ok(Side::Literal(literal(alloc, from)?)),
    }
}
