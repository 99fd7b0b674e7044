//! The words of a literal.

ghost use Rattle.std.specs.Prelude.{◌≡◌, ◌≤◌, length, List, ◌∷◌, ◌++◌, IfOk, MatchOption};
ghost use Rattle.sql_grammar.specs.Terminals.{Terminal, Said, t_key, t_number};
ghost use Rattle.sql_grammar.specs.Syntax.{Constant, Lit};
ghost use Rattle.sql_grammar.specs.Words.{words_of_lit, constant_word};
ghost use Rattle.expr_reader.specs.Conditions.{truth_of_constant};
ghost use Rattle.expr_reader.specs.work.Written.{literal_of, whole as whole_literal};
ghost use Rattle.expr_reader.specs.work.Reading.{YieldsWords, YieldsNext};

use crate::Cursor;
use crate::written::Literal;
use pg_base::Memory;
use pg_value::Truth;
use sql_grammar::{Symbol, Word};
use sql_lex::Token;
use std::alloc::Global;

/// A number; whether a `-` stood before it, and the literal's first token.
fn whole(from: &mut Cursor, minus: bool, token: Token) -> Literal
    requires { (n : Said) × (rest : List Terminal) × (from.old ≡ t_number n ∷ rest) }
    ensures read { YieldsNext t_number (whole_literal minus token) from.old result from.new }
    ensures ahead { length from.new ≤ length from.old }
{
    let Some(number) = from.number() else {
        unreachable!();
    };
    Literal::Whole(minus, number.value, token)
}

/// TRUE, FALSE or NULL, where it is next.
fn constant(from: &mut Cursor) -> Option<Truth>
    ensures { MatchOption result
        ((from.new ≡ from.old) × ((c : Constant) (k : Token) (left : List Terminal) → ¬ (from.old ≡ t_key (constant_word c) k ∷ left)))
        (λ t. (c : Constant) × (k : Token) × (t ≡ truth_of_constant c) × (from.old ≡ t_key (constant_word c) k ∷ from.new)) }
{
    if from.takes(Word::True) {
        return Some(Truth::True);
    }
    if from.takes(Word::False) {
        return Some(Truth::False);
    }
    if from.takes(Word::Null) {
        return Some(Truth::Unknown);
    }
    None
}

/// The literal that is next.
pub fn literal(alloc: Global, from: &mut Cursor) -> Result<Literal, Memory>
    requires { (l : Lit) × (rest : List Terminal) × (from.old ≡ words_of_lit l ++ rest) }
    ensures read { IfOk result (λ x. YieldsWords words_of_lit literal_of from.old x from.new) }
    ensures ahead { length from.new ≤ length from.old }
{
    let token = from.token();
    if from.takes_mark(Symbol::Minus) {
        return Ok(whole(from, true, token));
    }
    if let Some(text) = from.quoted(alloc)? {
        return Ok(Literal::Quoted(text));
    }
    if let Some(truth) = constant(from) {
        return Ok(Literal::Constant(truth, token));
    }
    Ok(whole(from, false, token))
}
