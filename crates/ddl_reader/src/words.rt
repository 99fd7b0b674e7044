//! Words that stand next, and faults at words.

ghost use Rattle.std.specs.Prelude.{◌≡◌, List, ◌∷◌, IfOk};
ghost use Rattle.pg_base.specs.declared.faults.Refusal.TheVariants as refusal;
ghost use Rattle.sql_grammar.specs.Terminals.{Terminal, Ident, Said, t_name, t_number, t_quoted};
ghost use Rattle.sql_grammar.specs.Faults.{fault_at as fault_at_token};
ghost use Rattle.expr_reader.specs.work.Reading.{BeginsName, BeginsNumber, BeginsQuoted};

use expr_reader::{Cursor, Number, Spelled};
use pg_base::{Code, Memory, Refusal};
use sql_grammar::fault_at;
use sql_lex::Token;
use std::alloc::Global;

/// The fault of this kind at the token.
pub fn word_fault(code: Code, token: Token) -> Refusal
    ensures { result ≡ refusal.Fault (fault_at_token code token) }
{
    Refusal::Fault(fault_at(code, token))
}

/// The name that stands next.
pub fn name(alloc: Global, from: &mut Cursor) -> Result<Spelled, Memory>
    requires { (n : Ident) × (rest : List Terminal) × (from.old ≡ t_name n ∷ rest) }
    ensures { IfOk result (λ s. BeginsName s from.old from.new) }
{
    let Some(found) = from.name(alloc)? else {
        unreachable!();
    };
    Ok(found)
}

/// The quoted text that stands next.
pub fn quoted(alloc: Global, from: &mut Cursor) -> Result<Spelled, Memory>
    requires { (q : Said) × (rest : List Terminal) × (from.old ≡ t_quoted q ∷ rest) }
    ensures { IfOk result (λ s. BeginsQuoted s from.old from.new) }
{
    let Some(found) = from.quoted(alloc)? else {
        unreachable!();
    };
    Ok(found)
}

/// The number that stands next.
pub fn number(from: &mut Cursor) -> Number
    requires { (n : Said) × (rest : List Terminal) × (from.old ≡ t_number n ∷ rest) }
    ensures { BeginsNumber result from.old from.new }
{
    let Some(found) = from.number() else {
        unreachable!();
    };
    found
}
