//! The values of literals.

ghost use Rattle.std.specs.Prelude.{◌≡◌, ◌≢◌, ◌≤◌, true, length, List, ◌++◌, IfOk};
ghost use Rattle.pg_value.specs.Fields.{signed, field_value, whole_value as whole_value_of};
ghost use Rattle.pg_value.specs.Types.{takes_whole, IsOfType};
ghost use Rattle.pg_value.specs.declared.value.Value.TheVariants as values;
ghost use Rattle.sql_lex.specs.declared.tokens.Token.{Token};
ghost use Rattle.sql_grammar.specs.Terminals.{Terminal};
ghost use Rattle.sql_grammar.specs.Syntax.{Lit};
ghost use Rattle.sql_grammar.specs.Words.{words_of_lit};
ghost use Rattle.expr_reader.specs.Literals.{value_or_fault, literal_value as literal_value_of, typed_value as typed_value_of, number_type as number_type_of, named_value as named_value_of, number_as as number_as_of, flag_as as flag_as_of, place_of_lit};
ghost use Rattle.expr_reader.specs.work.Literals.{IfCapped};
ghost use Rattle.expr_reader.specs.work.Written.{literal_of};
ghost use Rattle.expr_reader.specs.work.Reading.{IfWords};
ghost use Rattle.expr_reader.specs.work.Expressions.{ReadsLiteral};

use crate::literal::literal;
use crate::written::Literal;
use crate::{Cursor, Spelled};
use pg_base::{Code, Fault, Refusal};
use pg_value::{Bytes, FieldFault, SqlType, Truth, Value, owned_value, whole_value};
use sql_grammar::fault_at;
use sql_lex::Token;
use std::alloc::Global;

/// A literal's value, and its first token.
#[derive(Debug, Drop)]
pub struct Placed {
    /// The value.
    pub value: Value,
    /// Where the literal begins, a `-` included.
    pub token: Token,
}

/// A value, or the fault of the literal at this token that spells none.
fn spelled_value(value: Result<Value, FieldFault>, token: Token) -> Result<Value, Fault>
    ensures { result ≡ value_or_fault token value }
{
    match value {
        Ok(value) => Ok(value),
        Err(FieldFault::Range) => Err(fault_at(Code::S11, token)),
        Err(_) => Err(fault_at(Code::S12, token)),
    }
}

/// A whole number of a type of which numbers without a point are.
fn number_value(t: SqlType, minus: bool, magnitude: u64, token: Token) -> Result<Value, Fault>
    requires { takes_whole t ≡ true }
    ensures { IfCapped magnitude (λ n. result ≡ value_or_fault token (whole_value_of t (signed minus n))) }
{
    spelled_value(whole_value(t, minus, magnitude), token)
}

/// A quoted text as a value of the type. No memory is wanted: a text is handed on, and no other value takes any.
fn quoted_value(t: SqlType, text: Spelled) -> Result<Value, Fault>
    ensures { result ≡ value_or_fault text.token (field_value t text.bytes) }
{
    let Spelled { bytes, token } = text;
    spelled_value(owned_value(t, bytes), token)
}

/// The type of a whole number beside one of this type.
pub fn number_type(t: SqlType) -> SqlType
    ensures same { result ≡ number_type_of t }
    ensures whole { takes_whole result ≡ true }
{
    match t {
        SqlType::Numeric { .. } => t,
        _ => SqlType::Int8,
    }
}

/// The value of a literal in a condition, where a quoted text has this type, or its fault.
pub fn literal_value(t: SqlType, literal: Literal) -> Result<Value, Fault>
    ensures { (l : Lit) → literal ≡ literal_of l → result ≡ literal_value_of t l }
{
    match literal {
        Literal::Whole(minus, magnitude, token) => {
            number_value(number_type(t), minus, magnitude, token)
        }
        Literal::Quoted(text) => quoted_value(t, text),
        Literal::Constant(Truth::True, _) => Ok(Value::Bool(true)),
        Literal::Constant(Truth::False, _) => Ok(Value::Bool(false)),
        Literal::Constant(Truth::Unknown, _) => Ok(Value::Null),
    }
}

/// The value of a quoted text behind a name at this token, which is that of this type where there is one, or the fault there.
pub fn named_value(t: Option<SqlType>, token: Token, text: Bytes) -> Result<Value, Fault>
    ensures { result ≡ named_value_of token t text }
{
    match t {
        Some(t) => spelled_value(owned_value(t, text), token),
        None => Err(fault_at(Code::S8, token)),
    }
}

/// A whole number for a column of this type.
fn number_as(t: SqlType, minus: bool, magnitude: u64, token: Token) -> Result<Value, Fault>
    ensures { IfCapped magnitude (λ n. result ≡ number_as_of t token (signed minus n)) }
{
    match t {
        SqlType::Int2 | SqlType::Int4 | SqlType::Int8 | SqlType::Numeric { .. } => {
            number_value(t, minus, magnitude, token)
        }
        _ => Err(fault_at(Code::S10, token)),
    }
}

/// TRUE or FALSE for a column of this type.
fn flag_as(t: SqlType, flag: bool, token: Token) -> Result<Value, Fault>
    ensures { result ≡ flag_as_of t token flag }
{
    match t {
        SqlType::Bool => Ok(Value::Bool(flag)),
        _ => Err(fault_at(Code::S10, token)),
    }
}

/// The value of a literal that is given for a column of this type, or its fault.
fn typed_value(t: SqlType, literal: Literal) -> Result<Value, Fault>
    ensures { (l : Lit) → literal ≡ literal_of l → result ≡ typed_value_of t l }
{
    match literal {
        Literal::Whole(minus, magnitude, token) => number_as(t, minus, magnitude, token),
        Literal::Quoted(text) => quoted_value(t, text),
        Literal::Constant(Truth::True, token) => flag_as(t, true, token),
        Literal::Constant(Truth::False, token) => flag_as(t, false, token),
        Literal::Constant(Truth::Unknown, token) => Err(fault_at(Code::S17, token)),
    }
}

/// The literal that is next, as a value of a column of type `t`, with its first token. The condition is that the words that
/// are left begin with a literal.
///
/// A quoted text for a column that is not of text is read as the text of a field of COPY data, but never as NULL. The
/// refusal is `Memory`, or the literal's fault, which stands at its first token, a `-` included: 22003 for a whole number that
/// the type does not have, 22P02 for a quoted text that spells no value of the type, 42804 for a number, TRUE or FALSE where
/// the column is of another kind, and 22023 for NULL.
pub fn read_literal(alloc: Global, t: SqlType, from: &mut Cursor) -> Result<Placed, Refusal>
    requires { (l : Lit) × (rest : List Terminal) × (from.old ≡ words_of_lit l ++ rest) }
    ensures read { ReadsLiteral t from.old result from.new }
    ensures place { IfWords words_of_lit from.old
        (λ l rest. IfOk result (λ x. x.token ≡ place_of_lit l)) }
    ensures typed { IfOk result (λ x. IsOfType t x.value) }
    ensures some { IfOk result (λ x. x.value ≢ values.Null) }
    ensures ahead { length from.new ≤ length from.old }
{
    let token = from.token();
    let literal = literal(alloc, from)?;
    let value = typed_value(t, literal)?;
    Ok(Placed { value, token })
}
