//! What a token says.

ghost use Rattle.std.specs.Prelude.{◌≡◌, ◌≤◌, ◌-◌, ◌^◌, min, true, IfOk, length, map, slice_range};
ghost use Rattle.std.specs.Char.{to_ascii_lowercase};
ghost use Rattle.std.specs.Str.Parse.{digits_value};
ghost use Rattle.pg_value.specs.Fields.{is_numeral};
ghost use Rattle.sql_grammar.specs.Reading.{value_of_quoted, bytes_of_token};
ghost use Rattle.sql_grammar.specs.work.Reading.{IsWithin};
ghost use Rattle.expr_reader.specs.Operators.{operator_of};

use pg_value::{Bytes, Op, read_digits};
use sql_lex::Token;
use std::alloc::{AllocError, Global};

/// The bytes of a token in small letters.
pub fn small_letters(alloc: Global, text: &[u8], token: Token) -> Result<Bytes, AllocError>
    requires { IsWithin text.now token }
    ensures { IfOk result (λ b. b ≡ map to_ascii_lowercase (bytes_of_token text.now token)) }
{
    let bytes = &text[token.start as usize..token.end as usize];
    Ok(Bytes::from_vec(bytes.to_ascii_lowercase(alloc)?))
}

/// The value of a quoted text: what the quotes enclose, in which a quote stands twice for one.
pub fn unquoted(alloc: Global, text: &[u8], token: Token) -> Result<Bytes, AllocError>
    requires { IsWithin text.now token }
    ensures { IfOk result (λ b. b ≡ value_of_quoted (bytes_of_token text.now token)) }
{
    let bytes = &text[token.start as usize..token.end as usize];
    let mut value = Vec::new(alloc);
    if bytes.len() < 2 {
        return Ok(Bytes::from_vec(value));
    }
    let inside = &bytes[1..bytes.len() - 1];
    let mut second = false;
    for byte in inside {
        if second {
            second = false;
        } else {
            value.push(*byte)?;
            second = *byte == b'\'';
        }
    }
    Ok(Bytes::from_vec(value))
}

/// The number that the digits of a token write, or 2^64 - 1 where it is more.
pub fn number_value(text: &[u8], token: Token) -> u64
    requires inside { IsWithin text.now token }
    requires digits { is_numeral (bytes_of_token text.now token) ≡ true }
    ensures { result ≡ min (digits_value 10 (bytes_of_token text.now token)) (2 ^ 64 - 1) }
{
    let Some(value) = read_digits(&text[token.start as usize..token.end as usize]) else {
        unreachable!();
    };
    value
}

/// The operator that a token spells.
pub fn operator_named(text: &[u8], token: Token) -> Option<Op>
    requires { IsWithin text.now token }
    ensures { result ≡ operator_of (bytes_of_token text.now token) }
{
    match &text[token.start as usize..token.end as usize] {
        b"<" => Some(Op::Lt),
        b"<=" => Some(Op::Le),
        b"=" => Some(Op::Eq),
        b">=" => Some(Op::Ge),
        b">" => Some(Op::Gt),
        b"<>" | b"!=" => Some(Op::Ne),
        b"|<|" => Some(Op::AbsLt),
        b"|<=|" => Some(Op::AbsLe),
        b"|=|" => Some(Op::AbsEq),
        b"|>=|" => Some(Op::AbsGe),
        b"|>|" => Some(Op::AbsGt),
        _ => None,
    }
}
