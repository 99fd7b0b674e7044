//! Values read from the texts of fields (PostgreSQL manual, COPY, Numeric Types, Date/Time Types, Boolean Type and UUID
//! Type).

ghost use Rattle.std.specs.Prelude.{◌≡◌, ◌↔◌, ◌≤◌, ◌<◌, ◌^◌, ◌-◌, ℕ, ℤ, Bool, true, false, List, min, map, pos, cond, MatchOption, IfErr, IfOk, IsTrue, Some, None};
ghost use Rattle.std.specs.Char.{to_ascii_lowercase};
ghost use Rattle.std.specs.Str.Parse.{digits_value, starts_with_minus, without_leading_sign};
ghost use Rattle.pg_value.specs.Fields.{word_of, is_numeral, number_of, flag_of, is_start, is_true_word, is_false_word, signed, ranged, flagged, counted, uuid_of, field_value, whole_value as whole_value_of};
ghost use Rattle.pg_value.specs.work.Fields.{IsAmidBlanks, SpellsNumber, IsUnlessMemory};
ghost use Rattle.pg_value.specs.Types.{IsOfType, limit, takes_whole};
ghost use Rattle.pg_value.specs.work.Types.{has_texts};

use crate::bytes::Bytes;
use crate::value::{SqlType, Value};
use civil::{
    Unread, is_uuid, read_date, read_numeric, read_timestamp, read_timestamptz, whole_numeric,
};
use std::alloc::{AllocError, Global};
use thiserror::Error;

/// Why a text is no value of a type.
#[derive(Clone, Copy, Debug, PartialEq, Eq, Error)]
pub enum FieldFault {
    /// The text has the form of the type, and spells what the type does not have.
    #[error("out of range")]
    Range,
    /// The text spells no value of the type.
    #[error("invalid input")]
    Invalid,
    /// Memory ran out.
    #[error("out of memory")]
    Memory,
}

impl From<AllocError> for FieldFault {
    ghost use Rattle.pg_value.specs.declared.fields.FieldFault.TheVariants.{Memory};

    ghost from_gives = { λ _ fault. fault ≡ Memory };

    fn from(_: AllocError) -> FieldFault {
        FieldFault::Memory
    }
}

/// The value of type `t` that a text spells. A text is its bytes as they are, a uuid has the canonical form, in capital or
/// small letters. A whole number is decimal digits after an optional sign, a truth value is `1`, `0` or a beginning of one of
/// true, yes, on, false, no and off that is neither empty nor `o`, in capital or small letters, and dates, timestamps and
/// numerics are as `civil` reads them; all but texts and uuids may stand amid white space (space, tab, LF, FF, CR). `Range`: the text
/// has the form of the type, and the type does not have what it spells. `Invalid`: it has not the form. Only texts and uuids
/// take memory.
pub fn read_value(alloc: Global, t: SqlType, text: &[u8]) -> Result<Value, FieldFault>
    ensures value { IsUnlessMemory (field_value t text.now) result }
    ensures typed { IfOk result (λ v. IsOfType t v) }
    ensures memory { IfErr result (λ e. e ≡ FieldFault.Memory → has_texts t ≡ true) }
{
    if holds_texts(t) {
        let copy = Bytes::from_vec(Vec::from_slice(alloc, text)?);
        return owned_value(t, copy);
    }
    word_value(t, word(text))
}

/// The value of type `t` that an owned text spells, as `read_value` has it. A text and a uuid are handed on, and no other
/// value takes memory.
pub fn owned_value(t: SqlType, text: Bytes) -> Result<Value, FieldFault>
    ensures value { result ≡ field_value t text }
    ensures typed { IfOk result (λ v. IsOfType t v) }
{
    match t {
        SqlType::Text => Ok(Value::Text(text)),
        SqlType::Uuid => uuid_value(text),
        _ => word_value(t, word(text.items())),
    }
}

/// Whether the values of a type are texts, of which each takes memory.
fn holds_texts(t: SqlType) -> bool
    ensures { result ≡ has_texts t }
{
    matches!(t, SqlType::Text | SqlType::Uuid)
}

/// A uuid in small letters.
fn uuid_value(text: Bytes) -> Result<Value, FieldFault>
    ensures { result ≡ uuid_of text }
{
    if is_uuid(text.items()) {
        Ok(Value::Text(text.into_small_letters()))
    } else {
        Err(FieldFault::Invalid)
    }
}

/// The value that a word spells, of a type whose values are no texts.
fn word_value(t: SqlType, word: &[u8]) -> Result<Value, FieldFault>
    requires { has_texts t ≡ false }
    ensures { (text : List ℕ) → word.now ≡ word_of text → result ≡ field_value t text }
{
    match t {
        SqlType::Text | SqlType::Uuid => Err(FieldFault::Invalid),
        SqlType::Bool => read_flag(word),
        SqlType::Int2 | SqlType::Int4 | SqlType::Int8 => read_number(t, word),
        SqlType::Date => counted_value(read_date(word)),
        SqlType::Timestamp => counted_value(read_timestamp(word)),
        SqlType::TimestampTz => counted_value(read_timestamptz(word)),
        SqlType::Numeric { digits, scale } => counted_value(read_numeric(digits, scale, word)),
    }
}

/// What was read of a date, a timestamp or a numeric, as a value.
fn counted_value(number: Result<i64, Unread>) -> Result<Value, FieldFault>
    ensures { result ≡ counted number }
{
    match number {
        Ok(number) => Ok(Value::Int(number)),
        Err(Unread::Form) => Err(FieldFault::Invalid),
        Err(Unread::Range) => Err(FieldFault::Range),
    }
}

fn word(text: &[u8]) -> &[u8]
    ensures { result.now ≡ word_of text.now }
{
    text.trim_ascii()
}

fn read_number(t: SqlType, word: &[u8]) -> Result<Value, FieldFault>
    requires { 0 < limit t }
    ensures { result ≡ ranged t (number_of word.now) }
{
    match read_digits(unsigned(word)) {
        Some(magnitude) => signed_value(t, is_negative(word), magnitude),
        None => Err(FieldFault::Invalid),
    }
}

/// The number without a point of this magnitude, a negative one where `minus`, as a value of an integer or numeric type;
/// 2^64 - 1 stands for that and every larger magnitude. The only error is `Range`: the type does not have it.
pub fn whole_value(t: SqlType, minus: bool, magnitude: u64) -> Result<Value, FieldFault>
    requires { takes_whole t ≡ true }
    ensures { (n : ℕ) → magnitude ≡ min n (2 ^ 64 - 1) → result ≡ whole_value_of t (signed minus n) }
{
    match t {
        SqlType::Numeric { digits, scale } => {
            match whole_numeric(digits, scale, minus, magnitude) {
                Some(number) => Ok(Value::Int(number)),
                None => Err(FieldFault::Range),
            }
        }
        _ => signed_value(t, minus, magnitude),
    }
}

/// The whole number of this magnitude, a negative one where `minus`, as a value of an integer type; 2^64 - 1 stands for
/// that and every larger magnitude. The only error is `Range`: the type does not have it.
fn signed_value(t: SqlType, minus: bool, magnitude: u64) -> Result<Value, FieldFault>
    requires integer { 0 < limit t }
    ensures { (n : ℕ) → magnitude ≡ min n (2 ^ 64 - 1) → result ≡ ranged t (Some (signed minus n)) }
{
    let limit = limit_of(t);
    if minus {
        if magnitude <= limit {
            return Ok(Value::Int((-i128::from(magnitude)) as i64));
        }
    } else if magnitude < limit {
        return Ok(Value::Int(magnitude as i64));
    }
    Err(FieldFault::Range)
}

fn limit_of(t: SqlType) -> u64
    ensures { result ≡ limit t }
{
    match t {
        SqlType::Int2 => 1 << 15,
        SqlType::Int4 => 1 << 31,
        SqlType::Int8 => 1 << 63,
        _ => 0,
    }
}

fn is_negative(word: &[u8]) -> bool
    ensures { result ≡ starts_with_minus word.now }
{
    matches!(word, [b'-', ..])
}

fn unsigned(word: &[u8]) -> &[u8]
    ensures { result.now ≡ without_leading_sign word.now }
{
    match word {
        [b'-' | b'+', rest @ ..] => rest,
        _ => word,
    }
}

/// The number that decimal digits write, or 2^64 - 1 where it is more. None exactly where the text is empty or has another
/// byte than a digit.
pub fn read_digits(digits: &[u8]) -> Option<u64>
    ensures { result ≡ cond (is_numeral digits.now) (Some (min (digits_value 10 digits.now) (2 ^ 64 - 1))) None }
{
    let mut number: u64 = 0;
    for digit in digits {
        if !digit.is_ascii_digit() {
            return None;
        }
        number = number
            .saturating_mul(10)
            .saturating_add(u64::from(*digit - b'0'));
    }
    if digits.is_empty() {
        None
    } else {
        Some(number)
    }
}

#[tactic(auto, unfolding(crate::specs::Fields::flag_of))]
fn read_flag(word: &[u8]) -> Result<Value, FieldFault>
    ensures { result ≡ flagged (flag_of word.now) }
{
    if is_true(word) {
        Ok(Value::Bool(true))
    } else if is_false(word) {
        Ok(Value::Bool(false))
    } else {
        Err(FieldFault::Invalid)
    }
}

#[tactic(auto, unfolding(crate::specs::Fields::is_true_word))]
fn is_true(word: &[u8]) -> bool
    ensures { result ≡ is_true_word (map to_ascii_lowercase word.now) }
{
    begins(word, b"1", 1)
        || begins(word, b"true", 1)
        || begins(word, b"yes", 1)
        || begins(word, b"on", 2)
}

#[tactic(auto, unfolding(crate::specs::Fields::is_false_word))]
fn is_false(word: &[u8]) -> bool
    ensures { result ≡ is_false_word (map to_ascii_lowercase word.now) }
{
    begins(word, b"0", 1)
        || begins(word, b"false", 1)
        || begins(word, b"no", 1)
        || begins(word, b"off", 2)
}

#[tactic(auto, unfolding(crate::specs::Fields::is_start))]
fn begins(word: &[u8], full: &[u8], least: usize) -> bool
    requires { map to_ascii_lowercase full.now ≡ full.now }
    ensures { result ≡ is_start least full.now (map to_ascii_lowercase word.now) }
{
    least <= word.len() && word.len() <= full.len() && full[..word.len()].eq_ignore_ascii_case(word)
}

/// A text spells a whole number exactly where it is digits after an optional sign amid white space, and a truth value
/// exactly where it is a word of one amid white space.
pub fn spellings_are_read()
    ensures number { (text : List ℕ) (n : ℤ) → number_of (word_of text) ≡ Some n ↔ ((word : List ℕ) × IsAmidBlanks text word × SpellsNumber word n) }
    ensures flag { (text : List ℕ) (b : Bool) → flag_of (word_of text) ≡ Some b ↔ ((word : List ℕ) × IsAmidBlanks text word × (flag_of word ≡ Some b)) }
{}
