//! The types of columns, with the numbers in parentheses behind their words.

ghost use Rattle.std.specs.Prelude.{◌≡◌, ◌<◌, ◌≤◌, ◌-◌, ◌^◌, true, false, [], ◌∷◌, IfOk};
ghost use Rattle.sql_grammar.specs.declared.class.Free.TheVariants.{Character, Timestamp};
ghost use Rattle.sql_grammar.specs.Terminals.{Said};
ghost use Rattle.sql_grammar.specs.Words.{words_of_modifiers, words_of_type};
ghost use Rattle.expr_reader.specs.work.Reading.{free_name, numbered, StandsFirst, Yields};
ghost use Rattle.ddl_reader.specs.Columns.{Kind, kind_of, numbers_in};
ghost use Rattle.ddl_reader.specs.Types.{is_from_to as is_said_from_to, numeric, sizes_taken, taken as taken_said, type_bound, type_sized, plain_named as plain_of_name, sized_named as sized_of_name, word_named as word_of_name};
ghost use Rattle.ddl_reader.specs.work.AsMeant.{ends_modifiers, ends_type};
ghost use Rattle.ddl_reader.specs.work.Columns.{numbers_read, type_read as type_read_of, IfNumbers, IsUnzoned, IsZoned, StandsNumbers};

use crate::words::{name, number};
use expr_reader::{Cursor, Number, type_named};
use pg_base::{Code, Fault, Memory};
use pg_value::SqlType;
use sql_grammar::{Free, Symbol, Word, fault_at};
use sql_lex::Token;
use std::alloc::Global;

/// What the words of a type say: which numbers may stand behind them.
#[derive(Clone, Copy, Debug, PartialEq, Eq)]
pub enum TypeWord {
    /// None: it is this type.
    Plain(SqlType),
    /// The length of a text, which no text has to keep.
    Length,
    /// How many digits a fraction of a second has, of this type.
    Fraction(SqlType),
    /// The sizes of a numeric.
    Sizes,
}

/// The numbers in parentheses behind the words of a type.
#[derive(Clone, Copy, Debug, PartialEq, Eq)]
pub enum Numbers {
    /// There are none.
    None,
    /// One.
    One(Number),
    /// Two.
    Two(Number, Number),
    /// More than two, of which this is the first.
    More(Number),
}

/// A type as it is written.
#[derive(Clone, Copy, Debug, PartialEq, Eq)]
pub struct TypeRead {
    /// What its words say, where they are those of a type.
    pub word: Option<TypeWord>,
    /// Its first word.
    pub token: Token,
    /// The numbers behind its words.
    pub numbers: Numbers,
}

/// What a name, in small letters, behind which numbers may stand says of a type; None where it is no such name.
fn sized_named(name: &[u8]) -> Option<TypeWord>
    ensures { result ≡ sized_of_name name.now }
{
    if name == b"varchar".as_slice() {
        return Some(TypeWord::Length);
    }
    if name == b"timestamp".as_slice() {
        return Some(TypeWord::Fraction(SqlType::Timestamp));
    }
    if name == b"timestamptz".as_slice() {
        return Some(TypeWord::Fraction(SqlType::TimestampTz));
    }
    if name == b"numeric".as_slice() || name == b"decimal".as_slice() {
        return Some(TypeWord::Sizes);
    }
    None
}

/// What a name that stands for a type by itself says of it; None where no type has it.
fn plain_named(name: &[u8]) -> Option<TypeWord>
    ensures { result ≡ plain_of_name name.now }
{
    match type_named(name) {
        Some(t) => Some(TypeWord::Plain(t)),
        None => None,
    }
}

/// What a name, in small letters, says of a type; None where no type has it.
fn word_named(name: &[u8]) -> Option<TypeWord>
    ensures { result ≡ word_of_name name.now }
{
    match sized_named(name) {
        Some(word) => Some(word),
        None => plain_named(name),
    }
}

/// Passes over the further numbers that are next, each behind its comma, and over the `)` behind them.
fn pass_numbers(from: &mut Cursor)
    requires { StandsNumbers from.old }
    ensures { IfNumbers from.old (λ ns rest. from.new ≡ rest) }
{
    'more: while from.takes_mark(Symbol::Comma) {
        from.skip(1);
    }
    from.skip(1);
}

/// The numbers of which the first two are taken.
fn behind_two(from: &mut Cursor, first: Number, second: Number) -> Numbers
    requires { StandsNumbers from.old }
    ensures { (n k : Said) → first ≡ numbered n → second ≡ numbered k → IfNumbers from.old
        (λ ns rest. (result ≡ numbers_read (n ∷ k ∷ ns)) × (from.new ≡ rest)) }
{
    if from.takes_mark(Symbol::Comma) {
        from.skip(1);
        pass_numbers(from);
        return Numbers::More(first);
    }
    from.skip(1);
    Numbers::Two(first, second)
}

/// The numbers of which the first one is taken.
fn behind_one(from: &mut Cursor, first: Number) -> Numbers
    requires { StandsNumbers from.old }
    ensures { (n : Said) → first ≡ numbered n → IfNumbers from.old
        (λ ns rest. (result ≡ numbers_read (n ∷ ns)) × (from.new ≡ rest)) }
{
    if from.takes_mark(Symbol::Comma) {
        let second = number(from);
        return behind_two(from, first, second);
    }
    from.skip(1);
    Numbers::One(first)
}

/// The numbers in parentheses that are next; none where no parenthesis is.
fn modifiers(from: &mut Cursor) -> Numbers
    requires { StandsFirst words_of_modifiers ends_modifiers from.old }
    ensures { Yields words_of_modifiers ends_modifiers (λ m. numbers_read (numbers_in m)) from.old result from.new }
{
    if from.takes_mark(Symbol::Open) {
        let first = number(from);
        return behind_one(from, first);
    }
    Numbers::None
}

/// Takes WITH TIME ZONE or WITHOUT TIME ZONE, where one of them is next; whether it is the first.
fn zone(from: &mut Cursor) -> bool
    ensures zoned { result ≡ true → IsZoned from.old from.new }
    ensures unzoned { result ≡ false → IsUnzoned from.old from.new }
{
    if from.takes(Word::With) {
        from.skip(2);
        return true;
    }
    if from.takes_free(Free::Without) {
        from.skip(2);
    }
    false
}

/// The type that begins with TIMESTAMP, which is taken at this token.
fn timestamp(from: &mut Cursor, token: Token) -> TypeRead
    requires { StandsFirst words_of_type ends_type (free_name Timestamp token ∷ from.old) }
    ensures { Yields words_of_type ends_type (λ t. type_read_of (kind_of t)) (free_name Timestamp token ∷ from.old) result from.new }
{
    let numbers = modifiers(from);
    if zone(from) {
        return TypeRead {
            word: Some(TypeWord::Fraction(SqlType::TimestampTz)),
            token,
            numbers,
        };
    }
    TypeRead {
        word: Some(TypeWord::Fraction(SqlType::Timestamp)),
        token,
        numbers,
    }
}

/// The type that begins with CHARACTER, which is taken at this token; by itself that is none.
fn character(from: &mut Cursor, token: Token) -> TypeRead
    requires { StandsFirst words_of_type ends_type (free_name Character token ∷ from.old) }
    ensures { Yields words_of_type ends_type (λ t. type_read_of (kind_of t)) (free_name Character token ∷ from.old) result from.new }
{
    if from.takes_free(Free::Varying) {
        let numbers = modifiers(from);
        return TypeRead {
            word: Some(TypeWord::Length),
            token,
            numbers,
        };
    }
    let numbers = modifiers(from);
    TypeRead {
        word: None,
        token,
        numbers,
    }
}

/// The type that is next.
pub fn type_read(alloc: Global, from: &mut Cursor) -> Result<TypeRead, Memory>
    requires { StandsFirst words_of_type ends_type from.old }
    ensures { IfOk result (λ k. Yields words_of_type ends_type (λ t. type_read_of (kind_of t)) from.old k from.new) }
{
    let token = from.token();
    if from.takes_free(Free::Timestamp) {
        return Ok(timestamp(from, token));
    }
    if from.takes_free(Free::Character) {
        return Ok(character(from, token));
    }
    let word = name(alloc, from)?;
    let numbers = modifiers(from);
    Ok(TypeRead {
        word: word_named(word.bytes.items()),
        token,
        numbers,
    })
}

/// Whether a number is from one number to another.
fn is_from_to(least: u64, most: u64, n: Number) -> bool
    requires { most < 2 ^ 64 - 1 }
    ensures said { (said : Said) → n ≡ numbered said → result ≡ is_said_from_to least most said }
    ensures most { result ≡ true → n.value ≤ most }
{
    least <= n.value && n.value <= most
}

/// The type, where a number is one that it takes; else the fault is at the number (22023).
fn taken(fits: bool, t: SqlType, n: Number) -> Result<SqlType, Fault>
    ensures { (said : Said) → n ≡ numbered said → result ≡ taken_said fits t said }
{
    if fits {
        Ok(t)
    } else {
        Err(fault_at(Code::S17, n.token))
    }
}

/// The numeric type of these sizes.
fn sized(digits: Number, scale: Number) -> Result<SqlType, Fault>
    ensures { (p s : Said) → digits ≡ numbered p → scale ≡ numbered s → result ≡ sizes_taken p s }
{
    if !is_from_to(1, 18, digits) {
        return Err(fault_at(Code::S17, digits.token));
    }
    if digits.value < scale.value {
        return Err(fault_at(Code::S17, scale.token));
    }
    Ok(SqlType::Numeric {
        digits: digits.value as u8,
        scale: scale.value as u8,
    })
}

/// The numeric type of so many digits, none of them behind the point.
fn whole(digits: Number) -> Result<SqlType, Fault>
    ensures { (p : Said) → digits ≡ numbered p → result ≡ taken_said (is_said_from_to 1 18 p) (numeric p 0) p }
{
    if !is_from_to(1, 18, digits) {
        return Err(fault_at(Code::S17, digits.token));
    }
    Ok(SqlType::Numeric {
        digits: digits.value as u8,
        scale: 0,
    })
}

/// The type of words behind which there are no numbers.
fn with_none(word: TypeWord, token: Token) -> Result<SqlType, Fault>
    ensures { result ≡ type_sized token word [] }
{
    match word {
        TypeWord::Plain(t) | TypeWord::Fraction(t) => Ok(t),
        TypeWord::Length => Ok(SqlType::Text),
        TypeWord::Sizes => Err(fault_at(Code::S8, token)),
    }
}

/// The type of words behind which there is one number.
fn with_one(word: TypeWord, n: Number) -> Result<SqlType, Fault>
    ensures { (token : Token) (said : Said) → n ≡ numbered said → result ≡ type_sized token word (said ∷ []) }
{
    match word {
        TypeWord::Plain(_) => Err(fault_at(Code::S17, n.token)),
        TypeWord::Fraction(t) => taken(is_from_to(6, 6, n), t, n),
        TypeWord::Length => taken(is_from_to(1, 10_485_760, n), SqlType::Text, n),
        TypeWord::Sizes => whole(n),
    }
}

/// The type of words behind which there are two numbers.
fn with_two(word: TypeWord, n: Number, m: Number) -> Result<SqlType, Fault>
    ensures { (token : Token) (first second : Said) → n ≡ numbered first → m ≡ numbered second →
        result ≡ type_sized token word (first ∷ second ∷ []) }
{
    match word {
        TypeWord::Sizes => sized(n, m),
        _ => Err(fault_at(Code::S17, n.token)),
    }
}

/// The type that is meant, or its first fault: of its words (42704), then of its numbers (22023).
pub fn type_of(read: TypeRead) -> Result<SqlType, Fault>
    ensures { (k : Kind) → read ≡ type_read_of k → result ≡ type_bound k.at k.word k.numbers }
{
    let Some(word) = read.word else {
        return Err(fault_at(Code::S8, read.token));
    };
    match read.numbers {
        Numbers::None => with_none(word, read.token),
        Numbers::One(n) => with_one(word, n),
        Numbers::Two(n, m) => with_two(word, n, m),
        Numbers::More(n) => Err(fault_at(Code::S17, n.token)),
    }
}
