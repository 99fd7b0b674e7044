//! Which terminal a token is.

ghost use Rattle.std.specs.Prelude.{◌≡◌, ◌≤◌, length, map, slice_range};
ghost use Rattle.std.specs.Char.{to_ascii_lowercase};
ghost use Rattle.sql_lex.specs.declared.tokens.Kind.TheVariants.{Word as WordKind};
ghost use Rattle.sql_lex.specs.declared.tokens.Token.{Token};
ghost use Rattle.sql_grammar.specs.work.Terminals.{class_of as class_of_terminal};
ghost use Rattle.sql_grammar.specs.Reading.{spelling_of, free_spelling_of, reserved_of, free_of, terminal_of, terminal_by, symbol_terminal};
ghost use Rattle.sql_grammar.specs.work.Reading.{IsWithin};

use crate::class::{Class, Free, Symbol, Word};
use sql_lex::{Kind, Token};

/// The reserved words.
const WORDS: [Word; 25] = [
    Word::And,
    Word::As,
    Word::Asc,
    Word::Create,
    Word::Cross,
    Word::Desc,
    Word::False,
    Word::From,
    Word::Group,
    Word::Inner,
    Word::Is,
    Word::Join,
    Word::Limit,
    Word::Not,
    Word::Null,
    Word::Offset,
    Word::On,
    Word::Or,
    Word::Order,
    Word::Select,
    Word::Table,
    Word::True,
    Word::Using,
    Word::Where,
    Word::With,
];

/// The words with a place of their own that may be names.
const FREE_WORDS: [Free; 35] = [
    Free::Advise,
    Free::Analyze,
    Free::Between,
    Free::By,
    Free::Character,
    Free::Check,
    Free::Common,
    Free::Copy,
    Free::Csv,
    Free::Distinct,
    Free::Explain,
    Free::First,
    Free::Format,
    Free::Full,
    Free::Histogram,
    Free::In,
    Free::Include,
    Free::Index,
    Free::Last,
    Free::Left,
    Free::Natural,
    Free::Nulls,
    Free::Outer,
    Free::Pages,
    Free::Plan,
    Free::Right,
    Free::Rows,
    Free::Statistics,
    Free::Stdin,
    Free::Time,
    Free::Timestamp,
    Free::Use,
    Free::Varying,
    Free::Without,
    Free::Zone,
];

/// A reserved word in small letters.
fn spelling(word: Word) -> &'static [u8]
    ensures { result.now ≡ spelling_of word }
{
    match word {
        Word::And => b"and",
        Word::As => b"as",
        Word::Asc => b"asc",
        Word::Create => b"create",
        Word::Cross => b"cross",
        Word::Desc => b"desc",
        Word::False => b"false",
        Word::From => b"from",
        Word::Group => b"group",
        Word::Inner => b"inner",
        Word::Is => b"is",
        Word::Join => b"join",
        Word::Limit => b"limit",
        Word::Not => b"not",
        Word::Null => b"null",
        Word::Offset => b"offset",
        Word::On => b"on",
        Word::Or => b"or",
        Word::Order => b"order",
        Word::Select => b"select",
        Word::Table => b"table",
        Word::True => b"true",
        Word::Using => b"using",
        Word::Where => b"where",
        Word::With => b"with",
    }
}

/// A word that is not reserved, in small letters.
fn free_spelling(word: Free) -> &'static [u8]
    ensures { result.now ≡ free_spelling_of word }
{
    match word {
        Free::Advise => b"advise",
        Free::Analyze => b"analyze",
        Free::Between => b"between",
        Free::By => b"by",
        Free::Character => b"character",
        Free::Check => b"check",
        Free::Common => b"common",
        Free::Copy => b"copy",
        Free::Csv => b"csv",
        Free::Distinct => b"distinct",
        Free::Explain => b"explain",
        Free::First => b"first",
        Free::Format => b"format",
        Free::Full => b"full",
        Free::Histogram => b"histogram",
        Free::In => b"in",
        Free::Include => b"include",
        Free::Index => b"index",
        Free::Last => b"last",
        Free::Left => b"left",
        Free::Natural => b"natural",
        Free::Nulls => b"nulls",
        Free::Outer => b"outer",
        Free::Pages => b"pages",
        Free::Plan => b"plan",
        Free::Right => b"right",
        Free::Rows => b"rows",
        Free::Statistics => b"statistics",
        Free::Stdin => b"stdin",
        Free::Time => b"time",
        Free::Timestamp => b"timestamp",
        Free::Use => b"use",
        Free::Varying => b"varying",
        Free::Without => b"without",
        Free::Zone => b"zone",
    }
}

/// The reserved word that these bytes spell, in capital or small letters.
fn reserved(bytes: &[u8]) -> Option<Word>
    ensures { result ≡ reserved_of (map to_ascii_lowercase bytes.now) }
{
    for word in WORDS {
        if bytes.eq_ignore_ascii_case(spelling(word)) {
            return Some(word);
        }
    }
    None
}

/// The word with a place of its own that these bytes spell, in capital or small letters.
fn free(bytes: &[u8]) -> Option<Free>
    ensures { result ≡ free_of (map to_ascii_lowercase bytes.now) }
{
    for word in FREE_WORDS {
        if bytes.eq_ignore_ascii_case(free_spelling(word)) {
            return Some(word);
        }
    }
    None
}

/// The class of a word.
fn word(bytes: &[u8]) -> Class
    ensures { (t : Token) → result ≡ class_of_terminal (terminal_by WordKind bytes.now t) }
{
    match reserved(bytes) {
        Some(key) => Class::Key(key),
        None => Class::Name(free(bytes)),
    }
}

/// The class of a symbol: only operators have other bytes than these.
fn symbol(bytes: &[u8]) -> Class
    ensures { (t : Token) → result ≡ class_of_terminal (symbol_terminal bytes.now t) }
{
    match bytes {
        [b'('] => Class::Mark(Symbol::Open),
        [b')'] => Class::Mark(Symbol::Close),
        [b','] => Class::Mark(Symbol::Comma),
        [b'.'] => Class::Mark(Symbol::Dot),
        [b'-'] => Class::Mark(Symbol::Minus),
        [b'*'] => Class::Mark(Symbol::Star),
        [b';'] => Class::Semicolon,
        _ => Class::Operator,
    }
}

/// What the grammar sees of the token of this text.
pub fn class_of(text: &[u8], token: Token) -> Class
    requires { IsWithin text.now token }
    ensures { result ≡ class_of_terminal (terminal_of text.now token) }
{
    let bytes = &text[token.start as usize..token.end as usize];
    match token.kind {
        Kind::Word => word(bytes),
        Kind::Number => Class::Number,
        Kind::Quoted => Class::Quoted,
        Kind::Symbol => symbol(bytes),
        Kind::End => Class::End,
    }
}
