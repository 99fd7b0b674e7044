//! The tokens that stand at the front of a text.

ghost use Rattle.std.specs.Prelude.{◌≡◌, ◌<◌, ◌≤◌, ◌+◌, ◌^◌, length, map, codes, nat_eq, slice_index, MatchOption, IfSome, Contains, true, false};
ghost use Rattle.std.specs.Char.{is_ascii_digit};
ghost use Rattle.std.specs.List.{starts_with};
ghost use Rattle.sql_lex.specs.Letters.{begins_word, is_quote};
ghost use Rattle.sql_lex.specs.Forms.{HasNoToken, symbols};
ghost use Rattle.sql_lex.specs.work.Cuts.{CutsToken, IsLongestAt, HasNoSymbol, longest_of};

use crate::letters::{begins_word, digits_len, rest, stands_at, word_len};
use crate::tokens::Kind;

/// Punctuation and operators.
const SYMBOLS: [&[u8]; 19] = [
    b"(", b")", b",", b".", b";", b"*", b"-", b"<", b"<=", b"=", b">=", b">", b"<>", b"!=", b"|<|",
    b"|<=|", b"|=|", b"|>=|", b"|>|",
];

/// How long the number at the front is, where no letter and no `_` follows it at once.
fn number_len(bytes: &[u8]) -> Option<usize>
    requires some { 0 < length bytes.now }
    requires digit { is_ascii_digit (slice_index bytes.now 0) ≡ true }
    ensures { MatchOption result (HasNoToken bytes.now) (CutsToken bytes.now Kind.Number) }
{
    let len = digits_len(bytes);
    if len == bytes.len() {
        return Some(len);
    }
    if begins_word(bytes[len]) {
        return None;
    }
    Some(len)
}

/// How long the quoted text at the front is with its quote marks, where it is closed.
fn quoted_len(bytes: &[u8]) -> Option<usize>
    requires some { 0 < length bytes.now }
    requires quote { slice_index bytes.now 0 ≡ 39 }
    ensures { MatchOption result (HasNoToken bytes.now) (CutsToken bytes.now Kind.Quoted) }
{
    let mut at = 1;
    'inside: while at < bytes.len() {
        if stands_at(bytes, at, b"''") {
            at += 2;
        } else if bytes[at] == b'\'' {
            return Some(at + 1);
        } else {
            at += 1;
        }
    }
    None
}

/// How long the longest of some texts at the front is; 0 where none stands there.
fn longest_len(bytes: &[u8], texts: &[&[u8]]) -> usize
    ensures { result ≡ longest_of (map (λ text. text.now) texts.now) bytes.now }
{
    let mut longest = 0;
    for text in texts {
        if stands_at(bytes, 0, text) {
            longest = longest.max(text.len());
        }
    }
    longest
}

/// How long the longest symbol at the front is, where there is one.
fn symbol_len(bytes: &[u8]) -> Option<usize>
    ensures { MatchOption result (HasNoSymbol bytes.now) (IsLongestAt bytes.now) }
{
    let len = longest_len(bytes, &SYMBOLS);
    if len == 0 { None } else { Some(len) }
}

/// The kind and the length of the token at the front, where there is one.
pub fn token_len(bytes: &[u8]) -> Option<(Kind, usize)>
    requires { length bytes.now ≤ 2 ^ 31 }
    ensures { MatchOption result (HasNoToken bytes.now) (λ t. CutsToken bytes.now t.0 t.1) }
{
    if bytes.is_empty() {
        return Some((Kind::End, 0));
    }
    if begins_word(bytes[0]) {
        return Some((Kind::Word, word_len(bytes)));
    }
    if bytes[0].is_ascii_digit() {
        return match number_len(bytes) {
            Some(len) => Some((Kind::Number, len)),
            None => None,
        };
    }
    if bytes[0] == b'\'' {
        return match quoted_len(bytes) {
            Some(len) => Some((Kind::Quoted, len)),
            None => None,
        };
    }
    match symbol_len(bytes) {
        Some(len) => Some((Kind::Symbol, len)),
        None => None,
    }
}
