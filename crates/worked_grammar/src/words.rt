//! Statements with their words, as PostgreSQL's lexical rules have them.

ghost use Rattle.std.specs.Prelude.{◌≤◌, ◌^◌, length};

use sql_lex::{Kind, Tokens, lex_statement};
use std::alloc::Global;

/// A kind, the place of the first byte and the place past the last one.
type Place = (Kind, u32, u32);

/// Texts, a place in them, and the words of the statement there.
const WORDS: [(&[u8], u32, &[Place]); 14] = [
    (b" \t\n\r\x0C", 0, &[(Kind::End, 5, 5)]),
    (
        b"SELECT a$1 FROM _t;x",
        0,
        &[
            (Kind::Word, 0, 6),
            (Kind::Word, 7, 10),
            (Kind::Word, 11, 15),
            (Kind::Word, 16, 18),
            (Kind::Symbol, 18, 19),
        ],
    ),
    (
        b"a<>b!=c<=>=",
        0,
        &[
            (Kind::Word, 0, 1),
            (Kind::Symbol, 1, 3),
            (Kind::Word, 3, 4),
            (Kind::Symbol, 4, 6),
            (Kind::Word, 6, 7),
            (Kind::Symbol, 7, 9),
            (Kind::Symbol, 9, 11),
            (Kind::End, 11, 11),
        ],
    ),
    (
        b"a<>=|=|",
        0,
        &[
            (Kind::Word, 0, 1),
            (Kind::Symbol, 1, 3),
            (Kind::Symbol, 3, 4),
            (Kind::Symbol, 4, 7),
            (Kind::End, 7, 7),
        ],
    ),
    (
        b"|<||<=||>=||>|",
        0,
        &[
            (Kind::Symbol, 0, 3),
            (Kind::Symbol, 3, 7),
            (Kind::Symbol, 7, 11),
            (Kind::Symbol, 11, 14),
            (Kind::End, 14, 14),
        ],
    ),
    (
        b"1 23;4",
        0,
        &[
            (Kind::Number, 0, 1),
            (Kind::Number, 2, 4),
            (Kind::Symbol, 4, 5),
        ],
    ),
    (
        b"1.5",
        0,
        &[
            (Kind::Number, 0, 1),
            (Kind::Symbol, 1, 2),
            (Kind::Number, 2, 3),
            (Kind::End, 3, 3),
        ],
    ),
    (
        b"'it''s';",
        0,
        &[(Kind::Quoted, 0, 7), (Kind::Symbol, 7, 8)],
    ),
    (
        b"'' '--'",
        0,
        &[
            (Kind::Quoted, 0, 2),
            (Kind::Quoted, 3, 7),
            (Kind::End, 7, 7),
        ],
    ),
    (b"--c\rd\ne", 0, &[(Kind::Word, 6, 7), (Kind::End, 7, 7)]),
    (
        b"a - -b--",
        0,
        &[
            (Kind::Word, 0, 1),
            (Kind::Symbol, 2, 3),
            (Kind::Symbol, 4, 5),
            (Kind::Word, 5, 6),
            (Kind::End, 8, 8),
        ],
    ),
    (
        b"/*a/*b*/c*/d",
        0,
        &[(Kind::Word, 11, 12), (Kind::End, 12, 12)],
    ),
    (
        b"(a,*);;",
        0,
        &[
            (Kind::Symbol, 0, 1),
            (Kind::Word, 1, 2),
            (Kind::Symbol, 2, 3),
            (Kind::Symbol, 3, 4),
            (Kind::Symbol, 4, 5),
            (Kind::Symbol, 5, 6),
        ],
    ),
    (b"a;b ", 2, &[(Kind::Word, 2, 3), (Kind::End, 4, 4)]),
];

/// Whether the tokens are these.
fn are(tokens: &Tokens, places: &[Place]) -> bool {
    let found = tokens.items();
    found.len() == places.len()
        && found
            .iter()
            .zip(places)
            .all(|(t, p)| t.kind == p.0 && t.start == p.1 && t.end == p.2)
}

/// Whether the tokens of the statement at a place are these.
fn are_words(alloc: Global, text: &[u8], from: u32, places: &[Place]) -> bool
    requires short { length text.now ≤ 2 ^ 31 }
    requires within { from ≤ length text.now }
{
    match lex_statement(alloc, text, from) {
        Ok(tokens) => are(&tokens, places),
        Err(_) => false,
    }
}

/// The first text that has more than 100 bytes, or other words at its place than told.
fn first_other<'a>(alloc: Global, rows: &[(&'a [u8], u32, &[Place])]) -> Option<&'a [u8]> {
    for (text, from, places) in rows {
        if text.len() > 100
            || *from as usize > text.len()
            || !are_words(alloc, text, *from, places)
        {
            return Some(*text);
        }
    }
    None
}

#[test]
fn statements_have_these_words(rt: HostRuntime) {
    assert_eq!(rt; first_other(rt.alloc(), &WORDS), None);
}
