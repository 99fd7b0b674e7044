//! The words of a statement, cut from its text.

ghost use Rattle.std.specs.Prelude.{◌≡◌, ◌≤◌, ◌^◌, ◌==◌, length, slice_index, IfOk, IfErr, MatchResult};
ghost use Rattle.sql_lex.specs.Words.{AreWords, EndsBlanks, IsNext, IsStuck, is_last};
ghost use Rattle.sql_lex.specs.work.Words.{IsWordRefusal};
ghost use Rattle.pg_base.specs.Faults.{syntax_fault};

use crate::blanks::blank_len;
use crate::forms::token_len;
use crate::letters::rest;
use crate::tokens::{Kind, Token, Tokens};
use pg_base::{Fault, Refusal};
use std::alloc::Global;

/// Where the white space and the comments from a place on end.
fn blanks_end(text: &[u8], from: usize) -> usize
    requires size { length text.now ≤ 2 ^ 31 }
    requires within { from ≤ length text.now }
    ensures { EndsBlanks text.now from result }
{
    let mut at = from;
    'blanks: while let Some(len) = blank_len(rest(text, at)) {
        at += len;
    }
    at
}

/// The next token from a place on, or the fault that none stands there.
fn next_token(text: &[u8], from: usize) -> Result<Token, Fault>
    requires size { length text.now ≤ 2 ^ 31 }
    requires within { from ≤ length text.now }
    ensures { MatchResult result (IsNext text.now from)
        (λ f. (f ≡ syntax_fault f.at) × IsStuck text.now from f.at) }
{
    let start = blanks_end(text, from);
    match token_len(rest(text, start)) {
        Some((kind, len)) => Ok(Token {
            kind,
            start: start as u32,
            end: (start + len) as u32,
        }),
        None => Err(Fault::syntax(start as u32)),
    }
}

/// Whether `;` stands at a place.
fn is_semicolon(text: &[u8], at: usize) -> bool
    ensures { result ≡ (slice_index text.now at == 59) }
{
    at < text.len() && text[at] == b';'
}

/// Whether a token ends its statement.
fn is_last(text: &[u8], token: Token) -> bool
    ensures { result ≡ is_last text.now token }
{
    match token.kind {
        Kind::Symbol => is_semicolon(text, token.start as usize),
        Kind::End => true,
        _ => false,
    }
}

/// The words of the statement that begins at the byte offset `from`, up to and with its `;`, or
/// `End` at the text's end (PostgreSQL manual, chapter Lexical Structure). White space is space,
/// tab, LF, FF and CR. A `--` comment ends at LF alone, and `/*` comments nest. Offsets count from
/// the text's start. A syntax fault stands at the first byte that begins no token, at the opening
/// of a quote or a comment that is not closed, or at a number that a letter or `_` follows at
/// once. It names no words: `from` and `to` are its place.
pub fn lex_statement(alloc: Global, text: &[u8], from: u32) -> Result<Tokens, Refusal>
    requires size { length text.now ≤ 2 ^ 31 }
    requires within { from ≤ length text.now }
    ensures words { IfOk result (AreWords text.now from) }
    ensures refused { IfErr result (IsWordRefusal text.now from) }
{
    let mut tokens = Vec::new(alloc);
    let mut at = from as usize;
    'words: loop {
        let token = next_token(text, at)?;
        tokens.push(token)?;
        if is_last(text, token) {
            return Ok(Tokens::from_vec(tokens));
        }
        at = token.end as usize;
    }
}
