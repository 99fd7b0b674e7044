//! The walk over a statement's tokens: where they leave the grammar, and where a part of a statement ends.
//!
//! Conditions of the calls: the text has at most 2^31 bytes, the tokens are the words of a statement from some offset of
//! the text, up to `;` or its end, and `first` is the number of one of them. None of the calls takes memory.

ghost use Rattle.std.specs.Prelude.{◌≡◌, ℕ, ◌^◌, ◌<◌, ◌≤◌, length, drop, true};
ghost use Rattle.sql_lex.specs.Words.{AreWords};
ghost use Rattle.sql_grammar.specs.Reading.{terminal_of};
ghost use Rattle.sql_grammar.specs.work.Reading.{IsWithin, AreTokens};
ghost use Rattle.sql_grammar.specs.work.Faults.{IsStatementFault, IsSelect, IsWindowed, IsCand, IsExpr, IsPartEnd};
ghost use Rattle.sql_grammar.specs.work.Machine.{depth_of, Fits, is_closed};
ghost use Rattle.sql_grammar.specs.work.Walk.{IsTaken, IsWalk};

use crate::classify::class_of;
use crate::fault::fault_at;
use crate::limits::limit_passed;
use crate::stack::{Stack, Step};
use crate::table::Item;
use pg_base::{Code, Fault, Limit, MOST_LEVELS};
use sql_lex::{Token, Tokens};

/// What became of a token.
enum Taken {
    /// The token was awaited.
    On,
    /// The token was not awaited, and nothing else has to come.
    Ended,
    /// The token is in error.
    Stops(Code),
}

/// Takes the token, where it is awaited and within its limits.
fn take(text: &[u8], token: Token, stack: &mut Stack) -> Taken
    requires inside { IsWithin text.now token }
    requires fits { Fits 16 stack.old }
    requires shallow { depth_of stack.old ≤ MOST_LEVELS }
    ensures { IsTaken result (terminal_of text.now token) stack.old stack.new }
{
    match stack.step(class_of(text, token)) {
        Step::Took => {}
        Step::Refused => return Taken::Stops(Code::S1),
        Step::Ended => return Taken::Ended,
        Step::TooDeep => return Taken::Stops(Code::S15(Limit::Depth)),
    }
    match limit_passed(text, token) {
        None => Taken::On,
        Some(limit) => Taken::Stops(Code::S15(limit)),
    }
}

/// How far the tokens from `first` on go with these items: the number of the token after them, or the first fault.
fn walk(text: &[u8], tokens: &[Token], first: u32, start: &[Item]) -> Result<u32, Fault>
    requires tokens { AreTokens text.now tokens.now }
    requires first { first < length tokens.now }
    requires fits { Fits 16 start.now }
    requires flat { depth_of start.now ≡ 0 }
    requires closed { is_closed true true start.now ≡ true }
    ensures { IsWalk text.now tokens.now first start.now result }
{
    let mut stack = Stack::new(start);
    let mut at = first;
    loop {
        let token = tokens[at as usize];
        match take(text, token, &mut stack) {
            Taken::On => {}
            Taken::Ended => return Ok(at),
            Taken::Stops(code) => return Err(fault_at(code, token)),
        }
        at += 1;
        if stack.is_empty() {
            return Ok(at);
        }
    }
}

/// The first fault of a statement, whose tokens are those from `first` to the last; None where they are a statement within
/// the limits. A syntax fault (42601) stands at the first token after which no statement goes on so, `;` and the text's end
/// included; a limit (54000) at a name or a quoted text that is awaited and too long, with its words.
pub fn statement_fault(text: &[u8], tokens: &Tokens, first: u32) -> Option<Fault>
    requires short { length text.now ≤ 2 ^ 31 }
    requires words { (from : ℕ) × AreWords text.now from tokens.now }
    requires first { first < length tokens.now }
    ensures { IsStatementFault text.now (drop first tokens.now) result }
{
    match walk(text, tokens.items(), first, &[Item::Whole]) {
        Ok(_) => None,
        Err(fault) => Some(fault),
    }
}

/// The end of the SELECT that begins at token `first`: the longest list of tokens that begins a SELECT is taken. Where it is
/// whole the answer is the number of the token after it, else that token's fault or the first limit passed within the list.
pub fn select_end(text: &[u8], tokens: &Tokens, first: u32) -> Result<u32, Fault>
    requires short { length text.now ≤ 2 ^ 31 }
    requires words { (from : ℕ) × AreWords text.now from tokens.now }
    requires first { first < length tokens.now }
    ensures { IsPartEnd IsSelect text.now tokens.now first result }
{
    walk(text, tokens.items(), first, &[Item::Query])
}

/// The end of the SELECT with its ORDER BY, LIMIT and OFFSET that begins at token `first`, in the same way. Each of the three
/// may be left out, and they stand in this order.
pub fn windowed_select_end(text: &[u8], tokens: &Tokens, first: u32) -> Result<u32, Fault>
    requires short { length text.now ≤ 2 ^ 31 }
    requires words { (from : ℕ) × AreWords text.now from tokens.now }
    requires first { first < length tokens.now }
    ensures { IsPartEnd IsWindowed text.now tokens.now first result }
{
    walk(
        text,
        tokens.items(),
        first,
        &[
            Item::Query,
            Item::MaybeOrder,
            Item::MaybeLimit,
            Item::MaybeOffset,
        ],
    )
}

/// The end of the candidate for an index that begins at token `first`, in the same way: the text of CREATE INDEX behind its
/// first two words, up to its last key, INCLUDE column or condition.
pub fn cand_end(text: &[u8], tokens: &Tokens, first: u32) -> Result<u32, Fault>
    requires short { length text.now ≤ 2 ^ 31 }
    requires words { (from : ℕ) × AreWords text.now from tokens.now }
    requires first { first < length tokens.now }
    ensures { IsPartEnd IsCand text.now tokens.now first result }
{
    walk(text, tokens.items(), first, &[Item::Candidate])
}

/// The end of the expression that begins at token `first`, in the same way. The token that opens a level past
/// `MOST_LEVELS` is past a limit.
pub fn expr_end(text: &[u8], tokens: &Tokens, first: u32) -> Result<u32, Fault>
    requires short { length text.now ≤ 2 ^ 31 }
    requires words { (from : ℕ) × AreWords text.now from tokens.now }
    requires first { first < length tokens.now }
    ensures { IsPartEnd IsExpr text.now tokens.now first result }
{
    walk(
        text,
        tokens.items(),
        first,
        &[Item::Negation, Item::MoreAnds, Item::MoreOrs],
    )
}
