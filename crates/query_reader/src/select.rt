//! Reading a SELECT.

ghost use Rattle.std.specs.Prelude.{◌≡◌, ℕ, ◌^◌, ◌<◌, ◌≤◌, All, drop, length, true, false, IfOk, MatchOption};
ghost use Rattle.sql_lex.specs.Words.{AreWords};
ghost use Rattle.sql_grammar.specs.Faults.{terminals};
ghost use Rattle.sql_grammar.specs.work.Faults.{IsWhole};
ghost use Rattle.eq_classes.specs.Holding.{IsClassTable};
ghost use Rattle.expr_reader.specs.work.Parted.{HasParts};
ghost use Rattle.sql_query.specs.WellBound.{IsWellBound, given_of};
ghost use Rattle.query_reader.specs.work.Parts.{HavePart, HaveSelectAt};
ghost use Rattle.query_reader.specs.work.Select.{AreGrouped, IsBoundByItself, IsGrammatical, IsNoSelectAt, begins_select, is_explained, BindsPart, BindsSelect};

use crate::bind::bind;
use crate::read::list;
use catalog::Catalog;
use expr_reader::Cursor;
use pg_base::{Code, Fault, Refusal};
use sql_grammar::{Free, Word, fault_at, statement_fault, windowed_select_end};
use sql_lex::Tokens;
use sql_query::Prepared;
use std::alloc::Global;

/// Whether EXPLAIN is the statement's first word.
pub fn explains(text: &[u8], tokens: &Tokens) -> bool
    requires short { length text.now ≤ 2 ^ 31 }
    requires words { (from : ℕ) × AreWords text.now from tokens.now }
    ensures { result ≡ is_explained (terminals text.now tokens.now) }
{
    let mut from = Cursor::new(text, tokens, 0);
    from.takes_free(Free::Explain)
}

/// Whether the SELECT that token `first` begins groups: it has GROUP BY, DISTINCT or a call in its list. The tokens from there
/// on are a statement whole and without a fault of the grammar.
pub fn groups(text: &[u8], tokens: &Tokens, first: u32) -> bool
    requires short { length text.now ≤ 2 ^ 31 }
    requires words { (from : ℕ) × AreWords text.now from tokens.now }
    requires within { first < length tokens.now }
    requires whole { IsWhole text.now (drop first tokens.now) }
    requires begins { begins_select (terminals text.now (drop first tokens.now)) ≡ true }
    ensures plain { result ≡ false → HaveSelectAt text.now tokens.now first }
    ensures grouped { result ≡ true → AreGrouped text.now (drop first tokens.now) }
{
    match windowed_select_end(text, tokens, first) {
        Ok(end) => end as usize + 1 != tokens.items().len(),
        Err(_) => true,
    }
}

/// Why no SELECT stands from token `first` on up to the statement's end: another word, or SELECT before one that groups (42601,
/// at that word), or the first fault of these tokens; None where one stands there.
fn select_fault(text: &[u8], tokens: &Tokens, first: u32) -> Option<Fault>
    requires short { length text.now ≤ 2 ^ 31 }
    requires words { (from : ℕ) × AreWords text.now from tokens.now }
    requires within { first < length tokens.now }
    ensures { MatchOption result (HaveSelectAt text.now tokens.now first)
        (IsNoSelectAt text.now tokens.now first) }
{
    let mut from = Cursor::new(text, tokens, first);
    if !from.takes(Word::Select) {
        return Some(fault_at(Code::S1, tokens.items()[first as usize]));
    }
    if let Some(fault) = statement_fault(text, tokens, first) {
        return Some(fault);
    }
    if groups(text, tokens, first) {
        return Some(fault_at(Code::S1, tokens.items()[first as usize]));
    }
    None
}

/// The SELECT between two tokens of a statement, read as a whole.
fn part(
    alloc: Global,
    cat: &Catalog,
    text: &[u8],
    tokens: &Tokens,
    first: u32,
    end: u32,
) -> Result<Prepared, Refusal>
    requires short { length text.now ≤ 2 ^ 31 }
    requires words { (from : ℕ) × AreWords text.now from tokens.now }
    requires part { HavePart text.now tokens.now first end }
    ensures binding { BindsPart cat.now text.now tokens.now first end result }
    ensures itself { IfOk result (IsBoundByItself cat.now) }
{
    let mut from = Cursor::part(text, tokens, first, end);
    from.skip(1);
    let items = list(alloc, &mut from)?;
    bind(alloc, cat, &items, tokens.items()[0], &mut from)
}

/// The SELECT from a token on, read as a whole.
fn read_whole(
    alloc: Global,
    cat: &Catalog,
    text: &[u8],
    tokens: &Tokens,
    first: u32,
) -> Result<Prepared, Refusal>
    requires short { length text.now ≤ 2 ^ 31 }
    requires words { (from : ℕ) × AreWords text.now from tokens.now }
    requires within { first < length tokens.now }
    ensures grammar { IsGrammatical text.now tokens.now first result }
    ensures binding { BindsSelect cat.now text.now tokens.now first result }
    ensures itself { IfOk result (IsBoundByItself cat.now) }
{
    if let Some(fault) = statement_fault(text, tokens, 0) {
        return Err(Refusal::Fault(fault));
    }
    if let Some(fault) = select_fault(text, tokens, first) {
        return Err(Refusal::Fault(fault));
    }
    let end = tokens.items().len() as u32 - 1;
    part(alloc, cat, text, tokens, first, end)
}

/// The SELECT that begins at token `first` and that the statement's last token ends, with its order: the relations in the order
/// of FROM, the columns shown in order, the items of ORDER BY, the conjuncts as written, which are those of the conditions of
/// joins in the order of the text and then those of WHERE, the classes of these and of ORDER BY, and the columns named, which
/// are those shown, then those of the conjuncts, then those of ORDER BY. Where LIMIT or OFFSET is written, it has a window: the
/// number of LIMIT, if that is written, and that of OFFSET, or 0. `first` is the number of a token; which SELECT the grammar
/// allows there goes by the words before it.
///
/// FROM is bound first, from the left, then WHERE, then the list from the left, then ORDER BY. Of a relation its number comes
/// first (at most 10, over all groups), then its table, then its alias, and right behind it the condition of its join, which
/// sees the relations of its own group up to it; all else sees all relations. A relation is seen under its alias alone, which
/// is the table's name where none is given; `*` and `alias.*` are every column in order. A bare name of ORDER BY is sought in
/// the list first; DESC alone puts NULLs first, and otherwise they are last unless said. Names compare in small letters. Then
/// come LIMIT and OFFSET, whose numbers are each at most 2^63 - 1, and then the limits, at the first byte of the whole
/// statement: at most 32 conjuncts in pushed form, of which a constant is one, then at most 256 atoms, of which a constant is
/// none (PostgreSQL manual, chapters Queries and Type Conversion; the limits are own). Each AND and each OR of a conjunct has a
/// part.
///
/// The text has at most 2^31 bytes, and the tokens are the words of a statement from some offset of it. The refusal is the
/// first fault: that of the statement's grammar (42601; 54000 for a name over 63 bytes, a text over 8,192 or an expression over
/// 32 levels deep), or, in a statement without one, that no SELECT stands at `first` and goes on up to its end (42601, at that
/// word or at the first one with which none goes on, or at that word before a SELECT that groups, which is none); else a
/// relation too many (54000), an unknown table or qualifier (42P01), an alias that stands twice (42712), an unknown column
/// (42703) or one that several visible relations have (42702), a literal out of range (22003) or not of its type (22P02), a
/// missing operator (42883) or a column that is no condition (42804), with its word, else a number of LIMIT or OFFSET that is
/// too great (22003), with its word, else a limit (54000). It is `Memory` only of a statement without a fault of the grammar
/// that has a SELECT there.
pub fn read_select(
    alloc: Global,
    cat: &Catalog,
    text: &[u8],
    tokens: &Tokens,
    first: u32,
) -> Result<Prepared, Refusal>
    requires short { length text.now ≤ 2 ^ 31 }
    requires words { (from : ℕ) × AreWords text.now from tokens.now }
    requires within { first < length tokens.now }
    ensures grammar { IsGrammatical text.now tokens.now first result }
    ensures binding { BindsSelect cat.now text.now tokens.now first result }
    ensures well_bound { IfOk result (IsWellBound cat.now) }
    ensures classes { IfOk result (λ q. IsClassTable (given_of cat.now q) q.classes) }
    ensures parts { IfOk result (λ q. All HasParts q.where_all) }
{
    read_whole(alloc, cat, text, tokens, first)
}

/// The SELECT with its order and its window that is the tokens from number `first` up to, but not including, number `end` of a
/// statement without a fault of the grammar: bound as [`read_select`] binds one, with the same refusals but for those of the
/// grammar. The limits stand at the first byte of the whole statement.
pub fn read_part(
    alloc: Global,
    cat: &Catalog,
    text: &[u8],
    tokens: &Tokens,
    first: u32,
    end: u32,
) -> Result<Prepared, Refusal>
    requires short { length text.now ≤ 2 ^ 31 }
    requires words { (from : ℕ) × AreWords text.now from tokens.now }
    requires part { HavePart text.now tokens.now first end }
    ensures binding { BindsPart cat.now text.now tokens.now first end result }
    ensures well_bound { IfOk result (IsWellBound cat.now) }
    ensures classes { IfOk result (λ q. IsClassTable (given_of cat.now q) q.classes) }
{
    part(alloc, cat, text, tokens, first, end)
}
