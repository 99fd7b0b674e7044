//! A SELECT of either form, read.

ghost use Rattle.std.specs.Prelude.{◌≡◌, ◌⊎◌, ◌<◌, ◌≤◌, ◌^◌, ℕ, IfOk, length};
ghost use Rattle.sql_lex.specs.Words.{AreWords};
ghost use Rattle.sql_grammar.specs.Faults.{terminals};
ghost use Rattle.sql_grammar.specs.work.Faults.{IsWhole};
ghost use Rattle.query_reader.specs.Select.{words_before};
ghost use Rattle.query_reader.specs.work.Select.{AreGrouped, AreNoOther, AreSelect};
ghost use Rattle.group_reader.specs.work.Selected.{IsAnyGrammatical, IsWellSelected, ReadsPlainSelect, ReadsGroupedSelect};

use crate::group::read_grouped;
use catalog::Catalog;
use pg_base::Refusal;
use query_reader::{groups, read_select};
use sql_grammar::statement_fault;
use sql_lex::Tokens;
use sql_query::{Grouped, Prepared};
use std::alloc::Global;

/// A SELECT with its names bound to a catalogue.
#[derive(Drop)]
pub enum Selected {
    /// One that does not group, well bound, with the classes of its own ORDER BY.
    Plain(Prepared),
    /// One that groups: with GROUP BY, or with a call alone.
    Grouped(Grouped),
}

/// A SELECT that does not group, read as a whole.
fn plain(
    alloc: Global,
    cat: &Catalog,
    text: &[u8],
    tokens: &Tokens,
    first: u32,
) -> Result<Selected, Refusal>
    requires short { length text.now ≤ 2 ^ 31 }
    requires words { (from : ℕ) × AreWords text.now from tokens.now }
    requires within { first < length tokens.now }
    requires whole { IsWhole text.now tokens.now }
    requires select { AreSelect text.now tokens.now }
    requires place { first ≡ words_before (terminals text.now tokens.now) }
    ensures grammar { IsAnyGrammatical text.now tokens.now result }
    ensures meaning { ReadsPlainSelect cat.now text.now tokens.now result }
    ensures well { IfOk result (IsWellSelected cat.now) }
{
    let query = read_select(alloc, cat, text, tokens, first)?;
    Ok(Selected::Plain(query))
}

/// A SELECT that groups, read as a whole.
fn grouped(
    alloc: Global,
    cat: &Catalog,
    text: &[u8],
    tokens: &Tokens,
    first: u32,
) -> Result<Selected, Refusal>
    requires short { length text.now ≤ 2 ^ 31 }
    requires words { (from : ℕ) × AreWords text.now from tokens.now }
    requires within { first < length tokens.now }
    requires whole { IsWhole text.now tokens.now }
    requires select { AreGrouped text.now tokens.now }
    requires place { first ≡ words_before (terminals text.now tokens.now) }
    ensures grammar { IsAnyGrammatical text.now tokens.now result }
    ensures meaning { ReadsGroupedSelect cat.now text.now tokens.now result }
    ensures well { IfOk result (IsWellSelected cat.now) }
{
    let query = read_grouped(alloc, cat, text, tokens, first)?;
    Ok(Selected::Grouped(query))
}

/// The SELECT of a statement SELECT or EXPLAIN, of either form; it begins at token `first`. One that does not group is read as
/// [`read_select`](query_reader::read_select) reads it.
///
/// Of one that groups, the relations, the conditions of joins and WHERE are those of a SELECT that does not. Then the list is
/// bound from the left: of a call its column first, then the call itself, which is `count(*)`, `count` of a column, or `min` or
/// `max` of one that is no truth value. Then come ORDER BY, of which a bare name is sought among the columns that the list
/// shows first, then GROUP BY, then the first column in the list and then in ORDER BY that is no GROUP BY column, then the
/// limits (PostgreSQL manual, chapter Queries, GROUP BY, and Aggregate Functions; the limits are own). A GROUP BY column that
/// is shown is given by its place among these, the first one where it stands there twice. The classes are those of the
/// conjuncts, of ORDER BY and of the GROUP BY columns behind it, ascending with NULLs last.
///
/// SELECT DISTINCT is one that groups: its GROUP BY columns are those that the list shows, in their order and with repeats
/// (PostgreSQL manual, SELECT, DISTINCT Clause). Where they are more than can be numbered, the refusal is `Memory`.
///
/// The text has at most 2^31 bytes, and the tokens are the words of a statement from some offset of it, of no other kind than a
/// SELECT. The refusal is the first fault: that of the statement's grammar, as `read_select` tells it; else a fault of FROM, of
/// a condition or of a name, with the codes there; a call that is not known (42883), with the call's name; a column that is not
/// grouped (42803), with its name, or with the star that shows it; else a limit (54000). It is `Memory` only of a statement
/// without a fault of the grammar.
pub fn read_any(
    alloc: Global,
    cat: &Catalog,
    text: &[u8],
    tokens: &Tokens,
    first: u32,
) -> Result<Selected, Refusal>
    requires short { length text.now ≤ 2 ^ 31 }
    requires words { (from : ℕ) × AreWords text.now from tokens.now }
    requires within { first < length tokens.now }
    requires kind { AreNoOther text.now tokens.now }
    requires place { (AreSelect text.now tokens.now ⊎ AreGrouped text.now tokens.now) →
        first ≡ words_before (terminals text.now tokens.now) }
    ensures grammar { IsAnyGrammatical text.now tokens.now result }
    ensures plain { ReadsPlainSelect cat.now text.now tokens.now result }
    ensures grouped { ReadsGroupedSelect cat.now text.now tokens.now result }
    ensures well { IfOk result (IsWellSelected cat.now) }
{
    if let Some(fault) = statement_fault(text, tokens, 0) {
        return Err(Refusal::Fault(fault));
    }
    if groups(text, tokens, first) {
        grouped(alloc, cat, text, tokens, first)
    } else {
        plain(alloc, cat, text, tokens, first)
    }
}
