//! The candidates of ADVISE.

ghost use Rattle.std.specs.Prelude.{◌≡◌, ◌^◌, ◌<◌, ◌≤◌, ◌+◌, ℕ, [], ◌++◌, length, map, drop, IfOk, All};
ghost use Rattle.pg_base.specs.declared.limits.TheConstants.{MOST_CANDIDATES};
ghost use Rattle.pg_base.specs.Names.{AreDistinct};
ghost use Rattle.sql_lex.specs.Words.{AreWords};
ghost use Rattle.sql_grammar.specs.declared.class.Symbol.TheVariants.{Close};
ghost use Rattle.sql_grammar.specs.Terminals.{t_mark};
ghost use Rattle.sql_grammar.specs.Faults.{terminals};
ghost use Rattle.catalog.specs.Contents.{NamedIndex};
ghost use Rattle.catalog.specs.Candidates.{with_candidates};
ghost use Rattle.catalog.specs.work.Candidates.{IsCandidateIndex, names_of};
ghost use Rattle.index_reader.specs.AdviseCandidates.{CandidateMeans};
ghost use Rattle.index_reader.specs.AdviseMeaning.{CandidatesMean};
ghost use Rattle.index_reader.specs.Parts.{candidates_of, name_token};
ghost use Rattle.index_reader.specs.work.Walk.{AreApart, Row, RowAt, StandsCand, TellsNextCandidate, TellsRow};

use crate::allowed::not_allowed;
use crate::ends::end_of_candidate;
use crate::{ReadIndex, read_cand};
use catalog::{Candidate, Catalog};
use expr_reader::Cursor;
use pg_base::{Code, Limit, MOST_CANDIDATES, Refusal};
use sql_grammar::{Symbol, fault_at};
use sql_lex::{Token, Tokens};
use std::alloc::Global;

/// A candidate that is read, and the number of the token behind it.
struct OneRead {
    candidate: Candidate,
    end: u32,
}

/// The candidates that are read, the tokens of their names, and the number of the token behind them.
#[derive(Drop)]
pub(crate) struct AllRead {
    pub(crate) candidates: Vec<Candidate>,
    pub(crate) names: Vec<Token>,
    pub(crate) end: u32,
}

/// The candidate that stands from token `first` on, behind earlier ones.
fn one(
    alloc: Global,
    cat: &Catalog,
    text: &[u8],
    tokens: &Tokens,
    first: u32,
    earlier: &[Candidate],
) -> Result<OneRead, Refusal>
    requires short { length text.now ≤ 2 ^ 31 }
    requires words { (from : ℕ) × AreWords text.now from tokens.now }
    requires there { StandsCand text.now tokens.now first }
    requires few { length earlier.now ≤ MOST_CANDIDATES }
    ensures told { TellsNextCandidate cat.now text.now tokens.now earlier.now first result }
    ensures ahead { IfOk result (λ r. (first < r.end) × (r.end < length tokens.now)) }
    ensures room { IfOk result (λ r. length earlier.now < MOST_CANDIDATES) }
    ensures sound { IfOk result
        (λ r. IsCandidateIndex (with_candidates cat.now earlier.now) r.candidate) }
{
    if earlier.len() == MOST_CANDIDATES {
        let limit = Code::S15(Limit::Candidates);
        return Err(Refusal::Fault(fault_at(limit, tokens.items()[first as usize])));
    }
    let end = end_of_candidate(text, tokens, first);
    let read = read_cand(alloc, cat, text, tokens, first, end)?;
    if let Some(fault) = not_allowed(cat, earlier, &read, tokens) {
        return Err(Refusal::Fault(fault));
    }
    let ReadIndex { name, def, .. } = read;
    let candidate = Candidate { name, def };
    Ok(OneRead { candidate, end })
}

/// The candidates that stand from token `first` on, up to `)`.
pub(crate) fn candidates(
    alloc: Global,
    cat: &Catalog,
    text: &[u8],
    tokens: &Tokens,
    first: u32,
) -> Result<AllRead, Refusal>
    requires short { length text.now ≤ 2 ^ 31 }
    requires words { (from : ℕ) × AreWords text.now from tokens.now }
    requires there { (w : Row) × RowAt text.now tokens.now first w }
    ensures told { TellsRow cat.now text.now tokens.now first result }
    ensures as_many { IfOk result (λ r. length r.names.items ≡ length r.candidates.items) }
    ensures sound { IfOk result (λ r. AreApart cat.now r.candidates.items) }
{
    let mut candidates = Vec::new(alloc);
    let mut names = Vec::new(alloc);
    let mut at = first;
    'each: loop {
        let name = tokens.items()[at as usize];
        let OneRead { candidate, end } = one(alloc, cat, text, tokens, at, &candidates)?;
        names.push(name)?;
        candidates.push(candidate)?;
        let mut behind = Cursor::new(text, tokens, end);
        if !behind.takes_mark(Symbol::Comma) {
            return Ok(AllRead {
                candidates,
                names,
                end,
            });
        }
        at = end + 1;
    }
}
