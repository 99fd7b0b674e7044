//! The SELECTs of ADVISE.

ghost use Rattle.std.specs.Prelude.{◌^◌, ◌<◌, ◌≤◌, ℕ, ◌++◌, length, IfOk};
ghost use Rattle.pg_base.specs.declared.limits.TheConstants.{MOST_QUERIES};
ghost use Rattle.sql_lex.specs.Words.{AreWords};
ghost use Rattle.eq_classes.specs.Holding.{IsClassTable};
ghost use Rattle.sql_query.specs.WellBound.{IsWellBound, given_of};
ghost use Rattle.index_reader.specs.work.Walk.{ArePlannable, QueryRow, QueryRowAt, TellsQueryRow, TellsNextQuery, StandsAdvised};

use crate::ends::end_of_select;
use catalog::Catalog;
use expr_reader::Cursor;
use pg_base::{Code, Limit, MOST_QUERIES, Refusal};
use query_reader::read_part;
use sql_grammar::{Symbol, fault_at};
use sql_lex::Tokens;
use sql_query::Prepared;
use std::alloc::Global;

/// A query that is read, and the number of the token behind its `)`.
struct OneQuery {
    query: Prepared,
    end: u32,
}

/// The SELECT whose `(` is token `first`, behind so many others.
fn one(
    alloc: Global,
    cat: &Catalog,
    text: &[u8],
    tokens: &Tokens,
    first: u32,
    earlier: &[Prepared],
) -> Result<OneQuery, Refusal>
    requires short { length text.now ≤ 2 ^ 31 }
    requires words { (from : ℕ) × AreWords text.now from tokens.now }
    requires there { StandsAdvised text.now tokens.now first }
    requires few { length earlier.now ≤ MOST_QUERIES }
    ensures told { TellsNextQuery cat.now text.now tokens.now earlier.now first result }
    ensures ahead { IfOk result (λ r. (first < r.end) × (r.end < length tokens.now)) }
    ensures room { IfOk result (λ r. length earlier.now < MOST_QUERIES) }
    ensures well_bound { IfOk result (λ r. IsWellBound cat.now r.query) }
    ensures classes { IfOk result (λ r. IsClassTable (given_of cat.now r.query) r.query.classes) }
{
    if earlier.len() == MOST_QUERIES {
        let limit = Code::S15(Limit::Queries);
        return Err(Refusal::Fault(fault_at(limit, tokens.items()[first as usize])));
    }
    let end = end_of_select(text, tokens, first + 1);
    let query = read_part(alloc, cat, text, tokens, first + 1, end)?;
    Ok(OneQuery {
        query,
        end: end + 1,
    })
}

/// The SELECTs in parentheses that stand from token `first` on, up to the statement's end.
pub(crate) fn queries(
    alloc: Global,
    cat: &Catalog,
    text: &[u8],
    tokens: &Tokens,
    first: u32,
) -> Result<Vec<Prepared>, Refusal>
    requires short { length text.now ≤ 2 ^ 31 }
    requires words { (from : ℕ) × AreWords text.now from tokens.now }
    requires there { (w : QueryRow) × QueryRowAt text.now tokens.now first w }
    ensures told { TellsQueryRow cat.now text.now tokens.now first result }
    ensures sound { IfOk result (λ v. ArePlannable cat.now v.items) }
{
    let mut queries = Vec::new(alloc);
    let mut at = first;
    'each: loop {
        let mut from = Cursor::new(text, tokens, at);
        if !from.takes_mark(Symbol::Open) {
            return Ok(queries);
        }
        let OneQuery { query, end } = one(alloc, cat, text, tokens, at, &queries)?;
        queries.push(query)?;
        at = end;
    }
}
