//! Reading a statement for ADVISE.

ghost use Rattle.std.specs.Prelude.{◌≡◌, ◌^◌, ◌≤◌, ℕ, List, ◌∷◌, drop, length, true, IfOk, IfErr, Ok};
ghost use Rattle.sql_lex.specs.Words.{AreWords};
ghost use Rattle.sql_grammar.specs.Faults.{terminals};
ghost use Rattle.sql_grammar.specs.Terminals.{Said, Terminal, t_number};
ghost use Rattle.index_reader.specs.AdviseMeaning.{most_meant};
ghost use Rattle.index_reader.specs.work.AdviseSoundness.{IsSound};
ghost use Rattle.index_reader.specs.work.AdviseStatements.{advice_asked, begins_advise, IsAdviseMeaning, IsAdviseRefusal, PartsStand, TellsAdvice};
ghost use Rattle.index_reader.specs.work.Walk.{QueryRow, Row};
ghost use Rattle.expr_reader.specs.work.Reading.{IfNext};

use crate::advising::Advising;
use crate::candidates::{AllRead, candidates};
use crate::queries::queries;
use crate::room::room_fault;
use catalog::Catalog;
use expr_reader::Cursor;
use pg_base::{Code, Fault, MOST_CANDIDATES, Refusal};
use sql_grammar::{Free, fault_at, statement_fault};
use sql_lex::Tokens;
use std::alloc::Global;

/// Whether the statement of these tokens begins with ADVISE.
pub fn is_advise(text: &[u8], tokens: &Tokens) -> bool
    requires short { length text.now ≤ 2 ^ 31 }
    requires words { (from : ℕ) × AreWords text.now from tokens.now }
    ensures { result ≡ begins_advise (terminals text.now tokens.now) }
{
    let mut from = Cursor::new(text, tokens, 0);
    from.takes_free(Free::Advise)
}

/// The number behind ADVISE: the most candidates that are to be made. One past 10 is refused (22023), at the number.
fn most(text: &[u8], tokens: &Tokens) -> Result<u8, Fault>
    requires short { length text.now ≤ 2 ^ 31 }
    requires words { (from : ℕ) × AreWords text.now from tokens.now }
    requires there { (n : Said) × (rest : List Terminal) ×
        (terminals text.now (drop 1 tokens.now) ≡ t_number n ∷ rest) }
    ensures told { IfNext t_number (terminals text.now (drop 1 tokens.now))
        (λ n rest. result ≡ most_meant n) }
    ensures few { IfOk result (λ n. n ≤ MOST_CANDIDATES) }
{
    let mut from = Cursor::new(text, tokens, 1);
    let Some(number) = from.number() else {
        unreachable!();
    };
    if number.value > MOST_CANDIDATES as u64 {
        return Err(fault_at(Code::S17, number.token));
    }
    Ok(number.value as u8)
}

/// What an ADVISE asks whose syntax has no fault.
fn parts(alloc: Global, cat: &Catalog, text: &[u8], tokens: &Tokens) -> Result<Advising, Refusal>
    requires short { length text.now ≤ 2 ^ 31 }
    requires words { (from : ℕ) × AreWords text.now from tokens.now }
    requires there { (n : Said) × (w : Row) × (q : QueryRow) × PartsStand text.now tokens.now n w q }
    ensures told { TellsAdvice cat.now text.now tokens.now result }
    ensures sound { IfOk result (λ a. IsSound cat.now (advice_asked a)) }
{
    let most = most(text, tokens)?;
    let AllRead {
        candidates,
        names,
        end,
    } = candidates(alloc, cat, text, tokens, 3)?;
    if let Some(fault) = room_fault(cat, &names, &candidates) {
        return Err(Refusal::Fault(fault));
    }
    let queries = queries(alloc, cat, text, tokens, end + 1)?;
    Ok(Advising {
        most,
        candidates,
        queries,
    })
}

/// Reads the ADVISE of these tokens: what it asks, bound to the catalogue, or its first fault.
///
/// Faults of syntax come first (42601, 54000). Then comes a number past 10 (22023), at the number. Then the candidates are read
/// from the left, each as CREATE INDEX is, but for the limit of a table's indexes: the eleventh is a fault (54000) at its name,
/// and is not bound; any other has the faults of `index_reader::read_cand`, then a name that a table, an index or an earlier
/// candidate has (42P07) at that name, a column that stands twice (42701) at the first such column's name, and a form that the
/// method has not (22023) at the method's name. Then come more than 8 indexes and candidates on one table (54000), at the name
/// of the first candidate too many. Then the SELECTs are read from the left: the seventeenth is a fault (54000) at its `(`, and
/// is not bound; any other has the faults of `query_reader::read_part`. Conjuncts and atoms are counted for each candidate and
/// each SELECT by itself, and their limits stand at the statement's first word.
///
/// What is read may be priced: the candidates may be made together, and each query is well bound, with classes of its own. The
/// text has at most 2^31 bytes, and the tokens are the words of a statement from some offset of it, of which the first one is
/// ADVISE. The refusal is `Memory` only of one whose syntax has no fault.
pub fn read_advise(
    alloc: Global,
    cat: &Catalog,
    text: &[u8],
    tokens: &Tokens,
) -> Result<Advising, Refusal>
    requires short { length text.now ≤ 2 ^ 31 }
    requires words { (from : ℕ) × AreWords text.now from tokens.now }
    requires opens { begins_advise (terminals text.now tokens.now) ≡ true }
    ensures read { IfOk result
        (λ a. IsAdviseMeaning cat.now text.now tokens.now (Ok (advice_asked a))) }
    ensures sound { IfOk result (λ a. IsSound cat.now (advice_asked a)) }
    ensures refused { IfErr result (IsAdviseRefusal cat.now text.now tokens.now) }
{
    if let Some(fault) = statement_fault(text, tokens, 0) {
        return Err(Refusal::Fault(fault));
    }
    parts(alloc, cat, text, tokens)
}
