//! What an entry costs, its rows and its keys: the end of its line.

ghost use Rattle.std.specs.Prelude.{◌≡◌, ◌++◌, ℕ, List, [], IfOk, IfSome, Some, codes};
ghost use Rattle.pg_base.specs.Sets.{has};
ghost use Rattle.certificate_entries.specs.explain_Texts.{keys_text};
ghost use Rattle.sql_query.specs.WellBound.{IsWellBound};
ghost use Rattle.certificate_entries.specs.certificate_text_HasText.{HasKeysText};
ghost use Rattle.certificate_reader.specs.work.Parts.{FindsMeasures, HasMeasuresText};

use catalog::Catalog;
use certificate_entries::{read_figures, read_key_list};
use certificate_text::LineCursor;
use pathkeys::Keys;
use pg_base::{Memory, RelSet};
use sql_query::Prepared;
use std::alloc::Global;

/// What an entry costs, how many rows it is taken to give, and the classes by which they are sorted.
#[derive(Drop)]
pub(crate) struct Measures {
    /// What it costs before its first row.
    pub(crate) startup: u64,
    /// What it costs in all.
    pub(crate) cost: u64,
    /// Its rows.
    pub(crate) rows: u64,
    /// Its keys.
    pub(crate) keys: Keys,
}

/// Keys, where a closing parenthesis comes next.
fn closed(at: &mut LineCursor, keys: Keys) -> Option<Keys>
    ensures has { IfSome result (λ o. o ≡ keys) }
    ensures only { (rest : List ℕ) → at.old ≡ codes ")" ++ rest → result ≡ Some keys }
{
    if at.eat(b")") { Some(keys) } else { None }
}

/// The keys of an entry of a set and the parenthesis behind them. None where no key list comes next, or no parenthesis behind
/// it. The error means out of memory.
fn read_listed(
    alloc: Global,
    at: &mut LineCursor,
    cat: &Catalog,
    q: &Prepared,
    set: RelSet,
) -> Result<Option<Keys>, Memory>
    requires bound { IsWellBound cat.now q.now }
    ensures has { IfOk result (λ o. IfSome o (HasKeysText q.now (has set.0))) }
    ensures only { IfOk result (λ o. (keys : List ℕ) → HasKeysText q.now (has set.0) keys →
        at.old ≡ keys_text cat.now q.now (has set.0) keys ++ codes ")" → o ≡ Some keys) }
{
    cat.lawful();
    if at.eat(b")") {
        let keys = Keys::from_slice(alloc, &[])?;
        return Ok(Some(keys));
    }
    match read_key_list(alloc, at, cat, q, set)? {
        Some(keys) => Ok(closed(at, keys)),
        None => Ok(None),
    }
}

/// What an entry of a set costs, its rows and its keys, up to the end of its line. None where no such text comes next. The
/// error means out of memory.
pub(crate) fn read_measures(
    alloc: Global,
    at: &mut LineCursor,
    cat: &Catalog,
    q: &Prepared,
    set: RelSet,
) -> Result<Option<Measures>, Memory>
    requires bound { IsWellBound cat.now q.now }
    ensures has { IfOk result (λ o. IfSome o (HasMeasuresText q.now (has set.0))) }
    ensures only { IfOk result (λ o. FindsMeasures cat.now q.now set at.old o) }
{
    let (startup, cost, rows) = match read_figures(at, q) {
        Some(figures) => figures,
        None => return Ok(None),
    };
    if !at.eat(b" keys=(") {
        return Ok(None);
    }
    match read_listed(alloc, at, cat, q, set)? {
        Some(keys) => Ok(Some(Measures {
            startup,
            cost,
            rows,
            keys,
        })),
        None => Ok(None),
    }
}
