//! Whether a candidate that is read may be made.

ghost use Rattle.std.specs.Prelude.{◌≡◌, ◌<◌, ◌+◌, ◌≤◌, ◌↔◌, IsTrue, MatchOption, length, slice_index_or, Contains};
ghost use Rattle.std.specs.List.{list_any};
ghost use Rattle.std.specs.Str.{bytes_eq};
ghost use Rattle.pg_base.specs.declared.limits.TheConstants.{MOST_COLUMNS};
ghost use Rattle.catalog.specs.Contents.{all_names};
ghost use Rattle.catalog.specs.work.Entries.{index_of};
ghost use Rattle.catalog.specs.Indexes.{AreDifferentColumns, IsFirstTwice, columns_of, has_form, is_plain};
ghost use Rattle.catalog.specs.Candidates.{with_candidates};
ghost use Rattle.index_reader.specs.work.Reads.{index_meant};
ghost use Rattle.index_reader.specs.AdviseCandidates.{IsAllowed, IsNotAllowed};
ghost use Rattle.index_reader.specs.work.AdviseCandidates.{StandsBefore};
ghost use Rattle.index_reader.specs.Places.{end_of_word as end_of_word_at, word_fault};

use crate::ReadIndex;
use catalog::{Candidate, Catalog, IndexDef};
use opfamily::{IndexKey, Method};
use pg_base::{Code, ColNo, Fault};
use sql_lex::{Token, Tokens};

/// Where the word ends that begins at a byte offset; the offset itself where none does.
fn end_of_word(tokens: &[Token], at: u32) -> u32
    ensures { result ≡ end_of_word_at tokens.now at }
{
    for token in tokens {
        if token.start == at {
            return token.end;
        }
    }
    at
}

/// A fault at the word that begins at a byte offset.
fn at_word(code: Code, tokens: &Tokens, at: u32) -> Fault
    ensures { result ≡ word_fault code tokens.now at }
{
    Fault::at_words(code, at, end_of_word(tokens.items(), at))
}

/// The column at a place: the key columns, then those of INCLUDE.
fn column(def: &IndexDef, n: usize) -> ColNo
    requires { n < length def.now.keys.items + length def.now.include.items }
    ensures { result ≡ slice_index_or (columns_of (index_of def.now)) n result }
{
    match def.keys.get(n) {
        Some(key) => key.col,
        None => def.include[n - def.keys.len()],
    }
}

/// Whether the column at a place stands before already.
fn stands_before(def: &IndexDef, n: usize) -> bool
    requires few { length def.now.keys.items + length def.now.include.items ≤ MOST_COLUMNS }
    requires within { n < length def.now.keys.items + length def.now.include.items }
    ensures { IsTrue result ↔ StandsBefore (columns_of (index_of def.now)) n }
{
    let sought = column(def, n);
    for m in 0..n {
        if column(def, m) == sought {
            return true;
        }
    }
    false
}

/// The place, from 0, of the first of the columns that stands before already. None where they differ.
fn first_twice(def: &IndexDef) -> Option<usize>
    requires { length def.now.keys.items + length def.now.include.items ≤ MOST_COLUMNS }
    ensures { MatchOption result (AreDifferentColumns (columns_of (index_of def.now)))
        (IsFirstTwice (columns_of (index_of def.now))) }
{
    for n in 0..def.keys.len() + def.include.len() {
        if stands_before(def, n) {
            return Some(n);
        }
    }
    None
}

/// Whether a key is ascending with NULLs last.
fn is_plain_key(key: &IndexKey) -> bool
    ensures { result ≡ is_plain key.now }
{
    !key.descending && !key.nulls_first
}

/// Whether the method has indexes of this form: a hash index has one key, ascending with NULLs last, and no INCLUDE column
/// (PostgreSQL manual, Hash Indexes).
fn is_of_form(def: &IndexDef) -> bool
    ensures { result ≡ has_form (index_of def.now) }
{
    match def.method {
        Method::Btree => true,
        Method::Hash => {
            def.keys.len() == 1 && def.include.is_empty() && is_plain_key(&def.keys[0])
        }
    }
}

/// Whether one of some candidates has this name.
fn is_among(candidates: &[Candidate], name: &[u8]) -> bool
    ensures { result ≡ list_any (λ x. bytes_eq name.now x.name) candidates.now }
{
    candidates.iter().any(|x| name == x.name.items())
}

/// Whether a table, an index or one of some candidates has this name.
fn is_taken(cat: &Catalog, candidates: &[Candidate], name: &[u8]) -> bool
    ensures { IsTrue result ↔
        Contains (all_names (with_candidates cat.now candidates.now)) name.now }
{
    if cat.table(name).is_some() {
        return true;
    }
    if cat.index_named(name).is_some() {
        return true;
    }
    is_among(candidates, name)
}

/// Why a candidate may not be made behind earlier ones: its name is taken (42P07), at that name; else a column stands twice
/// (42701), at the first such column's name; else the method has no index of its form (22023), at the method's name. None where
/// it may be made.
pub(crate) fn not_allowed(
    cat: &Catalog,
    earlier: &[Candidate],
    read: &ReadIndex,
    tokens: &Tokens,
) -> Option<Fault>
    requires few { length read.now.def.keys.items + length read.now.def.include.items ≤ MOST_COLUMNS }
    requires places { length read.now.at.items ≡ length (columns_of (index_of read.now.def)) + 1 }
    ensures { MatchOption result
        (IsAllowed (with_candidates cat.now earlier.now) (index_meant read.now))
        (IsNotAllowed (with_candidates cat.now earlier.now) tokens.now (index_meant read.now)) }
{
    if is_taken(cat, earlier, read.name.items()) {
        return Some(at_word(Code::S5, tokens, read.at[0]));
    }
    if let Some(place) = first_twice(&read.def) {
        return Some(at_word(Code::S6, tokens, read.at[place + 1]));
    }
    if !is_of_form(&read.def) {
        return Some(at_word(Code::S17, tokens, read.method));
    }
    None
}
