//! The limit of a table's indexes.

ghost use Rattle.std.specs.Prelude.{◌≡◌, ◌≤◌, [], length, MatchOption, Ok, Err};
ghost use Rattle.pg_base.specs.declared.limits.TheConstants.{MOST_CANDIDATES};
ghost use Rattle.catalog.specs.Contents.{IsTable, indexes_of};
ghost use Rattle.catalog.specs.Candidates.{with_candidates};
ghost use Rattle.index_reader.specs.AdviseCandidates.{with_room};
ghost use Rattle.index_reader.specs.work.Walk.{AreApart, HaveRoom};

use catalog::{Candidate, Catalog};
use pg_base::{Code, Fault, Limit, MOST_INDEXES, TableNo};
use sql_grammar::fault_at;
use sql_lex::Token;

/// How many indexes and candidates a table has.
fn indexes_on(cat: &Catalog, candidates: &[Candidate], table: TableNo) -> usize
    requires table { IsTable cat.now table }
    requires few { length candidates.now ≤ MOST_CANDIDATES }
    ensures { result ≡ length (indexes_of (with_candidates cat.now candidates.now) table) }
{
    let mut count = cat.indexes(table).len();
    for x in candidates {
        if x.def.table == table {
            count += 1;
        }
    }
    count
}

/// The fault of the first candidate whose table has 8 indexes and earlier candidates (54000), at its name, where `names` has
/// the candidates' names; None where each finds room.
pub(crate) fn room_fault(cat: &Catalog, names: &[Token], candidates: &[Candidate]) -> Option<Fault>
    requires named { length names.now ≡ length candidates.now }
    requires apart { AreApart cat.now candidates.now }
    ensures told { MatchOption result
        (with_room cat.now [] names.now candidates.now ≡ Ok candidates.now)
        (λ f. with_room cat.now [] names.now candidates.now ≡ Err f) }
    ensures room { MatchOption result (HaveRoom (with_candidates cat.now candidates.now))
        (λ _. Unit {0}) }
{
    cat.lawful();
    for n in 0..candidates.len() {
        let x = &candidates[n];
        if indexes_on(cat, &candidates[..n], x.def.table) >= MOST_INDEXES {
            return Some(fault_at(Code::S15(Limit::Indexes), names[n]));
        }
    }
    None
}
