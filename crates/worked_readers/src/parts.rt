//! Parts of statements: the SELECT behind EXPLAIN and the candidate behind CREATE INDEX, each read between two tokens, and a
//! SELECT sought at a token. Kinds and places were found by a planner written apart.

ghost use Rattle.std.specs.Prelude.{◌≤◌, ◌^◌, length};

use crate::cases::{Cases, Reader, Repeated, Tables, Wrong, first_failing, is_refused};
use crate::selects::{Wanted, is_query};
use catalog::Catalog;
use index_reader::{ReadIndex, a_candidate_that_ends_is_one, read_cand};
use pg_base::{Code, Fault, Limit, Refusal};
use query_reader::{a_select_that_ends_is_a_part, read_part, read_select};
use sql_grammar::{cand_end, statement_fault, windowed_select_end};
use sql_lex::lex_statement;
use sql_query::Prepared;
use std::alloc::Global;

/// Statements that begin with EXPLAIN, the fault that refuses the SELECT behind it and the place of its word.
const SELECTS: [Wrong; 3] = [
    (b"EXPLAIN SELECT zz FROM t;", Code::S3, 15, 17),
    (
        b"EXPLAIN SELECT a FROM t ORDER BY a LIMIT 9223372036854775808;",
        Code::S11,
        41,
        60,
    ),
    (b"EXPLAIN SELECT a FROM t u WHERE t.a = 1", Code::S2, 32, 33),
];

/// Statements that begin with CREATE INDEX, the fault that refuses the candidate behind that and the place of its word.
const CANDIDATES: [Wrong; 3] = [
    (b"CREATE INDEX i ON c (z);", Code::S2, 18, 19),
    (b"CREATE INDEX i ON a (b) INCLUDE (z)", Code::S3, 33, 34),
    (b"CREATE INDEX i ON a (b) WHERE t = 1;", Code::S9, 32, 33),
];

/// Statements, the number of a token, and where it is a fault that no SELECT stands there up to the end.
pub(crate) type Place<'a> = (&'a [u8], u32, Option<u32>);

const PLACES: [Place; 5] = [
    (b"SELECT a FROM t;", 0, None),
    (b"SELECT a FROM t;", 1, Some(7)),
    (b"EXPLAIN SELECT a FROM t", 1, None),
    (b"EXPLAIN SELECT a FROM t", 0, Some(0)),
    (b"CREATE INDEX i ON t (a);", 2, Some(13)),
];

/// The SELECT with its order and its window that begins at the second token of a statement.
pub(crate) fn select(alloc: Global, catalog: &Catalog, text: &[u8]) -> Result<Prepared, Refusal>
    requires { length text.now ≤ 2 ^ 31 }
{
    let tokens = lex_statement(alloc, text, 0)?;
    if let Some(fault) = statement_fault(text, &tokens, 0) {
        return Err(Refusal::Fault(fault));
    }
    if tokens.items().len() < 2 {
        return Err(Refusal::Memory);
    }
    a_select_that_ends_is_a_part();
    let end = windowed_select_end(text, &tokens, 1)?;
    read_part(alloc, catalog, text, &tokens, 1, end)
}

/// The candidate for an index that begins at the third token of a statement.
pub(crate) fn candidate(alloc: Global, catalog: &Catalog, text: &[u8]) -> Result<ReadIndex, Refusal>
    requires { length text.now ≤ 2 ^ 31 }
{
    let tokens = lex_statement(alloc, text, 0)?;
    if let Some(fault) = statement_fault(text, &tokens, 0) {
        return Err(Refusal::Fault(fault));
    }
    if tokens.items().len() < 3 {
        return Err(Refusal::Memory);
    }
    a_candidate_that_ends_is_one();
    let end = cand_end(text, &tokens, 2)?;
    read_cand(alloc, catalog, text, &tokens, 2, end)
}

/// Why a SELECT is refused that is sought at the token of this number.
fn refusal_at(alloc: Global, catalog: &Catalog, text: &[u8], first: u32) -> Option<Refusal>
    requires { length text.now ≤ 2 ^ 31 }
{
    let tokens = match lex_statement(alloc, text, 0) {
        Ok(tokens) => tokens,
        Err(refusal) => return Some(refusal),
    };
    if first as usize >= tokens.items().len() {
        return Some(Refusal::Memory);
    }
    read_select(alloc, catalog, text, &tokens, first).err()
}

/// The place of the first statement and token at which a SELECT is found, or is not, against what is given.
pub(crate) fn first_place(alloc: Global, catalog: &Catalog, rows: &[Place]) -> Option<usize> {
    for n in 0..rows.len() {
        let (text, first, place) = rows[n];
        let told = match place {
            Some(at) => Some(Refusal::Fault(Fault::syntax(at))),
            None => None,
        };
        if text.len() > 1_000 || refusal_at(alloc, catalog, text, first) != told {
            return Some(n);
        }
    }
    None
}

/// Statements that begin with EXPLAIN, and what the SELECT behind it is read as.
pub(crate) type Behind<'a> = (&'a [u8], &'a [Wanted<'a>]);

const BEHIND: [Behind; 1] = [(
    b"EXPLAIN SELECT b, a FROM t u WHERE a = 1 ORDER BY b DESC LIMIT 3 OFFSET 2;",
    &[
        Wanted::Counted(2, 1, 1),
        Wanted::Windowed(Some((Some(3), 2))),
    ],
)];

/// The place of the first statement whose SELECT is read as something else.
pub(crate) fn first_behind(alloc: Global, catalog: &Catalog, rows: &[Behind]) -> Option<usize> {
    for n in 0..rows.len() {
        let (text, wanted) = rows[n];
        if text.len() > 100 || !is_query(select(alloc, catalog, text), wanted) {
            return Some(n);
        }
    }
    None
}

/// Statements that begin with CREATE INDEX, the places of the names of the candidate behind that, whose name is `i` and which
/// has a predicate, and the place of its method.
pub(crate) type Candidate<'a> = (&'a [u8], &'a [u32], u32);

const READ: [Candidate; 1] = [(
    b"CREATE INDEX i ON a USING btree (b DESC, t) INCLUDE (f) WHERE f;",
    &[13, 33, 41, 53],
    26,
)];

fn is_candidate(read: Result<ReadIndex, Refusal>, at: &[u32], method: u32) -> bool {
    match read {
        Ok(read) => {
            read.name.items() == b"i".as_slice()
                && read.at.as_slice() == at
                && read.method == method
                && read.def.predicate.is_some()
        }
        Err(_) => false,
    }
}

/// The place of the first statement whose candidate is read as something else.
pub(crate) fn first_candidate(
    alloc: Global,
    catalog: &Catalog,
    rows: &[Candidate],
) -> Option<usize> {
    for n in 0..rows.len() {
        let (text, at, method) = rows[n];
        if text.len() > 100 || !is_candidate(candidate(alloc, catalog, text), at, method) {
            return Some(n);
        }
    }
    None
}

/// Statements with a part, the limit that it passes, and where the first word of the statement ends.
pub(crate) type Limited<'a> = (Reader, Repeated<'a>, Limit, u32);

const CONJUNCTS: [Limited; 1] = [(
    Reader::SelectPart,
    (
        b"EXPLAIN SELECT a FROM t WHERE a < 1",
        b" AND a < 1",
        b";",
        32,
    ),
    Limit::Conjuncts,
    7,
)];

const ATOMS: [Limited; 1] = [(
    Reader::Candidate,
    (
        b"CREATE INDEX i ON a (b) WHERE b < 1",
        b" OR b < 1",
        b";",
        256,
    ),
    Limit::Atoms,
    6,
)];

/// The place of the first statement whose part is refused otherwise than at the first word.
pub(crate) fn first_limited(alloc: Global, catalog: &Catalog, rows: &[Limited]) -> Option<usize> {
    for n in 0..rows.len() {
        let (reader, of, limit, end) = rows[n];
        let fault = Some(Fault::at_words(Code::S15(limit), 0, end));
        if !is_refused(alloc, catalog, reader, of, fault) {
            return Some(n);
        }
    }
    None
}

#[test]
fn refuses_a_select_between_two_tokens(rt: HostRuntime) {
    let cases = Cases::Wrong(Reader::SelectPart, &SELECTS);
    assert_eq!(rt; first_failing(rt.alloc(), Tables::Two, cases), None);
}

#[test]
fn refuses_a_candidate_between_two_tokens(rt: HostRuntime) {
    let cases = Cases::Wrong(Reader::Candidate, &CANDIDATES);
    assert_eq!(rt; first_failing(rt.alloc(), Tables::One, cases), None);
}

#[test]
fn finds_a_select_where_it_stands(rt: HostRuntime) {
    assert_eq!(rt;
        first_failing(rt.alloc(), Tables::Two, Cases::Places(&PLACES)),
        None
    );
}

#[test]
fn reads_a_select_between_two_tokens(rt: HostRuntime) {
    assert_eq!(rt;
        first_failing(rt.alloc(), Tables::Two, Cases::Behind(&BEHIND)),
        None
    );
}

#[test]
fn reads_a_candidate_between_two_tokens(rt: HostRuntime) {
    assert_eq!(rt;
        first_failing(rt.alloc(), Tables::One, Cases::Candidates(&READ)),
        None
    );
}

#[test]
fn limits_of_parts_stand_at_the_first_word_of_the_statement(rt: HostRuntime) {
    let limited = [
        first_failing(rt.alloc(), Tables::Two, Cases::Limited(&CONJUNCTS)),
        first_failing(rt.alloc(), Tables::One, Cases::Limited(&ATOMS)),
    ];
    assert_eq!(rt; limited, [None, None]);
}
