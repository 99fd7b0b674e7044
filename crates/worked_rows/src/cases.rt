//! What is run: the tuples that it gives, the rows that it fetches, and how often it looks at most, worked out by hand from the
//! definitions of `run`, `fetches` and `looks` (plan_tree) and of the clauses `cost` (merge_exec).

ghost use Rattle.std.specs.Prelude.{◌≡◌, ◌<◌};
ghost use Rattle.sql_query.specs.WellBound.{IsWellBound};
ghost use Rattle.store.specs.work.Kept.{IsStoreOf};

use crate::joins::{Way, see_join};
use crate::plans::{Drawn, see_tuples};
use crate::scans::{see_restarts, see_scan};
use crate::scene::{Cost, Scene, counted};
use crate::script::{Data, define, give, query};
use crate::seen::{Seen, Wanted};
use catalog::Catalog;
use heap::{Counters, Counting};
use pg_base::{Memory, Steps};
use std::alloc::Global;
use std::marker::Brand;
use std::sync::ledger::{Blank, Ledger};
use store::{Store, stores_follow_their_catalogues};

const T: &[u8] = b"CREATE TABLE t (a int4, b int4);";

const U: &[u8] = b"CREATE TABLE u (a int4, b int4);";

const ON_T: &[u8] = b"CREATE INDEX ta ON t (a);";

const ON_U: &[u8] = b"CREATE INDEX ua ON u (a);";

/// Repeated keys and NULLs.
const SOME: Data = Data::Text(b"2,0\n\\N,1\n1,2\n2,3\n");

const OTHERS: Data = Data::Text(b"\\N,0\n2,1\n3,2\n2,3\n1,4\n");

/// A table, tables of few rows and tables of 1000, each with the rows that it is given.
type Tables<'a> = (&'a [&'a [u8]], &'a [(&'a [u8], Data<'a>)]);

const ONE: Tables = (&[T, ON_T], &[(b"t", Data::Turns)]);

const FEW: Tables = (&[T, U, ON_T, ON_U], &[(b"t", SOME), (b"u", OTHERS)]);

const MANY: Tables = (
    &[T, U, ON_T, ON_U],
    &[(b"t", Data::Rising), (b"u", Data::Falling)],
);

const FIVE: &[u8] = b"SELECT * FROM t WHERE a = 5;";

const FIVE_BY_B: &[u8] = b"SELECT * FROM t WHERE a = 5 ORDER BY b DESC;";

const DOWN: &[u8] = b"SELECT * FROM t WHERE a < 2 ORDER BY a DESC;";

const BOTH: &[u8] = b"SELECT * FROM t, u WHERE t.a = u.a;";

/// The rows with 5, and from the last one.
const FIVES: &[u32] = &[5, 105, 205, 305, 405, 505, 605, 705, 805, 905];

const FIVES_BACK: &[u32] = &[905, 805, 705, 605, 505, 405, 305, 205, 105, 5];

/// The rows with 1, then those with 0, each from the last one.
const BACK: &[u32] = &[
    901, 801, 701, 601, 501, 401, 301, 201, 101, 1, 900, 800, 700, 600, 500, 400, 300, 200, 100, 0,
];

/// What is called.
#[derive(Clone, Copy)]
enum Call {
    /// `scan`, by the index or in turn.
    Scan(bool),
    /// `restart`, at each row of the first relation.
    Restart,
    /// `nest_rows` or `merge_rows`.
    Join(Way),
    /// `execute` or `Rows`, of a plan with a sort or without.
    Plan(bool, Drawn),
}

/// Tables, a query over them, what is called, the tuples that it gives, the rows that it fetches, and the looks at most.
type Case<'a> = (Tables<'a>, &'a [u8], Call, Wanted<'a>, u64, u64);

/// 10 of the 1000 entries are within the bounds of `a = 5`, and 20 within those of `a < 2`; a sort looks 32 times at most at
/// each tuple. An inner scan looks at an outer row 32 times at most: 5 starts, 2 entries at the first and 2 + 0 + 1 + 2 at the
/// others, of which 1 and 5 are fetched. A nested loop looks 32 times at most at each of 4 * 5 pairs; a merge so at each of
/// 4 + 5 tuples and of 5 pairs of equal keys, or of 1000 + 1000 and of 1000.
const CASES: [Case; 10] = [
    (ONE, FIVE, Call::Scan(true), Wanted::These(FIVES), 10, 10),
    (ONE, FIVE, Call::Scan(false), Wanted::These(FIVES), 1000, 0),
    (
        FEW,
        BOTH,
        Call::Restart,
        Wanted::These(&[0, 1, 0, 3, 2, 4, 3, 1, 3, 3]),
        6,
        167,
    ),
    (
        FEW,
        BOTH,
        Call::Join(Way::Nest),
        Wanted::These(&[2, 4, 0, 1, 0, 3, 3, 1, 3, 3]),
        0,
        640,
    ),
    (
        FEW,
        BOTH,
        Call::Join(Way::Merge),
        Wanted::These(&[2, 4, 0, 1, 0, 3, 3, 1, 3, 3]),
        0,
        448,
    ),
    (
        MANY,
        BOTH,
        Call::Join(Way::Merge),
        Wanted::Mirrored,
        0,
        96_000,
    ),
    (
        ONE,
        DOWN,
        Call::Plan(false, Drawn::All),
        Wanted::These(BACK),
        20,
        20,
    ),
    (
        ONE,
        FIVE_BY_B,
        Call::Plan(true, Drawn::All),
        Wanted::These(FIVES_BACK),
        10,
        330,
    ),
    (
        ONE,
        DOWN,
        Call::Plan(false, Drawn::Each(1)),
        Wanted::These(&[901]),
        1,
        1,
    ),
    (
        ONE,
        DOWN,
        Call::Plan(false, Drawn::Each(21)),
        Wanted::These(BACK),
        20,
        20,
    ),
];

/// Sees the tuples of a call, and gives what was counted before it.
fn see<C: Counters>(
    at: &Scene<C>,
    call: Call,
    seen: &mut Seen,
    fetches: &mut Steps<C::Fetches>,
    reads: &mut Steps<C::Looks>,
) -> Result<Option<Cost>, Memory>
    requires bound { IsWellBound at.now.cat.now at.now.q.now }
    requires store { IsStoreOf at.now.cat.now at.now.store.now }
{
    match call {
        Call::Scan(by_index) => see_scan(at, by_index, seen, fetches, reads),
        Call::Restart => see_restarts(at, seen, fetches, reads),
        Call::Join(way) => see_join(at, way, seen, fetches, reads),
        Call::Plan(is_sorted, drawn) => see_tuples(at, is_sorted, drawn, seen, fetches, reads),
    }
}

/// Whether a call does as given.
fn is_done<C: Counters>(
    at: &Scene<C>,
    case: Case,
    fetches: &mut Steps<C::Fetches>,
    reads: &mut Steps<C::Looks>,
) -> bool
    requires bound { IsWellBound at.now.cat.now at.now.q.now }
    requires store { IsStoreOf at.now.cat.now at.now.store.now }
{
    let mut seen = Seen::new(case.3);
    let Ok(Some(before)) = see(at, case.2, &mut seen, fetches, reads) else {
        return false;
    };
    let after = counted::<C>(fetches, reads);
    seen.is_all()
        && after.fetches.saturating_sub(before.fetches) == case.4
        && after.looks.saturating_sub(before.looks) <= case.5
}

/// Whether a call does as given over these tables.
fn is_done_over<C: Counters>(
    alloc: Global,
    cat: &Catalog,
    store: &Store<C>,
    case: Case,
    fetches: &mut Steps<C::Fetches>,
    reads: &mut Steps<C::Looks>,
) -> bool
    requires { IsStoreOf cat.now store.now }
{
    match query(alloc, cat, case.1) {
        Some(q) => {
            let at = Scene {
                alloc,
                cat,
                q: &q,
                store,
            };
            is_done(&at, case, fetches, reads)
        }
        None => false,
    }
}

/// Makes tables and gives them their rows, and says whether it did.
fn are_made<C: Counters>(
    alloc: Global,
    cat: &mut Catalog,
    store: &mut Store<C>,
    tables: Tables,
    reads: &mut Steps<C::Looks>,
) -> bool
    requires { IsStoreOf cat.old store.old }
    ensures { IsStoreOf cat.new store.new }
{
    for text in tables.0 {
        if !define(alloc, cat, store, text, reads) {
            return false;
        }
    }
    for rows in tables.1 {
        if !give(alloc, cat, store, *rows, reads) {
            return false;
        }
    }
    true
}

/// Whether a case is as given, counted with these ledgers.
fn is_counted<L: Ledger, M: Ledger>(
    alloc: Global,
    fetching: Blank,
    reading: Blank,
    case: Case,
) -> bool
    requires name { fetching.name ≡ L.name }
    requires parts { fetching.parts ≡ L.parts }
    requires some { 0 < fetching.parts }
    requires other_name { reading.name ≡ M.name }
    requires other_parts { reading.parts ≡ M.parts }
    requires some_too { 0 < reading.parts }
{
    stores_follow_their_catalogues();
    let mut fetches = Steps::<L>::new(fetching);
    let mut reads = Steps::<M>::new(reading);
    let mut cat = Catalog::new(alloc);
    let mut store = Store::<Counting<L, M>>::new(alloc);
    are_made(alloc, &mut cat, &mut store, case.0, &mut reads)
        && is_done_over(alloc, &cat, &store, case, &mut fetches, &mut reads)
}

/// Whether a case is as given.
fn is_told(alloc: Global, case: Case) -> bool {
    is_counted::<Brand, Brand>(alloc, Blank::new(1), Blank::new(1), case)
}

/// The place of the first case that is not as given.
fn first_other(alloc: Global, cases: &[Case]) -> Option<usize> {
    for n in 0..cases.len() {
        if !is_told(alloc, cases[n]) {
            return Some(n);
        }
    }
    None
}

#[test]
fn calls_do_as_worked_out(rt: HostRuntime) {
    assert_eq!(rt; first_other(rt.alloc(), &CASES), None);
}
