//! How many rows a SELECT fetches and looks at, and that rows leave while others are still to be drawn.

ghost use Rattle.std.specs.Prelude.{◌≡◌, ◌≤◌, ◌<◌, length};
ghost use Rattle.pg_base.specs.declared.limits.TheConstants.{MOST_SCRIPT_BYTES};

use heap::{Counters, Counting};
use pg_base::{MOST_SCRIPT_BYTES, MemSink, Steps};
use pgplan::{End, Machine};
use std::alloc::{AllocError, Global};
use std::marker::Brand;
use std::sync::ledger::{Blank, Ledger};

/// 1000 rows with 0 to 99 in turn come after these statements, and more statements after them.
const INDEXED: &[u8] =
    b"CREATE TABLE t (a int4, b int4); CREATE INDEX ta ON t (a);\nCOPY t FROM STDIN WITH (FORMAT CSV, NULL '\\N');\n";

const KNOWN: &[u8] =
    b"\\.\nSTATISTICS t ROWS 100000 PAGES 1000; STATISTICS t.a DISTINCT 100000 NULLS 0; STATISTICS t.b DISTINCT 100 NULLS 0;";

const BY_INDEX: &[u8] = b"SELECT * FROM t WHERE a = 5;";

const IN_TURN: &[u8] = b"SELECT * FROM t WHERE b = 1;";

/// Adds the script of the table, with what is known of it.
fn add_script(text: &mut Vec<u8>) -> Result<(), AllocError> {
    text.extend_from_slice(INDEXED)?;
    for n in 0..1000u32 {
        let row = [
            b'0' + (n % 100 / 10) as u8,
            b'0' + (n % 10) as u8,
            b',',
            b'1',
            b'\n',
        ];
        text.extend_from_slice(&row)?;
    }
    text.extend_from_slice(KNOWN)
}

/// Works all statements of a script, of 16 at most.
fn worked<C: Counters>(
    machine: &mut Machine<C>,
    text: &[u8],
    out: &mut MemSink,
    fetches: &mut Steps<C::Fetches>,
    reads: &mut Steps<C::Looks>,
) -> Result<(), End>
    requires { length text.now ≤ MOST_SCRIPT_BYTES }
{
    let mut at = 0;
    for _ in 0..16 {
        if at as usize > text.len() {
            return Ok(());
        }
        at = machine.step(text, at, out, fetches, reads)?;
    }
    Ok(())
}

/// A query, how its reply begins and ends, and the out that it is answered to: of so much room, and whose write of that
/// number fails.
#[derive(Clone, Copy)]
pub(crate) struct Asked<'a> {
    pub(crate) query: &'a [u8],
    pub(crate) begins: &'a [u8],
    pub(crate) ends: &'a [u8],
    pub(crate) room: usize,
    pub(crate) fails: u64,
}

/// What a query did: whether out stopped it, whether its reply begins and ends so, and the rows that it fetched and looked at.
#[derive(Clone, Copy)]
pub(crate) struct Outcome {
    pub(crate) stopped: bool,
    pub(crate) as_told: bool,
    pub(crate) fetches: u64,
    pub(crate) looks: u64,
}

/// What a query does over the tables of a script.
pub(crate) fn drawn(alloc: Global, tables: &[u8], asked: Asked) -> Result<Outcome, AllocError>
    requires tables { length tables.now ≤ MOST_SCRIPT_BYTES }
    requires query { length asked.query.now ≤ MOST_SCRIPT_BYTES }
{
    counted::<Brand, Brand>(alloc, Blank::new(1), Blank::new(1), tables, asked)
}

fn counted<L: Ledger, M: Ledger>(
    alloc: Global,
    fetching: Blank,
    reading: Blank,
    tables: &[u8],
    asked: Asked,
) -> Result<Outcome, AllocError>
    requires name { fetching.name ≡ L.name }
    requires parts { fetching.parts ≡ L.parts }
    requires some { 0 < fetching.parts }
    requires other_name { reading.name ≡ M.name }
    requires other_parts { reading.parts ≡ M.parts }
    requires some_too { 0 < reading.parts }
    requires short_tables { length tables.now ≤ MOST_SCRIPT_BYTES }
    requires short { length asked.query.now ≤ MOST_SCRIPT_BYTES }
{
    let mut out = sink(alloc, asked)?;
    let mut fetches = Steps::<L>::new(fetching);
    let mut reads = Steps::<M>::new(reading);
    let mut machine = Machine::<Counting<L, M>>::new(alloc);
    if worked(&mut machine, tables, &mut out, &mut fetches, &mut reads).is_err() {
        return Err(AllocError);
    }
    Ok(answered(&mut machine, asked, &mut out, &mut fetches, &mut reads))
}

/// The out of a query.
fn sink(alloc: Global, asked: Asked) -> Result<MemSink, AllocError> {
    let fails = Vec::from_slice(alloc, &[asked.fails])?;
    MemSink::new(alloc, asked.room, fails)
}

/// What a query does.
fn answered<C: Counters>(
    machine: &mut Machine<C>,
    asked: Asked,
    out: &mut MemSink,
    fetches: &mut Steps<C::Fetches>,
    reads: &mut Steps<C::Looks>,
) -> Outcome
    requires { length asked.query.now ≤ MOST_SCRIPT_BYTES }
{
    let before = reads.shown();
    let ended = machine.step(asked.query, 0, out, fetches, reads);
    Outcome {
        stopped: matches!(ended, Err(End::Write)),
        as_told: out.bytes().starts_with(asked.begins) && out.bytes().ends_with(asked.ends),
        fetches: fetches.shown(),
        looks: reads.shown().saturating_sub(before),
    }
}

/// What a query does over the table of 1000 rows.
fn drawn_from_rows(alloc: Global, asked: Asked) -> Result<Outcome, AllocError> {
    let mut tables = Vec::new(alloc);
    add_script(&mut tables)?;
    if tables.len() > MOST_SCRIPT_BYTES || asked.query.len() > MOST_SCRIPT_BYTES {
        return Err(AllocError);
    }
    drawn(alloc, &tables, asked)
}

/// A query, the room of its out, whether that stops it, the least and the most rows that it fetches, and how often it looks
/// at most.
type Paced<'a> = (&'a [u8], usize, bool, u64, u64, u64);

const PACED: [Paced; 3] = [
    (BY_INDEX, 4096, false, 10, 10, 20),
    (IN_TURN, 65_536, false, 1000, 1000, 1000),
    (IN_TURN, 37, true, 1, 999, 999),
];

/// Whether a query is stopped, fetches and looks so.
fn is_paced(alloc: Global, case: Paced) -> bool {
    let (query, room, full, least, most, looks) = case;
    let asked = Asked {
        query,
        begins: b"",
        ends: b"",
        room,
        fails: 0,
    };
    match drawn_from_rows(alloc, asked) {
        Ok(did) => {
            did.stopped == full && least <= did.fetches && did.fetches <= most && did.looks <= looks
        }
        Err(_) => false,
    }
}

/// The place of the first query that does not.
fn first_unpaced(alloc: Global, cases: &[Paced]) -> Option<usize> {
    for n in 0..cases.len() {
        if !is_paced(alloc, cases[n]) {
            return Some(n);
        }
    }
    None
}

#[test]
fn rows_are_fetched_as_the_plan_says(rt: HostRuntime) {
    assert_eq!(rt; first_unpaced(rt.alloc(), &PACED), None);
}

/// A query over the table of 1000 rows, the rows that it fetches, and how often it looks at most.
#[derive(Clone, Copy)]
struct Fetched<'a> {
    query: &'a [u8],
    fetches: u64,
    looks: u64,
}

/// Rows that are passed over are fetched and not looked at; none is fetched behind the last one; a look prints a row, or is one
/// at an entry. An inner side is drawn whole before the first row of its join, and the input of a sort too.
const WINDOWS: [Fetched; 13] = [
    Fetched {
        query: b"SELECT * FROM t LIMIT 5 OFFSET 2;",
        fetches: 7,
        looks: 5,
    },
    Fetched {
        query: b"SELECT * FROM t LIMIT 0;",
        fetches: 0,
        looks: 0,
    },
    Fetched {
        query: b"SELECT x.b, y.b FROM t x, t y LIMIT 0;",
        fetches: 0,
        looks: 0,
    },
    Fetched {
        query: b"SELECT x.b, y.b FROM t x, t y LIMIT 1;",
        fetches: 1001,
        looks: 4,
    },
    Fetched {
        query: b"SELECT * FROM t LIMIT 0 OFFSET 3;",
        fetches: 3,
        looks: 0,
    },
    Fetched {
        query: b"SELECT * FROM t OFFSET 998;",
        fetches: 1000,
        looks: 2,
    },
    Fetched {
        query: b"SELECT * FROM t LIMIT 2000;",
        fetches: 1000,
        looks: 1000,
    },
    Fetched {
        query: b"SELECT * FROM t WHERE a != 0 LIMIT 1;",
        fetches: 2,
        looks: 1,
    },
    Fetched {
        query: b"SELECT * FROM t WHERE b = 1 LIMIT 1000;",
        fetches: 1000,
        looks: 1000,
    },
    Fetched {
        query: b"SELECT * FROM t WHERE a = 5 LIMIT 3;",
        fetches: 3,
        looks: 13,
    },
    Fetched {
        query: b"SELECT * FROM t WHERE a = 5 LIMIT 3 OFFSET 9;",
        fetches: 10,
        looks: 11,
    },
    Fetched {
        query: b"SELECT a FROM t WHERE a = 5 LIMIT 3;",
        fetches: 0,
        looks: 6,
    },
    Fetched {
        query: b"SELECT * FROM t ORDER BY b LIMIT 1;",
        fetches: 1000,
        looks: 1001,
    },
];

/// Whether a query fetches and looks so.
fn is_fetched(alloc: Global, case: Fetched) -> bool {
    let asked = Asked {
        query: case.query,
        begins: b"Limit ",
        ends: b")\n",
        room: 65_536,
        fails: 0,
    };
    match drawn_from_rows(alloc, asked) {
        Ok(did) => did.as_told && did.fetches == case.fetches && did.looks <= case.looks,
        Err(_) => false,
    }
}

/// The place of the first query that does not.
fn first_wrong(alloc: Global, cases: &[Fetched]) -> Option<usize> {
    for n in 0..cases.len() {
        if !is_fetched(alloc, cases[n]) {
            return Some(n);
        }
    }
    None
}

#[test]
fn no_row_is_fetched_behind_the_last_one(rt: HostRuntime) {
    assert_eq!(rt; first_wrong(rt.alloc(), &WINDOWS), None);
}
