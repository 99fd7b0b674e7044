//! How many rows a join fetches and looks at, in all and up to the rows that have left.
//!
//! Fetches are exact: of a plain scan one for each row, of an index scan one for each entry that meets its conditions, of an
//! index-only scan none; of a scan that is given rows so many for each outer tuple. An inner side that is not given rows, and
//! the input of a sort, are drawn to their ends first; all else is drawn as rows leave.
//!
//! A look is one at an entry, or at the row of a relation that was found before. A nested loop over kept tuples looks at
//! each row of each pair; elsewhere the first number is what has to be looked at (entries, keys of sorts, the outer row that a
//! scan is given, rows shown), and the second one what may be: beside these each row of a pair that is compared or tested.

use crate::pace::{Asked, drawn};
use pg_base::MOST_SCRIPT_BYTES;
use std::alloc::{AllocError, Global};

/// What an `@` of the tables stands for. A row that shows it is written by itself.
const WIDE: [u8; 1024] = [b'w'; 1024];

/// Room for all rows.
const ROOM: usize = 65_536;

/// A query over tables of which something is known, how its reply begins and ends, the write at which out fails (0 where
/// none does), the rows that are then fetched, and between which numbers the looks are.
#[derive(Clone, Copy)]
pub(crate) struct Case<'a> {
    pub(crate) tables: &'a [u8],
    pub(crate) known: &'a [u8],
    pub(crate) query: &'a [u8],
    pub(crate) begins: &'a [u8],
    pub(crate) ends: &'a [u8],
    pub(crate) fails: u64,
    pub(crate) fetches: u64,
    pub(crate) looks: (u64, u64),
}

/// No row of `y` is above one of the first two rows of `x`.
const LOOP: &[u8] = br#"CREATE TABLE x (a int4, b text);
CREATE TABLE y (a int4);
COPY x FROM STDIN WITH (FORMAT CSV, NULL '\N');
30,@
25,@
3,@
18,@
\N,@
\.
COPY y FROM STDIN WITH (FORMAT CSV, NULL '\N');
2
4
6
8
10
12
14
16
18
20
\.
"#;

const LOOP_QUERY: &[u8] = b"SELECT x.b FROM x, y WHERE x.a < y.a;";

const LOOP_PLAN: &[u8] = br#"Nested Loop  (cost=2870 rows=17)
  ->  Seq Scan on x  (cost=420 rows=5)
  ->  Seq Scan on y  (cost=440 rows=10)
"#;

/// A table without rows beside one of seven.
const EMPTY: &[u8] = br#"CREATE TABLE y (a int4);
CREATE TABLE e (a int4);
COPY y FROM STDIN WITH (FORMAT CSV, NULL '\N');
1
2
3
4
5
6
7
\.
"#;

const EMPTY_QUERY: &[u8] = b"SELECT * FROM e, y;";

const EMPTY_OUTER: &[u8] = br#"Nested Loop  (cost=860 rows=7)
  ->  Seq Scan on e  (cost=404 rows=1)
  ->  Seq Scan on y  (cost=428 rows=7)
"#;

const EMPTY_INNER: &[u8] = br#"Nested Loop  (cost=8828 rows=700)
  ->  Seq Scan on y  (cost=428 rows=7)
  ->  Seq Scan on e  (cost=800 rows=100)
"#;

const MANY_E: &[u8] = b"STATISTICS e ROWS 100 PAGES 1;";

/// Rows of `z` that meet none, three, none, three, two and no rows of `x` by its index.
const PROBED: &[u8] = br#"CREATE TABLE z (a int4, c text);
CREATE TABLE x (a int4, b int4);
CREATE TABLE w (a int4);
CREATE INDEX xa ON x (a);
COPY z FROM STDIN WITH (FORMAT CSV, NULL '\N');
70,@
5,@
\N,@
5,@
7,@
200,@
\.
COPY x FROM STDIN WITH (FORMAT CSV, NULL '\N');
7,1
5,0
9,1
5,1
5,1
7,0
\N,1
8,1
\.
COPY w FROM STDIN WITH (FORMAT CSV, NULL '\N');
0
1
2
\.
"#;

const MANY_X: &[u8] = br#"STATISTICS z ROWS 10 PAGES 1;
STATISTICS z.a DISTINCT 10 NULLS 0;
STATISTICS x ROWS 100000 PAGES 1000;
STATISTICS x.a DISTINCT 100000 NULLS 0;
"#;

const BY_ENTRIES: &[u8] = b"SELECT z.c, x.a FROM z, x WHERE z.a = x.a;";

const BY_ENTRIES_PLAN: &[u8] = br#"Nested Loop  (cost=18220 rows=10)
  ->  Seq Scan on z  (cost=440 rows=10)
  ->  Index Only Scan using xa on x for z  (cost=1774 rows=1)
"#;

/// An index scan and a bitmap scan cost as much here. The bitmap's entries are looked at before its first row.
const BY_ROWS: &[u8] = b"SELECT z.c FROM z, x WHERE z.a = x.a AND x.b = 1;";

const BY_ROWS_PLAN: &[u8] = br#"Nested Loop  (cost=34230 rows=1)
  ->  Seq Scan on z  (cost=440 rows=10)
  ->  "#;

/// A loop over that loop, with `w` kept.
const TWICE: &[u8] = b"SELECT z.c, x.a, w.a FROM z, x, w WHERE z.a = x.a AND x.b < w.a;";

const TWICE_PLAN: &[u8] = br#"Nested Loop  (cost=38490 rows=10)
  ->  Nested Loop  (cost=34220 rows=10)
        ->  Seq Scan on z  (cost=440 rows=10)
        ->  "#;

/// The least row of `x` meets none of `y`, two meet three each, one none, one one; a NULL meets nothing.
const GROUPS: &[u8] = br#"CREATE TABLE x (k int4, a int4, b text);
CREATE TABLE y (k int4, a int4);
COPY x FROM STDIN WITH (FORMAT CSV, NULL '\N');
1,3,@
2,1,@
3,\N,@
4,2,@
5,1,@
6,0,@
\.
COPY y FROM STDIN WITH (FORMAT CSV, NULL '\N');
1,\N
2,1
3,4
4,1
5,3
6,\N
7,1
\.
STATISTICS y ROWS 500 PAGES 5;
STATISTICS x.a DISTINCT 1000 NULLS 0;
STATISTICS y.a DISTINCT 500 NULLS 0;
"#;

const GROUPS_QUERY: &[u8] = b"SELECT x.b, x.k, y.k FROM x, y WHERE x.a = y.a;";

const SORTED: &[u8] = b"STATISTICS x ROWS 1000 PAGES 10;";

const SORTED_PLAN: &[u8] = br#"Merge Join by x.a  (cost=46500 rows=500)
  ->  Sort by x.a  (cost=29000 rows=1000)
        ->  Seq Scan on x  (cost=8000 rows=1000)
  ->  Sort by y.a  (cost=13500 rows=500)
        ->  Seq Scan on y  (cost=4000 rows=500)
"#;

const IN_ORDER: &[u8] = b"CREATE INDEX xa ON x (a); STATISTICS x ROWS 1000 PAGES 1;";

const IN_ORDER_PLAN: &[u8] = br#"Merge Join by x.a  (cost=33210 rows=500)
  ->  Index Scan using xa on x  (cost=15710 rows=1000)
  ->  Sort by y.a  (cost=13500 rows=500)
        ->  Seq Scan on y  (cost=4000 rows=500)
"#;

const PAIRS_QUERY: &[u8] = b"SELECT x.a FROM x, y WHERE x.a = y.a;";

/// The sides cost as much either way.
const PAIRS_PLAN: &[u8] = b"Merge Join by x.a  (cost=81000 rows=5000)\n  ->  Sort by ";

/// Adds tables with the wide text in place of each `@`, and what is known of them.
fn add_filled(text: &mut Vec<u8>, tables: &[u8], known: &[u8]) -> Result<(), AllocError> {
    for byte in tables {
        if *byte == b'@' {
            text.extend_from_slice(&WIDE)?;
        } else {
            text.push(*byte)?;
        }
    }
    text.extend_from_slice(known)
}

/// Adds a table of the numbers 1 to 1000.
fn add_thousand(text: &mut Vec<u8>, create: &[u8], copy: &[u8]) -> Result<(), AllocError> {
    text.extend_from_slice(create)?;
    text.extend_from_slice(copy)?;
    for n in 1..=1000u32 {
        let row = [
            b'0' + (n / 1000) as u8,
            b'0' + (n / 100 % 10) as u8,
            b'0' + (n / 10 % 10) as u8,
            b'0' + (n % 10) as u8,
            b'\n',
        ];
        text.extend_from_slice(&row)?;
    }
    text.extend_from_slice(b"\\.\n")
}

/// Adds two tables of the numbers 1 to 1000.
fn add_pairs(text: &mut Vec<u8>) -> Result<(), AllocError> {
    add_thousand(
        text,
        b"CREATE TABLE x (a int4);\n",
        b"COPY x FROM STDIN WITH (FORMAT CSV, NULL '\\N');\n",
    )?;
    add_thousand(
        text,
        b"CREATE TABLE y (a int4);\n",
        b"COPY y FROM STDIN WITH (FORMAT CSV, NULL '\\N');\n",
    )
}

/// Whether a case is answered so over these tables.
fn is_counted_over(alloc: Global, tables: &[u8], case: Case) -> bool {
    if tables.len() > MOST_SCRIPT_BYTES || case.query.len() > MOST_SCRIPT_BYTES {
        return false;
    }
    let asked = Asked {
        query: case.query,
        begins: case.begins,
        ends: case.ends,
        room: ROOM,
        fails: case.fails,
    };
    match drawn(alloc, tables, asked) {
        Ok(did) => {
            (did.stopped, did.as_told, did.fetches) == (case.fails > 0, true, case.fetches)
                && case.looks.0 <= did.looks
                && did.looks <= case.looks.1
        }
        Err(_) => false,
    }
}

/// Whether a case is answered so.
pub(crate) fn is_counted(alloc: Global, case: Case) -> bool {
    let mut text = Vec::new(alloc);
    add_filled(&mut text, case.tables, case.known).is_ok() && is_counted_over(alloc, &text, case)
}

/// The place of the first case that is answered otherwise.
fn first_miscounted(alloc: Global, cases: &[Case]) -> Option<usize> {
    for n in 0..cases.len() {
        if !is_counted(alloc, cases[n]) {
            return Some(n);
        }
    }
    None
}

const LOOPING: Case = Case {
    tables: LOOP,
    known: b"",
    query: LOOP_QUERY,
    begins: LOOP_PLAN,
    ends: b"(10 rows)\n",
    fails: 0,
    fetches: 15,
    looks: (120, 120),
};

const OVER_EMPTY: Case = Case {
    tables: EMPTY,
    query: EMPTY_QUERY,
    begins: EMPTY_OUTER,
    ends: b"(0 rows)\n",
    fetches: 7,
    looks: (0, 0),
    ..LOOPING
};

const PROBING: Case = Case {
    tables: PROBED,
    known: MANY_X,
    query: BY_ENTRIES,
    begins: BY_ENTRIES_PLAN,
    ends: b"(8 rows)\n",
    fails: 0,
    fetches: 6,
    looks: (30, 44),
};

const GROUPING: Case = Case {
    tables: GROUPS,
    known: SORTED,
    query: GROUPS_QUERY,
    begins: SORTED_PLAN,
    ends: b"(7 rows)\n",
    fails: 0,
    fetches: 13,
    looks: (27, 89),
};

const WHOLE: [Case; 8] = [
    LOOPING,
    OVER_EMPTY,
    Case {
        known: MANY_E,
        begins: EMPTY_INNER,
        ..OVER_EMPTY
    },
    PROBING,
    Case {
        query: BY_ROWS,
        begins: BY_ROWS_PLAN,
        ends: b"(5 rows)\n",
        fetches: 14,
        looks: (24, 35),
        ..PROBING
    },
    Case {
        query: TWICE,
        begins: TWICE_PLAN,
        ends: b"(11 rows)\n",
        fetches: 17,
        looks: (119, 133),
        ..PROBING
    },
    GROUPING,
    Case {
        known: IN_ORDER,
        begins: IN_ORDER_PLAN,
        ..GROUPING
    },
];

/// Over two tables of the numbers 1 to 1000.
const PAIRED: Case = Case {
    tables: b"",
    known: b"",
    query: PAIRS_QUERY,
    begins: PAIRS_PLAN,
    ends: b"\n999\n1000\n(1000 rows)\n",
    fails: 0,
    fetches: 2000,
    looks: (4000, 96_000),
};

#[test]
fn joins_fetch_and_look_as_the_plan_says(rt: HostRuntime) {
    assert_eq!(rt; first_miscounted(rt.alloc(), &WHOLE), None);
    let mut pairs = Vec::new(rt.alloc());
    add_pairs(&mut pairs).expect(&rt, "ample memory");
    assert!(rt; is_counted_over(rt.alloc(), &pairs, PAIRED));
}

const LOOP_STOPPED: Case = Case {
    begins: b"",
    ends: b"",
    fails: 1,
    fetches: 13,
    looks: (46, 46),
    ..LOOPING
};

const PROBE_STOPPED: Case = Case {
    tables: PROBED,
    known: MANY_X,
    query: BY_ENTRIES,
    fetches: 2,
    looks: (5, 8),
    ..LOOP_STOPPED
};

const BY_ROWS_STOPPED: Case = Case {
    query: BY_ROWS,
    fetches: 4,
    looks: (6, 10),
    ..PROBE_STOPPED
};

const GROUPS_STOPPED: Case = Case {
    tables: GROUPS,
    known: SORTED,
    query: GROUPS_QUERY,
    fetches: 13,
    looks: (15, 31),
    ..LOOP_STOPPED
};

const IN_ORDER_STOPPED: Case = Case {
    known: IN_ORDER,
    fetches: 9,
    looks: (11, 27),
    ..GROUPS_STOPPED
};

const STOPPED: [Case; 9] = [
    LOOP_STOPPED,
    Case {
        fails: 10,
        fetches: 14,
        looks: (100, 100),
        ..LOOP_STOPPED
    },
    PROBE_STOPPED,
    BY_ROWS_STOPPED,
    Case {
        fails: 3,
        fetches: 9,
        looks: (15, 23),
        ..BY_ROWS_STOPPED
    },
    Case {
        query: TWICE,
        fetches: 6,
        looks: (12, 17),
        ..PROBE_STOPPED
    },
    GROUPS_STOPPED,
    IN_ORDER_STOPPED,
    Case {
        fails: 4,
        fetches: 10,
        looks: (18, 50),
        ..IN_ORDER_STOPPED
    },
];

/// A write that fails ends the reply at a row, with those after it not drawn.
#[test]
fn rows_of_joins_leave_as_they_are_drawn(rt: HostRuntime) {
    assert_eq!(rt; first_miscounted(rt.alloc(), &STOPPED), None);
}
