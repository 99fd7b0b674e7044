//! Runs whose source comes in pieces or fails, whose out fails, and the longest script. Whole scripts with what they answer are
//! data of `tools/check_examples.py`.

use crate::runs::{CALM, Case, Outside, Told, first_other, is_answered, is_run};
use pg_base::MemSource;
use std::alloc::Global;

const THREE: &[u8] =
    b"CREATE TABLE t (a int8);\nCOPY t FROM STDIN WITH (FORMAT CSV, NULL '\\N');\n1\n2\n3\n\\.\nSELECT * FROM t;\n";

const THREE_ROWS: &[u8] = b"Seq Scan on t  (cost=412 rows=3)\n1\n2\n3\n(3 rows)\n";

/// Thirty statements of all forms, and what they print.
const THIRTY: &[u8] = br#"CREATE TABLE a (x int2, y int4 NOT NULL, z int8);
CREATE TABLE b (s text, f boolean);
CREATE TABLE c (only text);
SELECT * FROM a;
COPY a FROM STDIN WITH (FORMAT CSV, NULL '\N');
-32768,1,9223372036854775807
\N,+2,\N
\.
SELECT * FROM a;
SELECT z, x FROM a;
COPY b FROM STDIN WITH (FORMAT CSV, NULL '\N');
"x, y",true
,0
"say ""hi""",off
\N,\N
\.
SELECT * FROM b;
SELECT q.f, s, q.* FROM b AS q;
COPY c FROM STDIN WITH (FORMAT CSV, NULL '\N');
""
one
\.
SELECT only FROM c;
COPY c FROM STDIN WITH (FORMAT CSV, NULL '\N');
two
\.
SELECT c.only FROM c;
CREATE TABLE d (m bigint);
SELECT m FROM d;
COPY d FROM STDIN WITH (FORMAT CSV, NULL '\N');
\.
SELECT * FROM d n;
;
CREATE TABLE e (k smallint NULL, l integer, m bool NOT NULL);
COPY e FROM STDIN WITH (FORMAT CSV, NULL '\N');
5,6,y
\.
SELECT m, l, k FROM e;
SELECT E.K FROM E;
COPY a FROM STDIN WITH (FORMAT CSV, NULL '\N');
3,3,3
\.
SELECT y FROM a;
SELECT u.y FROM a u;
create table F (G text not null);
copy F from stdin with (format csv, null '\N');
"a
b"
\.
select g, G from f;
SELECT * FROM c;
SELECT * FROM d;
SELECT x, x, x FROM a
"#;

const THIRTY_REPLIES: &[u8] = br#"Seq Scan on a  (cost=404 rows=1)
(0 rows)
Seq Scan on a  (cost=408 rows=2)
-32768,1,9223372036854775807
\N,2,\N
(2 rows)
Seq Scan on a  (cost=408 rows=2)
9223372036854775807,-32768
\N,\N
(2 rows)
Seq Scan on b  (cost=416 rows=4)
"x, y",t
,f
"say ""hi""",f
\N,\N
(4 rows)
Seq Scan on b q  (cost=416 rows=4)
t,"x, y","x, y",t
f,,,f
f,"say ""hi""","say ""hi""",f
\N,\N,\N,\N
(4 rows)
Seq Scan on c  (cost=408 rows=2)
""
one
(2 rows)
Seq Scan on c  (cost=412 rows=3)
""
one
two
(3 rows)
Seq Scan on d  (cost=404 rows=1)
(0 rows)
Seq Scan on d n  (cost=404 rows=1)
(0 rows)
Seq Scan on e  (cost=404 rows=1)
t,6,5
(1 row)
Seq Scan on e  (cost=404 rows=1)
5
(1 row)
Seq Scan on a  (cost=412 rows=3)
1
2
3
(3 rows)
Seq Scan on a u  (cost=412 rows=3)
1
2
3
(3 rows)
Seq Scan on f  (cost=404 rows=1)
"a
b","a
b"
(1 row)
Seq Scan on c  (cost=412 rows=3)
""
one
two
(3 rows)
Seq Scan on d  (cost=404 rows=1)
(0 rows)
Seq Scan on a  (cost=412 rows=3)
-32768,-32768,-32768
\N,\N,\N
3,3,3
(3 rows)
"#;

const USAGE: &[u8] = b"usage: pgplan run | pgplan sample N\n";

const SHORT: Case = Case {
    word: "run",
    script: THREE,
    status: 0,
    out: Told::Exactly(THREE_ROWS),
    errors: b"",
};

const LONG: Case = Case {
    script: THIRTY,
    out: Told::Exactly(THIRTY_REPLIES),
    ..SHORT
};

/// A script comes byte by byte, by seven, and whole.
const PIECES: [(Case, Outside); 5] = [
    (SHORT, Outside { piece: 1, ..CALM }),
    (SHORT, CALM),
    (LONG, Outside { piece: 1, ..CALM }),
    (LONG, Outside { piece: 7, ..CALM }),
    (LONG, CALM),
];

#[test]
fn answers_whatever_the_pieces(rt: HostRuntime) {
    assert_eq!(rt; first_other(rt.alloc(), &PIECES), None);
}

const FAULTS: [(Case, Outside); 3] = [
    (
        Case {
            word: "plan",
            status: 1,
            out: Told::Exactly(b""),
            errors: USAGE,
            ..SHORT
        },
        CALM,
    ),
    (
        Case {
            status: 2,
            out: Told::Exactly(b""),
            errors: b"ERROR read failed\n",
            ..SHORT
        },
        Outside {
            read_fails: 2,
            ..CALM
        },
    ),
    (
        Case {
            status: 4,
            out: Told::Exactly(b""),
            errors: b"ERROR write failed\n",
            ..SHORT
        },
        Outside {
            write_fails: 1,
            ..CALM
        },
    ),
];

#[test]
fn hands_on_faults_of_the_outside(rt: HostRuntime) {
    assert_eq!(rt; first_other(rt.alloc(), &FAULTS), None);
}

/// The first write of the long script that fails and leaves something else than the replies before it.
fn first_write(alloc: Global) -> Option<u64> {
    for call in 1..=17u64 {
        let case = Case {
            status: 4,
            out: Told::Plans(THIRTY_REPLIES, call - 1),
            errors: b"ERROR write failed\n",
            ..LONG
        };
        let outside = Outside {
            piece: 4096,
            read_fails: 0,
            write_fails: call,
        };
        if !is_answered(alloc, &case, outside) {
            return Some(call);
        }
    }
    None
}

/// Each reply is one write here: the nth that fails leaves the replies before it.
#[test]
fn leaves_the_replies_before_a_failed_write(rt: HostRuntime) {
    assert_eq!(rt; first_write(rt.alloc()), None);
}

/// Whether so many blanks are answered by a status, with nothing but an error line.
fn are_answered(alloc: Global, count: usize, status: u8, errors: &[u8]) -> bool {
    let case = Case {
        word: "run",
        script: b"",
        status,
        out: Told::Exactly(b""),
        errors,
    };
    match vec![in alloc; b' '; count] {
        Ok(blanks) => {
            let mut source = MemSource::new(blanks, 65_536, Vec::new(alloc));
            is_run(alloc, &mut source, 0, &case)
        }
        Err(_) => false,
    }
}

#[test]
fn refuses_too_long_a_script(rt: HostRuntime) {
    let line = b"ERROR 54000 script longer than 16777216 bytes\n";
    assert!(rt; are_answered(rt.alloc(), 16_777_216, 0, b""));
    assert!(rt; are_answered(rt.alloc(), 16_777_217, 6, line));
}
