//! Selects with LIMIT and OFFSET: the windows that they are read with, and where they are refused. The places were found by a
//! planner written apart from this one.

use crate::cases::{Cases, Reader, Repeated, Tables, Wrong, first_failing, is_refused};
use crate::selects::{Wanted, is_read};
use catalog::Catalog;
use pg_base::{Code, Fault, Limit};
use std::alloc::Global;

/// Selects, and the numbers of their window, where they have one.
pub(crate) type Windowed<'a> = (&'a [u8], Option<(Option<u64>, u64)>);

const WINDOWS: [Windowed; 6] = [
    (b"SELECT a FROM t ORDER BY a;", None),
    (b"SELECT a FROM t LIMIT 2;", Some((Some(2), 0))),
    (b"select a from t, s offset 5", Some((None, 5))),
    (
        b"EXPLAIN SELECT a FROM t WHERE b = 1 LIMIT 0 OFFSET 3",
        Some((Some(0), 3)),
    ),
    (
        b"SELECT * FROM t ORDER BY a DESC NULLS LAST LIMIT 007 OFFSET 0;",
        Some((Some(7), 0)),
    ),
    (
        b"SELECT a FROM t u LIMIT 9223372036854775807 OFFSET 9223372036854775806;",
        Some((Some(9223372036854775807), 9223372036854775806)),
    ),
];

/// Selects, the fault that refuses them and the place of its word.
const WRONG: [Wrong; 14] = [
    (
        b"SELECT a FROM t LIMIT 9223372036854775808;",
        Code::S11,
        22,
        41,
    ),
    (
        b"SELECT a FROM t OFFSET 9223372036854775808;",
        Code::S11,
        23,
        42,
    ),
    (
        b"SELECT a FROM t LIMIT 18446744073709551617 OFFSET 9223372036854775808;",
        Code::S11,
        22,
        42,
    ),
    (
        b"SELECT a FROM t LIMIT 1 OFFSET 99999999999999999999;",
        Code::S11,
        31,
        51,
    ),
    (
        b"SELECT zz FROM t LIMIT 9223372036854775808;",
        Code::S3,
        7,
        9,
    ),
    (
        b"SELECT a FROM t WHERE a = '99999999999' LIMIT 9223372036854775808;",
        Code::S11,
        26,
        39,
    ),
    (
        b"SELECT a FROM t ORDER BY zz OFFSET 9223372036854775808;",
        Code::S3,
        25,
        27,
    ),
    (b"SELECT zz FROM t LIMIT ALL;", Code::S1, 23, 23),
    (b"SELECT zz FROM t LIMIT;", Code::S1, 22, 22),
    (b"SELECT zz FROM t LIMIT -1;", Code::S1, 23, 23),
    (b"SELECT zz FROM t OFFSET 1 LIMIT 2;", Code::S1, 26, 26),
    (b"SELECT zz FROM t OFFSET 1 ROWS;", Code::S1, 26, 26),
    (b"SELECT zz FROM t LIMIT 1 ORDER BY a;", Code::S1, 25, 25),
    (b"SELECT zz FROM t LIMIT '1';", Code::S1, 23, 23),
];

/// Selects of 33 conjuncts, what stands behind these, and the fault that refuses them with the place of its word.
const LONG: [Wrong; 3] = [
    (b" LIMIT 9223372036854775808;", Code::S11, 354, 373),
    (b" LIMIT 1 OFFSET 9223372036854775808;", Code::S11, 363, 382),
    (b" LIMIT 1 OFFSET 2;", Code::S15(Limit::Conjuncts), 0, 6),
];

/// The place of the first SELECT that is read with another window.
pub(crate) fn first_other(alloc: Global, catalog: &Catalog, rows: &[Windowed]) -> Option<usize> {
    for n in 0..rows.len() {
        if !is_read(alloc, catalog, rows[n].0, &[Wanted::Windowed(rows[n].1)]) {
            return Some(n);
        }
    }
    None
}

/// The place of the first of such SELECTs of 33 conjuncts that is refused otherwise.
pub(crate) fn first_long(alloc: Global, catalog: &Catalog, rows: &[Wrong]) -> Option<usize> {
    for n in 0..rows.len() {
        let (tail, code, from, to) = rows[n];
        let fault = Some(Fault::at_words(code, from, to));
        let of: Repeated = (b"SELECT a FROM t WHERE a < 1", b" AND a < 1", tail, 32);
        if !is_refused(alloc, catalog, Reader::Select, of, fault) {
            return Some(n);
        }
    }
    None
}

#[test]
fn reads_windows(rt: HostRuntime) {
    assert_eq!(rt;
        first_failing(rt.alloc(), Tables::Two, Cases::Windows(&WINDOWS)),
        None
    );
}

#[test]
fn refuses_windows_at_the_first_fault(rt: HostRuntime) {
    let cases = Cases::Wrong(Reader::Select, &WRONG);
    assert_eq!(rt; first_failing(rt.alloc(), Tables::Two, cases), None);
}

#[test]
fn windows_are_bound_before_the_limits(rt: HostRuntime) {
    assert_eq!(rt;
        first_failing(rt.alloc(), Tables::Two, Cases::LongWindows(&LONG)),
        None
    );
}
