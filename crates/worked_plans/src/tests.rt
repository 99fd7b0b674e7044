//! How an index serves worked queries, whose numbers were computed by hand and by a planner written apart from this one. Costs
//! of best plans are data of `tools/check_examples.py`.

ghost use Rattle.std.specs.Prelude.{◌<◌};
ghost use Rattle.catalog.specs.Contents.{IsIndex};
ghost use Rattle.sql_query.specs.Queries.{width};
ghost use Rattle.plan_tree.specs.work.Reads.{IsOverTables};

use crate::script::{Stopped, define, query};
use catalog::Catalog;
use index_match::usable;
use path_cost::entries;
use pg_base::{IndexNo, RelNo, RelSet};
use plan_tree::{index_part_of, index_scan_cost};
use sql_query::Prepared;
use std::alloc::Global;

/// A table of three columns.
const TABLE: &[u8] = b"CREATE TABLE t (a int4, b int4, c int4);";

const SMALL: &[u8] = b"STATISTICS t ROWS 1000 PAGES 10;";

const LARGE: &[u8] = b"STATISTICS t ROWS 100000 PAGES 1000;";

const A_HUNDRED: &[u8] = b"STATISTICS t.a DISTINCT 100 NULLS 0;";

const A_ALL: &[u8] = b"STATISTICS t.a DISTINCT 100000 NULLS 0;";

const B_HUNDRED: &[u8] = b"STATISTICS t.b DISTINCT 100 NULLS 0;";

const B_ALL: &[u8] = b"STATISTICS t.b DISTINCT 100000 NULLS 0;";

const ON_A: &[u8] = b"CREATE INDEX i ON t (a);";

const HASH_A: &[u8] = b"CREATE INDEX i ON t USING hash (a);";

const A_WITH_B: &[u8] = b"CREATE INDEX i ON t (a) INCLUDE (b);";

const PARTIAL: &[u8] = b"CREATE INDEX i ON t (b) WHERE a > 10;";

const NO_NULLS: &[u8] = b"CREATE INDEX i ON t (b) WHERE b IS NOT NULL;";

/// Definitions and a query, whether the index `i` may serve it, the entries of the index, its own part of the cost, and the
/// costs of a scan by it and of an index-only one.
type Served<'a> = (&'a [&'a [u8]], &'a [u8], bool, [u64; 4]);

const SERVED: [Served; 9] = [
    (
        &[ON_A, SMALL, A_HUNDRED],
        b"SELECT * FROM t WHERE a = 5;",
        true,
        [1000, 1740, 12_980, 1780],
    ),
    (
        &[ON_A, LARGE, A_ALL],
        b"SELECT * FROM t WHERE a = 5;",
        true,
        [100_000, 1770, 3374, 1774],
    ),
    (
        &[A_WITH_B, LARGE],
        b"SELECT a, b FROM t;",
        true,
        [100_000, 1_000_167, 3_000_167, 1_400_167],
    ),
    (
        &[PARTIAL, SMALL, B_HUNDRED],
        b"SELECT * FROM t WHERE a > 10 AND b = 7;",
        true,
        [334, 1739, 12_989, 1789],
    ),
    (
        &[PARTIAL, SMALL, B_HUNDRED],
        b"SELECT * FROM t WHERE a >= 10 AND b = 7;",
        false,
        [334, 1739, 12_989, 1789],
    ),
    (
        &[PARTIAL, SMALL, B_HUNDRED],
        b"SELECT * FROM t WHERE a >= 11 AND b = 7;",
        true,
        [334, 1739, 12_989, 1789],
    ),
    (
        &[NO_NULLS, SMALL, B_HUNDRED],
        b"SELECT * FROM t WHERE b = 7;",
        true,
        [1000, 1740, 12_980, 1780],
    ),
    (
        &[HASH_A, LARGE, A_ALL],
        b"SELECT * FROM t WHERE a = 5;",
        true,
        [100_000, 1653, 3257, 1657],
    ),
    (
        &[PARTIAL, LARGE, B_ALL],
        b"SELECT * FROM t WHERE a > 10 AND b = 7;",
        true,
        [33_334, 1719, 3324, 1724],
    ),
];

/// Carries out definitions from the left.
fn define_each(alloc: Global, cat: &mut Catalog, definitions: &[&[u8]]) -> Result<(), Stopped> {
    for text in definitions {
        define(alloc, cat, text)?;
    }
    Ok(())
}

/// The entries of an index, its part, and the costs of both scans by it.
fn numbers(cat: &Catalog, q: &Prepared, i: IndexNo) -> [u64; 4]
    requires over { IsOverTables cat.now q.now }
    requires some { 0 < width q.now }
    requires index { IsIndex cat.now i }
{
    let (r, none) = (RelNo(0), RelSet::empty());
    [
        entries(cat, i),
        index_part_of(cat, q, r, none, i),
        index_scan_cost(cat, q, r, i, none, false).total,
        index_scan_cost(cat, q, r, i, none, true).total,
    ]
}

/// Whether the index `i` serves a query as given, with these numbers.
fn is_serving(cat: &Catalog, q: &Prepared, serves: bool, wanted: [u64; 4]) -> bool
    requires over { IsOverTables cat.now q.now }
    requires some { 0 < width q.now }
{
    match cat.index_named(b"i") {
        Some(i) => {
            usable(cat, &q.range, &q.classes, i, RelNo(0)) == serves && numbers(cat, q, i) == wanted
        }
        None => false,
    }
}

/// Whether the index of a catalogue serves the query of a row as given.
fn is_served_over(alloc: Global, cat: &Catalog, row: Served) -> bool {
    match query(alloc, cat, row.1) {
        Ok(q) => is_serving(cat, &q, row.2, row.3),
        Err(_) => false,
    }
}

/// Whether an index serves the query of a row as given, after its definitions.
fn is_served(alloc: Global, row: Served) -> bool {
    let mut cat = Catalog::new(alloc);
    define_each(alloc, &mut cat, &[TABLE]).is_ok()
        && define_each(alloc, &mut cat, row.0).is_ok()
        && is_served_over(alloc, &cat, row)
}

/// The place of the first row that is served otherwise.
fn first_wrong(alloc: Global, rows: &[Served]) -> Option<usize> {
    for n in 0..rows.len() {
        if !is_served(alloc, rows[n]) {
            return Some(n);
        }
    }
    None
}

#[test]
fn an_index_serves_as_worked_out(rt: HostRuntime) {
    assert_eq!(rt; first_wrong(rt.alloc(), &SERVED), None);
}
