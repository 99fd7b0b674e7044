//! Selects over two tables: what they are read as, and where they are refused. The places were found by a planner written
//! apart from this one.

ghost use Rattle.std.specs.Prelude.{◌≤◌, ◌^◌, length};

use crate::cases::{Cases, Reader, Tables, Wrong, first_failing, is_refused};
use catalog::Catalog;
use eq_classes::OrderItem;
use pg_base::{Code, Fault, Limit, Refusal, TableNo};
use pg_expr::ColRef;
use pg_value::Bytes;
use query_reader::{explains, read_select};
use sql_lex::lex_statement;
use sql_query::Prepared;
use std::alloc::Global;

/// Selects, their table, its alias, the columns that they show, those that they name, and how many conjuncts they have as
/// written and how many clauses.
pub(crate) type Right<'a> = (&'a [u8], u8, &'a [u8], &'a [u8], &'a [u8], usize, usize);

const RIGHT: [Right; 10] = [
    (
        b"SELECT b, T.A, * FROM T;",
        0,
        b"t",
        &[1, 0, 0, 1],
        &[1, 0, 0, 1],
        0,
        0,
    ),
    (
        b"SELECT u.b, u.* FROM t u;",
        0,
        b"u",
        &[1, 0, 1],
        &[1, 0, 1],
        0,
        0,
    ),
    (b"select c from s As T", 1, b"t", &[0], &[0], 0, 0),
    (
        b"SELECT t . * /* all */ FROM t",
        0,
        b"t",
        &[0, 1],
        &[0, 1],
        0,
        0,
    ),
    (
        b"SELECT Stdin.d FROM s stdin;",
        1,
        b"stdin",
        &[1],
        &[1],
        0,
        0,
    ),
    (
        b"SELECT a FROM t WHERE b = 1;",
        0,
        b"t",
        &[0],
        &[0, 1],
        1,
        1,
    ),
    (
        b"SELECT b FROM t u WHERE u.b < 3 AND (a IS NULL AND NOT TRUE)",
        0,
        b"u",
        &[1],
        &[1, 1, 0],
        3,
        3,
    ),
    (
        b"SELECT a FROM t WHERE NOT (a = '7' OR b < a);",
        0,
        b"t",
        &[0],
        &[0, 0, 1, 0],
        1,
        2,
    ),
    (
        b"SELECT a FROM t WHERE a = a",
        0,
        b"t",
        &[0],
        &[0, 0, 0],
        1,
        1,
    ),
    (
        b"SELECT b FROM t WHERE a = 1 AND a = 1 AND b = a;",
        0,
        b"t",
        &[1],
        &[1, 0, 0, 1, 0],
        3,
        2,
    ),
];

/// Ordered selects, the items of their order and the columns that they name.
pub(crate) type Ordered<'a> = (&'a [u8], &'a [(u8, bool, bool)], &'a [u8]);

const ORDERED: [Ordered; 3] = [
    (
        b"SELECT a FROM t ORDER BY b;",
        &[(1, false, false)],
        &[0, 1],
    ),
    (
        b"EXPLAIN SELECT b FROM t u WHERE a = 1 ORDER BY u.a DESC, B ASC NULLS FIRST",
        &[(0, true, true), (1, false, true)],
        &[1, 0, 0, 1],
    ),
    (
        b"select * from t order by t.a nulls last, a desc nulls last;",
        &[(0, false, false), (0, true, false)],
        &[0, 1, 0, 0],
    ),
];

/// Selects, the fault that refuses them and the place of its word.
const WRONG: [Wrong; 35] = [
    (b"SELECT a FROM t ORDER BY a, zz;", Code::S3, 28, 30),
    (b"SELECT a FROM t u ORDER BY t.a;", Code::S2, 27, 28),
    (b"SELECT zz FROM t ORDER BY yy;", Code::S3, 7, 9),
    (
        b"EXPLAIN SELECT a FROM t ORDER BY zz DESC ASC;",
        Code::S1,
        41,
        41,
    ),
    (b"EXPLAIN COPY t;", Code::S1, 8, 8),
    (b"SELECT zz FROM nope;", Code::S2, 15, 19),
    (b"SELECT zz FROM t;", Code::S3, 7, 9),
    (b"SELECT nope.a FROM t;", Code::S2, 7, 11),
    (b"SELECT t.zz FROM t;", Code::S3, 9, 11),
    (b"SELECT t.a FROM t AS u;", Code::S2, 7, 8),
    (b"SELECT t.* FROM t u;", Code::S2, 7, 8),
    (b"SELECT zz, yy FROM t;", Code::S3, 7, 9),
    (b"SELECT a, nope.zz, yy FROM t;", Code::S2, 10, 14),
    (b"SELECT s.c FROM t;", Code::S2, 7, 8),
    (b"SELECT c FROM t;", Code::S3, 7, 8),
    (b"SELECT zz FROM;", Code::S1, 14, 14),
    (b"SELECT a FROM", Code::S1, 13, 13),
    (b"SELECT a a FROM t;", Code::S1, 9, 9),
    (b"SELECT FROM t;", Code::S1, 7, 7),
    (b"SELECT a FROM t u v;", Code::S1, 18, 18),
    (b"SELECT a, FROM t;", Code::S1, 10, 10),
    (b"SELECT zz FROM t as select;", Code::S1, 20, 20),
    (
        b"SELECT zz FROM t aaaaaaaaaaaaaaaaaaaaaaaaaaaaaaaaaaaaaaaaaaaaaaaaaaaaaaaaaaaaaaaa;",
        Code::S15(Limit::Name),
        17,
        81,
    ),
    (b"SELECT zz FROM t WHERE yy = 1;", Code::S3, 23, 25),
    (b"SELECT a FROM t WHERE zz IS NULL;", Code::S3, 22, 24),
    (b"SELECT zz FROM nope WHERE yy = 1;", Code::S2, 15, 19),
    (b"SELECT a FROM t WHERE s.c = 1;", Code::S2, 22, 23),
    (b"SELECT a FROM t WHERE a = 'x';", Code::S12, 26, 29),
    (
        b"SELECT a FROM t WHERE a = '99999999999';",
        Code::S11,
        26,
        39,
    ),
    (
        b"SELECT a FROM t WHERE a = -9223372036854775809;",
        Code::S11,
        26,
        27,
    ),
    (b"SELECT a FROM t WHERE a != TRUE;", Code::S9, 24, 26),
    (b"SELECT a FROM t WHERE t.a;", Code::S10, 22, 23),
    (b"SELECT zz FROM t WHERE TRUE;", Code::S3, 7, 9),
    (b"SELECT a FROM t WHERE a = 1 AND;", Code::S1, 31, 31),
    (b"SELECT a FROM t WHERE;", Code::S1, 21, 21),
];

/// Selects of so many parts, and the limit that they are past.
pub(crate) type Long<'a> = (&'a [u8], &'a [u8], &'a [u8], usize, Option<Limit>);

const LONG: [Long; 9] = [
    (
        b"EXPLAIN SELECT a FROM t WHERE a < 1",
        b" AND a < 1",
        b" ORDER BY a;",
        32,
        Some(Limit::Conjuncts),
    ),
    (
        b"SELECT a FROM t WHERE a < 1",
        b" AND a < 1",
        b";",
        31,
        None,
    ),
    (
        b"SELECT a FROM t WHERE a < 1",
        b" AND a < 1",
        b";",
        32,
        Some(Limit::Conjuncts),
    ),
    (
        b"SELECT a FROM t WHERE TRUE",
        b" AND TRUE",
        b";",
        32,
        Some(Limit::Conjuncts),
    ),
    (
        b"SELECT a FROM t WHERE NOT (a < 1",
        b" OR a < 1",
        b");",
        32,
        Some(Limit::Conjuncts),
    ),
    (
        b"SELECT a FROM t WHERE TRUE OR a < 1",
        b" OR a < 1",
        b";",
        255,
        None,
    ),
    (
        b"SELECT a FROM t WHERE a < 1",
        b" OR a < 1",
        b";",
        256,
        Some(Limit::Atoms),
    ),
    (
        b"SELECT a FROM t WHERE NOT (a < 1",
        b" OR a < 1",
        b");",
        256,
        Some(Limit::Conjuncts),
    ),
    (
        b"SELECT a FROM t WHERE b IS NULL AND (a < 1",
        b" OR a < 1",
        b");",
        255,
        Some(Limit::Atoms),
    ),
];

/// Selects of several relations, their tables, the columns that they show, those that they name, and how many conjuncts they
/// have as written and how many clauses.
pub(crate) type Joined<'a> = (&'a [u8], &'a [u8], &'a [u8], &'a [u8], usize, usize);

const JOINS: [Joined; 6] = [
    (
        b"SELECT * FROM t, s;",
        &[0, 1],
        &[0, 1, 10, 11],
        &[0, 1, 10, 11],
        0,
        0,
    ),
    (
        b"SELECT * FROM s, t",
        &[1, 0],
        &[0, 1, 10, 11],
        &[0, 1, 10, 11],
        0,
        0,
    ),
    (
        b"SELECT s.*, t.b, * FROM t JOIN s ON a = c;",
        &[0, 1],
        &[10, 11, 1, 0, 1, 10, 11],
        &[10, 11, 1, 0, 1, 10, 11, 0, 10],
        1,
        1,
    ),
    (
        b"SELECT y.*, x.a FROM t x, t y WHERE x.a = y.b;",
        &[0, 0],
        &[10, 11, 0],
        &[10, 11, 0, 0, 11],
        1,
        1,
    ),
    (
        b"SELECT x.b FROM t x INNER JOIN s ON a < c AND d IS NULL CROSS JOIN t y WHERE y.a = x.b AND c = 1;",
        &[0, 1, 0],
        &[1],
        &[1, 0, 10, 11, 20, 1, 10],
        4,
        4,
    ),
    (
        b"SELECT d FROM s, t x JOIN t y ON x.a = y.a WHERE x.b = c OR TRUE;",
        &[1, 0, 0],
        &[1],
        &[1, 10, 20, 11, 0],
        2,
        2,
    ),
];

/// Ordered selects of several relations, and the items of their order.
pub(crate) type OrderedJoin<'a> = (&'a [u8], &'a [(u8, bool, bool)]);

const ORDERED_JOINS: [OrderedJoin; 3] = [
    (
        b"SELECT x.a, x.a FROM t x, t y ORDER BY a;",
        &[(0, false, false)],
    ),
    (
        b"SELECT y.* FROM t x, t y ORDER BY b DESC, y.a;",
        &[(11, true, true), (10, false, false)],
    ),
    (
        b"SELECT x.a, d FROM t x, s JOIN t y ON c = a ORDER BY a, c, y.a DESC NULLS LAST;",
        &[(0, false, false), (10, false, false), (20, true, false)],
    ),
];

/// Selects of several relations, the fault that refuses them and the place of its word.
const WRONG_JOINS: [Wrong; 35] = [
    (b"SELECT zz FROM t, nope;", Code::S2, 18, 22),
    (b"SELECT zz FROM nope, t x, s x;", Code::S2, 15, 19),
    (b"SELECT zz FROM t, t;", Code::S7, 18, 19),
    (b"SELECT zz FROM t x, s X;", Code::S7, 22, 23),
    (b"SELECT zz FROM t s, s;", Code::S7, 20, 21),
    (b"SELECT zz FROM t JOIN s ON yy = 1;", Code::S3, 27, 29),
    (
        b"SELECT zz FROM t JOIN s ON a = c JOIN nope ON yy = 1;",
        Code::S2,
        38,
        42,
    ),
    (
        b"SELECT zz FROM t JOIN s ON yy = 1, nope;",
        Code::S3,
        27,
        29,
    ),
    (
        b"SELECT zz FROM t x JOIN s ON x.a = y.c JOIN t y ON TRUE;",
        Code::S2,
        35,
        36,
    ),
    (
        b"SELECT zz FROM t x, s JOIN t y ON x.a = c;",
        Code::S2,
        34,
        35,
    ),
    (b"SELECT zz FROM t x, s JOIN t y ON b = c;", Code::S3, 7, 9),
    (b"SELECT a FROM t x JOIN t y ON a = 1;", Code::S4, 30, 31),
    (b"SELECT a FROM t x, t y;", Code::S4, 7, 8),
    (b"SELECT x.a FROM t x, t y WHERE b = 1;", Code::S4, 31, 32),
    (b"SELECT x.a FROM t x, t y ORDER BY b;", Code::S4, 34, 35),
    (
        b"SELECT x.a, y.a FROM t x, t y ORDER BY a;",
        Code::S4,
        39,
        40,
    ),
    (b"SELECT * FROM t x, t y ORDER BY b;", Code::S4, 32, 33),
    (b"SELECT z.* FROM t x, t y;", Code::S2, 7, 8),
    (b"SELECT x.c FROM t x, s;", Code::S3, 9, 10),
    (
        b"SELECT a FROM t t1, t t2, t t3, t t4, t t5, t t6, t t7, t t8, t t9, t t10, nope;",
        Code::S15(Limit::Relations),
        75,
        79,
    ),
    (
        b"SELECT a FROM t t1, t t2, t t3, t t4, t t5 JOIN t t6 ON TRUE, t t7, t t8, t t9, t t10 CROSS JOIN t t8;",
        Code::S15(Limit::Relations),
        97,
        98,
    ),
    (
        b"SELECT a FROM t t1, t t2, t t3, t t4, t t5 JOIN t t6 ON TRUE, t t7, t t8, t t9, t t10;",
        Code::S4,
        7,
        8,
    ),
    (
        b"SELECT a FROM t x CROSS JOIN s CROSS JOIN s;",
        Code::S7,
        42,
        43,
    ),
    (
        b"SELECT a FROM t x CROSS JOIN t y INNER JOIN s ON x.a = c AND y.zz = d;",
        Code::S3,
        63,
        65,
    ),
    (
        b"SELECT a FROM t JOIN s ON c WHERE zz = 1;",
        Code::S10,
        26,
        27,
    ),
    (
        b"SELECT a FROM t JOIN s ON c != TRUE WHERE zz = 1;",
        Code::S9,
        28,
        30,
    ),
    (
        b"SELECT a FROM t JOIN s ON a = '99999999999';",
        Code::S11,
        30,
        43,
    ),
    (b"SELECT a FROM t, s WHERE nope.a = 1;", Code::S2, 25, 29),
    (b"SELECT a FROM t, nope WHERE yy = 1;", Code::S2, 17, 21),
    (
        b"EXPLAIN SELECT a FROM t x, s JOIN t y ON x.a = c;",
        Code::S2,
        41,
        42,
    ),
    (b"SELECT a FROM t JOIN s;", Code::S1, 22, 22),
    (b"SELECT a FROM t CROSS JOIN s ON a = c;", Code::S1, 29, 29),
    (b"SELECT a FROM t, s JOIN t y ON a = c;", Code::S4, 7, 8),
    (b"SELECT a FROM t JOIN s ON a = c, t y;", Code::S4, 7, 8),
    (
        b"SELECT t.a FROM t JOIN s ON a = c, t y ORDER BY b;",
        Code::S4,
        48,
        49,
    ),
];

/// The SELECT at the text's beginning.
pub(crate) fn reading(alloc: Global, catalog: &Catalog, text: &[u8]) -> Result<Prepared, Refusal>
    requires { length text.now ≤ 2 ^ 31 }
{
    let tokens = lex_statement(alloc, text, 0)?;
    let first = if explains(text, &tokens) { 1 } else { 0 };
    if tokens.items().len() < 2 {
        return Err(Refusal::Memory);
    }
    read_select(alloc, catalog, text, &tokens, first)
}

/// Whether a column has this number: that of its relation ten times, and its own.
fn is_numbered(column: ColRef, number: u8) -> bool {
    let ColRef { rel, col } = column;
    rel.0 < 8 && col.0 < 10 && rel.0 * 10 + col.0 == number
}

fn are_columns(columns: &[ColRef], numbers: &[u8]) -> bool {
    let mut same = columns.len() == numbers.len();
    for (column, number) in columns.iter().zip(numbers) {
        same = same && is_numbered(*column, *number);
    }
    same
}

/// Whether the relations are of these tables.
fn are_tables(range: &[(TableNo, Bytes)], tables: &[u8]) -> bool {
    let mut same = range.len() == tables.len();
    for (relation, table) in range.iter().zip(tables) {
        same = same && relation.0 == TableNo(*table);
    }
    same
}

/// Whether the relations have this alias.
fn are_named(range: &[(TableNo, Bytes)], alias: &[u8]) -> bool {
    let mut same = true;
    for (_, name) in range {
        same = same && name.items() == alias;
    }
    same
}

fn are_items(items: &[OrderItem], wanted: &[(u8, bool, bool)]) -> bool {
    let mut same = items.len() == wanted.len();
    for (item, (col, descending, nulls_first)) in items.iter().zip(wanted) {
        same = same
            && is_numbered(item.col, *col)
            && item.descending == *descending
            && item.nulls_first == *nulls_first;
    }
    same
}

/// What a SELECT has to be read as.
#[derive(Clone, Copy)]
pub(crate) enum Wanted<'a> {
    /// Its tables, the columns that it shows, those that it names, and how many conjuncts and clauses it has.
    Read(&'a [u8], &'a [u8], &'a [u8], usize, usize),
    /// No order, and one alias of all its relations.
    Plain(&'a [u8]),
    /// The items of its order.
    Ordered(&'a [(u8, bool, bool)]),
    /// The columns that it names.
    Using(&'a [u8]),
    /// The numbers of its window, where it has one.
    Windowed(Option<(Option<u64>, u64)>),
    /// How many columns it shows, items its order has, and conjuncts it has.
    Counted(usize, usize, usize),
}

fn window_of(query: &Prepared) -> Option<(Option<u64>, u64)> {
    match query.window {
        None => None,
        Some(window) => Some((window.limit, window.offset)),
    }
}

/// Whether a query is as wanted.
fn is_wanted(query: &Prepared, wanted: Wanted) -> bool {
    match wanted {
        Wanted::Read(tables, shown, used, conjuncts, clauses) => {
            are_tables(query.range.items(), tables)
                && are_columns(query.select.items(), shown)
                && are_columns(query.used.items(), used)
                && (query.where_all.items().len(), query.classes.count()) == (conjuncts, clauses)
        }
        Wanted::Plain(alias) => {
            query.order.items().is_empty() && are_named(query.range.items(), alias)
        }
        Wanted::Ordered(items) => are_items(query.order.items(), items),
        Wanted::Using(used) => are_columns(query.used.items(), used),
        Wanted::Windowed(numbers) => window_of(query) == numbers,
        Wanted::Counted(shown, items, conjuncts) => {
            query.select.items().len() == shown
                && query.order.items().len() == items
                && query.where_all.items().len() == conjuncts
        }
    }
}

/// Whether what was read is a query of which each of these holds.
pub(crate) fn is_query(read: Result<Prepared, Refusal>, wanted: &[Wanted]) -> bool {
    match read {
        Ok(query) => wanted.iter().all(|one| is_wanted(&query, *one)),
        Err(_) => false,
    }
}

/// Whether a SELECT is read so that each of these holds.
pub(crate) fn is_read(alloc: Global, catalog: &Catalog, text: &[u8], wanted: &[Wanted]) -> bool {
    text.len() <= 200 && is_query(reading(alloc, catalog, text), wanted)
}

/// The place of the first SELECT that is read as something else.
pub(crate) fn first_other<'a>(
    alloc: Global,
    catalog: &Catalog,
    rows: &[Right<'a>],
) -> Option<usize> {
    for n in 0..rows.len() {
        let (text, table, alias, shown, used, conjuncts, clauses) = rows[n];
        let tables = [table];
        let wanted = [
            Wanted::Read(&tables, shown, used, conjuncts, clauses),
            Wanted::Plain(alias),
        ];
        if !is_read(alloc, catalog, text, &wanted) {
            return Some(n);
        }
    }
    None
}

/// The place of the first ordered SELECT that is read as something else.
pub(crate) fn first_order<'a>(
    alloc: Global,
    catalog: &Catalog,
    rows: &[Ordered<'a>],
) -> Option<usize> {
    for n in 0..rows.len() {
        let (text, items, used) = rows[n];
        let wanted = [Wanted::Ordered(items), Wanted::Using(used)];
        if !is_read(alloc, catalog, text, &wanted) {
            return Some(n);
        }
    }
    None
}

/// The place of the first SELECT that passes another limit than given, at its first word.
pub(crate) fn first_long(alloc: Global, catalog: &Catalog, rows: &[Long]) -> Option<usize> {
    for n in 0..rows.len() {
        let (head, part, tail, count, limit) = rows[n];
        let end = if head.first() == Some(&b'E') { 7 } else { 6 };
        let fault = match limit {
            Some(limit) => Some(Fault::at_words(Code::S15(limit), 0, end)),
            None => None,
        };
        if !is_refused(
            alloc,
            catalog,
            Reader::Select,
            (head, part, tail, count),
            fault,
        ) {
            return Some(n);
        }
    }
    None
}

/// The place of the first SELECT with joins that is read as something else.
pub(crate) fn first_join<'a>(
    alloc: Global,
    catalog: &Catalog,
    rows: &[Joined<'a>],
) -> Option<usize> {
    for n in 0..rows.len() {
        let (text, tables, shown, used, conjuncts, clauses) = rows[n];
        let wanted = [Wanted::Read(tables, shown, used, conjuncts, clauses)];
        if !is_read(alloc, catalog, text, &wanted) {
            return Some(n);
        }
    }
    None
}

/// The place of the first ordered SELECT with joins that is read as something else.
pub(crate) fn first_ordered_join(
    alloc: Global,
    catalog: &Catalog,
    rows: &[OrderedJoin],
) -> Option<usize> {
    for n in 0..rows.len() {
        if !is_read(alloc, catalog, rows[n].0, &[Wanted::Ordered(rows[n].1)]) {
            return Some(n);
        }
    }
    None
}

#[test]
fn reads_selects(rt: HostRuntime) {
    assert_eq!(rt;
        first_failing(rt.alloc(), Tables::Two, Cases::Selects(&RIGHT)),
        None
    );
}

#[test]
fn reads_orders(rt: HostRuntime) {
    assert_eq!(rt;
        first_failing(rt.alloc(), Tables::Two, Cases::Orders(&ORDERED)),
        None
    );
}

#[test]
fn refuses_at_the_first_fault(rt: HostRuntime) {
    let cases = Cases::Wrong(Reader::Select, &WRONG);
    assert_eq!(rt; first_failing(rt.alloc(), Tables::Two, cases), None);
}

#[test]
fn limits_stand_at_the_first_word(rt: HostRuntime) {
    assert_eq!(rt;
        first_failing(rt.alloc(), Tables::Two, Cases::Long(&LONG)),
        None
    );
}

#[test]
fn reads_joins(rt: HostRuntime) {
    assert_eq!(rt;
        first_failing(rt.alloc(), Tables::Two, Cases::Joins(&JOINS)),
        None
    );
}

#[test]
fn reads_orders_of_joins(rt: HostRuntime) {
    let cases = Cases::OrderedJoins(&ORDERED_JOINS);
    assert_eq!(rt; first_failing(rt.alloc(), Tables::Two, cases), None);
}

#[test]
fn refuses_joins_at_the_first_fault(rt: HostRuntime) {
    let cases = Cases::Wrong(Reader::Select, &WRONG_JOINS);
    assert_eq!(rt; first_failing(rt.alloc(), Tables::Two, cases), None);
}
