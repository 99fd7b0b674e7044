//! Statements at a limit, and where parts of statements end. The places were found by a parser written apart from this one.

ghost use Rattle.std.specs.Prelude.{◌≤◌, ◌^◌, length};

use pg_base::{Code, Fault, Limit, Memory, Refusal};
use sql_grammar::{
    cand_end, data_start, expr_end, select_end, statement_fault, windowed_select_end,
};
use sql_lex::lex_statement;
use std::alloc::Global;

/// Statements of a front, repeated bytes and a back, and the limit that is passed from one place to another.
const LONG: [(&[u8], &[u8], usize, &[u8], Option<(Limit, u32, u32)>); 22] = [
    (b"SELECT ", b"a", 63, b" FROM t;", None),
    (
        b"SELECT ",
        b"a",
        64,
        b" FROM t;",
        Some((Limit::Name, 7, 71)),
    ),
    (
        b"SELECT b.",
        b"Z",
        64,
        b" x FROM t;",
        Some((Limit::Name, 9, 73)),
    ),
    (b"CREATE TABLE t (", b"_", 63, b" int4);", None),
    (
        b"CREATE TABLE t (a ",
        b"_1",
        32,
        b");",
        Some((Limit::Name, 18, 82)),
    ),
    (
        b"SELECT a FROM t ",
        b"u",
        64,
        b" v;",
        Some((Limit::Name, 16, 80)),
    ),
    (
        b"COPY ",
        b"c",
        64,
        b" FORM STDIN;",
        Some((Limit::Name, 5, 69)),
    ),
    (
        b"COPY t FROM STDIN WITH (FORMAT CSV, NULL '",
        b"x",
        8192,
        b"');",
        None,
    ),
    (
        b"COPY t FROM STDIN WITH (FORMAT CSV, NULL '",
        b"''",
        8192,
        b"');",
        None,
    ),
    (
        b"COPY t FROM STDIN WITH (FORMAT CSV, NULL '",
        b"x",
        8193,
        b"') x;",
        Some((Limit::Text, 41, 8236)),
    ),
    (
        b"COPY t FROM STDIN WITH (FORMAT CSV, NULL '",
        b"''",
        8193,
        b"');",
        Some((Limit::Text, 41, 16429)),
    ),
    (
        b"SELECT a FROM t WHERE b.",
        b"c",
        64,
        b" = 1 c;",
        Some((Limit::Name, 24, 88)),
    ),
    (
        b"STATISTICS t.a DISTINCT 1 NULLS 1 COMMON ('",
        b"x",
        8193,
        b"' a);",
        Some((Limit::Text, 42, 8237)),
    ),
    (
        b"SELECT a FROM t JOIN u ON ((((((((((((((((((((((((((((((((a)))))))))))))))))))))))))))))))) JOIN v ON NOT NOT NOT NOT NOT NOT NOT NOT NOT NOT NOT NOT NOT NOT NOT NOT NOT NOT NOT NOT NOT NOT NOT NOT NOT NOT NOT NOT NOT NOT NOT NOT b;",
        b"",
        0,
        b"",
        None,
    ),
    (
        b"SELECT a FROM t JOIN u ON (((((((((((((((((((((((((((((((((a)))))))))))))))))))))))))))))))));",
        b"",
        0,
        b"",
        Some((Limit::Depth, 58, 59)),
    ),
    (
        b"SELECT a FROM t JOIN u ON ((((((((((((((((((((((((((((((((a)))))))))))))))))))))))))))))))) JOIN v ON NOT NOT NOT NOT NOT NOT NOT NOT NOT NOT NOT NOT NOT NOT NOT NOT NOT NOT NOT NOT NOT NOT NOT NOT NOT NOT NOT NOT NOT NOT NOT NOT NOT b;",
        b"",
        0,
        b"",
        Some((Limit::Depth, 230, 233)),
    ),
    (
        b"SELECT a FROM t CROSS JOIN u, v INNER JOIN w ON NOT ((((((((((((((((((((((((((((((((a)))))))))))))))))))))))))))))))) WHERE a;",
        b"",
        0,
        b"",
        Some((Limit::Depth, 83, 84)),
    ),
    (
        b"SELECT a FROM t JOIN u ON NOT NOT NOT NOT NOT NOT NOT NOT NOT NOT NOT NOT NOT NOT NOT NOT NOT NOT NOT NOT NOT NOT NOT NOT NOT NOT NOT NOT NOT NOT NOT NOT a WHERE (((((((((((((((((((((((((((((((((b)))))))))))))))))))))))))))))))));",
        b"",
        0,
        b"",
        Some((Limit::Depth, 194, 195)),
    ),
    (
        b"SELECT a FROM t JOIN u aaaaaaaaaaaaaaaaaaaaaaaaaaaaaaaaaaaaaaaaaaaaaaaaaaaaaaaaaaaaaaa ON a;",
        b"",
        0,
        b"",
        None,
    ),
    (
        b"SELECT a FROM t JOIN u aaaaaaaaaaaaaaaaaaaaaaaaaaaaaaaaaaaaaaaaaaaaaaaaaaaaaaaaaaaaaaaa ON a;",
        b"",
        0,
        b"",
        Some((Limit::Name, 23, 87)),
    ),
    (
        b"SELECT a FROM t, aaaaaaaaaaaaaaaaaaaaaaaaaaaaaaaaaaaaaaaaaaaaaaaaaaaaaaaaaaaaaaaa CROSS u;",
        b"",
        0,
        b"",
        Some((Limit::Name, 17, 81)),
    ),
    (
        b"CREATE INDEX i ON t (a aaaaaaaaaaaaaaaaaaaaaaaaaaaaaaaaaaaaaaaaaaaaaaaaaaaaaaaaaaaaaaaa a);",
        b"",
        0,
        b"",
        Some((Limit::Name, 23, 87)),
    ),
];

/// Texts, and the end of the SELECT at their beginning, or the place of its syntax fault.
const SELECTS: [(&[u8], Result<u32, u32>); 9] = [
    (b"SELECT a FROM t WHERE a = 1 b", Ok(8)),
    (b"SELECT a FROM t WHERE", Err(21)),
    (b"SELECT *, b.c FROM t)", Ok(8)),
    (b"SELECT a FROM t AS u v", Ok(6)),
    (b"SELECT a FROM t u", Ok(5)),
    (b"SELECT a FROM t, u JOIN v ON a = b ON", Ok(12)),
    (b"SELECT a FROM t CROSS", Err(21)),
    (b"SELECT a;", Err(8)),
    (b"t;", Err(0)),
];

/// Texts, and the end of the SELECT with its order and its window at their beginning, or the place of its syntax fault.
const WINDOWED: [(&[u8], Result<u32, u32>); 14] = [
    (b"SELECT a FROM t) (SELECT", Ok(4)),
    (
        b"SELECT a FROM t ORDER BY a, b DESC LIMIT 1 OFFSET 2) ;",
        Ok(14),
    ),
    (b"SELECT a FROM t WHERE a = 1 LIMIT 7)", Ok(10)),
    (b"SELECT a FROM t, u OFFSET 1, 2", Ok(8)),
    (b"SELECT a FROM t LIMIT 1 LIMIT 2", Ok(6)),
    (b"SELECT a FROM t OFFSET 1 LIMIT 2", Ok(6)),
    (b"SELECT a FROM t LIMIT 1 ORDER BY a", Ok(6)),
    (b"SELECT a FROM t LIMIT;", Err(21)),
    (b"SELECT a FROM t LIMIT -1;", Err(22)),
    (b"SELECT a FROM t ORDER a;", Err(22)),
    (b"SELECT a FROM t ORDER BY a NULLS;", Err(32)),
    (b"SELECT a FROM t GROUP BY a;", Ok(4)),
    (b"(SELECT a FROM t);", Err(0)),
    (b"EXPLAIN SELECT a FROM t;", Err(0)),
];

/// Texts, and the end of the expression at their beginning, or the place of its syntax fault.
const EXPRESSIONS: [(&[u8], Result<u32, u32>); 16] = [
    (b"a = 1;", Ok(3)),
    (b"a IS NOT NULL AND b)", Ok(6)),
    (b"NOT (a OR b) c;", Ok(6)),
    (b"-1 = a, b", Ok(4)),
    (b"a = b = c;", Ok(3)),
    (b"t.a < 'x' OR;", Err(12)),
    (b"1;", Err(1)),
    (b"(a;", Err(2)),
    (b"d = date '2024-02-29';", Ok(4)),
    (b"DATE '2024-02-29' < timestamptz '2024-03-01') d", Ok(5)),
    (
        b"timestamp '2024-01-01' < a AND zone '1' = without '2' AND time;",
        Ok(12),
    ),
    (b"d = date 5;", Ok(3)),
    (b"d = timestamp with time zone '2024-02-29';", Ok(3)),
    (b"date '2024-02-29';", Err(17)),
    (b"date '2024-02-29' IS NULL;", Err(18)),
    (b"t.date '2024-02-29' = d;", Ok(3)),
];

/// Statements with types of columns and literals, and the place of the syntax fault, if there is one.
const TYPES: [(&[u8], Option<u32>); 27] = [
    (b"CREATE TABLE t (a varchar(3), b varchar NOT NULL);", None),
    (
        b"CREATE TABLE t (a character varying, b CHARACTER VARYING (3) NULL);",
        None,
    ),
    (
        b"CREATE TABLE t (a timestamp, b timestamp(6) without time zone NOT NULL);",
        None,
    ),
    (
        b"CREATE TABLE t (a timestamp with time zone, b TIMESTAMP(6) WITH TIME ZONE);",
        None,
    ),
    (
        b"CREATE TABLE t (a numeric(10, 2), b decimal(5), c numeric);",
        None,
    ),
    (
        b"CREATE TABLE t (a uuid, b date NULL, c timestamptz(6) NOT NULL, d nope(1, 2, 3));",
        None,
    ),
    (
        b"CREATE TABLE date (date date, time time, zone zone, without without, varying varying);",
        None,
    ),
    (
        b"CREATE TABLE timestamp (timestamp timestamp, character character);",
        None,
    ),
    (b"CREATE TABLE t (a numeric(10, -2));", Some(30)),
    (b"CREATE TABLE x (a timestamp with zone);", Some(33)),
    (b"CREATE TABLE x (a timestamp with time);", Some(37)),
    (b"CREATE TABLE x (a timestamp time zone);", Some(28)),
    (b"CREATE TABLE x (a timestamptz with time zone);", Some(30)),
    (
        b"CREATE TABLE x (a timestamp with time zone (6));",
        Some(43),
    ),
    (b"CREATE TABLE x (a date without time zone);", Some(23)),
    (b"CREATE TABLE x (a varchar varying);", Some(26)),
    (b"CREATE TABLE x (a varchar());", Some(26)),
    (b"CREATE TABLE x (a varchar('3'));", Some(26)),
    (b"CREATE TABLE x (a varchar(-3));", Some(26)),
    (b"CREATE TABLE x (a varchar(3);", Some(28)),
    (b"CREATE TABLE x (a double precision);", Some(25)),
    (
        b"CREATE TABLE x (a timestamp(6) with time zone NOT NULL, b uuid uuid);",
        Some(63),
    ),
    (b"CREATE TABLE x (a numeric, b varchar();", Some(37)),
    (
        b"STATISTICS t.d DISTINCT 9 NULLS 0 COMMON (date '2024-02-29' 5);",
        Some(42),
    ),
    (b"SELECT a FROM t WHERE d = date 5;", Some(31)),
    (b"SELECT a FROM t WHERE t.date '2024-02-29' = d;", Some(29)),
    (b"SELECT a FROM t WHERE d = date '2024-02-29';", None),
];

/// Texts, and the end of the candidate for an index at their beginning, or the place of its syntax fault.
const CANDIDATES: [(&[u8], Result<u32, u32>); 14] = [
    (b"i ON t (a), j ON t (b))", Ok(6)),
    (b"i ON t USING hash (a) (", Ok(8)),
    (
        b"i ON t (a, b DESC NULLS FIRST) INCLUDE (c, d) WHERE a = 1 OR b) (SELECT",
        Ok(23),
    ),
    (b"i ON t (a) INCLUDE (b), j", Ok(10)),
    (b"i ON t (a) INCLUDE b", Err(19)),
    (b"i ON t (a) INCLUDE (b) INCLUDE (c)", Ok(10)),
    (b"i ON t (a) WHERE;", Err(16)),
    (b"i ON t (a nulls)", Err(15)),
    (b"i ON t ()", Err(8)),
    (b"CREATE INDEX i ON t (a)", Err(0)),
    (b"i ON t (a", Err(9)),
    (b"i ON t (a);", Ok(6)),
    (b"i ON t (a) WHERE (a = 1)) b", Ok(12)),
    (b"i ON t (a) WHERE a USING", Ok(8)),
];

/// Expressions of repeated bytes and a back, and their end, or from where to where the word stands that opens a level too many.
const DEEP: [(&[u8], usize, &[u8], Result<u32, (u32, u32)>); 5] = [
    (b"NOT ", 32, b"a;", Ok(33)),
    (b"NOT ", 33, b"a;", Err((128, 131))),
    (b"((", 16, b"a))))))))))))))))))))))))))))))));", Ok(65)),
    (b"(NOT ", 16, b"(a = 1) OR b;", Err((80, 81))),
    (b"a IS NOT NULL AND ", 40, b"b;", Ok(201)),
];

/// What stands before such an expression in a statement: 22 bytes.
const FRONT: &[u8] = b"SELECT a FROM t WHERE ";

/// Texts after a `;`, and the place of the data or of the syntax fault.
const LINES: [(&[u8], Result<u32, u32>); 7] = [
    (b"\n", Ok(1)),
    (b" \t\r \n1,2\n", Ok(5)),
    (b"\n\n", Ok(1)),
    (b"", Err(0)),
    (b" \r", Err(2)),
    (b"  x\n", Err(2)),
    (b"\x0c\n", Err(0)),
];

/// Adds `front`, `count` times `middle`, and `back`.
fn add_repeated(
    text: &mut Vec<u8>,
    front: &[u8],
    middle: &[u8],
    count: usize,
    back: &[u8],
) -> Result<(), Memory> {
    text.extend_from_slice(front)?;
    for _ in 0..count {
        text.extend_from_slice(middle)?;
    }
    text.extend_from_slice(back)
}

/// The first fault of the statement at the text's beginning.
fn first_fault(alloc: Global, text: &[u8]) -> Result<Option<Fault>, Refusal>
    requires { length text.now ≤ 2 ^ 31 }
{
    let tokens = lex_statement(alloc, text, 0)?;
    Ok(statement_fault(text, &tokens, 0))
}

/// A passed limit and the place of its words, as a fault.
fn limit_fault(passed: Option<(Limit, u32, u32)>) -> Option<Fault> {
    match passed {
        None => None,
        Some((limit, from, to)) => Some(Fault::at_words(Code::S15(limit), from, to)),
    }
}

/// A front, repeated bytes with how often they stand, and a back.
type Repeated<'a> = (&'a [u8], &'a [u8], usize, &'a [u8]);

/// Whether a statement of at most 100,000 bytes passes this limit, or none.
fn is_passing(alloc: Global, of: Repeated, passed: Option<(Limit, u32, u32)>) -> bool {
    let mut text = Vec::new(alloc);
    add_repeated(&mut text, of.0, of.1, of.2, of.3).is_ok()
        && text.len() <= 100_000
        && first_fault(alloc, &text) == Ok(limit_fault(passed))
}

/// The place of the first statement that passes another limit than told.
fn first_long(
    alloc: Global,
    rows: &[(&[u8], &[u8], usize, &[u8], Option<(Limit, u32, u32)>)],
) -> Option<usize> {
    for n in 0..rows.len() {
        let (front, middle, count, back, passed) = rows[n];
        if !is_passing(alloc, (front, middle, count, back), passed) {
            return Some(n);
        }
    }
    None
}

#[test]
fn keeps_the_limits_of_names_and_texts(rt: HostRuntime) {
    assert_eq!(rt; first_long(rt.alloc(), &LONG), None);
}

/// A production whose end is sought.
#[derive(Clone, Copy)]
enum Part {
    Select,
    WindowedSelect,
    Expression,
    Candidate,
}

/// The end of a production at the text's beginning, or its fault.
fn end_of(alloc: Global, part: Part, text: &[u8]) -> Result<u32, Refusal>
    requires { length text.now ≤ 2 ^ 31 }
{
    let tokens = lex_statement(alloc, text, 0)?;
    let end = match part {
        Part::Select => select_end(text, &tokens, 0),
        Part::WindowedSelect => windowed_select_end(text, &tokens, 0),
        Part::Expression => expr_end(text, &tokens, 0),
        Part::Candidate => cand_end(text, &tokens, 0),
    };
    end.map_err(Refusal::Fault)
}

/// The first of some texts that has more than 100 bytes, or whose production ends or fails elsewhere than told.
fn first_end<'a>(
    alloc: Global,
    part: Part,
    rows: &[(&'a [u8], Result<u32, u32>)],
) -> Option<&'a [u8]> {
    for (text, end) in rows {
        if text.len() > 100 || end_of(alloc, part, text) != end.map_err(syntax) {
            return Some(*text);
        }
    }
    None
}

fn syntax(at: u32) -> Refusal {
    Refusal::Fault(Fault::syntax(at))
}

/// The first of some statements that has more than 100 bytes, or another fault than told.
fn first_type<'a>(alloc: Global, rows: &[(&'a [u8], Option<u32>)]) -> Option<&'a [u8]> {
    for (text, at) in rows {
        if text.len() > 100 || first_fault(alloc, text) != Ok(at.map(Fault::syntax)) {
            return Some(*text);
        }
    }
    None
}

#[test]
fn types_are_words_and_modifiers(rt: HostRuntime) {
    assert_eq!(rt; first_type(rt.alloc(), &TYPES), None);
}

#[test]
fn finds_the_end_of_a_part(rt: HostRuntime) {
    let wrong = [
        first_end(rt.alloc(), Part::Select, &SELECTS),
        first_end(rt.alloc(), Part::WindowedSelect, &WINDOWED),
        first_end(rt.alloc(), Part::Expression, &EXPRESSIONS),
        first_end(rt.alloc(), Part::Candidate, &CANDIDATES),
    ];
    assert_eq!(rt; wrong, [None, None, None, None]);
}

/// An expression's end, or from where to where the word stands that opens a level too many.
type Deep = Result<u32, (u32, u32)>;

/// Whether an expression of repeated bytes and a back ends so, and passes no other limit in a statement.
fn is_deep(alloc: Global, middle: &[u8], count: usize, back: &[u8], end: Deep) -> bool {
    let expected = match end {
        Ok(at) => Ok(at),
        Err((from, to)) => Err(Refusal::Fault(Fault::at_words(Code::S15(Limit::Depth), from, to))),
    };
    let moved = match end {
        Ok(_) => None,
        Err((from, to)) => Some((Limit::Depth, from.saturating_add(22), to.saturating_add(22))),
    };
    let mut text = Vec::new(alloc);
    add_repeated(&mut text, b"", middle, count, back).is_ok()
        && text.len() < 1_000
        && end_of(alloc, Part::Expression, &text) == expected
        && is_passing(alloc, (FRONT, middle, count, back), moved)
}

/// The place of the first expression that ends otherwise.
fn first_deep(alloc: Global, rows: &[(&[u8], usize, &[u8], Deep)]) -> Option<usize> {
    for n in 0..rows.len() {
        let (middle, count, back, end) = rows[n];
        if !is_deep(alloc, middle, count, back, end) {
            return Some(n);
        }
    }
    None
}

#[test]
fn keeps_the_limit_of_levels(rt: HostRuntime) {
    assert_eq!(rt; first_deep(rt.alloc(), &DEEP), None);
}

/// The first of some texts that has more than 100 bytes, or after whose line the data stand elsewhere than told.
fn first_line<'a>(rows: &[(&'a [u8], Result<u32, u32>)]) -> Option<&'a [u8]> {
    for (text, start) in rows {
        if text.len() > 100 || data_start(text, 0) != start.map_err(Fault::syntax) {
            return Some(*text);
        }
    }
    None
}

#[test]
fn finds_the_data_after_a_line(rt: HostRuntime) {
    assert_eq!(rt; first_line(&LINES), None);
}
