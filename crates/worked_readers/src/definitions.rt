//! CREATE TABLE, COPY and STATISTICS read and refused. Kinds and places were found by a reader written apart.

ghost use Rattle.std.specs.Prelude.{◌≤◌, ◌^◌, length};

use crate::cases::{Cases, Reader, Tables, Wrong, first_failing};
use catalog::{Catalog, ColumnStats};
use ddl_reader::{Ddl, Read, block_end, read_ddl};
use pg_base::{Code, ColNo, Limit, Refusal, TableNo};
use pg_value::{Bytes, Column, SqlType, Value};
use sql_lex::lex_statement;
use std::alloc::Global;

/// Statements, and their first fault: its kind, its place and where its words end.
const WRONG: [Wrong; 48] = [
    (b"CREATE TABLE t (a foo, b bar);", Code::S8, 18, 21),
    (
        b"CREATE TABLE t (a int4, b Bar NOT NULL);",
        Code::S8,
        26,
        29,
    ),
    (b"CREATE TABLE t (a foo, b int4", Code::S1, 29, 29),
    (b"CREATE TABLE t (a int4,);", Code::S1, 23, 23),
    (b"CREATE TABLE t (a int4 NOT);", Code::S1, 26, 26),
    (b"CREATE INDEX i;", Code::S1, 0, 0),
    (
        b"CREATE TABLE t (a int2,b int2,c int2,d int2,e int2,f int2,g int2,h int2,i int2,j int2,k int2,l int2,m int2,n int2,o int2,p int2,q int2,r int2,s int2,t int2,u int2,v int2,w int2,x int2,y int2,z int2,a1 int2,b1 int2,c1 int2,d1 int2,e1 int2,f1 int2,Qq int2,r2 int2);",
        Code::S15(Limit::Columns),
        246,
        248,
    ),
    (
        b"CREATE TABLE t (a int2,b int2,c int2,d int2,e int2,f int2,g int2,h int2,i int2,j int2,k int2,l int2,m int2,n int2,o int2,p int2,q int2,r int2,s int2,t int2,u int2,v int2,w int2,x int2,y int2,z int2,a1 int2,b1 int2,c1 int2,d1 int2,e1 int2,f1 int2,q2 int2,r2 nope);",
        Code::S8,
        257,
        261,
    ),
    (
        b"COPY u FROM STDIN WITH (FORMAT CSV, NULL '');\n\\.\n",
        Code::S2,
        5,
        6,
    ),
    (
        b"COPY u FROM STDIN WITH (FORMAT CSV, NULL ''); x\n",
        Code::S1,
        46,
        46,
    ),
    (
        b"COPY u FROM STDIN WITH (FORMAT CSV, NULL '')",
        Code::S1,
        44,
        44,
    ),
    (b"COPY;", Code::S1, 4, 4),
    (b"CREATE TABLE t (a);", Code::S1, 17, 17),
    (b"CREATE TABLE (a int4);", Code::S1, 13, 13),
    (b"CREATE TABLE t a int4);", Code::S1, 15, 15),
    (b"CREATE TABLE t (a int4 NULL NULL);", Code::S1, 28, 28),
    (b"CREATE TABLE t (a int4 NOT NULL", Code::S1, 31, 31),
    (b"CREATE TABLE select (a int4);", Code::S1, 13, 13),
    (b"CREATE TABLE t (a int4) x;", Code::S1, 24, 24),
    (b"CREATE t (a int4);", Code::S1, 7, 7),
    (b"CREATE TABLE t (a Int4 NULL, b MONEY);", Code::S8, 31, 36),
    (b"CREATE TABLE t (a int4, b);", Code::S1, 25, 25),
    (b"CREATE TABLE t (a int4 b int4);", Code::S1, 23, 23),
    (b"CREATE TABLE t ();", Code::S1, 16, 16),
    (b"CREATE TABLE t (not int4);", Code::S1, 16, 16),
    (
        b"CREATE TABLE t (aaaaaaaaaaaaaaaaaaaaaaaaaaaaaaaaaaaaaaaaaaaaaaaaaaaaaaaaaaaaaaaa foo);",
        Code::S15(Limit::Name),
        16,
        80,
    ),
    (b"COPY a FROM STDIN;", Code::S1, 17, 17),
    (
        b"COPY a FROM STDIN WITH (FORMAT CSV, NULL 'n');\n\\.\n",
        Code::S17,
        41,
        44,
    ),
    (
        b"COPY a FROM STDIN WITH (FORMAT CSV, NULL x);\n\\.\n",
        Code::S1,
        41,
        41,
    ),
    (
        b"COPY nope FROM STDIN WITH (FORMAT CSV, NULL 'n');\n\\.\n",
        Code::S2,
        5,
        9,
    ),
    (
        b"COPY a FROM STDIN WITH (FORMAT CSV, NULL '\\N') x;\n\\.\n",
        Code::S1,
        47,
        47,
    ),
    (b"STATISTICS nope ROWS 1 PAGES 1;", Code::S2, 11, 15),
    (b"STATISTICS a ROWS 1;", Code::S1, 19, 19),
    (b"STATISTICS a ROWS -1 PAGES 1;", Code::S1, 18, 18),
    (b"STATISTICS nope.b DISTINCT 1 NULLS 0;", Code::S2, 11, 15),
    (
        b"STATISTICS a.nope DISTINCT 1 NULLS 0 COMMON ('x' 1);",
        Code::S3,
        13,
        17,
    ),
    (
        b"STATISTICS a . b DISTINCT 1 NULLS 0 COMMON (1);",
        Code::S1,
        45,
        45,
    ),
    (
        b"STATISTICS a.b DISTINCT 1 NULLS 0 HISTOGRAM (1) COMMON (1 1);",
        Code::S1,
        48,
        48,
    ),
    (
        b"STATISTICS a.b DISTINCT 0 NULLS 0 COMMON (-2147483649 5);",
        Code::S11,
        42,
        43,
    ),
    (
        b"STATISTICS a.b DISTINCT 0 NULLS 0 COMMON (1 5, '99999999999' 5);",
        Code::S11,
        47,
        60,
    ),
    (
        b"STATISTICS a.b DISTINCT 0 NULLS 0 COMMON (1 5) HISTOGRAM (1, 'x');",
        Code::S12,
        61,
        64,
    ),
    (
        b"STATISTICS a.b DISTINCT 0 NULLS 0 COMMON (TRUE 5) HISTOGRAM ('x');",
        Code::S10,
        42,
        46,
    ),
    (
        b"STATISTICS a.b DISTINCT 0 NULLS 0 COMMON (1 0, NULL 5) HISTOGRAM ('x');",
        Code::S17,
        47,
        51,
    ),
    (
        b"STATISTICS a.t DISTINCT 0 NULLS 0 COMMON ('x' 5) HISTOGRAM ('a', - 99999999999999999999);",
        Code::S10,
        65,
        66,
    ),
    (
        b"STATISTICS a.f DISTINCT 0 NULLS 0 COMMON ('yes' 5, 'o' 7);",
        Code::S12,
        51,
        54,
    ),
    (
        b"STATISTICS a.b DISTINCT 0 NULLS 0 HISTOGRAM ('\\N');",
        Code::S12,
        45,
        49,
    ),
    (
        b"STATISTICS nope.nope DISTINCT 1 NULLS 0 COMMON (1 1) x;",
        Code::S1,
        53,
        53,
    ),
    (b"SELECT b FROM a;", Code::S1, 0, 0),
];

/// The columns of the table that is read.
const COLUMNS: [Column; 3] = [
    Column {
        typed: SqlType::Int4,
        not_null: false,
    },
    Column {
        typed: SqlType::Bool,
        not_null: true,
    },
    Column {
        typed: SqlType::Int8,
        not_null: false,
    },
];

/// Texts, and the end of the data at their beginning with the offset after it.
const BLOCKS: [(&[u8], Option<(u32, u32)>); 8] = [
    (b"\\.\n", Some((0, 3))),
    (b"1\r\n\\.\r\n2", Some((3, 7))),
    (b"\"\n\\.\n\"\n\\.\n", Some((2, 5))),
    (b"1\n\\.", Some((2, 4))),
    (b"1\n\\.\r", None),
    (b"1\n \\.\n", None),
    (b"1\\.\n", None),
    (b"", None),
];

/// The whole number of a value; 0 where it is none.
fn whole(value: &Value) -> i64 {
    match value {
        Value::Int(number) => *number,
        _ => 0,
    }
}

/// The statement at the text's beginning.
pub(crate) fn read(alloc: Global, cat: &Catalog, text: &[u8]) -> Result<Read, Refusal>
    requires { length text.now ≤ 2 ^ 31 }
{
    let tokens = lex_statement(alloc, text, 0)?;
    read_ddl(alloc, cat, text, &tokens)
}

/// What a statement has to be read as.
#[derive(Clone, Copy)]
pub(crate) enum Wanted<'a> {
    /// A table `t` of three columns with these types, the second of a name.
    Table(&'a [Column], &'a [u8]),
    /// The head of data of the first table, which start at an offset.
    Copy(u32),
    /// Rows and pages of the first table.
    Rows(u64, u64),
    /// Different values, the share of NULL, common values with their shares and bounds, of the first column of the first table.
    Column(u64, u32, &'a [(i64, u32)], &'a [i64]),
}

fn are_common(common: &[(Value, u32)], wanted: &[(i64, u32)]) -> bool {
    common.len() == wanted.len()
        && common.iter().zip(wanted).all(|(found, told)| whole(&found.0) == told.0
            && found.1 == told.1)
}

fn are_bounds(bounds: &[Value], wanted: &[i64]) -> bool {
    bounds.len() == wanted.len()
        && bounds
            .iter()
            .zip(wanted)
            .all(|(found, told)| whole(found) == *told)
}

fn is_known(stats: &ColumnStats, wanted: Wanted) -> bool {
    match wanted {
        Wanted::Column(distinct, nulls, common, bounds) => {
            (stats.distinct, stats.nulls) == (distinct, nulls)
                && are_common(&stats.common, common)
                && are_bounds(&stats.histogram, bounds)
        }
        _ => false,
    }
}

/// Whether these are the names of the wanted table, of its three columns, and their types.
fn is_table(name: &[u8], names: &[Bytes], types: &[Column], wanted: Wanted) -> bool {
    match (wanted, names) {
        (Wanted::Table(columns, second), [_, named, _]) => {
            name == b"t".as_slice() && types == columns && named.items() == second
        }
        _ => false,
    }
}

fn is_meant(ddl: &Ddl, wanted: Wanted) -> bool {
    match ddl {
        Ddl::Table {
            name,
            names,
            columns,
        } => is_table(name.items(), names, columns.items(), wanted),
        Ddl::Copy { table, start } => {
            matches!(wanted, Wanted::Copy(at) if *table == TableNo(0) && *start == at)
        }
        Ddl::Rows { table, rows, pages } => {
            matches!(wanted, Wanted::Rows(n, m) if (*table, *rows, *pages) == (TableNo(0), n, m))
        }
        Ddl::Column { table, col, stats } => {
            (*table, *col) == (TableNo(0), ColNo(0)) && is_known(stats, wanted)
        }
        _ => false,
    }
}

/// Whether a statement is read as this, with the places of its names or numbers.
fn is_read(alloc: Global, cat: &Catalog, text: &[u8], wanted: Wanted, at: &[u32]) -> bool
    requires { length text.now ≤ 2 ^ 31 }
{
    match read(alloc, cat, text) {
        Ok(read) => is_meant(&read.ddl, wanted) && read.at.as_slice() == at,
        Err(_) => false,
    }
}

/// Statements, what they are read as, and the places of their names or numbers.
pub(crate) type Right<'a> = (&'a [u8], Wanted<'a>, &'a [u32]);

const RIGHT: [Right; 4] = [
    (
        b"Create TABLE T (A int4, b_2 Boolean NOT NULL, c bigint NULL);",
        Wanted::Table(&COLUMNS, b"b_2"),
        &[13, 16, 24, 46],
    ),
    (
        b"copy A from stdin with (format csv, null '\\N'); \t\n1\n\\.\n",
        Wanted::Copy(50),
        &[],
    ),
    (
        b"Statistics A rows 99999999999999999999 PAGES 7;",
        Wanted::Rows(u64::MAX, 7),
        &[18, 45],
    ),
    (
        b"STATISTICS a.b DISTINCT 4 NULLS 4294967296 COMMON (-7 5, '8' 4294967295) HISTOGRAM (1, - 2);",
        Wanted::Column(4, u32::MAX, &[(-7, 5), (8, u32::MAX)], &[1, -2]),
        &[24, 32, 51, 54, 57, 61, 84, 87],
    ),
];

/// The place of the first statement that has more than 100 bytes, or is read as something else.
pub(crate) fn first_other(alloc: Global, cat: &Catalog, rows: &[Right]) -> Option<usize> {
    for n in 0..rows.len() {
        let (text, wanted, at) = rows[n];
        if text.len() > 100 || !is_read(alloc, cat, text, wanted, at) {
            return Some(n);
        }
    }
    None
}

#[test]
fn refuses_at_the_first_fault(rt: HostRuntime) {
    let cases = Cases::Wrong(Reader::Definition, &WRONG);
    assert_eq!(rt; first_failing(rt.alloc(), Tables::One, cases), None);
}

#[test]
fn reads_definitions(rt: HostRuntime) {
    let cases = Cases::Definitions(&RIGHT);
    assert_eq!(rt; first_failing(rt.alloc(), Tables::One, cases), None);
}

/// The first text that has more than 100 bytes, or whose data end elsewhere than given.
fn first_block<'a>(rows: &[(&'a [u8], Option<(u32, u32)>)]) -> Option<&'a [u8]> {
    for (text, end) in rows {
        if text.len() > 100 || block_end(text, 0) != *end {
            return Some(*text);
        }
    }
    None
}

#[test]
fn finds_the_end_of_the_data(rt: HostRuntime) {
    assert_eq!(rt; first_block(&BLOCKS), None);
}
