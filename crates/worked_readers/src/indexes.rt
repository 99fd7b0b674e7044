//! CREATE INDEX read and refused. Kinds and places were found by a reader written apart.

ghost use Rattle.std.specs.Prelude.{◌≤◌, ◌^◌, length, IfOk};
ghost use Rattle.index_reader.specs.work.Reads.{index_meant};
ghost use Rattle.index_reader.specs.work.Soundness.{IsSound};

use crate::cases::{Cases, Reader, Tables, Wrong, first_failing};
use crate::tables::one_table;
use catalog::{Catalog, IndexDef};
use ddl_reader::is_index;
use index_reader::{ReadIndex, read_index};
use opfamily::{Method, OpClass};
use pg_base::{Code, ColNo, IndexNo, Limit, Refusal, RelNo, TableNo};
use pg_expr::{Expr, Operand};
use pg_value::Op;
use sql_lex::lex_statement;
use std::alloc::Global;

/// Statements, and their first fault: its kind, its place and where its words end.
const WRONG: [Wrong; 17] = [
    (b"CREATE INDEX i ON a (b;", Code::S1, 22, 22),
    (b"CREATE INDEX i ON c (z);", Code::S2, 18, 19),
    (b"CREATE INDEX i ON A USING gin (z);", Code::S8, 26, 29),
    (b"CREATE INDEX i ON a (b, z none);", Code::S3, 24, 25),
    (b"CREATE INDEX i ON a (b none, z);", Code::S8, 23, 27),
    (
        b"CREATE INDEX i ON a USING hash (b int4_abs_ops);",
        Code::S8,
        34,
        46,
    ),
    (
        b"CREATE INDEX i ON a USING hash (t int4_abs_ops);",
        Code::S8,
        34,
        46,
    ),
    (b"CREATE INDEX i ON a (t int4_abs_ops);", Code::S10, 23, 35),
    (
        b"CREATE INDEX i ON a (b int8_ops) INCLUDE (z);",
        Code::S10,
        23,
        31,
    ),
    (
        b"CREATE INDEX i ON a (b) INCLUDE (t, z) WHERE z;",
        Code::S3,
        36,
        37,
    ),
    (b"CREATE INDEX i ON a (b) WHERE i.b = 1;", Code::S2, 30, 31),
    (b"CREATE INDEX i ON a (b) WHERE a.z = 1;", Code::S3, 32, 33),
    (b"CREATE INDEX i ON a (b) WHERE b;", Code::S10, 30, 31),
    (b"CREATE INDEX i ON a (b) WHERE b = 'x';", Code::S12, 34, 37),
    (b"CREATE INDEX i ON a (b) WHERE t = 1;", Code::S9, 32, 33),
    (
        b"CREATE INDEX i ON a (b,b,b,b,b,b,b,b,b,b,b,b,b,b,b,b,b) INCLUDE (b,b,b,b,b,b,b,b,b,b,b,b,b,b,b,T,f);",
        Code::S15(Limit::Columns),
        95,
        96,
    ),
    (
        b"CREATE INDEX i ON a (b,b,b,b,b,b,b,b,b,b,b,b,b,b,b,b,b) INCLUDE (b,b,b,b,b,b,b,b,b,b,b,b,b,b,b,t,z);",
        Code::S3,
        97,
        98,
    ),
];

/// Statements, and what is read: the access method and its place, the direction and the end of the NULLs of the first key, the
/// class of it, and the places of the names.
pub(crate) type Right<'a> = (&'a [u8], Method, u32, OpClass, bool, bool, &'a [u32]);

const RIGHT: [Right; 6] = [
    (
        b"CREATE INDEX i ON a (b);",
        Method::Btree,
        0,
        OpClass::Int4Ops,
        false,
        false,
        &[13, 21],
    ),
    (
        b"CREATE INDEX i ON a USING hash (t);",
        Method::Hash,
        26,
        OpClass::TextOps,
        false,
        false,
        &[13, 32],
    ),
    (
        b"CREATE INDEX i ON a (b int4_abs_ops DESC, t) INCLUDE (f);",
        Method::Btree,
        0,
        OpClass::Int4AbsOps,
        true,
        true,
        &[13, 21, 42, 54],
    ),
    (
        b"CREATE INDEX i ON a (f DESC NULLS LAST);",
        Method::Btree,
        0,
        OpClass::BoolOps,
        true,
        false,
        &[13, 21],
    ),
    (
        b"CREATE INDEX i ON a (b ASC) INCLUDE (b, t);",
        Method::Btree,
        0,
        OpClass::Int4Ops,
        false,
        false,
        &[13, 21, 37, 40],
    ),
    (
        b"CREATE INDEX i ON a (b NULLS FIRST);",
        Method::Btree,
        0,
        OpClass::Int4Ops,
        false,
        true,
        &[13, 21],
    ),
];

/// The CREATE INDEX at the text's beginning.
pub(crate) fn read(alloc: Global, cat: &Catalog, text: &[u8]) -> Result<ReadIndex, Refusal>
    requires { length text.now ≤ 2 ^ 31 }
    ensures { IfOk result (λ r. IsSound cat.now text.now (index_meant r)) }
{
    let tokens = lex_statement(alloc, text, 0)?;
    if !is_index(text, &tokens) {
        return Err(Refusal::Memory);
    }
    read_index(alloc, cat, text, &tokens)
}

/// Whether an index is of the first table and has one column for each place but the first, with no predicate and this first
/// key.
fn is_defined(def: &IndexDef, method: Method, key: (OpClass, bool, bool), places: usize) -> bool {
    let found = match def.keys.first() {
        Some(first) => Some((first.class, first.descending, first.nulls_first)),
        None => None,
    };
    found == Some(key)
        && (def.table, def.method) == (TableNo(0), method)
        && def
            .keys
            .len()
            .saturating_add(def.include.len())
            .saturating_add(1)
            == places
        && def.predicate.is_none()
}

/// Whether a statement is read as this.
fn is_read(alloc: Global, cat: &Catalog, row: Right) -> bool
    requires { length row.0.now ≤ 2 ^ 31 }
{
    let (text, method, place, class, descending, nulls_first, at) = row;
    match read(alloc, cat, text) {
        Ok(read) => {
            is_defined(
                &read.def,
                method,
                (class, descending, nulls_first),
                at.len(),
            ) && read.name.items() == b"i".as_slice()
                && read.method == place
                && read.at.as_slice() == at
        }
        Err(_) => false,
    }
}

/// The place of the first statement that has more than 100 bytes, or is read as something else.
pub(crate) fn first_other(alloc: Global, cat: &Catalog, rows: &[Right]) -> Option<usize> {
    for n in 0..rows.len() {
        if rows[n].0.len() > 100 || !is_read(alloc, cat, rows[n]) {
            return Some(n);
        }
    }
    None
}

#[test]
fn refuses_at_the_first_fault(rt: HostRuntime) {
    let cases = Cases::Wrong(Reader::Index, &WRONG);
    assert_eq!(rt; first_failing(rt.alloc(), Tables::One, cases), None);
}

#[test]
fn reads_an_index(rt: HostRuntime) {
    let cases = Cases::Indexes(&RIGHT);
    assert_eq!(rt; first_failing(rt.alloc(), Tables::One, cases), None);
}

/// Whether a predicate is that the first column is below something.
fn is_below(predicate: &Option<Expr>) -> bool {
    match predicate {
        Some(Expr::Compare(Op::Lt, Operand::Col(column), _)) => {
            (column.rel, column.col) == (RelNo(0), ColNo(0))
        }
        _ => false,
    }
}

#[test]
fn hands_an_index_to_the_catalogue(rt: HostRuntime) {
    let mut cat = one_table(rt.alloc()).expect(&rt, "a table");
    let text = b"CREATE INDEX i ON a (t) WHERE NOT (1 <= a.b);";
    let read = read(rt.alloc(), &cat, text).expect(&rt, "an index");
    assert!(rt; is_below(&read.def.predicate));
    let number = cat.add_index(read.name, read.def).expect(&rt, "a number");
    assert_eq!(rt; number, IndexNo(0));
}
