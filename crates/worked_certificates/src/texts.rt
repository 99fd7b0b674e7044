//! Texts of certificates: how many entries are read from them and which is the best, or the line at which they are refused.
//! The lines were found by a checker written apart from this one.

ghost use Rattle.std.specs.Prelude.{◌≤◌, ◌^◌, length};
ghost use Rattle.sql_query.specs.WellBound.{IsWellBound};

use crate::script::{Stopped, define, query};
use catalog::Catalog;
use certificate_reader::{CertFault, read_certificate};
use sql_query::Prepared;
use std::alloc::Global;

/// Two tables, an index of the first, and one more table.
const DEFINITIONS: [&[u8]; 4] = [
    b"CREATE TABLE x (a int4);",
    b"CREATE TABLE y (a int4);",
    b"CREATE TABLE t (a int8);",
    b"CREATE INDEX i ON x USING btree (a);",
];

/// A query of two tables.
const PLAIN: &[u8] = b"SELECT x.a, y.a FROM x, y;";

/// A query that joins two tables by a class.
const JOINED: &[u8] = b"SELECT x.a, y.a FROM x, y WHERE x.a = y.a ORDER BY x.a;";

/// One with a window.
const LIMITED: &[u8] = b"SELECT * FROM t LIMIT 2;";

/// What comes of a text.
#[derive(Clone, Copy, Debug, PartialEq, Eq)]
enum Outcome {
    /// The number of entries, whether the best plan is sorted, and its entry.
    Read(usize, bool, u32),
    /// The text is no certificate's; the line that is wrong.
    Line(u32),
    /// The query was not read, or memory was short.
    Stopped,
}

/// A query, a text and what comes of it.
const TEXTS: [(&[u8], &[u8], Outcome); 23] = [
    (
        PLAIN,
        b"1 {x} Seq Scan cost=408 rows=2 keys=()\n2 {y} Seq Scan cost=412 rows=3 keys=()\n3 {x,y} Nested Loop 1 2 cost=1256 rows=6 keys=()\nbest 3\n",
        Outcome::Read(3, false, 3),
    ),
    (
        PLAIN,
        b"1 {x} Seq Scan cost=408 rows=2 keys=()\n2 {y} Seq Scan cost=412 rows=3 keys=()\n3 {x,y} Nested Loop 1 2 cost=1256 rows=6 keys=()\nbest sort 4294967295\n",
        Outcome::Read(3, true, 4294967295),
    ),
    (
        PLAIN,
        b"\n1 {x} Seq Scan cost=408 rows=2 keys=()\n2 {y} Seq Scan cost=412 rows=3 keys=()\n3 {x,y} Nested Loop 1 2 cost=1256 rows=6 keys=()\nbest 3\n",
        Outcome::Line(1),
    ),
    (
        PLAIN,
        b"1 {x} Seq Scan cost=408 rows=2 keys=()\n2 {y} Seq Scan cost=412 rows=3 keys=()\n3 {x,y} Nested Loop 1 2 cost=1256 rows=6 keys=()\nbest 4294967296\n",
        Outcome::Line(4),
    ),
    (
        PLAIN,
        b"1 {x} Seq Scan cost=408 rows=2 keys=()\n2 {y} Seq Scan cost=0412 rows=3 keys=()\n3 {x,y} Nested Loop 1 2 cost=1256 rows=6 keys=()\nbest 3\n",
        Outcome::Line(2),
    ),
    (
        PLAIN,
        b"1 {x} Seq Scan cost=408 rows=2 keys=()\n2 {y} Seq Scan cost=412 rows=99999999999999999999 keys=()\n3 {x,y} Nested Loop 1 2 cost=1256 rows=6 keys=()\nbest 3\n",
        Outcome::Line(2),
    ),
    (
        PLAIN,
        b"1 {x} Seq Scan cost=408 rows=2 keys=()\n2 {y} Seq Scan cost=412 rows=3 keys=()\n3 {y,x} Nested Loop 1 2 cost=1256 rows=6 keys=()\nbest 3\n",
        Outcome::Line(3),
    ),
    (
        PLAIN,
        b"1 {x} Seq Scan cost=408 rows=2 keys=()\n3 {y} Seq Scan cost=412 rows=3 keys=()\n3 {x,y} Nested Loop 1 2 cost=1256 rows=6 keys=()\nbest 3\n",
        Outcome::Line(2),
    ),
    (
        PLAIN,
        b"1 {x} Seq Scan cost=408 rows=2 keys=()\n2 {} Seq Scan cost=412 rows=3 keys=()\n3 {x,y} Nested Loop 1 2 cost=1256 rows=6 keys=()\nbest 3\n",
        Outcome::Line(2),
    ),
    (
        PLAIN,
        b"1 {x} Seq Scan cost=408 rows=2 keys=()\n2 {y} Seq Scan cost=412 rows=3 keys=()\n3 {x,y} Nested Loop 1 2 cost=1256 rows=6 keys=()\r\nbest 3\n",
        Outcome::Line(3),
    ),
    (
        PLAIN,
        b"1 {x} Seq Scan cost=408 rows=2 keys=()\n2 {y} Seq Scan cost=412 rows=3 keys=()\n3 {x,y} Nested Loop 1 2 cost=1256 rows=6 keys=()\n",
        Outcome::Line(4),
    ),
    (
        PLAIN,
        b"1 {x} Seq Scan cost=408 rows=2 keys=()\n2 {y} Seq Scan cost=412 rows=3 keys=()\n3 {x,y} Nested Loop 1 2 cost=1256 rows=6 keys=()\nbest 3",
        Outcome::Line(4),
    ),
    (
        PLAIN,
        b"1 {x} Seq Scan cost=408 rows=2 keys=()\n2 {y} Seq Scan cost=412 rows=3 keys=()\n3 {x,y} Nested Loop 1 2 cost=1256 rows=6 keys=()\nbest 3\nbest 3\n",
        Outcome::Line(5),
    ),
    (PLAIN, b"", Outcome::Line(1)),
    (
        PLAIN,
        b"certificate 2\n1 {x} Seq Scan cost=408 rows=2 keys=()\n2 {y} Seq Scan cost=412 rows=3 keys=()\n3 {x,y} Nested Loop 1 2 cost=1256 rows=6 keys=()\nbest 3\n",
        Outcome::Line(1),
    ),
    (
        JOINED,
        b"1 {x} Seq Scan cost=408 rows=2 keys=()\n2 {x} Index Only Scan using i cost=1663 rows=2 keys=(x.a)\n3 {x} for {y} Index Only Scan using i cost=1658 rows=1 keys=()\n4 {y} Seq Scan cost=412 rows=3 keys=()\n5 {x,y} Merge Join by x.a sort 4 sort 1 cost=856 rows=2 keys=(x.a)\nbest 5\n",
        Outcome::Read(5, false, 5),
    ),
    (
        JOINED,
        b"1 {x} Seq Scan cost=408 rows=2 keys=()\n2 {x} Index Only Scan using i cost=1663 rows=2 keys=(x.a, x.a)\n3 {x} for {y} Index Only Scan using i cost=1658 rows=1 keys=()\n4 {y} Seq Scan cost=412 rows=3 keys=()\n5 {x,y} Merge Join by x.a sort 4 sort 1 cost=856 rows=2 keys=(x.a)\nbest 5\n",
        Outcome::Line(2),
    ),
    (
        JOINED,
        b"1 {x} Seq Scan cost=408 rows=2 keys=()\n2 {x} Index Only Scan using i cost=1663 rows=2 keys=(x.a)\n3 {x} for {y} Index Only Scan using j cost=1658 rows=1 keys=()\n4 {y} Seq Scan cost=412 rows=3 keys=()\n5 {x,y} Merge Join by x.a sort 4 sort 1 cost=856 rows=2 keys=(x.a)\nbest 5\n",
        Outcome::Line(3),
    ),
    (
        JOINED,
        b"1 {x} Seq Scan cost=408 rows=2 keys=()\n2 {x} Index Only Scan using i cost=1663 rows=2 keys=(x.a)\n3 {x} for {} Index Only Scan using i cost=1658 rows=1 keys=()\n4 {y} Seq Scan cost=412 rows=3 keys=()\n5 {x,y} Merge Join by x.a sort 4 sort 1 cost=856 rows=2 keys=(x.a)\nbest 5\n",
        Outcome::Line(3),
    ),
    (
        JOINED,
        b"1 {x} Seq Scan cost=408 rows=2 keys=()\n2 {x} Index Only Scan using i cost=1663 rows=2 keys=(x.a)\n3 {x} for {y} Index Only Scan using i cost=1658 rows=1 keys=()\n4 {y} Seq Scan cost=412 rows=3 keys=()\n5 {x,y} Merge Join by x.a sort 4 sort 1 cost=856 rows=2 keys=(y.a)\nbest 5\n",
        Outcome::Line(5),
    ),
    (
        LIMITED,
        b"certificate 2\n1 {t} Seq Scan cost=0..412 rows=3 keys=()\nbest 1\n",
        Outcome::Read(1, false, 1),
    ),
    (
        LIMITED,
        b"1 {t} Seq Scan cost=0..412 rows=3 keys=()\nbest 1\n",
        Outcome::Line(1),
    ),
    (
        LIMITED,
        b"certificate 2\n1 {t} Seq Scan cost=412 rows=3 keys=()\nbest 1\n",
        Outcome::Line(2),
    ),
];

/// What was read.
fn read_as(alloc: Global, cat: &Catalog, q: &Prepared, text: &[u8]) -> Outcome
    requires bound { IsWellBound cat.now q.now }
    requires few { length text.now ≤ 2 ^ 31 }
{
    match read_certificate(alloc, cat, q, text) {
        Ok(t) => Outcome::Read(t.entries.items().len(), t.best.sort, t.best.entry),
        Err(CertFault::C1 { line }) => Outcome::Line(line),
        Err(CertFault::Memory) => Outcome::Stopped,
    }
}

/// What comes of a text of a query.
fn comes_of(alloc: Global, cat: &Catalog, select: &[u8], text: &[u8]) -> Outcome {
    if text.len() > 1_000 {
        return Outcome::Stopped;
    }
    match query(alloc, cat, select) {
        Ok(q) => read_as(alloc, cat, &q, text),
        Err(_) => Outcome::Stopped,
    }
}

/// A catalogue by its definitions.
fn tables(alloc: Global, definitions: &[&[u8]]) -> Result<Catalog, Stopped> {
    let mut cat = Catalog::new(alloc);
    for text in definitions {
        define(alloc, &mut cat, text)?;
    }
    Ok(cat)
}

/// The first of some texts of which something else comes, and what does.
fn first_wrong<'a>(
    alloc: Global,
    cat: &Catalog,
    rows: &[(&[u8], &'a [u8], Outcome)],
) -> Option<(&'a [u8], Outcome)> {
    for (select, text, expected) in rows {
        let own = comes_of(alloc, cat, select, text);
        if own != *expected {
            return Some((text, own));
        }
    }
    None
}

#[test]
fn texts_are_read_or_refused_at_their_line(rt: HostRuntime) {
    let cat = tables(rt.alloc(), &DEFINITIONS).expect(&rt, "tables");
    assert_eq!(rt; first_wrong(rt.alloc(), &cat, &TEXTS), None);
}
