//! Cases of each kind over the tables that they are read over, and where the first one stands that fails.

ghost use Rattle.std.specs.Prelude.{◌≤◌, ◌^◌, length};

use crate::tables::{one_column, one_table, two_tables};
use crate::{definitions, indexes, parts, selects, windows};
use catalog::{Catalog, CatalogFault};
use pg_base::{Code, Fault, Memory, Refusal};
use pg_value::SqlType;
use std::alloc::Global;

/// A statement, or a part of one, and its first fault: its kind, its place and where its words end.
pub(crate) type Wrong<'a> = (&'a [u8], Code, u32, u32);

/// A head, a part, a tail, and how often the part stands between them.
pub(crate) type Repeated<'a> = (&'a [u8], &'a [u8], &'a [u8], usize);

/// What a text is read as: a definition but for indexes, an index, a SELECT, the SELECT at the second token, the candidate for
/// an index at the third.
#[derive(Clone, Copy)]
pub(crate) enum Reader {
    Definition,
    Index,
    Select,
    SelectPart,
    Candidate,
}

/// Cases of one kind.
#[derive(Clone, Copy)]
pub(crate) enum Cases<'a> {
    Wrong(Reader, &'a [Wrong<'a>]),
    Definitions(&'a [definitions::Right<'a>]),
    Indexes(&'a [indexes::Right<'a>]),
    Selects(&'a [selects::Right<'a>]),
    Orders(&'a [selects::Ordered<'a>]),
    Joins(&'a [selects::Joined<'a>]),
    OrderedJoins(&'a [selects::OrderedJoin<'a>]),
    Long(&'a [selects::Long<'a>]),
    Windows(&'a [windows::Windowed<'a>]),
    LongWindows(&'a [Wrong<'a>]),
    Places(&'a [parts::Place<'a>]),
    Behind(&'a [parts::Behind<'a>]),
    Candidates(&'a [parts::Candidate<'a>]),
    Limited(&'a [parts::Limited<'a>]),
}

/// The table a of three columns, the tables t and s of two columns each, or the table v of one column of a type.
#[derive(Clone, Copy)]
pub(crate) enum Tables {
    One,
    Two,
    Of(SqlType),
}

fn catalogue(alloc: Global, tables: Tables) -> Result<Catalog, CatalogFault> {
    match tables {
        Tables::One => one_table(alloc),
        Tables::Two => two_tables(alloc),
        Tables::Of(t) => one_column(alloc, t),
    }
}

/// Why a text is refused, if it is.
fn refusal(alloc: Global, catalog: &Catalog, reader: Reader, text: &[u8]) -> Option<Refusal>
    requires { length text.now ≤ 2 ^ 31 }
{
    match reader {
        Reader::Definition => definitions::read(alloc, catalog, text).err(),
        Reader::Index => indexes::read(alloc, catalog, text).err(),
        Reader::Select => selects::reading(alloc, catalog, text).err(),
        Reader::SelectPart => parts::select(alloc, catalog, text).err(),
        Reader::Candidate => parts::candidate(alloc, catalog, text).err(),
    }
}

/// The place of the first text that has more than 1,000 bytes, or is refused elsewhere than given.
fn first_wrong(alloc: Global, catalog: &Catalog, reader: Reader, rows: &[Wrong]) -> Option<usize> {
    for n in 0..rows.len() {
        let (text, code, from, to) = rows[n];
        let fault = Refusal::Fault(Fault::at_words(code, from, to));
        if text.len() > 1_000 || refusal(alloc, catalog, reader, text) != Some(fault) {
            return Some(n);
        }
    }
    None
}

/// Adds the head, the part so many times, and the tail.
fn add_repeated(text: &mut Vec<u8>, of: Repeated) -> Result<(), Memory> {
    let (head, part, tail, count) = of;
    text.extend_from_slice(head)?;
    for _ in 0..count {
        text.extend_from_slice(part)?;
    }
    text.extend_from_slice(tail)
}

/// Whether such a text has less than 10,000 bytes and this fault, or none.
pub(crate) fn is_refused(
    alloc: Global,
    catalog: &Catalog,
    reader: Reader,
    of: Repeated,
    fault: Option<Fault>,
) -> bool {
    let mut text = Vec::new(alloc);
    add_repeated(&mut text, of).is_ok()
        && text.len() < 10_000
        && refusal(alloc, catalog, reader, &text) == fault.map(Refusal::Fault)
}

/// The place of the first case that fails over a catalogue.
fn first_over(alloc: Global, catalog: &Catalog, cases: Cases) -> Option<usize> {
    match cases {
        Cases::Wrong(reader, rows) => first_wrong(alloc, catalog, reader, rows),
        Cases::Definitions(rows) => definitions::first_other(alloc, catalog, rows),
        Cases::Indexes(rows) => indexes::first_other(alloc, catalog, rows),
        Cases::Selects(rows) => selects::first_other(alloc, catalog, rows),
        Cases::Orders(rows) => selects::first_order(alloc, catalog, rows),
        Cases::Joins(rows) => selects::first_join(alloc, catalog, rows),
        Cases::OrderedJoins(rows) => selects::first_ordered_join(alloc, catalog, rows),
        Cases::Long(rows) => selects::first_long(alloc, catalog, rows),
        Cases::Windows(rows) => windows::first_other(alloc, catalog, rows),
        Cases::LongWindows(rows) => windows::first_long(alloc, catalog, rows),
        Cases::Places(rows) => parts::first_place(alloc, catalog, rows),
        Cases::Behind(rows) => parts::first_behind(alloc, catalog, rows),
        Cases::Candidates(rows) => parts::first_candidate(alloc, catalog, rows),
        Cases::Limited(rows) => parts::first_limited(alloc, catalog, rows),
    }
}

/// The place of the first case that fails over such tables; a number of no case when memory runs out.
pub(crate) fn first_failing(alloc: Global, tables: Tables, cases: Cases) -> Option<usize> {
    match catalogue(alloc, tables) {
        Ok(catalog) => first_over(alloc, &catalog, cases),
        Err(_) => Some(usize::MAX),
    }
}
