//! Tables and indexes defined and filled, and queries read over them.

ghost use Rattle.std.specs.Prelude.{◌≤◌, ◌^◌, ℕ, IfSome, length};
ghost use Rattle.sql_lex.specs.Words.{AreWords};
ghost use Rattle.sql_query.specs.WellBound.{IsWellBound};
ghost use Rattle.store.specs.work.Kept.{IsStoreOf};

use catalog::Catalog;
use ddl_reader::{Ddl, Read, is_index, read_ddl};
use expr_reader::Cursor;
use heap::Counters;
use index_reader::{ReadIndex, read_index};
use pg_base::{Memory, Steps};
use query_reader::read_select;
use sql_grammar::Word;
use sql_lex::{Tokens, lex_statement};
use sql_query::Prepared;
use std::alloc::Global;
use store::{Store, build, fill, make};

/// The most bytes of a statement.
const MOST_BYTES: usize = 1000;

/// Makes the table of a statement, and says whether it did.
fn make_table<C: Counters>(
    alloc: Global,
    cat: &mut Catalog,
    store: &mut Store<C>,
    text: &[u8],
    tokens: &Tokens,
) -> bool
    requires short { length text.now ≤ 2 ^ 31 }
    requires words { (from : ℕ) × AreWords text.now from tokens.now }
    requires store { IsStoreOf cat.old store.old }
    ensures store { IsStoreOf cat.new store.new }
{
    let Ok(Read { ddl, .. }) = read_ddl(alloc, cat, text, tokens) else {
        return false;
    };
    match ddl {
        Ddl::Table {
            name,
            names,
            columns,
        } => make(alloc, cat, store, name, names, columns).is_ok(),
        _ => false,
    }
}

/// Makes the index of a statement, and says whether it did.
fn make_index<C: Counters>(
    alloc: Global,
    cat: &mut Catalog,
    store: &mut Store<C>,
    text: &[u8],
    tokens: &Tokens,
    reads: &mut Steps<C::Looks>,
) -> bool
    requires short { length text.now ≤ 2 ^ 31 }
    requires words { (from : ℕ) × AreWords text.now from tokens.now }
    requires store { IsStoreOf cat.old store.old }
    ensures store { IsStoreOf cat.new store.new }
{
    if !is_index(text, tokens) {
        return false;
    }
    match read_index(alloc, cat, text, tokens) {
        Ok(ReadIndex { name, def, .. }) => build(cat, store, name, def, reads).is_ok(),
        Err(_) => false,
    }
}

/// Carries out a definition, and says whether it did.
pub(crate) fn define<C: Counters>(
    alloc: Global,
    cat: &mut Catalog,
    store: &mut Store<C>,
    text: &[u8],
    reads: &mut Steps<C::Looks>,
) -> bool
    requires { IsStoreOf cat.old store.old }
    ensures { IsStoreOf cat.new store.new }
{
    if text.len() > MOST_BYTES {
        return false;
    }
    let Ok(tokens) = lex_statement(alloc, text, 0) else {
        return false;
    };
    make_index(alloc, cat, store, text, &tokens, reads)
        || make_table(alloc, cat, store, text, &tokens)
}

/// The rows of a table of two columns.
#[derive(Clone, Copy)]
pub(crate) enum Data<'a> {
    /// The rows of this text.
    Text(&'a [u8]),
    /// 1000 rows; row n, from 0, has n % 100 and n.
    Turns,
    /// 1000 rows; row n has n + 1 and n.
    Rising,
    /// 1000 rows; row n has 1000 - n and n.
    Falling,
}

/// The first value of row n.
fn first_of(data: Data, n: u32) -> u32
    requires { n ≤ 1000 }
    ensures { result ≤ 1001 }
{
    match data {
        Data::Text(_) => 0,
        Data::Turns => n % 100,
        Data::Rising => n + 1,
        Data::Falling => 1000 - n,
    }
}

/// The last four digits of a number.
fn digits(n: u32) -> [u8; 4] {
    [
        b'0' + (n / 1000 % 10) as u8,
        b'0' + (n / 100 % 10) as u8,
        b'0' + (n / 10 % 10) as u8,
        b'0' + (n % 10) as u8,
    ]
}

/// Adds the text of 1000 rows.
fn add_rows(text: &mut Vec<u8>, data: Data) -> Result<(), Memory> {
    for n in 0..1000 {
        text.extend_from_slice(&digits(first_of(data, n)))?;
        text.extend_from_slice(b",")?;
        text.extend_from_slice(&digits(n))?;
        text.extend_from_slice(b"\n")?;
    }
    Ok(())
}

/// Loads a block of data into a table, and says whether it did.
fn load<C: Counters>(
    cat: &mut Catalog,
    store: &mut Store<C>,
    table: &[u8],
    block: &[u8],
    reads: &mut Steps<C::Looks>,
) -> bool
    requires { IsStoreOf cat.old store.old }
    ensures { IsStoreOf cat.new store.new }
{
    match cat.table(table) {
        Some(t) => fill(cat, store, t, block, reads).is_ok(),
        None => false,
    }
}

/// Gives a table its rows, and says whether it did.
pub(crate) fn give<C: Counters>(
    alloc: Global,
    cat: &mut Catalog,
    store: &mut Store<C>,
    rows: (&[u8], Data),
    reads: &mut Steps<C::Looks>,
) -> bool
    requires { IsStoreOf cat.old store.old }
    ensures { IsStoreOf cat.new store.new }
{
    let (table, data) = rows;
    if let Data::Text(block) = data {
        return load(cat, store, table, block, reads);
    }
    let mut block = Vec::new(alloc);
    add_rows(&mut block, data).is_ok() && load(cat, store, table, &block, reads)
}

/// Whether the first word is SELECT.
fn is_select(text: &[u8], tokens: &Tokens) -> bool
    requires short { length text.now ≤ 2 ^ 31 }
    requires words { (from : ℕ) × AreWords text.now from tokens.now }
{
    let mut from = Cursor::new(text, tokens, 0);
    from.takes(Word::Select)
}

/// The query that a SELECT means.
pub(crate) fn query(alloc: Global, cat: &Catalog, text: &[u8]) -> Option<Prepared>
    ensures { IfSome result (IsWellBound cat.now) }
{
    if text.len() > MOST_BYTES {
        return None;
    }
    let Ok(tokens) = lex_statement(alloc, text, 0) else {
        return None;
    };
    if !is_select(text, &tokens) {
        return None;
    }
    read_select(alloc, cat, text, &tokens, 0).ok()
}
