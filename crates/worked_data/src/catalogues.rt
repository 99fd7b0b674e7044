//! The calls on a small catalogue, with ample memory. What is refused is reported with its place.

ghost use Rattle.std.specs.Prelude.{◌≡◌, ◌<◌, true, All, IfOk, OnOk, length};
ghost use Rattle.pg_base.specs.Names.{begins_name};
ghost use Rattle.pg_value.specs.declared.value.SqlType.TheVariants.{Text as TextType};
ghost use Rattle.catalog.specs.Contents.{IsTable, nothing};
ghost use Rattle.catalog.specs.work.Entries.{index_of};
ghost use Rattle.catalog.specs.Indexes.{FitsColumns};
ghost use Rattle.catalog.specs.work.Known.{statistics};
ghost use Rattle.catalog.specs.Statistics.{AreValuesOf, IsValueOf};
ghost use Rattle.catalog.specs.work.TextTables.{HasTexts, texts};

use catalog::{Catalog, CatalogFault, ColumnStats, IndexDef};
use fixtures::{columns, name, names};
use opfamily::{IndexKey, Method, OpClass};
use pg_base::{ColNo, IndexNo, Memory, TableNo};
use pg_value::{SqlType, Value};
use std::alloc::Global;

/// Adds a table of two text columns.
fn add(
    catalog: &mut Catalog,
    alloc: Global,
    table: u8,
    first: u8,
    second: u8,
) -> Result<TableNo, CatalogFault>
    requires table { begins_name table ≡ true }
    requires first { begins_name first ≡ true }
    requires second { begins_name second ≡ true }
{
    let columns = columns(alloc, &[SqlType::Text, SqlType::Text])?;
    let named = name(alloc, table)?;
    let names = names(alloc, &[first, second])?;
    catalog.add_table(named, names, columns)
}

/// Adds a table `t` of two text columns, the first one.
pub(crate) fn add_small(catalog: &mut Catalog, alloc: Global) -> Result<(), CatalogFault>
    requires { catalog.old ≡ nothing }
    ensures { OnOk result (HasTexts catalog.new) }
{
    let columns = columns(alloc, &[SqlType::Text, SqlType::Text])?;
    let named = name(alloc, b't')?;
    let names = names(alloc, b"ab")?;
    catalog.add_table(named, names, columns)?;
    Ok(())
}

/// An index of table `t` over its first column, with these in INCLUDE.
pub(crate) fn definition(
    alloc: Global,
    method: Method,
    descending: bool,
    others: &[ColNo],
) -> Result<IndexDef, Memory>
    requires few { length others.now < 3 }
    requires columns { All (λ c. c.0 < 2) others.now }
    ensures table { IfOk result (λ d. d.table.0 ≡ 0) }
    ensures fits { IfOk result (λ d. FitsColumns texts (index_of d)) }
{
    let include = Vec::from_slice(alloc, others)?;
    let mut keys = Vec::new(alloc);
    keys.push(IndexKey {
        col: ColNo(0),
        class: OpClass::TextOps,
        descending,
        nulls_first: false,
    })?;
    Ok(IndexDef {
        table: TableNo(0),
        method,
        keys,
        include,
        predicate: None,
    })
}

/// Adds such an index. Its form is its method, and whether its key descends.
pub(crate) fn index(
    catalog: &mut Catalog,
    alloc: Global,
    letter: u8,
    form: (Method, bool),
    others: &[ColNo],
) -> Result<IndexNo, CatalogFault>
    requires texts { HasTexts catalog.old }
    requires letter { begins_name letter ≡ true }
    requires few { length others.now < 3 }
    requires columns { All (λ c. c.0 < 2) others.now }
    ensures { HasTexts catalog.new }
{
    let def = definition(alloc, form.0, form.1, others)?;
    let named = name(alloc, letter)?;
    catalog.add_index(named, def)
}

/// A text of one letter.
fn text(alloc: Global, letter: u8) -> Result<Value, Memory>
    ensures { IfOk result (IsValueOf TextType) }
{
    let bytes = name(alloc, letter)?;
    Ok(Value::Text(bytes))
}

/// Adds a text with its share.
fn add_common(
    texts: &mut Vec<(Value, u32)>,
    alloc: Global,
    letter: u8,
    share: u32,
) -> Result<(), Memory>
    requires { All (λ p. IsValueOf TextType p.0) texts.old.items }
    ensures { All (λ p. IsValueOf TextType p.0) texts.new.items }
{
    let named = text(alloc, letter)?;
    texts.push((named, share))?;
    Ok(())
}

/// Adds a text.
fn add_text(texts: &mut Vec<Value>, alloc: Global, letter: u8) -> Result<(), Memory>
    requires { All (IsValueOf TextType) texts.old.items }
    ensures { All (IsValueOf TextType) texts.new.items }
{
    let named = text(alloc, letter)?;
    texts.push(named)?;
    Ok(())
}

/// Adds the texts `x`, `y` and `y`.
fn add_texts(texts: &mut Vec<Value>, alloc: Global) -> Result<(), Memory>
    requires { All (IsValueOf TextType) texts.old.items }
    ensures { All (IsValueOf TextType) texts.new.items }
{
    add_text(texts, alloc, b'x')?;
    add_text(texts, alloc, b'y')?;
    add_text(texts, alloc, b'y')
}

/// Common values of a text column with their shares, and the bounds of its histogram.
#[derive(Clone, Copy)]
pub(crate) enum Lists {
    /// None.
    Bare,
    /// `x` twice, in a part in a million each.
    Twice,
    /// `x` in all.
    Whole,
    /// `x` in a part in a million, and the bounds `x`, `y`, `y` and `x`.
    Falling,
    /// `x` in all but a part in a million, and the bounds `x`, `y` and `y`.
    Rising,
}

/// Adds values with their shares, and bounds.
fn add_lists(
    common: &mut Vec<(Value, u32)>,
    histogram: &mut Vec<Value>,
    alloc: Global,
    lists: Lists,
) -> Result<(), Memory>
    requires common { All (λ p. IsValueOf TextType p.0) common.old.items }
    requires histogram { All (IsValueOf TextType) histogram.old.items }
    ensures common { All (λ p. IsValueOf TextType p.0) common.new.items }
    ensures histogram { All (IsValueOf TextType) histogram.new.items }
{
    match lists {
        Lists::Bare => Ok(()),
        Lists::Twice => {
            add_common(common, alloc, b'x', 1)?;
            add_common(common, alloc, b'x', 1)
        }
        Lists::Whole => add_common(common, alloc, b'x', 1_000_000),
        Lists::Falling => {
            add_common(common, alloc, b'x', 1)?;
            add_texts(histogram, alloc)?;
            add_text(histogram, alloc, b'x')
        }
        Lists::Rising => {
            add_common(common, alloc, b'x', 999_999)?;
            add_texts(histogram, alloc)
        }
    }
}

/// What is said of a text column: how many values it has and its share of NULL, its common values and its histogram.
pub(crate) type Said = (u64, u32, Lists);

fn known(alloc: Global, said: Said) -> Result<ColumnStats, Memory>
    ensures { IfOk result (λ s. AreValuesOf TextType (statistics s)) }
{
    let (distinct, nulls, lists) = said;
    let (mut common, mut histogram) = (Vec::new(alloc), Vec::new(alloc));
    add_lists(&mut common, &mut histogram, alloc, lists)?;
    Ok(ColumnStats {
        distinct,
        nulls,
        common,
        histogram,
    })
}

/// Keeps what is said of the second column of table `t`.
pub(crate) fn keep(catalog: &mut Catalog, alloc: Global, said: Said) -> Result<(), CatalogFault>
    requires { HasTexts catalog.old }
    ensures { HasTexts catalog.new }
{
    let s = known(alloc, said)?;
    catalog.set_column(TableNo(0), ColNo(1), s)
}

/// Whether the column `a` of a table is its second one, of which nothing is said.
fn has_column(catalog: &Catalog, t: TableNo) -> bool
    requires { IsTable catalog.now t }
{
    match catalog.column(t, b"a") {
        Some(column) => {
            column == ColNo(1)
                && *catalog.column_name(t, column) == *b"a".as_slice()
                && catalog.stats(t, column).is_none()
        }
        None => false,
    }
}

fn size(catalog: &Catalog, t: TableNo) -> (u64, u64)
    requires { IsTable catalog.now t }
{
    (catalog.rows(t), catalog.pages(t))
}

/// Gives a table rows and pages. Why they are refused.
fn size_fault(catalog: &mut Catalog, t: TableNo, rows: u64, pages: u64) -> Option<CatalogFault>
    requires { IsTable catalog.old t }
    ensures { IsTable catalog.new t }
{
    catalog.set_rows(t, rows, pages).err()
}

/// Whether 0 rows are refused, then more pages than there may be, and most pages are taken after that.
fn are_sizes_judged(catalog: &mut Catalog, t: TableNo) -> bool
    requires { IsTable catalog.old t }
    ensures { IsTable catalog.new t }
{
    let none = size_fault(catalog, t, 0, 0) == Some(CatalogFault::BadNumber(0));
    let over = size_fault(catalog, t, 1, 1_000_000_001) == Some(CatalogFault::BadNumber(1));
    none && over && size_fault(catalog, t, 7, 1_000_000_000).is_none()
}

/// Whether a table has the size of one without rows, then of 101 rows, and then the one that it is given.
fn is_sized(catalog: &mut Catalog, t: TableNo) -> bool
    requires { IsTable catalog.old t }
{
    let bare = size(catalog, t) == (1, 1);
    catalog.set_loaded(t, 101);
    let loaded = size(catalog, t) == (101, 2);
    let given = are_sizes_judged(catalog, t);
    bare && loaded && given && size(catalog, t) == (7, 1_000_000_000)
}

/// Whether table `u` is the second one, and there is no table `a`.
fn has_second(catalog: &mut Catalog) -> bool {
    match catalog.table(b"u") {
        Some(t) => {
            t == TableNo(1)
                && catalog.table(b"a").is_none()
                && has_column(catalog, t)
                && is_sized(catalog, t)
        }
        None => false,
    }
}

/// Whether a table is added by a number.
fn is_added(added: Result<TableNo, CatalogFault>, number: u8) -> bool {
    match added {
        Ok(t) => t == TableNo(number),
        Err(_) => false,
    }
}

/// Whether a second table `t` is refused, and one whose columns have one name.
fn are_refused(catalog: &mut Catalog, alloc: Global) -> bool {
    add(catalog, alloc, b't', b'b', b'b') == Err(CatalogFault::NameTaken)
        && add(catalog, alloc, b'u', b'b', b'b') == Err(CatalogFault::ColumnTwice(1))
}

/// Whether a catalogue takes tables `t` and `u`, the first and the second one, and what it then has of `u`.
fn has_tables(catalog: &mut Catalog, alloc: Global) -> bool {
    is_added(add(catalog, alloc, b't', b'a', b'b'), 0)
        && are_refused(catalog, alloc)
        && is_added(add(catalog, alloc, b'u', b'b', b'a'), 1)
        && has_second(catalog)
}

/// Whether index `i` is the first one, of one key, and there is no index `t`.
fn has_first(catalog: &Catalog) -> bool {
    match catalog.index_named(b"i") {
        Some(i) => {
            i == IndexNo(0)
                && catalog.index_named(b"t").is_none()
                && *catalog.index_name(i) == *b"i".as_slice()
                && catalog.index(i).keys.len() == 1
        }
        None => false,
    }
}

/// Whether indexes are refused: one with the name of table `t`, one with a column twice, and a hash index that descends.
fn are_indexes_refused(catalog: &mut Catalog, alloc: Global) -> bool
    requires { HasTexts catalog.old }
    ensures { HasTexts catalog.new }
{
    let rising = (Method::Btree, false);
    let named = index(catalog, alloc, b't', rising, &[]);
    let twice = index(catalog, alloc, b'i', rising, &[ColNo(1), ColNo(1)]);
    let falling = index(catalog, alloc, b'i', (Method::Hash, true), &[]);
    named == Err(CatalogFault::NameTaken)
        && twice == Err(CatalogFault::ColumnTwice(2))
        && falling == Err(CatalogFault::BadNumber(0))
}

/// Adds index `i`, which descends and has the second column in INCLUDE.
pub(crate) fn add_first(catalog: &mut Catalog, alloc: Global) -> Result<IndexNo, CatalogFault>
    requires { HasTexts catalog.old }
    ensures { HasTexts catalog.new }
{
    index(catalog, alloc, b'i', (Method::Btree, true), &[ColNo(1)])
}

/// Whether index `i` is added as the first one after others were refused, and no table has its name then.
fn is_indexed(catalog: &mut Catalog, alloc: Global) -> bool
    requires { HasTexts catalog.old }
{
    let refused = are_indexes_refused(catalog, alloc);
    let added = add_first(catalog, alloc) == Ok(IndexNo(0));
    refused
        && added
        && add(catalog, alloc, b'i', b'a', b'b') == Err(CatalogFault::NameTaken)
        && has_first(catalog)
}

/// Why what is said of the second column is refused.
fn said_fault(catalog: &mut Catalog, alloc: Global, said: Said) -> Option<CatalogFault>
    requires { HasTexts catalog.old }
    ensures { HasTexts catalog.new }
{
    keep(catalog, alloc, said).err()
}

/// Whether statistics are refused: no values, a common value twice, shares past the whole, and bounds that fall.
fn are_said_refused(catalog: &mut Catalog, alloc: Global) -> bool
    requires { HasTexts catalog.old }
    ensures { HasTexts catalog.new }
{
    let none = said_fault(catalog, alloc, (0, 0, Lists::Bare));
    let twice = said_fault(catalog, alloc, (3, 0, Lists::Twice));
    let over = said_fault(catalog, alloc, (3, 1, Lists::Whole));
    let falling = said_fault(catalog, alloc, (3, 0, Lists::Falling));
    none == Some(CatalogFault::BadNumber(0))
        && twice == Some(CatalogFault::BadNumber(4))
        && over == Some(CatalogFault::BadNumber(3))
        && falling == Some(CatalogFault::BadNumber(7))
}

/// Whether statistics are refused, and lawful ones taken after that.
fn is_known(catalog: &mut Catalog, alloc: Global) -> bool
    requires { HasTexts catalog.old }
{
    are_said_refused(catalog, alloc) && said_fault(catalog, alloc, (3, 1, Lists::Rising)).is_none()
}

/// What is tried of a catalogue.
#[derive(Clone, Copy)]
enum Trial {
    Tables,
    Indexes,
    Statistics,
}

/// Whether it holds of a catalogue without tables, which is given table `t` first for indexes and for statistics.
fn holds(catalog: &mut Catalog, alloc: Global, trial: Trial) -> bool
    requires { catalog.old ≡ nothing }
{
    match trial {
        Trial::Tables => has_tables(catalog, alloc),
        Trial::Indexes => add_small(catalog, alloc).is_ok() && is_indexed(catalog, alloc),
        Trial::Statistics => add_small(catalog, alloc).is_ok() && is_known(catalog, alloc),
    }
}

/// Whether it holds of a catalogue of its own.
fn is_tried(alloc: Global, trial: Trial) -> bool {
    let mut catalog = Catalog::new(alloc);
    holds(&mut catalog, alloc, trial)
}

#[test]
fn tables(rt: HostRuntime) {
    assert!(rt; is_tried(rt.alloc(), Trial::Tables));
}

#[test]
fn indexes(rt: HostRuntime) {
    assert!(rt; is_tried(rt.alloc(), Trial::Indexes));
}

#[test]
fn statistics_of_columns(rt: HostRuntime) {
    assert!(rt; is_tried(rt.alloc(), Trial::Statistics));
}
