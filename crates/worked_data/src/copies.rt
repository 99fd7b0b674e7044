//! Copies of definitions, and what a change of a copy leaves.

ghost use Rattle.std.specs.Prelude.{◌≡◌};
ghost use Rattle.catalog.specs.Contents.{IsTable, nothing};
ghost use Rattle.catalog.specs.work.TextTables.{HasTexts};

use crate::catalogues::{Lists, add_first, add_small, definition, keep};
use catalog::{Catalog, CatalogFault, ColumnStats, IndexDef};
use opfamily::Method;
use pg_base::{ColNo, Memory, RelNo, TableNo};
use pg_expr::{ColRef, Expr, is_same};
use pg_value::Value;
use std::alloc::Global;

/// Gives table `t` rows, an index, and what is said of its second column.
fn describe(catalog: &mut Catalog, alloc: Global) -> Result<(), CatalogFault>
    requires { HasTexts catalog.old }
{
    add_first(catalog, alloc)?;
    keep(catalog, alloc, (3, 1, Lists::Rising))?;
    catalog.set_loaded(TableNo(0), 101);
    Ok(())
}

fn is_same_text(a: &Value, b: &Value) -> bool {
    match (a, b) {
        (Value::Text(a), Value::Text(b)) => a.items() == b.items(),
        _ => false,
    }
}

fn are_same_texts(a: &[Value], b: &[Value]) -> bool {
    a.len() == b.len() && a.iter().zip(b).all(|(a, b)| is_same_text(a, b))
}

fn are_same_common(a: &[(Value, u32)], b: &[(Value, u32)]) -> bool {
    a.len() == b.len()
        && a.iter()
            .zip(b)
            .all(|(a, b)| is_same_text(&a.0, &b.0) && a.1 == b.1)
}

fn are_same_stats(a: Option<&ColumnStats>, b: Option<&ColumnStats>) -> bool {
    match (a, b) {
        (Some(a), Some(b)) => {
            (a.distinct, a.nulls) == (b.distinct, b.nulls)
                && are_same_common(&a.common, &b.common)
                && are_same_texts(&a.histogram, &b.histogram)
        }
        (None, None) => true,
        _ => false,
    }
}

/// A table of a catalogue.
type Place<'a> = (&'a Catalog, TableNo);

/// Whether a table has the same names, sizes and indexes in both.
fn is_same_table(a: Place, b: Place) -> bool
    requires first { IsTable a.0.now a.1 }
    requires second { IsTable b.0.now b.1 }
{
    let ((a, t), (b, u)) = (a, b);
    a.table_name(t) == b.table_name(u)
        && a.columns(t).items() == b.columns(u).items()
        && (a.rows(t), a.pages(t)) == (b.rows(u), b.pages(u))
        && a.indexes(t) == b.indexes(u)
}

/// Whether the same is known of a column in both.
fn is_same_column(a: Place, b: Place, name: &[u8]) -> bool
    requires first { IsTable a.0.now a.1 }
    requires second { IsTable b.0.now b.1 }
{
    let ((a, t), (b, u)) = (a, b);
    match (a.column(t, name), b.column(u, name)) {
        (Some(c), Some(d)) => c == d && are_same_stats(a.stats(t, c), b.stats(u, d)),
        _ => false,
    }
}

/// Whether table `t` is the same in both.
fn has_same_table(a: &Catalog, b: &Catalog) -> bool {
    match (a.table(b"t"), b.table(b"t")) {
        (Some(t), Some(u)) => {
            t == u
                && is_same_table((a, t), (b, u))
                && is_same_column((a, t), (b, u), b"a")
                && is_same_column((a, t), (b, u), b"b")
        }
        _ => false,
    }
}

/// Whether table `t` of a copy takes another number of rows alone.
fn is_apart(a: &Catalog, b: &mut Catalog) -> bool {
    match (a.table(b"t"), b.table(b"t")) {
        (Some(t), Some(u)) => {
            b.set_loaded(u, 7);
            (a.rows(t), b.rows(u)) == (101, 7)
        }
        _ => false,
    }
}

/// Whether both have the index `i` with the same definition.
fn is_same_index(a: &Catalog, b: &Catalog) -> bool {
    match (a.index_named(b"i"), b.index_named(b"i")) {
        (Some(i), Some(j)) => is_same_definition(a.index(i), b.index(j)),
        _ => false,
    }
}

fn is_same_definition(a: &IndexDef, b: &IndexDef) -> bool {
    a.table == b.table
        && a.method == b.method
        && a.keys.as_slice() == b.keys.as_slice()
        && a.include.as_slice() == b.include.as_slice()
        && are_same_predicates(&a.predicate, &b.predicate)
}

fn are_same_predicates(a: &Option<Expr>, b: &Option<Expr>) -> bool {
    match (a, b) {
        (Some(a), Some(b)) => is_same(a, b),
        (None, None) => true,
        _ => false,
    }
}

/// Whether a copy has the same contents, and other ones after a change of it alone.
fn is_copy(a: &Catalog, b: &mut Catalog) -> bool {
    has_same_table(a, b) && is_same_index(a, b) && is_apart(a, b)
}

fn has_copy(catalog: &Catalog, alloc: Global) -> bool {
    match catalog.copy(alloc) {
        Ok(mut copied) => is_copy(catalog, &mut copied),
        Err(_) => false,
    }
}

/// Describes table `t`, the only one. Whether a copy is then as it should be.
fn is_copied(catalog: &mut Catalog, alloc: Global) -> bool
    requires { catalog.old ≡ nothing }
{
    match add_small(catalog, alloc) {
        Ok(()) => describe(catalog, alloc).is_ok() && has_copy(catalog, alloc),
        Err(_) => false,
    }
}

#[test]
fn a_copy_has_the_same_contents(rt: HostRuntime) {
    let mut catalog = Catalog::new(rt.alloc());
    assert!(rt; is_copied(&mut catalog, rt.alloc()));
}

/// An index of the rows whose second column is not NULL.
fn partial(alloc: Global) -> Result<IndexDef, Memory> {
    let mut def = definition(alloc, Method::Btree, true, &[ColNo(1)])?;
    def.predicate = Some(Expr::IsNotNull(ColRef {
        rel: RelNo(0),
        col: ColNo(1),
    }));
    Ok(def)
}

#[test]
fn a_copy_of_a_definition_is_the_same(rt: HostRuntime) {
    let def = partial(rt.alloc()).expect(&rt, "ample memory");
    let copied = def.copy(rt.alloc()).expect(&rt, "ample memory");
    assert!(rt; is_same_definition(&def, &copied) && copied.predicate.is_some());
}
