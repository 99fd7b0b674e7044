//! The tables that statements are read over.

ghost use Rattle.std.specs.Prelude.{◌≡◌, true};
ghost use Rattle.pg_base.specs.Names.{begins_name};

use catalog::{Catalog, CatalogFault};
use fixtures::{columns, name, names};
use pg_base::TableNo;
use pg_value::SqlType;
use std::alloc::Global;

/// The table a, of b, t and f.
pub(crate) fn one_table(alloc: Global) -> Result<Catalog, CatalogFault> {
    let named = name(alloc, b'a')?;
    let names = names(alloc, b"btf")?;
    let types = columns(alloc, &[SqlType::Int4, SqlType::Text, SqlType::Bool])?;
    let mut catalog = Catalog::new(alloc);
    catalog.add_table(named, names, types)?;
    Ok(catalog)
}

/// The table v, of c, a column of this type.
pub(crate) fn one_column(alloc: Global, t: SqlType) -> Result<Catalog, CatalogFault> {
    let named = name(alloc, b'v')?;
    let names = names(alloc, b"c")?;
    let types = columns(alloc, &[t])?;
    let mut catalog = Catalog::new(alloc);
    catalog.add_table(named, names, types)?;
    Ok(catalog)
}

/// Adds a table of two int4 columns, each name of one letter.
fn add(
    catalog: &mut Catalog,
    alloc: Global,
    table: u8,
    first: u8,
    second: u8,
) -> Result<TableNo, CatalogFault>
    requires table { begins_name table ≡ true }
    requires first { begins_name first ≡ true }
    requires second { begins_name second ≡ true }
{
    let named = name(alloc, table)?;
    let names = names(alloc, &[first, second])?;
    let columns = columns(alloc, &[SqlType::Int4, SqlType::Int4])?;
    catalog.add_table(named, names, columns)
}

/// Adds the tables t, of a and b, and s, of c and d.
fn add_two(catalog: &mut Catalog, alloc: Global) -> Result<(), CatalogFault> {
    add(catalog, alloc, b't', b'a', b'b')?;
    add(catalog, alloc, b's', b'c', b'd')?;
    Ok(())
}

/// The tables t, of a and b, and s, of c and d.
pub(crate) fn two_tables(alloc: Global) -> Result<Catalog, CatalogFault> {
    let mut catalog = Catalog::new(alloc);
    add_two(&mut catalog, alloc)?;
    Ok(catalog)
}
