//! The types of a query's columns.

ghost use Rattle.std.specs.Prelude.{◌≡◌, All, IfOk, map};
ghost use Rattle.catalog.specs.Range.{IsRange, type_in};
ghost use Rattle.sql_query.specs.WellBound.{IsColumnOf};

use catalog::{Catalog, RangeTable};
use pg_base::Memory;
use pg_expr::ColRef;
use pg_value::SqlType;
use std::alloc::Global;

/// The types of columns of the relations of a query. The error means out of memory.
pub(crate) fn types_of(
    alloc: Global,
    cat: &Catalog,
    range: &RangeTable,
    columns: &[ColRef],
) -> Result<Vec<SqlType>, Memory>
    requires range { IsRange cat.now range.now }
    requires columns { All (IsColumnOf cat.now range.now) columns.now }
    ensures { IfOk result (λ types. types.items ≡ map (type_in cat.now range.now) columns.now) }
{
    let mut types = Vec::new(alloc);
    for column in columns {
        types.push(type_of(cat, range, *column))?;
    }
    Ok(types)
}

/// The type of a column of a relation of a query.
pub fn type_of(cat: &Catalog, range: &RangeTable, x: ColRef) -> SqlType
    requires range { IsRange cat.now range.now }
    requires column { IsColumnOf cat.now range.now x }
    ensures { result ≡ type_in cat.now range.now x }
{
    let (table, _) = &range.items()[x.rel.0 as usize];
    cat.columns(*table).items()[x.col.0 as usize].typed
}
