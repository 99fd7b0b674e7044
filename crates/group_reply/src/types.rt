//! The types of what a grouped query shows.

ghost use Rattle.std.specs.Prelude.{◌≡◌, All, IfOk};
ghost use Rattle.catalog.specs.Range.{IsRange};
ghost use Rattle.sql_query.specs.WellBound.{IsColumnOf};
ghost use Rattle.group_reply.specs.Replies.{item_type, item_types};
ghost use Rattle.group_reply.specs.work.Columns.{IsItemIn};

use catalog::{Catalog, RangeTable};
use group_explain::reply::type_of;
use pg_base::Memory;
use pg_expr::ColRef;
use pg_value::SqlType;
use sql_query::Item;
use std::alloc::Global;

/// The types of what items show, in a query of these relations and GROUP BY columns. The error means out of memory.
pub(crate) fn item_types(
    alloc: Global,
    cat: &Catalog,
    range: &RangeTable,
    keys: &[ColRef],
    items: &[Item],
) -> Result<Vec<SqlType>, Memory>
    requires range { IsRange cat.now range.now }
    requires keys { All (IsColumnOf cat.now range.now) keys.now }
    requires items { All (IsItemIn cat.now range.now keys.now) items.now }
    ensures { IfOk result (λ types.
        types.items ≡ item_types cat.now range.now keys.now items.now) }
{
    let mut types = Vec::new(alloc);
    for item in items {
        types.push(item_type(cat, range, keys, *item))?;
    }
    Ok(types)
}

/// The type of what an item shows.
fn item_type(cat: &Catalog, range: &RangeTable, keys: &[ColRef], item: Item) -> SqlType
    requires range { IsRange cat.now range.now }
    requires keys { All (IsColumnOf cat.now range.now) keys.now }
    requires item { IsItemIn cat.now range.now keys.now item }
    ensures { result ≡ item_type cat.now range.now keys.now item }
{
    match item {
        Item::Key(n) => type_of(cat, range, keys[n as usize]),
        Item::CountAll => SqlType::Int8,
        Item::Count(_) => SqlType::Int8,
        Item::Min(x) => type_of(cat, range, x),
        Item::Max(x) => type_of(cat, range, x),
    }
}
