//! A table of two text columns, with an index of each kind on its first column.

ghost use Rattle.std.specs.Prelude.{◌≡◌, true, IfOk};
ghost use Rattle.pg_base.specs.Names.{begins_name};
ghost use Rattle.catalog.specs.work.Entries.{index_of};
ghost use Rattle.catalog.specs.Indexes.{FitsColumns};
ghost use Rattle.catalog.specs.work.TextTables.{HasTexts, texts};

use catalog::{Catalog, CatalogFault, IndexDef};
use fixtures::{columns, name, names};
use opfamily::{IndexKey, Method, OpClass};
use pg_base::{ColNo, Memory, TableNo};
use pg_expr::{Binding, ColRef};
use pg_value::{SqlType, Value};
use std::alloc::Global;

/// Columns of type text.
#[derive(Drop)]
pub(crate) struct Texts {
    pub(crate) value: Value,
}

impl Binding for Texts {
    ghost use Rattle.std.specs.Prelude.{true};
    ghost use Rattle.pg_value.specs.declared.value.SqlType.TheVariants.{Text};

    ghost binds = { λ r c. true };

    ghost value_at = { λ r c. r.value };

    ghost type_of = { λ r c. Text };

    fn value(&self, _c: ColRef) -> &Value {
        &self.value
    }

    fn typed(&self, _c: ColRef) -> SqlType {
        SqlType::Text
    }
}

/// A catalogue of one table `t` of two text columns.
fn small(alloc: Global) -> Result<Catalog, CatalogFault>
    ensures { IfOk result HasTexts }
{
    let named = name(alloc, b't')?;
    let names = names(alloc, b"ab")?;
    let columns = columns(alloc, &[SqlType::Text, SqlType::Text])?;
    let mut cat = Catalog::new(alloc);
    cat.add_table(named, names, columns)?;
    Ok(cat)
}

/// An index of table `t` over its first column.
fn definition(alloc: Global, method: Method) -> Result<IndexDef, Memory>
    ensures table { IfOk result (λ d. d.table.0 ≡ 0) }
    ensures fits { IfOk result (λ d. FitsColumns texts (index_of d)) }
{
    let mut keys = Vec::new(alloc);
    keys.push(IndexKey {
        col: ColNo(0),
        class: OpClass::TextOps,
        descending: false,
        nulls_first: false,
    })?;
    Ok(IndexDef {
        table: TableNo(0),
        method,
        keys,
        include: Vec::new(alloc),
        predicate: None,
    })
}

/// Adds an index of table `t`.
fn add_index(
    cat: &mut Catalog,
    alloc: Global,
    letter: u8,
    method: Method,
) -> Result<(), CatalogFault>
    requires table { HasTexts cat.old }
    requires letter { begins_name letter ≡ true }
    ensures { HasTexts cat.new }
{
    let def = definition(alloc, method)?;
    let named = name(alloc, letter)?;
    cat.add_index(named, def)?;
    Ok(())
}

/// Adds a B-tree, of number 0, and a hash index, of number 1.
fn add_both(cat: &mut Catalog, alloc: Global) -> Result<(), CatalogFault>
    requires { HasTexts cat.old }
    ensures { HasTexts cat.new }
{
    add_index(cat, alloc, b'i', Method::Btree)?;
    add_index(cat, alloc, b'h', Method::Hash)
}

/// The table with a B-tree, of number 0, and a hash index, of number 1.
pub(crate) fn indexed(alloc: Global) -> Result<Catalog, CatalogFault>
    ensures { IfOk result HasTexts }
{
    let mut cat = small(alloc)?;
    add_both(&mut cat, alloc)?;
    Ok(cat)
}
