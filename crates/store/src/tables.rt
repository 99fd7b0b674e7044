//! Tables and indexes: their definitions in the catalogue, and beside them the store with the rows and the built indexes.

ghost use Rattle.std.specs.Prelude.{◌≡◌, ◌≢◌, ◌≤◌, ◌+◌, All, IfErr, Ok, Err, OnErr, OnOk, length};
ghost use Rattle.catalog.specs.Contents.{IsTable, table_at};
ghost use Rattle.catalog.specs.work.Entries.{index_of};
ghost use Rattle.pg_base.specs.Names.{IsName};
ghost use Rattle.catalog.specs.Tables.{IsAcceptable, IsAcceptableIndex, IsIndexRefusal, IsRefusal};
ghost use Rattle.catalog.specs.work.Tables.{Fits};
ghost use Rattle.heap.specs.work.Loading.{NamesColumnOf};
ghost use Rattle.heap.specs.Stored.{Stored};
ghost use Rattle.store.specs.Kept.{load_looks};
ghost use Rattle.store.specs.work.Kept.{IsStoreOf, IsWithinLoad, loaded_block, row_count, stored_of};
ghost use Rattle.store.specs.Actions as actions;
ghost use Rattle.store.specs.work.Actions as actions_work;

use crate::Store;
use catalog::{Catalog, CatalogFault, IndexDef};
use heap::{CopyFault, Counters, Heap};
use pg_base::{Steps, TableNo};
use pg_value::{Bytes, Columns};
use std::alloc::Global;

/// Makes a table without rows. What is refused changes nothing.
pub fn make<C: Counters>(
    alloc: Global,
    catalog: &mut Catalog,
    store: &mut Store<C>,
    name: Bytes,
    names: Vec<Bytes>,
    columns: Columns,
) -> Result<(), CatalogFault>
    requires store { IsStoreOf catalog.old store.old }
    requires width { length names.items ≡ length columns }
    requires name { IsName name }
    requires names { All IsName names.items }
    ensures accepted { OnOk result (IsAcceptable catalog.old name names.items) }
    ensures made { OnOk result
        (actions_work.IsWorldAfter (actions.make name names.items columns)
        catalog.old store.old catalog.new store.new) }
    ensures store { IsStoreOf catalog.new store.new }
    ensures cause { IfErr result (λ e.
        e ≢ CatalogFault.Memory → IsRefusal catalog.old name names.items e) }
    ensures unchanged { OnErr result ((catalog.new ≡ catalog.old) × (store.new ≡ store.old)) }
{
    catalog.lawful();
    let stored = Columns::from_vec(Vec::from_slice(alloc, columns.items())?);
    let table = catalog.add_table(name, names, columns)?;
    if store.add_heap(Heap::new(alloc, stored)).is_err() {
        catalog.take_back_table(table);
        return Err(CatalogFault::Memory);
    }
    Ok(())
}

/// Makes an index, built over the rows of its table, each of which is looked at once. What is refused changes nothing, and
/// rows are looked at only where the catalogue accepts the index.
pub fn build<C: Counters>(
    catalog: &mut Catalog,
    store: &mut Store<C>,
    name: Bytes,
    def: IndexDef,
    reads: &mut Steps<C::Looks>,
) -> Result<(), CatalogFault>
    requires store { IsStoreOf catalog.old store.old }
    requires name { IsName name }
    requires fits { Fits catalog.old (index_of def) }
    ensures accepted { OnOk result (IsAcceptableIndex catalog.old name (index_of def)) }
    ensures built { OnOk result
        (actions_work.IsWorldAfter (actions.build name (index_of def))
        catalog.old store.old catalog.new store.new) }
    ensures store { IsStoreOf catalog.new store.new }
    ensures cause { IfErr result (IsIndexRefusal catalog.old name (index_of def)) }
    ensures unchanged { OnErr result ((catalog.new ≡ catalog.old) × (store.new ≡ store.old)) }
    ensures looks { reads.new ≤ reads.old + row_count store.old (index_of def).table }
    ensures unread { IfErr result (λ e. e ≢ CatalogFault.Memory → reads.new ≡ reads.old) }
{
    let index = catalog.add_index(name, def)?;
    if store.add_index(catalog, index, reads).is_err() {
        catalog.take_back_index(index);
        return Err(CatalogFault::Memory);
    }
    Ok(())
}

/// Appends the rows of a block of COPY data to a table, and to each of its indexes. Data with an error change nothing.
pub fn fill<C: Counters>(
    catalog: &mut Catalog,
    store: &mut Store<C>,
    table: TableNo,
    block: &[u8],
    reads: &mut Steps<C::Looks>,
) -> Result<(), CopyFault>
    requires store { IsStoreOf catalog.old store.old }
    requires table { IsTable catalog.old table }
    ensures filled { OnOk result ((s : Stored) × (loaded_block store.old table block.now ≡ Ok s) ×
        actions_work.IsWorldAfter (actions.fill table s) catalog.old store.old catalog.new store.new ×
        (reads.new ≡ reads.old + load_looks catalog.old table (stored_of store.old table) s)) }
    ensures store { IsStoreOf catalog.new store.new }
    ensures fault { IfErr result (λ e.
        e ≢ CopyFault.Memory → loaded_block store.old table block.now ≡ Err e) }
    ensures field { IfErr result (NamesColumnOf (table_at catalog.old table).columns) }
    ensures unchanged { OnErr result ((catalog.new ≡ catalog.old) × (store.new ≡ store.old)) }
    ensures unread { IfErr result (λ e. e ≢ CopyFault.Memory → reads.new ≡ reads.old) }
    ensures fewer { OnErr result
        (IsWithinLoad catalog.old store.old table block.now reads.old reads.new) }
{
    store.load(catalog, table, block, reads)?;
    let rows = store.heap(table).len();
    catalog.set_loaded(table, rows);
    Ok(())
}
