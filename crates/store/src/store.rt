//! The store of a catalogue.

ghost use Rattle.std.specs.Prelude.{◌≡◌, ◌≢◌, ◌≤◌, ◌<◌, ◌+◌, ◌-◌, ◌*◌, Err, IfErr, IfOk, Ok, OnErr, OnOk, Some, length, map, slice_get, slice_set};
ghost use Rattle.catalog.specs.Contents.{IsTable, with_loaded};
ghost use Rattle.catalog.specs.work.Contents.{IsLastIndex, indexes_before};
ghost use Rattle.heap.specs.work.Loading.{NamesColumnOf};
ghost use Rattle.store.specs.work.Kept.{IsStoreOf, IsWithinLoad, cut_back, index_count, indexed_rows, loaded_block, nothing_kept, row_count, stored_of, with_heap};
ghost use Rattle.store.specs.work.View.{built};
ghost use Rattle.store.specs.work.Growth.{built_with, built_without, grown_rows, grown_table, growth_looks};

use crate::built::BuiltIndex;
use catalog::Catalog;
use heap::{CopyFault, Counters, Heap, Heaps};
use pg_base::{IndexNo, Memory, Steps, TableNo};
use std::alloc::{AllocError, Global};
use std::marker::Model;

/// The rows of each table, and each index built over those of its table, in order of making. Contracts see a `Kept`, and
/// say by `IsStoreOf` of which catalogue it is. Rows are looked at only while indexes are built and kept.
pub struct Store<C: Counters> {
    alloc: Global,
    heaps: Heaps<C>,
    indexes: Vec<BuiltIndex<C>>,
}

impl<C: Counters> Drop for Store<C> {
    fn drop(self) {
        let Store {
            alloc: _,
            heaps: _,
            indexes: _,
        } = self;
    }
}

impl<C: Counters> Model for Store<C> {
    ghost use Rattle.std.specs.Prelude.{map};
    ghost use Rattle.store.specs.work.Kept.{Kept};
    ghost use Rattle.store.specs.work.View.{built};

    ghost Value = { Kept };

    ghost view = { λ s. record { stored = s.heaps; built = map built s.indexes.items } };
}

impl<C: Counters> Store<C> {
    /// A store of no table.
    pub fn new(alloc: Global) -> Store<C>
        ensures { result ≡ nothing_kept }
    {
        Store {
            alloc,
            heaps: Heaps::new(alloc),
            indexes: Vec::new(alloc),
        }
    }

    /// Puts the heap of a new table at the end. The only error is out of memory, and then all is as before.
    pub fn add_heap(&mut self, h: Heap<C>) -> Result<(), Memory>
        ensures added { OnOk result (self.new ≡ with_heap self.old h) }
        ensures refused { OnErr result (self.new ≡ self.old) }
    {
        self.heaps.add(h)
    }

    /// Builds the last index of the catalogue, which the store lacks. Each row of its table is looked at once. The only error
    /// is out of memory, and then all is as before.
    pub fn add_index(
        &mut self,
        cat: &Catalog,
        i: IndexNo,
        looks: &mut Steps<C::Looks>,
    ) -> Result<(), Memory>
        requires last { IsLastIndex cat.now i }
        requires store { IsStoreOf (indexes_before cat.now i) self.old }
        ensures store { OnOk result (IsStoreOf cat.now self.new) }
        ensures stored { self.new.stored ≡ self.old.stored }
        ensures refused { OnErr result (self.new ≡ self.old) }
        ensures looks { OnOk result (looks.new ≡ looks.old + indexed_rows cat.now self.old i) }
        ensures fewer { looks.new ≤ looks.old + indexed_rows cat.now self.old i }
    {
        let def = cat.index(i);
        let heap = self.heaps.get(def.table);
        let index = BuiltIndex::over(self.alloc, def, heap, looks)?;
        self.indexes.push(index)?;
        Ok(())
    }

    /// Loads a block of COPY data into a table, as `Heap::load` does, and adds the new rows to each index of the table.
    /// The answer is how many rows; each is looked at once for each index. A refused load leaves all as before.
    pub fn load(
        &mut self,
        cat: &Catalog,
        t: TableNo,
        block: &[u8],
        looks: &mut Steps<C::Looks>,
    ) -> Result<u32, CopyFault>
        requires table { IsTable cat.now t }
        requires store { IsStoreOf cat.now self.old }
        ensures rows { OnOk result (loaded_block self.old t block.now ≡ Ok (stored_of self.new t)) }
        ensures others { self.new.stored ≡ slice_set self.old.stored t.0 (stored_of self.new t) }
        ensures count { IfOk result (λ n. row_count self.new t ≡ row_count self.old t + n) }
        ensures store { OnOk result
            (IsStoreOf (with_loaded cat.now t (row_count self.new t)) self.new) }
        ensures fault { IfErr result (λ e.
            e ≢ CopyFault.Memory → loaded_block self.old t block.now ≡ Err e) }
        ensures field { IfErr result (NamesColumnOf (stored_of self.old t).columns) }
        ensures refused { OnErr result (self.new ≡ self.old) }
        ensures looks { IfOk result (λ n. looks.new ≡ looks.old + index_count cat.now t * n) }
        ensures unread { IfErr result (λ e. e ≢ CopyFault.Memory → looks.new ≡ looks.old) }
        ensures fewer { OnErr result
            (IsWithinLoad cat.now self.old t block.now looks.old looks.new) }
    {
        let before = self.heaps.get(t).len();
        let count = self.heaps.get_mut(t).load(block)?;
        let rows = NewRows {
            alloc: self.alloc,
            cat,
            heaps: &self.heaps,
            table: t,
            before,
        };
        if grow(&rows, &mut self.indexes, looks).is_err() {
            self.heaps.get_mut(t).cut(before);
            return Err(CopyFault::Memory);
        }
        Ok(count)
    }

    /// The heaps of all tables.
    pub fn heaps(&self) -> &Heaps<C>
        ensures { result.now ≡ self.now.stored }
    {
        &self.heaps
    }

    /// The heap of a table.
    pub fn heap(&self, t: TableNo) -> &Heap<C>
        requires { t.0 < length self.now.stored }
        ensures { slice_get self.now.stored t.0 ≡ Some result.now }
    {
        self.heaps.get(t)
    }

    /// A built index.
    pub fn index(&self, i: IndexNo) -> &BuiltIndex<C>
        requires { i.0 < length self.now.built }
        ensures { slice_get self.now.built i.0 ≡ Some (built result.now) }
    {
        &self.indexes[i.0 as usize]
    }
}

/// The rows of a table from number `before` on, which its indexes lack.
#[derive(Drop)]
struct NewRows<'a, C: Counters> {
    alloc: Global,
    cat: &'a Catalog,
    heaps: &'a Heaps<C>,
    table: TableNo,
    before: u32,
}

/// Adds these rows to each index of their table, which lacks them. If memory runs out, the indexes are as before.
fn grow<C: Counters>(
    rows: &NewRows<C>,
    indexes: &mut Vec<BuiltIndex<C>>,
    looks: &mut Steps<C::Looks>,
) -> Result<(), Memory>
    requires table { rows.now.table.0 < length rows.now.heaps.now }
    requires columns { (grown_rows rows.now).columns ≡ (grown_table rows.now).columns }
    requires before { rows.now.before ≤ length (grown_rows rows.now).rows }
    requires built { map built indexes.old.items ≡ built_without rows.now }
    ensures built { OnOk result (map built indexes.new.items ≡ built_with rows.now) }
    ensures refused { OnErr result (map built indexes.new.items ≡ map built indexes.old.items) }
    ensures looks { OnOk result (looks.new ≡ looks.old + growth_looks rows.now) }
    ensures fewer { looks.new ≤ looks.old + growth_looks rows.now }
{
    rows.cat.lawful();
    for n in 0..indexes.len() {
        let def = rows.cat.index(IndexNo(n as u16));
        if def.table.0 != rows.table.0 {
            continue;
        }
        let heap = rows.heaps.get(rows.table);
        let index = &mut indexes[n];
        if index
            .add_rows(rows.alloc, def, heap, rows.before, looks)
            .is_err()
        {
            shrink(rows.cat, rows.table, rows.before, indexes);
            return Err(AllocError);
        }
    }
    Ok(())
}

/// Takes the rows of a table from number `before` on out of its indexes.
fn shrink<C: Counters>(cat: &Catalog, t: TableNo, before: u32, indexes: &mut Vec<BuiltIndex<C>>)
    requires { length indexes.old.items ≡ length cat.now.indexes }
    ensures { map built indexes.new.items ≡
        cut_back t before cat.now.indexes (map built indexes.old.items) }
{
    cat.lawful();
    for n in 0..indexes.len() {
        if cat.index(IndexNo(n as u16)).table.0 != t.0 {
            continue;
        }
        let index = &mut indexes[n];
        index.cut(before);
    }
}
