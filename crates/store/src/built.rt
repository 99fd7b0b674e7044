//! Indexes as they are built.

ghost use Rattle.std.specs.Prelude.{◌≡◌, ◌≤◌, ◌+◌, ◌-◌, [], IfOk, List, OnErr, OnOk, length, take};
ghost use Rattle.pg_value.specs.declared.columns.Column.{Column};
ghost use Rattle.catalog.specs.work.Entries.{index_of};
ghost use Rattle.catalog.specs.Indexes.{IsLawfulIndex};
ghost use Rattle.store.specs.work.Kept.{below, built_of};
ghost use Rattle.store.specs.work.View.{built};

use crate::entries::{entries_from, hashed_from};
use btree_index::BTree;
use catalog::IndexDef;
use hash_index::HashIndex;
use heap::{Counters, Heap};
use opfamily::Method;
use pg_base::{Memory, Steps};
use std::alloc::Global;

/// An index as it is built, by its access method. Contracts see a `Built`.
pub enum BuiltIndex<C: Counters> {
    /// `btree`: the entries in the order of their keys, equal ones by row.
    Sorted(BTree<C::Looks>),
    /// `hash`: the rows by the value of the one key.
    Hashed(HashIndex),
}

impl<C: Counters> Drop for BuiltIndex<C> {
    fn drop(self) {
        match self {
            BuiltIndex::Sorted(_) => {},
            BuiltIndex::Hashed(_) => {},
        }
    }
}

impl<C: Counters> BuiltIndex<C> {
    /// An index without entries.
    fn empty(alloc: Global, def: &IndexDef) -> Result<BuiltIndex<C>, Memory>
        requires { (columns : List Column) × IsLawfulIndex columns (index_of def.now) }
        ensures { IfOk result (λ b. built b ≡ built_of (index_of def.now) []) }
    {
        match def.method {
            Method::Btree => {
                let tree = BTree::build(alloc, &def.keys, &def.include)?;
                Ok(BuiltIndex::Sorted(tree))
            }
            Method::Hash => {
                let index = HashIndex::build(alloc, def.keys[0])?;
                Ok(BuiltIndex::Hashed(index))
            }
        }
    }

    /// An index with exactly its entries over the rows of a heap, each of which is looked at once.
    pub(crate) fn over(
        alloc: Global,
        def: &IndexDef,
        heap: &Heap<C>,
        looks: &mut Steps<C::Looks>,
    ) -> Result<BuiltIndex<C>, Memory>
        requires lawful { IsLawfulIndex heap.now.columns (index_of def.now) }
        ensures built { IfOk result (λ b. built b ≡ built_of (index_of def.now) heap.now.rows) }
        ensures looks { OnOk result (looks.new ≡ looks.old + length heap.now.rows) }
        ensures fewer { looks.new ≤ looks.old + length heap.now.rows }
    {
        let mut index = BuiltIndex::empty(alloc, def)?;
        index.add_rows(alloc, def, heap, 0, looks)?;
        Ok(index)
    }

    /// Adds the entries of the rows from number `from` on to those of the rows before it, all at once. If memory runs out, the
    /// index is as before.
    pub(crate) fn add_rows(
        &mut self,
        alloc: Global,
        def: &IndexDef,
        heap: &Heap<C>,
        from: u32,
        looks: &mut Steps<C::Looks>,
    ) -> Result<(), Memory>
        requires from { from ≤ length heap.now.rows }
        requires lawful { IsLawfulIndex heap.now.columns (index_of def.now) }
        requires built { built self.old ≡ built_of (index_of def.now) (take from heap.now.rows) }
        ensures built { OnOk result (built self.new ≡ built_of (index_of def.now) heap.now.rows) }
        ensures refused { OnErr result (built self.new ≡ built self.old) }
        ensures looks { OnOk result (looks.new ≡ looks.old + (length heap.now.rows - from)) }
        ensures fewer { looks.new ≤ looks.old + (length heap.now.rows - from) }
    {
        match self {
            BuiltIndex::Sorted(tree) => {
                let added = entries_from(alloc, def, heap, from, looks)?;
                tree.insert_all(added)
            }
            BuiltIndex::Hashed(index) => {
                let added = hashed_from(alloc, def, heap, from, looks)?;
                index.insert_all(added)
            }
        }
    }

    /// Keeps the entries of the rows whose numbers are below `rows`.
    pub(crate) fn cut(&mut self, rows: u32)
        ensures { built self.new ≡ below rows (built self.old) }
    {
        match self {
            BuiltIndex::Sorted(tree) => tree.cut(rows),
            BuiltIndex::Hashed(index) => index.cut(rows),
        }
    }
}
