//! The index itself.

ghost use Rattle.std.specs.Prelude.{◌≡◌, ◌<◌, ◌∷◌, [], length, filter, All, IfOk, OnOk, OnErr};
ghost use Rattle.opfamily.specs.work.KeyOrder.{AreKeyValues};
ghost use Rattle.btree_index.specs.work.Bounds.{AreBounds, meets_all};
ghost use Rattle.btree_index.specs.work.Tree.{IsEntryOf, IsLawfulTree, of_rows_below, with_entries, in_direction};

use crate::bounds::Probe;
use crate::cursors::Cursor;
use crate::edges::Edge;
use crate::entries::Entry;
use crate::pages::Pages;
use crate::sorted::{above_both, above_row, above_rows};
use opfamily::IndexKey;
use pg_base::{ColNo, Tid};
use pg_value::Value;
use std::alloc::{AllocError, Global};
use std::marker::{Model, PhantomData};
use std::sync::ledger::Ledger;

/// Entries in the order of their keys, equal ones in that of their rows, which cursors alone give, with a counter of
/// the index's ledger. Contracts see a `Tree`.
pub struct BTree<L: Ledger> {
    keys: Vec<IndexKey>,
    include: Vec<ColNo>,
    pages: Pages,
    /// A number above those of all rows.
    above: u64,
    ledger: PhantomData<L>,
}

impl<L: Ledger> Drop for BTree<L> {
    fn drop(self) {
        let BTree {
            keys: _,
            include: _,
            pages: _,
            above: _,
            ledger: _,
        } = self;
    }
}

impl<L: Ledger> Model for BTree<L> {
    ghost use Rattle.std.specs.Prelude.{◌<◌, All};
    ghost use Rattle.btree_index.specs.work.Pages.{IsPaged, entries_of};
    ghost use Rattle.btree_index.specs.work.Tree.{Tree, IsLawfulTree};

    ghost Value = { Tree };

    ghost view = { λ t. record { keys = t.keys.items; include = t.include.items; entries = entries_of t.pages } };

    ghost invariant = { λ t. IsPaged t.pages × IsLawfulTree (record { keys = t.keys.items; include = t.include.items; entries = entries_of t.pages }) × All (λ e. e.row < t.above) (entries_of t.pages) };
}

impl<L: Ledger> BTree<L> {
    /// An index without entries.
    pub fn build(
        alloc: Global,
        keys: &[IndexKey],
        include: &[ColNo],
    ) -> Result<BTree<L>, AllocError>
        ensures { IfOk result (λ t. t ≡ record { keys = keys.now; include = include.now; entries = [] }) }
    {
        Ok(BTree {
            keys: Vec::from_slice(alloc, keys)?,
            include: Vec::from_slice(alloc, include)?,
            pages: Pages::new(alloc)?,
            above: 0,
            ledger: PhantomData,
        })
    }

    /// The keys, from the left.
    pub fn keys(&self) -> &[IndexKey]
        ensures keys { result.now ≡ self.now.keys }
        ensures lawful { IsLawfulTree self.now }
    {
        &self.keys
    }

    /// The columns that are included, from the left.
    pub fn include(&self) -> &[ColNo]
        ensures { result.now ≡ self.now.include }
    {
        &self.include
    }

    /// Adds the entry of a row: a value for each key, NULL or of the kind that the key's class orders, and one for
    /// each column included. If memory runs out, the index is as before.
    pub fn insert(&mut self, key: Vec<Value>, include: Vec<Value>, t: Tid) -> Result<(), AllocError>
        requires keys { AreKeyValues self.old.keys key.items }
        requires include { length include.items ≡ length self.old.include }
        ensures inserted { OnOk result (self.new ≡ with_entries self.old (record { row = t.0; keys = key.items; include = include.items } ∷ [])) }
        ensures refused { OnErr result (self.new ≡ self.old) }
    {
        let entry = Entry::new(key, include, t);
        self.above = above_row(t, self.above);
        self.pages.add(&self.keys, entry)
    }

    /// Adds many entries at once: they are sorted and merged with those that are there, or put among them one by one
    /// where they are few. If memory runs out, the index is as before.
    pub fn insert_all(&mut self, added: Vec<Entry>) -> Result<(), AllocError>
        requires { All (IsEntryOf self.old.keys self.old.include) added.items }
        ensures inserted { OnOk result (self.new ≡ with_entries self.old added.items) }
        ensures refused { OnErr result (self.new ≡ self.old) }
    {
        let above = self.above;
        self.above = above_rows(&added, above);
        self.pages.add_all(&self.keys, added, above)
    }

    /// Keeps the entries of the rows whose numbers are below `rows`. It takes no memory, so it undoes what was added for
    /// rows that a load had put behind the others.
    pub fn cut(&mut self, rows: u32)
        ensures { self.new ≡ of_rows_below rows self.old }
    {
        self.pages.keep_rows(rows);
        self.above = above_both(self.above, rows);
    }

    /// A cursor before the first entry, in its direction, of the part that meets the bounds.
    pub fn seek<'a>(&'a self, bounds: &[Probe], backward: bool) -> Cursor<'a, L>
        requires { AreBounds 0 self.now.keys bounds.now }
        ensures part { result ≡ in_direction backward (filter (λ e. meets_all bounds.now e.keys) self.now.entries) }
        ensures each { All (IsEntryOf self.now.keys self.now.include) result }
        ensures lawful { IsLawfulTree self.now }
    {
        let start = self.pages.find(&self.keys, &Edge::Start(bounds));
        let end = self.pages.find(&self.keys, &Edge::End(bounds));
        Cursor::over(&self.pages, start, end, backward)
    }

    /// How many leaves there are, which tests ask: at least one.
    pub fn leaves(&self) -> u32
        ensures { 0 < result }
    {
        u32::try_from(self.pages.leaves.len()).unwrap_or(u32::MAX)
    }
}
