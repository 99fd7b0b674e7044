//! Entries added to those of an index: one by one where they are few, else all at once.

ghost use Rattle.std.specs.Prelude.{◌≡◌, ◌∷◌, ◌<◌, ◌≤◌, [], List, All, OnOk, OnErr};
ghost use Rattle.pg_value.specs.Sorting.{IsInOrder};
ghost use Rattle.opfamily.specs.KeyOrder.{IndexEntry as Held, entry_order};
ghost use Rattle.btree_index.specs.work.Adding.{AreAdded};
ghost use Rattle.btree_index.specs.work.Pages.{IsPaged, entries_of};
ghost use Rattle.btree_index.specs.work.Tree.{entries_with};

use crate::edges::Edge;
use crate::entries::Entry;
use crate::pages::Pages;
use crate::sorted::are_from;
use opfamily::IndexKey;
use std::alloc::AllocError;

/// How many entries for each leaf are few: to add them all at once, each that is there is moved and compared.
const FEW: usize = 4;

impl Pages {
    /// Adds an entry. If memory runs out, the entries are as before.
    pub(crate) fn add(&mut self, keys: &[IndexKey], entry: Entry) -> Result<(), AllocError>
        requires paged { IsPaged self.old }
        requires order { IsInOrder (entry_order keys.now) (entries_of self.old) }
        ensures paged { IsPaged self.new }
        ensures added { OnOk result (entries_of self.new ≡ entries_with keys.now (entries_of self.old) (entry ∷ [])) }
        ensures refused { OnErr result (entries_of self.new ≡ entries_of self.old) }
    {
        let place = self.find(keys, &Edge::Behind(&entry));
        self.insert(keys, place, entry)
    }

    /// Adds entries one by one. If memory runs out, the first of them may be there.
    fn add_each(&mut self, keys: &[IndexKey], added: Vec<Entry>) -> Result<(), AllocError>
        requires paged { IsPaged self.old }
        requires order { IsInOrder (entry_order keys.now) (entries_of self.old) }
        ensures paged { IsPaged self.new }
        ensures added { OnOk result (entries_of self.new ≡ entries_with keys.now (entries_of self.old) added.items) }
        ensures first { (left : List Held) × AreAdded keys.now (entries_of self.old) added.items left (entries_of self.new) }
    {
        for entry in added {
            self.add(keys, entry)?;
        }
        Ok(())
    }

    /// Adds entries one by one, of rows behind those of all others. If memory runs out, the entries are as before.
    fn add_behind(
        &mut self,
        keys: &[IndexKey],
        added: Vec<Entry>,
        above: u32,
    ) -> Result<(), AllocError>
        requires paged { IsPaged self.old }
        requires order { IsInOrder (entry_order keys.now) (entries_of self.old) }
        requires below { All (λ e. e.row < above) (entries_of self.old) }
        requires from { All (λ e. above ≤ e.row) added.items }
        ensures paged { IsPaged self.new }
        ensures added { OnOk result (entries_of self.new ≡ entries_with keys.now (entries_of self.old) added.items) }
        ensures refused { OnErr result (entries_of self.new ≡ entries_of self.old) }
    {
        match self.add_each(keys, added) {
            Ok(()) => Ok(()),
            Err(refused) => {
                self.keep_rows(above);
                Err(refused)
            }
        }
    }

    /// Adds many entries; the rows of those that are there are below a number. If memory runs out, the entries are as
    /// before.
    pub(crate) fn add_all(
        &mut self,
        keys: &[IndexKey],
        added: Vec<Entry>,
        above: u64,
    ) -> Result<(), AllocError>
        requires paged { IsPaged self.old }
        requires order { IsInOrder (entry_order keys.now) (entries_of self.old) }
        requires below { All (λ e. e.row < above) (entries_of self.old) }
        ensures paged { IsPaged self.new }
        ensures added { OnOk result (entries_of self.new ≡ entries_with keys.now (entries_of self.old) added.items) }
        ensures refused { OnErr result (entries_of self.new ≡ entries_of self.old) }
    {
        let Ok(above) = u32::try_from(above) else {
            return self.merge(keys, added);
        };
        if added.len() / FEW <= self.leaves.len() && are_from(&added, above) {
            self.add_behind(keys, added, above)
        } else {
            self.merge(keys, added)
        }
    }
}
