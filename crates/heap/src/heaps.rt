//! The heaps of all tables.

ghost use Rattle.std.specs.Prelude.{◌≡◌, ◌<◌, ◌++◌, ◌∷◌, [], length, slice_get, Some, OnOk, OnErr};
ghost use Rattle.std.specs.Borrow.{sem};
ghost use Rattle.heap.specs.work.Lending.{LendsHeap};

use crate::counters::Counters;
use crate::store::Heap;
use pg_base::{Memory, TableNo};
use std::alloc::{AllocError, Global};
use std::marker::Model;

/// A heap for each table, in order of making. Contracts see the list of what they store.
pub struct Heaps<C: Counters> {
    heaps: Vec<Heap<C>>,
}

impl<C: Counters> Drop for Heaps<C> {
    fn drop(self) {
        let Heaps { heaps: _ } = self;
    }
}

impl<C: Counters> Model for Heaps<C> {
    ghost use Rattle.std.specs.Prelude.{List};
    ghost use Rattle.heap.specs.Stored.{Stored};

    ghost Value = { List Stored };

    ghost view = { λ h. h.heaps.items };
}

impl<C: Counters> Heaps<C> {
    /// No heap.
    pub fn new(alloc: Global) -> Heaps<C>
        ensures { result ≡ [] }
    {
        Heaps {
            heaps: Vec::new(alloc),
        }
    }

    /// Puts the heap of a new table at the end. The only error is that memory ran out, and then all is as before.
    pub fn add(&mut self, h: Heap<C>) -> Result<(), Memory>
        ensures added { OnOk result (self.new ≡ self.old ++ h ∷ []) }
        ensures refused { OnErr result (self.new ≡ self.old) }
    {
        if self.heaps.push(h).is_err() {
            return Err(AllocError);
        }
        Ok(())
    }

    /// The heap of a table.
    pub fn get(&self, t: TableNo) -> &Heap<C>
        requires { t.0 < length self.now }
        ensures { slice_get self.now t.0 ≡ Some result.now }
    {
        &self.heaps[t.0 as usize]
    }

    /// The heap of a table, to be changed.
    pub fn get_mut(&mut self, t: TableNo) -> &mut Heap<C>
        requires { t.0 < length self.old }
        ensures* changed { sem 𝓛 (LendsHeap C.row C.Fetches.row C.Looks.row C.Fetches.Ledger C.Looks.Ledger self.entry t.0 result) }
        ensures value { slice_get self.old t.0 ≡ Some result.now }
    {
        &mut self.heaps[t.0 as usize]
    }
}
