//! The two counters that rows are read with.

use std::marker::PhantomData;
use std::sync::ledger::Ledger;

/// The ledgers of the counters that the rows of a heap are read with: that of heap fetches, and that of looks at rows
/// already found. A type that is generic in `Counters` works with `Steps<C::Fetches>` and `Steps<C::Looks>` alone, and
/// neither counter stands for the other.
pub trait Counters {
    /// The ledger of the counter of heap fetches.
    type Fetches: Ledger;
    /// The ledger of the counter of looks: reads of rows already found, and of entries of an index.
    type Looks: Ledger;
}

/// Fetches counted with ledger L, looks with ledger M. No value of it is made.
pub struct Counting<L, M> {
    ledgers: PhantomData<(L, M)>,
}

impl<L: Ledger, M: Ledger> Counters for Counting<L, M> {
    type Fetches = L;

    type Looks = M;
}
