//! A query over tables, and what is done there.

use catalog::Catalog;
use heap::Counters;
use pg_base::Steps;
use sql_query::Prepared;
use std::alloc::Global;
use store::Store;

/// A query over a store of its catalogue.
#[derive(Drop)]
pub(crate) struct Scene<'a, C: Counters> {
    pub(crate) alloc: Global,
    pub(crate) cat: &'a Catalog,
    pub(crate) q: &'a Prepared,
    pub(crate) store: &'a Store<C>,
}

/// Rows fetched, and entries and rows looked at.
#[derive(Clone, Copy)]
pub(crate) struct Cost {
    pub(crate) fetches: u64,
    pub(crate) looks: u64,
}

/// What was counted so far.
pub(crate) fn counted<C: Counters>(fetches: &Steps<C::Fetches>, reads: &Steps<C::Looks>) -> Cost {
    Cost {
        fetches: fetches.shown(),
        looks: reads.shown(),
    }
}
