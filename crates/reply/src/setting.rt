//! What a reply is made from.

use catalog::Catalog;
use executor::store::Store;
use heap::Counters;
use sql_query::Prepared;
use std::alloc::Global;

/// A query over a store of its catalogue, and where memory comes from (PostgreSQL, src/include/nodes/execnodes.h, EState).
#[derive(Drop)]
pub struct Setting<'a, C: Counters> {
    /// Where memory comes from.
    pub alloc: Global,
    /// The catalogue.
    pub cat: &'a Catalog,
    /// The query, bound to the catalogue.
    pub q: &'a Prepared,
    /// The rows of the catalogue's tables, and their indexes.
    pub store: &'a Store<C>,
}
