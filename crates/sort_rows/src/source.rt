//! What the keys of tuples are read from.

use crate::columns::SortColumn;
use heap::{Counters, Heaps};
use pg_base::RelSet;
use sql_query::Prepared;
use sql_query::catalog::Catalog;

/// A query over a catalogue and the heaps of its tables, a set of its relations, and the columns whose values make up the key
/// of a tuple of that set.
#[derive(Drop)]
pub(crate) struct KeySource<'a, 'o, C: Counters> {
    pub(crate) cat: &'o Catalog,
    pub(crate) q: &'o Prepared,
    pub(crate) heaps: &'a Heaps<C>,
    pub(crate) set: RelSet,
    pub(crate) columns: &'o [SortColumn],
}
