//! The part of a result that LIMIT and OFFSET ask for.

/// The tuples that a statement shows: those behind the first `offset` ones, up to `limit` of them where one is set.
#[derive(Debug, Clone, Copy)]
pub struct Window {
    /// At most so many are shown, where LIMIT is written.
    pub limit: Option<u64>,
    /// The number of tuples that are passed over; 0 where no OFFSET is written.
    pub offset: u64,
}
