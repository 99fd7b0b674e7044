//! Candidates that no entry dominates.

/// The numbers of a candidate that no entry dominates.
#[derive(Clone, Copy, Debug)]
pub struct Uncovered {
    /// What it costs before its first row, where the query has a window; else 0.
    pub startup: u64,
    /// What it costs in all.
    pub cost: u64,
    /// The rows that it is taken to give.
    pub rows: u64,
}
