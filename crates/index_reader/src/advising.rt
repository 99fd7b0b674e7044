//! What an ADVISE asks.

use catalog::Candidate;
use sql_query::Prepared;

/// Which of these candidates for indexes to make, at most so many, for these queries.
#[derive(Drop)]
pub struct Advising {
    /// The most candidates that are to be made: at most `MOST_CANDIDATES`.
    pub most: u8,
    /// The candidates, in the order of the text.
    pub candidates: Vec<Candidate>,
    /// The queries, in the order of the text.
    pub queries: Vec<Prepared>,
}
