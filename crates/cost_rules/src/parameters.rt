//! The cost parameters, in 1/400 of a sequential page. The ratios are PostgreSQL's defaults (manual, Query Planning,
//! Planner Cost Constants) where a comment does not say otherwise.

/// A page read in order.
pub const SEQUENTIAL_PAGE: u64 = 400;
/// A page read at random.
pub const RANDOM_PAGE: u64 = 1_600;
/// A row worked on.
pub const TUPLE: u64 = 4;
/// An index entry worked on.
pub const INDEX_TUPLE: u64 = 2;
/// A comparison or a test.
pub const OPERATOR: u64 = 1;
/// A level of a B-tree passed on the way down, the leaves being one.
pub const LEVEL: u64 = 50;
/// The way to a value of a hash index. Own.
pub const HASH_DESCENT: u64 = 50;
/// Another bitmap joined to the first. Own.
pub const BITMAP_CHILD: u64 = 100;
/// The entries on a page of an index, and the pages below an inner one. Own.
pub const ENTRIES_PER_PAGE: u64 = 200;
/// A cost is cut to at most so much. Own.
pub const MOST_COST: u64 = 1_000_000_000_000_000_000;
/// An estimated number of rows is cut to at most so many. Own.
pub const MOST_ESTIMATE: u64 = 1_000_000_000_000;
