//! Numbers of statistics. All are own.

/// Rows on a page of a table of which no size is given.
pub const ROWS_PER_PAGE: u64 = 100;
/// A number of rows, of pages or of different values is at most so much, and at least 1.
pub const MOST_NUMBER: u64 = 1_000_000_000;
/// All rows of a table, in parts per million.
pub const WHOLE_SHARE: u32 = 1_000_000;
/// A column has at most so many common values.
pub const MOST_COMMON: usize = 16;
/// A histogram has at most so many bounds, and is not of one bound.
pub const MOST_BOUNDS: usize = 101;

// The columns of a value's table and those of a table here have one limit.
const _: () = prove!(pg_base::MOST_COLUMNS == opfamily::pg_value::MOST_COLUMNS);
