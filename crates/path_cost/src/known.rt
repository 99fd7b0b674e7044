//! What is known of a column, lent.

use pg_value::{SqlType, Value};

/// What is known of a column: its type, how many different values it has, the share of NULLs, its common values with
/// their shares, and the bounds of its histogram. Shares are in parts per million.
#[derive(Clone, Copy)]
pub(crate) struct Known<'a> {
    pub(crate) typed: SqlType,
    pub(crate) distinct: u64,
    pub(crate) nulls: u32,
    pub(crate) common: &'a [(Value, u32)],
    pub(crate) histogram: &'a [Value],
}
