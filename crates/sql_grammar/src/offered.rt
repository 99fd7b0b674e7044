//! The productions that a script may have so far.
//!
//! Each one stands in the grammar with its trees, its rows and their proofs. Where its constant is false, no statement has
//! that production: its first word is a syntax fault. Everything here is proved for both values.

/// ADVISE: which of some indexes serve some SELECTs best.
pub const READS_ADVISE: bool = true;

/// ANALYZE of a table.
pub const READS_ANALYZE: bool = true;

/// CHECK of the certificate of a SELECT's plan.
pub const READS_CHECK: bool = true;

/// DISTINCT behind SELECT.
pub const READS_DISTINCT: bool = true;

/// GROUP BY and the calls of a SELECT's list, as count(*).
pub const READS_GROUPS: bool = true;

/// IN with a list, and BETWEEN.
pub const READS_LISTS: bool = true;

/// USE PLAN: a SELECT by a plan that is written out.
pub const READS_PLAN: bool = true;

/// EXPLAIN (TABLE) of a SELECT: its plan with its certificate.
pub const READS_TABLE: bool = true;

/// LIMIT and OFFSET behind a SELECT with its order.
pub const READS_WINDOW: bool = true;
