//! The limits of the program. Past them a statement is refused (54000); those of STATISTICS are 22023. All are own.

/// A script has at most so many bytes.
pub const MOST_SCRIPT_BYTES: usize = 16_777_216;
/// There are at most so many tables.
pub const MOST_TABLES: usize = 64;
/// A table has at most so many columns, and an index so many key and INCLUDE columns together.
pub const MOST_COLUMNS: usize = 32;
/// A table has at most so many rows.
pub const MOST_ROWS: usize = 100_000;
/// A text value and a quoted literal have at most so many bytes.
pub const MOST_TEXT_BYTES: usize = 8_192;
/// A name has at most so many bytes.
pub const MOST_NAME_BYTES: usize = 63;
/// A table has at most so many indexes.
pub const MOST_INDEXES: usize = 8;
/// A query has at most so many relations.
pub const MOST_RELATIONS: usize = 10;
/// A query has at most so many conjuncts.
pub const MOST_CONJUNCTS: usize = 32;
/// A statement has at most so many atoms.
pub const MOST_ATOMS: usize = 256;
/// An expression is nested at most so many levels deep.
pub const MOST_LEVELS: usize = 32;
/// A merge join is by at most so many classes.
pub const MOST_MERGE_KEYS: usize = 3;
/// A merge join is by classes among the first so many that join its sides.
pub const MOST_JOINING_CLASSES: usize = 4;
/// ADVISE takes at most so many candidate indexes.
pub const MOST_CANDIDATES: usize = 10;
/// ADVISE takes at most so many queries.
pub const MOST_QUERIES: usize = 16;
