//! What is read of a statement that defines a table, loads data, or gives or finds statistics.

use catalog::ColumnStats;
use pg_base::{ColNo, TableNo};
use pg_value::{Bytes, Columns};

/// A definition, bound to the catalogue.
#[derive(Debug, Drop)]
pub enum Ddl {
    /// CREATE TABLE: the new table's name, the names of its columns and the columns, from the left. Names are in small letters.
    Table {
        name: Bytes,
        names: Vec<Bytes>,
        columns: Columns,
    },
    /// STATISTICS of a table: its number of rows and of pages. A number past 64 bits is 2^64 - 1.
    Rows {
        table: TableNo,
        rows: u64,
        pages: u64,
    },
    /// STATISTICS of a column of a table. Shares are in parts per million; a share past 32 bits is 2^32 - 1.
    Column {
        table: TableNo,
        col: ColNo,
        stats: ColumnStats,
    },
    /// COPY: the table whose data follow, and the byte offset in the script of the first data byte.
    Copy {
        table: TableNo,
        start: u32,
    },
    /// ANALYZE: the table whose statistics its rows give.
    Analyze {
        table: TableNo,
    },
}

/// A definition with the byte offsets in the script at which a refusal of the catalogue stands.
#[derive(Debug, Drop)]
pub struct Read {
    /// What is defined.
    pub ddl: Ddl,
    /// For a table the offset of the new name, then those of the column names; for COPY and ANALYZE none. For STATISTICS those of the
    /// places that the catalogue counts: of the numbers of rows and of pages; or of the numbers of different values and of
    /// NULLs, then of each common value and its share, then of each bound of the histogram. A literal begins at its `-`.
    pub at: Vec<u32>,
}
