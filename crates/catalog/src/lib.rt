//! The catalogue: tables and their columns, indexes and statistics, by name and by number; and candidates for indexes,
//! which stand in no catalogue.
#![tactic(auto)]

mod candidate;
mod contents;
mod copies;
mod entries;
mod fault;
mod index_def;
mod indexes;
mod laws;
mod limits;
mod names;
mod range;
mod sizes;
mod statistics;
mod table;

pub use candidate::Candidate;
pub use contents::Catalog;
pub use fault::CatalogFault;
pub use index_def::IndexDef;
pub use laws::{index_laws, replacement_laws, size_laws, statistics_laws};
pub use limits::{MOST_BOUNDS, MOST_COMMON, MOST_NUMBER, ROWS_PER_PAGE, WHOLE_SHARE};
pub use opfamily;
pub use opfamily::pg_value;
pub use pg_expr;
pub use range::RangeTable;
pub use statistics::{ColumnList, ColumnStats, TableStats};
