//! The lines of printed plans and of bitmap trees, as they are read and as they are compared: their leads, their titles and
//! their numbers (own).
#![tactic(auto)]

mod bitmap_lines;
mod compared;
mod figures;
mod given;
mod indexes;
mod keys;
mod kinds;
mod leads;
mod lines;
mod numbers;
mod relations;
mod scanned;
mod titles;
mod trees;

pub use certificate_entries;
pub use compared::behind_bits;
pub use figures::read_line;
pub use indexes::{IndexScan, read_index_name, read_index_scan};
pub use keys::read_node_keys;
pub use kinds::{Kind, read_kind};
pub use leads::behind_lead;
pub use lines::{Lines, cut};
pub use numbers::behind_number;
pub use relations::behind;
pub use scanned::{read_relation, read_scanned};
pub use titles::behind_title;
pub use trees::read_tree;
