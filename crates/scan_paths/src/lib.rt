//! Scans of one relation, but those by a bitmap, offered as paths (PostgreSQL, src/backend/optimizer/path/allpaths.c,
//! set_plain_rel_pathlist, and indxpath.c, create_index_paths).
#![tactic(auto)]

mod index_scans;
mod reached;
mod relation_scans;

pub use reached::{Reached, indexes_reached};
pub use relation_scans::{scans, scans_by};
