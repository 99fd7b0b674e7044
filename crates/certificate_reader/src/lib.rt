//! The text of a certificate read back: entries from the parts of their lines, and the whole text from its lines.
#![tactic(auto)]

mod block;
mod certificate;
mod entry;
mod line;
mod measures;

pub use block::{CertFault, read_block};
pub use certificate::read_certificate;
pub use line::LineReader;
