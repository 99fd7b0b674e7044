//! What an entry says beside its numbers.

use pathkeys::Keys;
use pg_base::RelSet;
use plan_check::Node;

/// An entry without its numbers.
#[derive(Drop)]
pub(crate) struct Shape {
    /// The relations that it reads.
    pub(crate) set: RelSet,
    /// The other relations whose rows it is given.
    pub(crate) param: RelSet,
    /// What it is.
    pub(crate) node: Node,
    /// The classes by which its rows are sorted.
    pub(crate) keys: Keys,
}
