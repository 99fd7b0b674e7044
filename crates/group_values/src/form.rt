//! How tuples come.

/// How the tuples of groups come, and by this how a group is found.
#[derive(Clone, Copy, Debug, PartialEq, Eq)]
pub enum Form {
    /// The tuples of one group come one after another: a group is the last one or a new one.
    Sorted,
    /// The tuples come in any order: a group is found by the hash of its keys.
    Hashed,
}
