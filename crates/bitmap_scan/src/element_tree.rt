//! What is kept of an element while sets of elements are tried.

use eq_classes::ClauseSet;
use pg_base::{RelNo, RelSet};
use plan_tree::BitTree;

/// An element in its tree of least part, with what each set that has it needs.
#[derive(Drop)]
pub(crate) struct ElementTree {
    /// The leaf of an index, or an OR with the matching index of least part for each arm.
    pub tree: BitTree,
    /// The parts of its indexes together, cut to at most 10^18.
    pub part: u64,
    /// The clauses that it uses.
    pub used: ClauseSet,
    /// The relations that these name beside its own.
    pub named: RelSet,
}

/// Some elements of which the binary digits of a number mark some, the lowest digit the first element.
#[derive(Clone, Copy)]
pub(crate) struct Marked<'a> {
    pub(crate) kept: &'a [ElementTree],
    pub(crate) mask: usize,
}

/// A relation where the rows of others are given, with the clauses that are tested there.
#[derive(Clone, Copy)]
pub(crate) struct Place<'a> {
    pub(crate) rel: RelNo,
    pub(crate) param: RelSet,
    pub(crate) local: &'a ClauseSet,
}
