//! What is kept of an element while sets of elements are tried.

use eq_classes::ClauseSet;
use plan_tree::Element;

/// An element with what each set that has it needs.
#[derive(Drop)]
pub(crate) struct Kept {
    /// The element.
    pub(crate) element: Element,
    /// The part of its tree of least part, cut to at most 10^18.
    pub(crate) part: u64,
    /// The clauses that it uses.
    pub(crate) used: ClauseSet,
}

impl Default for Kept {
    fn default() -> Kept {
        Kept {
            element: Element::default(),
            part: 0,
            used: ClauseSet::empty(),
        }
    }
}
