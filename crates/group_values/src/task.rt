//! What a GROUP BY asks, and the plan chosen for it.

use crate::Form;

/// What the plans of a GROUP BY are computed from.
#[derive(Drop)]
pub struct GroupTask {
    /// How many rows all relations are taken to give, from 1 to 10^12.
    pub rows: u64,
    /// The numbers of different values, from 1, of each group key's first member.
    pub distinct: Vec<u64>,
    /// How many calls there are.
    pub calls: u64,
    /// Whether the lines of sorted groups still have to be sorted: the group keys do not begin with the keys of ORDER BY.
    pub sort_sorted: bool,
    /// Whether the lines of hashed groups have to be sorted: there are keys of ORDER BY.
    pub sort_hashed: bool,
}

/// A plan that groups.
#[derive(Clone, Copy, Debug, PartialEq, Eq)]
pub struct GroupPlan {
    /// How its groups are found.
    pub form: Form,
    /// Whether a sort of the groups stands on top.
    pub sort_after: bool,
    /// What it costs in all, with its input and the sort on top, below 10^18.
    pub cost: u64,
    /// How many groups it is taken to give.
    pub rows: u64,
}
