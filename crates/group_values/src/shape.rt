//! What is shown of groups.

use std::marker::Model;

/// A call over the tuples of a group (PostgreSQL manual, Aggregate Functions).
#[derive(Clone, Copy, Debug, PartialEq, Eq)]
pub enum Call {
    /// `count(*)`: the number of tuples.
    CountAll,
    /// `count(column)`: the number of tuples at which the column is not NULL.
    Count,
    /// `min(column)`: the least value that is not NULL, or NULL.
    Min,
    /// `max(column)`: the greatest value that is not NULL, or NULL.
    Max,
}

/// What a line shows of its group.
#[derive(Clone, Copy, Debug, PartialEq, Eq)]
pub enum Shown {
    /// The value of a GROUP BY column, by its place among these, from 0.
    Key(u32),
    /// What a call gives, by its place among the calls, from 0.
    Called(u32),
}

/// An item by which lines are sorted: a GROUP BY column.
#[derive(Clone, Copy, Debug, PartialEq, Eq)]
pub struct Sorter {
    /// The column's place among the GROUP BY columns, from 0.
    pub place: u32,
    /// From the greatest value to the least.
    pub descending: bool,
    /// NULL before all other values.
    pub nulls_first: bool,
}

/// What is shown of groups. Contracts see a `GroupShape`.
#[derive(Drop)]
pub struct Shape {
    /// How many GROUP BY columns there are, none where all tuples are one group.
    pub width: usize,
    /// The calls, from the left.
    pub calls: Vec<Call>,
    /// The items of a line, from the left.
    pub items: Vec<Shown>,
    /// The items by which lines are sorted, none where they stay in the order of the groups' first tuples.
    pub order: Vec<Sorter>,
}

impl Model for Shape {
    ghost use Rattle.group_values.specs.Shapes.{GroupShape};

    ghost Value = { GroupShape };

    ghost view = { λ s. record { width = s.width; calls = s.calls.items; items = s.items.items; order = s.order.items } };
}
