//! Numbers of things. All count from 0.

/// A relation of a query, numbered in FROM order.
#[derive(Clone, Copy, Debug, Default, PartialEq, Eq, PartialOrd, Ord)]
pub struct RelNo(pub u8);

/// A column of a table, from the left.
#[derive(Clone, Copy, Debug, Default, PartialEq, Eq, PartialOrd, Ord)]
pub struct ColNo(pub u8);

/// A table of the catalogue, in order of making.
#[derive(Clone, Copy, Debug, Default, PartialEq, Eq, PartialOrd, Ord)]
pub struct TableNo(pub u8);

/// An index of the catalogue, in order of making.
#[derive(Clone, Copy, Debug, Default, PartialEq, Eq, PartialOrd, Ord)]
pub struct IndexNo(pub u16);

/// A row of a heap, in order of loading.
#[derive(Clone, Copy, Debug, Default, PartialEq, Eq, PartialOrd, Ord)]
pub struct Tid(pub u32);
