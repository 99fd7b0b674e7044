//! Plans of a query (PostgreSQL, src/backend/optimizer/README). Contracts see the tree that a plan stands for.

ghost use Rattle.std.specs.Prelude.{◌≡◌, IfOk};
ghost use Rattle.plan_tree.specs.work.Views.{plan};

use crate::bits::BitTree;
use pathkeys::Keys;
use pg_base::{IndexNo, Memory, RelNo, RelSet};
use std::alloc::Global;

/// A plan. A scan's `param` is the set of the other relations whose rows it is given; it is empty where it is given none.
#[derive(Drop)]
pub enum Plan {
    /// A sequential scan: each row of a relation in order of loading.
    Seq {
        /// The relation.
        rel: RelNo,
    },
    /// The rows of the entries of an index that meet its conditions.
    Index {
        /// The relation.
        rel: RelNo,
        /// The index, of the relation's table.
        index: IndexNo,
        /// From the last entry to the first.
        backward: bool,
        /// The relations whose rows it is given.
        param: RelSet,
    },
    /// The rows of the entries of an index that meet its conditions, with the columns taken from the entries, so that no row is
    /// fetched.
    IndexOnly {
        /// The relation.
        rel: RelNo,
        /// The index, of the relation's table.
        index: IndexNo,
        /// From the last entry to the first.
        backward: bool,
        /// The relations whose rows it is given.
        param: RelSet,
    },
    /// The rows that a bitmap holds, in order of loading.
    Bitmap {
        /// The relation.
        rel: RelNo,
        /// The relations whose rows it is given.
        param: RelSet,
        /// What the bitmap is made of.
        bits: BitTree,
    },
    /// The rows of a plan, sorted by the classes of a key list.
    Sort {
        /// The classes by which it sorts.
        keys: Keys,
        /// The plan.
        input: Box<Plan>,
    },
    /// For each outer row in order, the inner rows in order that join with it. An inner scan with a parameterisation is run
    /// for each outer row, any other plan once.
    Nest {
        /// The outer side.
        outer: Box<Plan>,
        /// The inner side.
        inner: Box<Plan>,
    },
    /// For each outer row in order, the inner rows in order that join with it, where both sides are sorted by the classes of a
    /// key list.
    Merge {
        /// The classes by which the sides are sorted.
        keys: Keys,
        /// The outer side.
        outer: Box<Plan>,
        /// The inner side.
        inner: Box<Plan>,
    },
}

impl Plan {
    /// A plan of the same tree. The error means out of memory.
    pub fn copy(&self, alloc: Global) -> Result<Plan, Memory>
        ensures { IfOk result (λ p. plan p ≡ plan self.now) }
    {
        match self {
            Plan::Seq { rel } => Ok(Plan::Seq { rel: *rel }),
            Plan::Index {
                rel,
                index,
                backward,
                param,
            } => Ok(Plan::Index {
                rel: *rel,
                index: *index,
                backward: *backward,
                param: *param,
            }),
            Plan::IndexOnly {
                rel,
                index,
                backward,
                param,
            } => Ok(Plan::IndexOnly {
                rel: *rel,
                index: *index,
                backward: *backward,
                param: *param,
            }),
            Plan::Bitmap { rel, param, bits } => {
                let bits = bits.copy(alloc)?;
                Ok(Plan::Bitmap {
                    rel: *rel,
                    param: *param,
                    bits,
                })
            }
            Plan::Sort { keys, input } => {
                let keys = keys.copy(alloc)?;
                let input = Box::new(alloc, input.copy(alloc)?)?;
                Ok(Plan::Sort { keys, input })
            }
            Plan::Nest { outer, inner } => {
                let outer = Box::new(alloc, outer.copy(alloc)?)?;
                let inner = Box::new(alloc, inner.copy(alloc)?)?;
                Ok(Plan::Nest { outer, inner })
            }
            Plan::Merge { keys, outer, inner } => {
                let keys = keys.copy(alloc)?;
                let outer = Box::new(alloc, outer.copy(alloc)?)?;
                let inner = Box::new(alloc, inner.copy(alloc)?)?;
                Ok(Plan::Merge { keys, outer, inner })
            }
        }
    }
}
