//! What the bitmap of a bitmap scan is made of (PostgreSQL manual, chapter Indexes, Combining Multiple Indexes).
//! Contracts see the tree that it stands for.

ghost use Rattle.std.specs.Prelude.{◌≡◌, IfOk};
ghost use Rattle.plan_tree.specs.work.Views.{bits, bits_all};

use pg_base::{IndexNo, Memory};
use std::alloc::Global;

/// A list of bitmap trees.
#[cycle(bits)]
#[derive(Drop)]
pub struct BitTrees {
    /// The trees in order.
    pub items: Vec<BitTree>,
}

/// A bitmap tree. A lawful one is a leaf or an OR, or an AND of two or more of these.
#[cycle(bits)]
#[derive(Drop)]
pub enum BitTree {
    /// The rows of the entries of an index that meet its conditions.
    Leaf(IndexNo),
    /// The rows that each of the trees holds.
    And(BitTrees),
    /// The rows that some arm of an OR clause holds: the clause's number, and an index for each arm in order.
    Or(u16, Vec<IndexNo>),
}

impl BitTree {
    /// A bitmap tree of the same form. The error means out of memory.
    #[cycle(copy_bits)]
    pub fn copy(&self, alloc: Global) -> Result<BitTree, Memory>
        ensures { IfOk result (λ b. bits b ≡ bits self.now) }
    {
        match self {
            BitTree::Leaf(index) => Ok(BitTree::Leaf(*index)),
            BitTree::And(parts) => {
                let parts = parts.copy(alloc)?;
                Ok(BitTree::And(parts))
            }
            BitTree::Or(clause, indexes) => {
                let indexes = copy_indexes(alloc, indexes)?;
                Ok(BitTree::Or(*clause, indexes))
            }
        }
    }
}

impl BitTrees {
    /// A list of trees of the same forms. The error means out of memory.
    #[cycle(copy_bits)]
    pub fn copy(&self, alloc: Global) -> Result<BitTrees, Memory>
        ensures { IfOk result (λ bs. bits_all bs.items.items ≡ bits_all self.now.items.items) }
    {
        let mut items = Vec::new(alloc);
        for part in &self.items {
            items.push(part.copy(alloc)?)?;
        }
        Ok(BitTrees { items })
    }
}

/// An equal list of indexes. The error means out of memory.
fn copy_indexes(alloc: Global, indexes: &[IndexNo]) -> Result<Vec<IndexNo>, Memory>
    ensures { IfOk result (λ v. v.items ≡ indexes.now) }
{
    let mut copied = Vec::new(alloc);
    copied.extend_from_slice(indexes)?;
    Ok(copied)
}
