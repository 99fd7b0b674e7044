//! How many lines a plan has.

ghost use Rattle.std.specs.Prelude.{◌≡◌, ◌≤◌, ◌+◌, min};
ghost use Rattle.plan_space.specs.Numbered.{all_bit_lines, bit_lines, line_count};
ghost use Rattle.plan_tree.specs.work.Views.{bits, bits_all, plan};

use plan_tree::{BitTree, Plan};

/// A sum, or 257 where it is more.
fn capped_sum(a: u32, b: u32) -> u32
    requires first { a ≤ 257 }
    requires second { b ≤ 257 }
    ensures { result ≡ min (a + b) 257 }
{
    (a + b).min(257)
}

/// The lines of a bitmap tree, or 257 where they are more.
#[cycle(bits)]
fn count_bits(tree: &BitTree) -> u32
    ensures { result ≡ min (bit_lines (bits tree.now)) 257 }
{
    match tree {
        BitTree::Leaf(_) => 1,
        BitTree::And(parts) => capped_sum(1, count_all(&parts.items)),
        BitTree::Or(_, indexes) => capped_sum(1, indexes.len().min(257) as u32),
    }
}

/// The lines of some bitmap trees, or 257 where they are more.
#[cycle(bits)]
fn count_all(trees: &[BitTree]) -> u32
    ensures { result ≡ min (all_bit_lines (bits_all trees.now)) 257 }
{
    let mut count = 0;
    for tree in trees {
        count = capped_sum(count, count_bits(tree));
    }
    count
}

/// The lines of a plan, or 257 where they are more.
pub(crate) fn count_up(p: &Plan) -> u32
    ensures { result ≡ min (line_count (plan p.now)) 257 }
{
    match p {
        Plan::Seq { .. } => 1,
        Plan::Index { .. } => 1,
        Plan::IndexOnly { .. } => 1,
        Plan::Bitmap { bits, .. } => capped_sum(1, count_bits(bits)),
        Plan::Sort { input, .. } => capped_sum(1, count_up(input)),
        Plan::Nest { outer, inner } => capped_sum(1, capped_sum(count_up(outer), count_up(inner))),
        Plan::Merge { outer, inner, .. } => {
            capped_sum(1, capped_sum(count_up(outer), count_up(inner)))
        }
    }
}
