//! The lines of plans.

ghost use Rattle.std.specs.Prelude.{◌≡◌, ◌≤◌};
ghost use Rattle.plan_tree.specs.work.Views.{bits, bits_all, plan};
ghost use Rattle.plan_space.specs.Numbered as numbered;
ghost use Rattle.plan_space.specs.work.Numbered as numbered_work;
ghost use Rattle.plan_space.specs.Numbered.{bit_lines, all_bit_lines, line_count, nodes};
ghost use Rattle.plan_space.specs.declared.lines.TheConstants.{MOST_LINES};

use plan_tree::{BitTree, Plan};

/// How many lines the printed form of a plan may have.
pub const MOST_LINES: u32 = 256;

/// The lines of a bitmap tree.
#[cycle(bits)]
fn lines_of_bits(tree: &BitTree) -> u32
    requires few { bit_lines (bits tree.now) ≤ MOST_LINES }
    ensures { result ≡ bit_lines (bits tree.now) }
{
    match tree {
        BitTree::Leaf(_) => 1,
        BitTree::And(parts) => 1 + lines_of_all(&parts.items),
        BitTree::Or(_, indexes) => 1 + indexes.len() as u32,
    }
}

/// The lines of some bitmap trees.
#[cycle(bits)]
fn lines_of_all(trees: &[BitTree]) -> u32
    requires few { all_bit_lines (bits_all trees.now) ≤ MOST_LINES }
    ensures { result ≡ all_bit_lines (bits_all trees.now) }
{
    let mut count = 0;
    for tree in trees {
        count += lines_of_bits(tree);
    }
    count
}

/// How many lines the printed form of a plan has: one for each node, also for those of bitmap trees. The plan has at most 256.
pub fn count_lines(p: &Plan) -> u32
    requires few { line_count (plan p.now) ≤ MOST_LINES }
    ensures { result ≡ line_count (plan p.now) }
{
    match p {
        Plan::Seq { .. } => 1,
        Plan::Index { .. } => 1,
        Plan::IndexOnly { .. } => 1,
        Plan::Bitmap { bits, .. } => 1 + lines_of_bits(bits),
        Plan::Sort { input, .. } => 1 + count_lines(input),
        Plan::Nest { outer, inner } => 1 + count_lines(outer) + count_lines(inner),
        Plan::Merge { outer, inner, .. } => 1 + count_lines(outer) + count_lines(inner),
    }
}

/// How many nodes of a plan have numbers: all but those of bitmap trees. The plan has at most 256 lines.
pub fn count_nodes(p: &Plan) -> usize
    requires few { line_count (plan p.now) ≤ MOST_LINES }
    ensures count { result ≡ nodes (plan p.now) }
    ensures few { result ≤ line_count (plan p.now) }
{
    match p {
        Plan::Seq { .. } => 1,
        Plan::Index { .. } => 1,
        Plan::IndexOnly { .. } => 1,
        Plan::Bitmap { .. } => 1,
        Plan::Sort { input, .. } => 1 + count_nodes(input),
        Plan::Nest { outer, inner } => 1 + count_nodes(outer) + count_nodes(inner),
        Plan::Merge { outer, inner, .. } => 1 + count_nodes(outer) + count_nodes(inner),
    }
}
