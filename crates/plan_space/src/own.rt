//! The numbers that are a plan's own, node by node.

ghost use Rattle.std.specs.Prelude.{◌≡◌, ◌≢◌, ◌<◌, ◌≤◌, ◌+◌, get_or};
ghost use Rattle.plan_tree.specs.work.Costable.{IsCostable};
ghost use Rattle.plan_tree.specs.work.Costs.{HaveRows};
ghost use Rattle.plan_tree.specs.Least.{IsAdmissible};
ghost use Rattle.plan_tree.specs.work.Reads.{IsOverTables};
ghost use Rattle.plan_tree.specs.work.Views.{plan};
ghost use Rattle.plan_space.specs.work.Parts.{IsFoundIn};
ghost use Rattle.plan_space.specs.Numbered.{line_count, lines_from, nodes, own_pair};
ghost use Rattle.plan_space.specs.work.Numbered.{own_numbers_at};
ghost use Rattle.plan_space.specs.declared.lines.TheConstants.{MOST_LINES};

use crate::lines::{count_lines, count_nodes};
use catalog::Catalog;
use plan_tree::{Plan, cost, estimate};
use sql_query::Prepared;

/// What a plan costs in all, and its estimated rows.
fn pair_of(cat: &Catalog, q: &Prepared, p: &Plan) -> (u64, u64)
    requires query { IsOverTables cat.now q.now }
    requires costable { IsCostable cat.now q.now (plan p.now) }
    requires admissible { IsAdmissible cat.now q.now (plan p.now) }
    ensures { result ≡ own_pair cat.now q.now (plan p.now) }
{
    (cost(cat, q, p).total, estimate(cat, q, p))
}

/// A node of a plan: the line in which it stands, and its own numbers.
#[derive(Clone, Copy)]
pub(crate) struct Node {
    pub(crate) line: u32,
    pub(crate) cost: u64,
    pub(crate) rows: u64,
}

/// The first node of a plan, which stands in line `at`.
fn root_of(cat: &Catalog, q: &Prepared, p: &Plan, at: u32) -> Node
    requires query { IsOverTables cat.now q.now }
    requires costable { IsCostable cat.now q.now (plan p.now) }
    requires admissible { IsAdmissible cat.now q.now (plan p.now) }
    ensures line { result.line ≡ at }
    ensures own { (result.cost, result.rows) ≡ own_pair cat.now q.now (plan p.now) }
{
    let (cost, rows) = pair_of(cat, q, p);
    Node {
        line: at,
        cost,
        rows,
    }
}

/// A plan within another, the line in which it begins, and the place of a node in it, from 0, the root first and an outer side
/// before an inner.
#[derive(Clone, Copy)]
struct Part<'a> {
    plan: &'a Plan,
    at: u32,
    place: usize,
}

/// The child of a plan in which the node of a place stands, where that is not the root; the root stands in line `at`.
fn child_of(p: &Plan, at: u32, place: usize) -> Part<'_>
    requires few { at + line_count (plan p.now) ≤ MOST_LINES + 1 }
    requires below { place ≢ 0 }
    requires within { place < nodes (plan p.now) }
    ensures part { IsFoundIn (plan p.now) at place result }
    ensures less { result.place < place }
{
    match p {
        Plan::Seq { .. } => unreachable!(),
        Plan::Index { .. } => unreachable!(),
        Plan::IndexOnly { .. } => unreachable!(),
        Plan::Bitmap { .. } => unreachable!(),
        Plan::Sort { input, .. } => Part {
            plan: input,
            at: at + 1,
            place: place - 1,
        },
        Plan::Nest { outer, inner } => {
            let before = count_nodes(outer);
            if place - 1 < before {
                Part {
                    plan: outer,
                    at: at + 1,
                    place: place - 1,
                }
            } else {
                Part {
                    plan: inner,
                    at: at + 1 + count_lines(outer),
                    place: place - 1 - before,
                }
            }
        }
        Plan::Merge { outer, inner, .. } => {
            let before = count_nodes(outer);
            if place - 1 < before {
                Part {
                    plan: outer,
                    at: at + 1,
                    place: place - 1,
                }
            } else {
                Part {
                    plan: inner,
                    at: at + 1 + count_lines(outer),
                    place: place - 1 - before,
                }
            }
        }
    }
}

/// The node at a place of a plan, from 0, the root first and an outer side before an inner.
pub(crate) fn node_at(cat: &Catalog, q: &Prepared, p: &Plan, place: usize) -> Node
    requires query { IsOverTables cat.now q.now }
    requires rows { HaveRows cat.now q.now }
    requires costable { IsCostable cat.now q.now (plan p.now) }
    requires admissible { IsAdmissible cat.now q.now (plan p.now) }
    requires few { line_count (plan p.now) ≤ MOST_LINES }
    requires within { place < nodes (plan p.now) }
    ensures line { result.line ≡ get_or (lines_from 1 (plan p.now)) place 0 }
    ensures own { (result.cost, result.rows) ≡ own_numbers_at cat.now q.now (plan p.now) place }
{
    let mut part = Part {
        plan: p,
        at: 1,
        place,
    };
    'parts: while part.place != 0 {
        part = child_of(part.plan, part.at, part.place);
    }
    root_of(cat, q, part.plan, part.at)
}
