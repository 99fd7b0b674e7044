//! What is wrong with a written plan.

ghost use Rattle.std.specs.Prelude.{◌≡◌, ◌<◌, ◌≤◌, IfNone, IfSome, length};
ghost use Rattle.plan_tree.specs.work.Costable.{IsCostable};
ghost use Rattle.plan_tree.specs.work.Costs.{HaveRows};
ghost use Rattle.plan_tree.specs.Least.{IsAdmissible};
ghost use Rattle.plan_tree.specs.work.Reads.{IsOverTables};
ghost use Rattle.plan_tree.specs.Space.{IsBuilt, IsFinished};
ghost use Rattle.plan_tree.specs.work.Views.{plan};
ghost use Rattle.plan_space.specs.Judging.{IsJudged, unsorted};
ghost use Rattle.plan_space.specs.work.Judging.{IsWrong, NamesWrong};
ghost use Rattle.plan_space.specs.Numbered.{line_count, nodes, own_numbers};
ghost use Rattle.plan_space.specs.declared.lines.TheConstants.{MOST_LINES};

use crate::numbers::Written;
use crate::outside::first_outside;
use crate::own::{Node, node_at};
use crate::validate;
use catalog::Catalog;
use cost_rules::MOST_COST;
use plan_tree::{Plan, cost};
use sql_query::Prepared;

/// What is wrong with a written plan.
#[derive(Clone, Copy)]
pub enum Judged {
    /// Nothing: it is a finished plan below the limit of costs, and its numbers are its own.
    Good,
    /// The plan is no finished plan of the plan space.
    Outside {
        /// The line of the first node that is in no plan of the space, children before parents and outer sides before inner
        /// ones; 1 where there is none.
        line: u32,
    },
    /// The plan costs 10^18 or more.
    Limit,
    /// A number is not the node's own.
    Number {
        /// The first line from the top with such a number.
        line: u32,
        /// Whether it is the cost; else the cost is the node's own, and the rows are not.
        is_cost: bool,
        /// The number that is written.
        printed: u64,
        /// The node's own.
        own: u64,
    },
}

/// A wrong number of a node. None where both are its own.
fn wrong_pair(pair: (u64, u64), node: Node) -> Option<Judged>
    ensures none { IfNone result (pair ≡ (node.cost, node.rows)) }
    ensures some { IfSome result (IsWrong node.line pair (node.cost, node.rows)) }
{
    let (cost, rows) = pair;
    if cost != node.cost {
        return Some(Judged::Number {
            line: node.line,
            is_cost: true,
            printed: cost,
            own: node.cost,
        });
    }
    if rows != node.rows {
        return Some(Judged::Number {
            line: node.line,
            is_cost: false,
            printed: rows,
            own: node.rows,
        });
    }
    None
}

/// The first wrong number of a plan, from the top. None where all are its own.
fn first_wrong(cat: &Catalog, q: &Prepared, p: &Plan, numbers: &[(u64, u64)]) -> Option<Judged>
    requires query { IsOverTables cat.now q.now }
    requires rows { HaveRows cat.now q.now }
    requires costable { IsCostable cat.now q.now (plan p.now) }
    requires admissible { IsAdmissible cat.now q.now (plan p.now) }
    requires few { line_count (plan p.now) ≤ MOST_LINES }
    requires count { length numbers.now ≡ nodes (plan p.now) }
    ensures none { IfNone result (numbers.now ≡ own_numbers cat.now q.now (plan p.now)) }
    ensures some { IfSome result (NamesWrong cat.now q.now (plan p.now) numbers.now) }
{
    for place in 0..numbers.len() {
        let node = node_at(cat, q, p, place);
        match wrong_pair(numbers[place], node) {
            Some(wrong) => return Some(wrong),
            None => {}
        }
    }
    None
}

/// What is wrong with a finished plan.
fn judge_finished(cat: &Catalog, q: &Prepared, p: &Plan, numbers: &[(u64, u64)]) -> Judged
    requires query { IsOverTables cat.now q.now }
    requires finished { IsFinished cat.now q.now (plan p.now) }
    requires few { line_count (plan p.now) ≤ MOST_LINES }
    requires count { length numbers.now ≡ nodes (plan p.now) }
    ensures { IsJudged cat.now q.now (plan p.now) numbers.now result }
{
    cat.lawful();
    if cost(cat, q, p).total == MOST_COST {
        return Judged::Limit;
    }
    match first_wrong(cat, q, p, numbers) {
        Some(wrong) => wrong,
        None => Judged::Good,
    }
}

/// What is wrong with a plan that is one of the plan space but for the sorts on its top.
fn judge_built(cat: &Catalog, q: &Prepared, p: &Plan, numbers: &[(u64, u64)]) -> Judged
    requires query { IsOverTables cat.now q.now }
    requires built { IsBuilt cat.now q.now (unsorted (plan p.now)) }
    requires few { line_count (plan p.now) ≤ MOST_LINES }
    requires count { length numbers.now ≡ nodes (plan p.now) }
    ensures { IsJudged cat.now q.now (plan p.now) numbers.now result }
{
    if !validate(cat, q, p) {
        return Judged::Outside { line: 1 };
    }
    judge_finished(cat, q, p, numbers)
}

/// What is wrong with a plan and its numbers.
fn judge_plan(cat: &Catalog, q: &Prepared, p: &Plan, numbers: &[(u64, u64)]) -> Judged
    requires query { IsOverTables cat.now q.now }
    requires few { line_count (plan p.now) ≤ MOST_LINES }
    requires count { length numbers.now ≡ nodes (plan p.now) }
    ensures { IsJudged cat.now q.now (plan p.now) numbers.now result }
{
    match first_outside(cat, q, p, 1) {
        Some(line) => Judged::Outside { line },
        None => judge_built(cat, q, p, numbers),
    }
}

/// What is wrong with a written plan, in this order: it is no finished plan of the plan space, it costs 10^18 or more, a
/// number is not the node's own. Its printed form has at most 256 lines, and there is a pair of numbers for each of its
/// nodes; it may be any tree by any relations, indexes and classes. It takes no memory.
pub fn judge(cat: &Catalog, q: &Prepared, w: &Written) -> Judged
    requires query { IsOverTables cat.now q.now }
    requires few { line_count (plan w.now.plan) ≤ MOST_LINES }
    requires count { length w.now.numbers ≡ nodes (plan w.now.plan) }
    ensures judged { IsJudged cat.now q.now (plan w.now.plan) w.now.numbers result }
{
    judge_plan(cat, q, &w.plan, w.numbers.items())
}
