//! The whole text of a plan.

ghost use Rattle.std.specs.Prelude.{◌≡◌, ◌↔◌, ℕ, IfErr, IfOk, IsTrue};
ghost use Rattle.plan_tree.specs.work.Views.{plan};
ghost use Rattle.sql_query.specs.WellBound.{IsWellBound};
ghost use Rattle.plan_lines.specs.HasText.{IsText};
ghost use Rattle.plan_reader.specs.Written.{IsWritten, StandsAt};
ghost use Rattle.plan_reader.specs.declared.reading.WrittenFault.TheVariants.{P1};
ghost use Rattle.plan_reader.specs.work.Nodes.{IsNoPlan, IsOnlyPlan};

use crate::compared::behind_plan;
use crate::nodes::read_node;
use crate::sizes::count_up;
use catalog::Catalog;
use plan_lines::Lines;
use plan_space::{MOST_LINES, Numbers, Written};
use plan_tree::Plan;
use sql_query::Prepared;
use std::alloc::{AllocError, Global};

/// Why no plan was read.
#[derive(Clone, Copy, Debug, PartialEq, Eq)]
pub enum WrittenFault {
    /// The block is the text of no plan tree.
    P1,
    /// Out of memory.
    Memory,
}

impl From<AllocError> for WrittenFault {
    ghost use Rattle.plan_reader.specs.declared.reading.WrittenFault.TheVariants.{Memory};

    ghost from_gives = { λ _ fault. fault ≡ Memory };

    fn from(_: AllocError) -> WrittenFault {
        WrittenFault::Memory
    }
}

/// Whether a block is the text of a plan with these numbers.
fn is_written(cat: &Catalog, q: &Prepared, block: &[u8], p: &Plan, numbers: &[(u64, u64)]) -> bool
    requires bound { IsWellBound cat.now q.now }
    requires has { IsText cat.now q.now (plan p.now) }
    requires stands { StandsAt 0 (plan p.now) }
    ensures { IsTrue result ↔ IsWritten cat.now q.now block.now (plan p.now) numbers.now }
{
    if count_up(p) > MOST_LINES {
        return false;
    }
    match behind_plan(block, cat, q, 0, p, numbers) {
        Some((left, more)) => left.is_empty() && more.is_empty(),
        None => false,
    }
}

/// A plan with numbers, where a block is its text.
fn checked(
    cat: &Catalog,
    q: &Prepared,
    block: &[u8],
    p: Plan,
    numbers: Vec<(u64, u64)>,
) -> Result<Written, WrittenFault>
    requires bound { IsWellBound cat.now q.now }
    requires has { IsText cat.now q.now (plan p) }
    requires stands { StandsAt 0 (plan p) }
    ensures read { IfOk result (λ w. IsWritten cat.now q.now block.now (plan w.plan) w.numbers) }
    ensures same { IfOk result (λ w. (plan w.plan ≡ plan p) × (w.numbers ≡ numbers.items)) }
    ensures none { IfErr result (λ e. ¬ IsWritten cat.now q.now block.now (plan p) numbers.items) }
{
    if is_written(cat, q, block, &p, &numbers) {
        Ok(Written {
            plan: p,
            numbers: Numbers::from_vec(numbers),
        })
    } else {
        Err(WrittenFault::P1)
    }
}

/// Reads a block as the printed text of a plan of a query, with any numbers. The condition is that the query is bound to the
/// catalogue. A plan tree with numbers comes exactly where the block is its text, and no other one has that text, or no such
/// tree with other numbers. Such a tree need not be a plan of the query: its relations, the relations whose rows its scans are
/// given, the tables of its indexes and the classes of its keys are those of the query, its OR clauses are conjuncts, its
/// deepest line is at most 64 levels deep, and it has at most 256 lines. A number has at most 19 digits, without leading zeros.
/// The reason is P1 where the block is the text of none.
pub fn read_plan(
    alloc: Global,
    cat: &Catalog,
    q: &Prepared,
    block: &[u8],
) -> Result<Written, WrittenFault>
    requires bound { IsWellBound cat.now q.now }
    ensures read { IfOk result (λ w. IsWritten cat.now q.now block.now (plan w.plan) w.numbers) }
    ensures only { IfOk result (λ w. IsOnlyPlan cat.now q.now block.now (plan w.plan) w.numbers) }
    ensures none { IfErr result (λ e. e ≡ P1 → IsNoPlan cat.now q.now block.now) }
{
    let mut at = Lines::new(block);
    let mut numbers = Vec::new(alloc);
    match read_node(alloc, &mut at, cat, q, 0, &mut numbers)? {
        Some(p) => checked(cat, q, block, p, numbers),
        None => Err(WrittenFault::P1),
    }
}
