//! A plan's text read and judged.

ghost use Rattle.std.specs.Prelude.{◌≡◌, ◌≤◌, ℕ, IfOk, List, codes, length};
ghost use Rattle.plan_space.specs.Numbered.{line_count, nodes};
ghost use Rattle.plan_space.specs.declared.lines.TheConstants.{MOST_LINES};
ghost use Rattle.plan_reader.specs.Written.{IsWritten};
ghost use Rattle.plan_reader.specs.declared.reading.WrittenFault.TheVariants.{P1};
ghost use Rattle.reply_text.specs.Texts as texts;
ghost use Rattle.plan_reply.specs.work.Told.{IsTold};
ghost use Rattle.plan_tree.specs.work.Views.{plan};
ghost use Rattle.sql_query.specs.WellBound.{IsWellBound};

use crate::lines::reason_text;
use crate::told::Told;
use catalog::Catalog;
use pg_base::Memory;
use plan_reader::{WrittenFault, read_plan};
use plan_space::{Written, judge};
use reply_text::invalid_line;
use sql_query::Prepared;
use std::alloc::{AllocError, Global};

/// What is answered for each block that is the text of this plan with these numbers. The error means out of memory.
fn told_by(alloc: Global, cat: &Catalog, q: &Prepared, w: Written) -> Result<Told, Memory>
    requires bound { IsWellBound cat.now q.now }
    requires few { line_count (plan w.plan) ≤ MOST_LINES }
    requires count { length w.numbers ≡ nodes (plan w.plan) }
    ensures { IfOk result (λ t. (block : List ℕ) →
        IsWritten cat.now q.now block (plan w.plan) w.numbers → IsTold cat.now q.now block t) }
{
    match reason_text(alloc, judge(cat, q, &w))? {
        Some(reason) => Ok(Told::Line(invalid_line(alloc, &reason)?)),
        None => Ok(Told::Plan(w.plan)),
    }
}

/// The line of a block that is the text of no plan. The error means out of memory.
fn unread_line(alloc: Global, fault: WrittenFault) -> Result<Vec<u8>, Memory>
    ensures { IfOk result (λ line. (fault ≡ P1) × (line.items ≡ texts.invalid_line (codes "P1"))) }
{
    match fault {
        WrittenFault::P1 => invalid_line(alloc, b"P1"),
        WrittenFault::Memory => Err(AllocError),
    }
}

/// What USE PLAN is to print of a block that is given for a plan of a query. The plan comes exactly where the block is the
/// printed text of a finished plan of the query below the limit of costs, with that plan's own numbers; else a line, `invalid:
/// ` and the first reason for which the plan is not run. In order: `P1`, the block is the text of no plan tree over the query;
/// `P2`, the plan is not finished, with the line of the first node that is in no plan of the plan space; `P4`, its cost is
/// 10^18 or more; `P3`, the first number from the top that is not its own, a line's cost before its rows. The condition is that
/// the query is bound to the catalogue. The error means out of memory.
pub fn judge_text(alloc: Global, cat: &Catalog, q: &Prepared, block: &[u8]) -> Result<Told, Memory>
    requires bound { IsWellBound cat.now q.now }
    ensures told { IfOk result (IsTold cat.now q.now block.now) }
{
    match read_plan(alloc, cat, q, block) {
        Ok(w) => told_by(alloc, cat, q, w),
        Err(fault) => Ok(Told::Line(unread_line(alloc, fault)?)),
    }
}
