//! Plans with numbers compared with a text.

ghost use Rattle.std.specs.Prelude.{◌≡◌, ◌≤◌, ◌++◌, IfSome};
ghost use Rattle.plan_tree.specs.work.Views.{plan};
ghost use Rattle.sql_query.specs.WellBound.{IsWellBound};
ghost use Rattle.plan_lines.specs.HasText.{IsText};
ghost use Rattle.plan_reader.specs.Written.{Fits, StandsAt, figures_with, line_with};
ghost use Rattle.plan_reader.specs.work.Compared.{GivesBoth, GivesFitting, IsBehindLine, LeavesBoth};

use catalog::Catalog;
use plan_lines::{behind, behind_bits, behind_lead, behind_number, behind_title};
use plan_tree::Plan;
use sql_query::Prepared;

/// What stands behind the numbers of a node. None where a text does not begin with them, or one has more than 19 digits.
fn behind_numbers(text: &[u8], n: (u64, u64)) -> Option<&[u8]>
    ensures is { IfSome result (λ l. Fits n × (text.now ≡ figures_with n ++ l.now)) }
    ensures only { GivesFitting n (figures_with n) text.now result }
{
    let (cost, rows) = n;
    let left = behind_number(behind(text, b"  (cost=")?, cost)?;
    let left = behind_number(behind(left, b" rows=")?, rows)?;
    behind(left, b")\n")
}

/// What stands behind the first line of a plan at a depth, with numbers.
fn behind_line<'a>(
    text: &'a [u8],
    cat: &Catalog,
    q: &Prepared,
    depth: u8,
    p: &Plan,
    n: (u64, u64),
) -> Option<&'a [u8]>
    requires bound { IsWellBound cat.now q.now }
    requires has { IsText cat.now q.now (plan p.now) }
    ensures is { IfSome result (IsBehindLine cat.now q.now depth (plan p.now) n text.now) }
    ensures only { GivesFitting n (line_with cat.now q.now depth (plan p.now) n) text.now result }
{
    let left = behind_title(behind_lead(text, depth)?, cat, q, p)?;
    behind_numbers(left, n)
}

/// What stands behind the lines of a plan whose first stands at a depth, with the first of these numbers, a pair for each node;
/// and the numbers that are left. None where a text does not begin with them.
#[cycle(behind_plan)]
pub(crate) fn behind_plan<'a>(
    text: &'a [u8],
    cat: &Catalog,
    q: &Prepared,
    depth: u8,
    p: &Plan,
    numbers: &'a [(u64, u64)],
) -> Option<(&'a [u8], &'a [(u64, u64)])>
    requires bound { IsWellBound cat.now q.now }
    requires has { IsText cat.now q.now (plan p.now) }
    requires stands { StandsAt depth (plan p.now) }
    ensures is { IfSome result (LeavesBoth cat.now q.now depth (plan p.now) text.now numbers.now) }
    ensures only { GivesBoth cat.now q.now depth (plan p.now) text.now numbers.now result }
{
    let (first, numbers) = numbers.split_first()?;
    let left = behind_line(text, cat, q, depth, p, *first)?;
    match p {
        Plan::Seq { .. } => Some((left, numbers)),
        Plan::Index { .. } => Some((left, numbers)),
        Plan::IndexOnly { .. } => Some((left, numbers)),
        Plan::Bitmap { bits, .. } => {
            let left = behind_bits(left, cat, q, depth + 1, bits)?;
            Some((left, numbers))
        }
        Plan::Sort { input, .. } => behind_plan(left, cat, q, depth + 1, input, numbers),
        Plan::Nest { outer, inner } => {
            let (left, numbers) = behind_plan(left, cat, q, depth + 1, outer, numbers)?;
            behind_plan(left, cat, q, depth + 1, inner, numbers)
        }
        Plan::Merge { outer, inner, .. } => {
            let (left, numbers) = behind_plan(left, cat, q, depth + 1, outer, numbers)?;
            behind_plan(left, cat, q, depth + 1, inner, numbers)
        }
    }
}
