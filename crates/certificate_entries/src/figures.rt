//! Costs, rows and numbers of entries.

ghost use Rattle.std.specs.Prelude.{◌≡◌, ◌≤◌, IfSome, length, option_map};
ghost use Rattle.certificate_text.specs.HasText.{HasStartup, IsEntryNumber, IsWritable};
ghost use Rattle.certificate_entries.specs.work.Figures.{AreFigures, ReadsBoth, ReadsCost, ReadsFigures, ReadsTotal, ReadsTwo};

use crate::read_entry_number;
use certificate_text::LineCursor;
use sql_query::Prepared;

/// Two costs with two points between them.
fn read_both(at: &mut LineCursor) -> Option<(u64, u64)>
    ensures has { IfSome result (λ p. IsWritable p.0 × IsWritable p.1) }
    ensures only { ReadsBoth at.old at.new result }
{
    let startup = at.number()?;
    if !at.eat(b"..") {
        return None;
    }
    let total = at.number()?;
    Some((startup, total))
}

/// One cost: in all.
fn read_total(at: &mut LineCursor) -> Option<(u64, u64)>
    ensures has { IfSome result (λ p. (p.0 ≡ 0) × IsWritable p.1) }
    ensures only { ReadsTotal at.old at.new result }
{
    let total = at.number()?;
    Some((0, total))
}

/// What an entry costs before its first row, where the query has a window, and in all.
fn read_cost(at: &mut LineCursor, q: &Prepared) -> Option<(u64, u64)>
    ensures has { IfSome result (λ p. HasStartup q.now.window p.0 × IsWritable p.1) }
    ensures only { ReadsCost q.now.window at.old at.new result }
{
    match q.window {
        None => read_total(at),
        Some(_) => read_both(at),
    }
}

/// What an entry costs, and how many rows it is taken to give.
pub fn read_figures(at: &mut LineCursor, q: &Prepared) -> Option<(u64, u64, u64)>
    ensures has { IfSome result (λ p. AreFigures q.now.window p.0 p.1 p.2) }
    ensures only { ReadsFigures q.now.window at.old at.new result }
{
    if !at.eat(b" cost=") {
        return None;
    }
    let (startup, cost) = read_cost(at, q)?;
    if !at.eat(b" rows=") {
        return None;
    }
    let rows = at.number()?;
    Some((startup, cost, rows))
}

/// The numbers of two entries.
pub(crate) fn read_two(at: &mut LineCursor) -> Option<(u32, u32)>
    ensures has { IfSome result (λ p. IsEntryNumber p.0 × IsEntryNumber p.1) }
    ensures only { ReadsTwo at.old at.new result }
{
    let outer = read_entry_number(at)?;
    if !at.eat(b" ") {
        return None;
    }
    let inner = read_entry_number(at)?;
    Some((outer, inner))
}
