//! The lines of groups in the end.

ghost use Rattle.std.specs.Prelude.{◌≡◌, map, IfOk, OnOk};
ghost use Rattle.group_values.specs.Groups.{line, lines_of_groups, sorted};
ghost use Rattle.group_values.specs.work.Grouping.{final_shape};

use crate::{Kept, Lines, Shape, Shown, Sorter, compare};
use pg_base::Memory;
use std::alloc::Global;

/// The line of each group, in their order or sorted. The error means out of memory.
pub(crate) fn final_lines(
    alloc: Global,
    shape: &Shape,
    sort_after: bool,
    mut groups: Vec<Kept>,
) -> Result<Lines, Memory>
    ensures { IfOk result (λ l. l ≡ lines_of_groups (final_shape sort_after shape.now) groups.items) }
{
    if !sort_after {
        return lines_in_order(alloc, &shape.items, &groups);
    }
    sort_groups(&shape.order, &mut groups)?;
    lines_in_order(alloc, &shape.items, &groups)
}

/// Sorts groups by the items of ORDER BY. Those that tie keep their places. The error means out of memory.
fn sort_groups(order: &[Sorter], groups: &mut Vec<Kept>) -> Result<(), Memory>
    ensures { OnOk result (groups.new.items ≡ sorted order.now groups.old.items) }
{
    groups.sort_by(|a, b| compare(order, a, b))?;
    Ok(())
}

/// The line of each group. The error means out of memory.
fn lines_in_order(alloc: Global, items: &[Shown], groups: &[Kept]) -> Result<Lines, Memory>
    ensures { IfOk result (λ l. l ≡ map (line items.now) groups.now) }
{
    let mut lines = Vec::new(alloc);
    for group in groups {
        lines.push(group.line(alloc, items)?)?;
    }
    Ok(Lines::from_vec(lines))
}
