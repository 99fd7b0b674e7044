//! The groups of the tuples that a plan gives, which are drawn one by one.

ghost use Rattle.std.specs.Prelude.{◌≡◌, ◌+◌, ◌*◌, ◌≤◌, ◌<◌, ◌^◌, ◌++◌, ◌∷◌, [], List, All, IfOk, OnOk, length};
ghost use Rattle.plan_tree.specs.Counts.{MOST_READS};
ghost use Rattle.executor.specs.work.Numbers.{IsTupleOf, numbers};
ghost use Rattle.group_explain.specs.reply_Settings.{IsSetting, world_of};
ghost use Rattle.group_values.specs.Groups.{Seen, lines};
ghost use Rattle.group_values.specs.work.Steps.{IsLastAlone};
ghost use Rattle.group_values.specs.work.Grouping.{AreOf, final_shape, with_groups};
ghost use Rattle.group_values.specs.work.Neighbours.{AreTogether};
ghost use Rattle.group_values.specs.declared.form.Form.TheVariants.{Sorted};
ghost use Rattle.group_query.specs.Shapes.{args_of, calls_of};
ghost use Rattle.group_reply.specs.work.Columns.{AreColumnsSeen, AreSeenOf, all_seen_by, seen_by};
ghost use Rattle.group_reply.specs.work.Drawing.{final_lines, seen_all};

use crate::columns::{Columns, args_in, keys_in};
use executor::Rows;
use group_explain::reply::{Setting, rows_at};
use group_query::{call_columns, shape_of};
use group_values::{GroupPlan, Groups, Lines, neighbours_are_of_the_last_group};
use heap::Counters;
use pg_base::{Memory, Steps, Tid};
use sql_query::Grouped;

/// Draws all tuples that are still to come, and gives the lines of their groups. Each relation's row is looked at once for each
/// tuple. The error means out of memory.
pub(crate) fn draw_lines<C: Counters>(
    at: &Setting<C>,
    g: &Grouped,
    plan: GroupPlan,
    rows: &mut Rows<C>,
    fetches: &mut Steps<C::Fetches>,
    reads: &mut Steps<C::Looks>,
) -> Result<Lines, Memory>
    requires setting { IsSetting at.now }
    requires tuples { All (IsTupleOf (world_of at.now) at.now.q.now) rows.old.left }
    requires seen { AreSeenOf at.now.cat.now at.now.q.now.range g.now.keys (args_of g.now.items) }
    requires few_keys { length g.now.keys < 2 ^ 32 }
    requires few_calls { length (calls_of g.now.items) < 2 ^ 32 }
    requires together { plan.form ≡ Sorted →
        AreTogether (seen_all (world_of at.now) at.now.q.now g.now rows.old.left) }
    ensures lines { IfOk result (λ l.
        l ≡ final_lines g.now plan (seen_all (world_of at.now) at.now.q.now g.now rows.old.left)) }
    ensures fetches { OnOk result (fetches.new ≡ fetches.old + rows.old.owed) }
    ensures fewer { fetches.new ≤ fetches.old + rows.old.owed }
    ensures reads { reads.new ≤ reads.old + (rows.old.allowed + MOST_READS * length rows.old.left) }
{
    let shape = shape_of(at.alloc, g)?;
    let args = call_columns(at.alloc, g)?;
    let groups = Groups::new(at.alloc, shape, plan.form, plan.sort_after)?;
    let columns = Columns {
        keys: g.keys.items(),
        args: &args,
    };
    group_lines(at, &columns, groups, rows, fetches, reads)
}

/// Has all tuples that are still to come join groups of none, and gives the lines of these.
fn group_lines<C: Counters>(
    at: &Setting<C>,
    columns: &Columns,
    mut groups: Groups,
    rows: &mut Rows<C>,
    fetches: &mut Steps<C::Fetches>,
    reads: &mut Steps<C::Looks>,
) -> Result<Lines, Memory>
    requires setting { IsSetting at.now }
    requires tuples { All (IsTupleOf (world_of at.now) at.now.q.now) rows.old.left }
    requires seen { AreColumnsSeen at.now.cat.now at.now.q.now.range columns.now }
    requires keys { length columns.now.keys.now ≡ groups.shape.width }
    requires args { length columns.now.args.now ≡ length groups.shape.calls }
    requires none { AreOf [] groups }
    requires together { groups.form ≡ Sorted →
        AreTogether (all_seen_by (world_of at.now) at.now.q.now columns.now rows.old.left) }
    ensures lines { IfOk result (λ l.
        l ≡ lines (final_shape groups.sort_after groups.shape)
        (all_seen_by (world_of at.now) at.now.q.now columns.now rows.old.left)) }
    ensures fetches { OnOk result (fetches.new ≡ fetches.old + rows.old.owed) }
    ensures fewer { fetches.new ≤ fetches.old + rows.old.owed }
    ensures reads { reads.new ≤ reads.old + (rows.old.allowed + MOST_READS * length rows.old.left) }
{
    push_all(at, columns, &mut groups, rows, fetches, reads)?;
    groups.finish()
}

/// Has all tuples that are still to come join groups of none.
fn push_all<C: Counters>(
    at: &Setting<C>,
    columns: &Columns,
    groups: &mut Groups,
    rows: &mut Rows<C>,
    fetches: &mut Steps<C::Fetches>,
    reads: &mut Steps<C::Looks>,
) -> Result<(), Memory>
    requires setting { IsSetting at.now }
    requires tuples { All (IsTupleOf (world_of at.now) at.now.q.now) rows.old.left }
    requires seen { AreColumnsSeen at.now.cat.now at.now.q.now.range columns.now }
    requires keys { length columns.now.keys.now ≡ groups.old.shape.width }
    requires args { length columns.now.args.now ≡ length groups.old.shape.calls }
    requires none { AreOf [] groups.old }
    requires together { groups.old.form ≡ Sorted →
        AreTogether (all_seen_by (world_of at.now) at.now.q.now columns.now rows.old.left) }
    ensures pushed { OnOk result
        (AreOf (all_seen_by (world_of at.now) at.now.q.now columns.now rows.old.left) groups.new) }
    ensures kept { groups.new ≡ with_groups groups.new.groups groups.old }
    ensures fetches { OnOk result (fetches.new ≡ fetches.old + rows.old.owed) }
    ensures fewer { fetches.new ≤ fetches.old + rows.old.owed }
    ensures reads { reads.new ≤ reads.old + (rows.old.allowed + MOST_READS * length rows.old.left) }
{
    neighbours_are_of_the_last_group();
    'drawn: while let Some(tuple) = rows.next(fetches, reads)? {
        push_tuple(at, columns, tuple.items(), groups, reads)?;
    }
    Ok(())
}

/// Has a tuple join the groups. Each relation's row is looked at once. If memory runs out, the groups are as before.
fn push_tuple<C: Counters>(
    at: &Setting<C>,
    columns: &Columns,
    tuple: &[Tid],
    groups: &mut Groups,
    reads: &mut Steps<C::Looks>,
) -> Result<(), Memory>
    requires setting { IsSetting at.now }
    requires tuple { IsTupleOf (world_of at.now) at.now.q.now (numbers tuple.now) }
    requires seen { AreColumnsSeen at.now.cat.now at.now.q.now.range columns.now }
    requires keys { length columns.now.keys.now ≡ groups.old.shape.width }
    requires args { length columns.now.args.now ≡ length groups.old.shape.calls }
    requires together { groups.old.form ≡ Sorted →
        IsLastAlone groups.old.groups
        (seen_by (world_of at.now) at.now.q.now columns.now (numbers tuple.now)).keys }
    ensures pushed { OnOk result
        ((ss : List Seen) → AreOf ss groups.old →
        AreOf (ss ++ seen_by (world_of at.now) at.now.q.now columns.now (numbers tuple.now) ∷ [])
        groups.new) }
    ensures kept { groups.new ≡ with_groups groups.new.groups groups.old }
    ensures reads { reads.new ≤ reads.old + MOST_READS }
{
    let rows = rows_at(at, tuple, reads)?;
    let keys = keys_in(at.alloc, columns.keys, &rows)?;
    let args = args_in(at.alloc, columns.args, &rows)?;
    groups.push(keys, args)
}
