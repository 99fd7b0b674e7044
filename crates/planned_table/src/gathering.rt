//! The paths of a table's fronts in one list.

ghost use Rattle.std.specs.Prelude.{◌≡◌, ◌≤◌, ◌+◌, ◌++◌, IfOk, OnOk, map};
ghost use Rattle.pg_base.specs.Sets.{has};
ghost use Rattle.eq_classes.specs.Clauses.{one};
ghost use Rattle.plan_tree.specs.Space.{IsSameSet};
ghost use Rattle.plan_tree.specs.work.Views.{path};
ghost use Rattle.join_search.specs.work.Tables.{paths_at};
ghost use Rattle.planned_table.specs.work.Gathering.{AreGathered, AreUnrelated, IsBelow, IsWholeBelow, StandAtTheirs, shown};

use join_search::Table;
use pg_base::{Memory, RelNo, RelSet};
use plan_tree::Path;
use std::alloc::Global;

/// The paths of the front at a set and a parameterisation, lent.
fn front_paths(table: &Table, s: RelSet, p: RelSet) -> &[Path]
    ensures paths { map path result.now ≡ paths_at table.now s p }
    ensures unrelated { AreUnrelated (paths_at table.now s p) }
{
    match table.front(s, p) {
        Some(front) => front.items(),
        None => &[],
    }
}

/// Puts paths behind others. The error means out of memory.
fn add_paths<'a>(listed: &mut Vec<&'a Path>, paths: &'a [Path]) -> Result<(), Memory>
    ensures { OnOk result (shown listed.new.items ≡ shown listed.old.items ++ map path paths.now) }
{
    for kept in paths {
        listed.push(kept)?;
    }
    Ok(())
}

/// Puts the paths of the front at a set and a parameterisation behind others. The error means out of memory.
fn add_front<'a>(
    listed: &mut Vec<&'a Path>,
    table: &'a Table,
    s: RelSet,
    p: RelSet,
) -> Result<(), Memory>
    ensures added { OnOk result
        (shown listed.new.items ≡ shown listed.old.items ++ paths_at table.now s p) }
    ensures unrelated { AreUnrelated (paths_at table.now s p) }
{
    add_paths(listed, front_paths(table, s, p))
}

/// The paths of each set up to that of all relations, where they are given no rows. The error means out of memory.
fn whole_sets<'a>(alloc: Global, table: &'a Table, all: RelSet) -> Result<Vec<&'a Path>, Memory>
    requires places { StandAtTheirs (paths_at table.now) }
    ensures { IfOk result (λ listed.
        AreGathered (IsWholeBelow (all.0 + 1)) (paths_at table.now) (shown listed.items)) }
{
    let mut listed = Vec::new(alloc);
    for bits in 0..all.0 as u32 + 1 {
        add_front(&mut listed, table, RelSet(bits as u16), RelSet(0))?;
    }
    Ok(listed)
}

/// Puts the paths of a relation that are given rows of others behind the rest. The error means out of memory.
fn add_given<'a>(
    listed: &mut Vec<&'a Path>,
    table: &'a Table,
    r: RelNo,
    s: RelSet,
    all: RelSet,
) -> Result<(), Memory>
    requires places { StandAtTheirs (paths_at table.now) }
    requires set { IsSameSet (has s.0) (one r.0) }
    requires before { AreGathered (IsBelow all.0 r.0) (paths_at table.now)
        (shown listed.old.items) }
    ensures { OnOk result
        (AreGathered (IsBelow all.0 (r.0 + 1)) (paths_at table.now) (shown listed.new.items)) }
{
    for bits in 1..all.0 as u32 + 1 {
        add_front(listed, table, s, RelSet(bits as u16))?;
    }
    Ok(())
}

/// The paths of all fronts of so many relations, also those that are given rows. The error means out of memory.
pub(crate) fn gathered<'a>(
    alloc: Global,
    table: &'a Table,
    relations: usize,
    all: RelSet,
) -> Result<Vec<&'a Path>, Memory>
    requires places { StandAtTheirs (paths_at table.now) }
    requires few { relations ≤ 16 }
    ensures { IfOk result (λ listed.
        AreGathered (IsBelow all.0 relations) (paths_at table.now) (shown listed.items)) }
{
    let mut listed = whole_sets(alloc, table, all)?;
    for r in 0..relations {
        let r = RelNo(r as u8);
        add_given(&mut listed, table, r, RelSet::one(r), all)?;
    }
    Ok(listed)
}
