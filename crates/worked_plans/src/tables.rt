//! Fronts put into a table, and found there.

use crate::made::scan;
use join_search::Table;
use pareto::Front;
use pg_base::{Memory, RelSet};
use plan_tree::Path;
use std::alloc::Global;

/// A front of one scan of this cost.
fn front_of(alloc: Global, cost: u64) -> Result<Front<Path>, Memory> {
    let path = scan(alloc, 0, cost, false)?;
    let mut front = Front::new(alloc);
    let _ = front.offer(path);
    Ok(front)
}

/// Puts such a front into a table, and says whether it took it.
fn put(
    alloc: Global,
    table: &mut Table,
    set: RelSet,
    param: RelSet,
    cost: u64,
) -> Result<bool, Memory> {
    let front = front_of(alloc, cost)?;
    Ok(table.put(set, param, front).is_ok())
}

/// The cost of the first path at a place, 0 where there is none.
fn cost_at(table: &Table, set: RelSet, param: RelSet) -> u64 {
    match table.front(set, param) {
        Some(front) => match front.items() {
            [first, ..] => first.cost,
            [] => 0,
        },
        None => 0,
    }
}

/// Fronts that are put, each of a scan of this cost.
const ROUNDS: [(RelSet, RelSet, u64); 4] = [
    (RelSet(1), RelSet(0), 5),
    (RelSet(2), RelSet(0), 6),
    (RelSet(2), RelSet(1), 7),
    (RelSet(1), RelSet(0), 8),
];

/// The place of the first front that is not put, or not found then.
fn first_lost(alloc: Global, table: &mut Table, rows: &[(RelSet, RelSet, u64)]) -> Option<usize> {
    for n in 0..rows.len() {
        let (set, param, cost) = rows[n];
        if put(alloc, table, set, param, cost) != Ok(true) || cost_at(table, set, param) != cost {
            return Some(n);
        }
    }
    None
}

#[test]
fn a_table_has_what_was_last_put(rt: HostRuntime) {
    let mut table = Table::new(rt.alloc());
    assert_eq!(rt; first_lost(rt.alloc(), &mut table, &ROUNDS), None);
    assert_eq!(rt; cost_at(&table, RelSet(1), RelSet(0)), 8);
    assert_eq!(rt; cost_at(&table, RelSet(2), RelSet(0)), 6);
    assert_eq!(rt; cost_at(&table, RelSet(2), RelSet(1)), 7);
    assert_eq!(rt; table.front(RelSet(3), RelSet(0)).is_none(), true);
}
