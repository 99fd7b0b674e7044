//! Paths offered one by one: which are kept, and which are reported as beaten.

use crate::made::{keys_of, scan};
use cost_rules::Pair;
use kept_paths::KeptPaths;
use pg_base::Memory;
use std::alloc::Global;

/// Offers a path of one scan.
fn offer(alloc: Global, kept: &mut KeptPaths, cost: u64, is_sorted: bool) -> Result<(), Memory> {
    let path = scan(alloc, 0, cost, is_sorted)?;
    kept.offer(alloc, path)
}

/// Whether a path that costs 10 is reported as beaten.
fn is_told(alloc: Global, kept: &KeptPaths, is_sorted: bool) -> Result<bool, Memory> {
    let keys = keys_of(alloc, is_sorted)?;
    let cost = Pair {
        startup: 0,
        total: 10,
    };
    kept.is_beaten(alloc, cost, &keys)
}

/// The cost and the order of a path that is offered, and whether an unsorted path that costs 10 is then reported as beaten, and
/// a sorted one.
type Round = (u64, bool, bool, bool);

const ROUNDS: [Round; 5] = [
    (12, false, false, false),
    (9, false, true, false),
    (11, true, true, false),
    (10, true, true, true),
    (8, true, true, true),
];

/// The cost of the first path after which something else is reported.
fn first_other(alloc: Global, kept: &mut KeptPaths, rounds: &[Round]) -> Option<u64> {
    for (cost, is_sorted, plain, sorted) in rounds {
        if offer(alloc, kept, *cost, *is_sorted).is_err()
            || is_told(alloc, kept, false) != Ok(*plain)
            || is_told(alloc, kept, true) != Ok(*sorted)
        {
            return Some(*cost);
        }
    }
    None
}

#[test]
fn what_is_beaten_is_told(rt: HostRuntime) {
    let mut kept = KeptPaths::new(rt.alloc());
    assert_eq!(rt; first_other(rt.alloc(), &mut kept, &ROUNDS), None);
    let front = kept.into_front(rt.alloc()).expect(&rt, "ample memory");
    assert_eq!(rt; front.items().len(), 1);
}
