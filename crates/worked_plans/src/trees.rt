//! Paths compared, and plans copied.

use crate::made::scan;
use pareto::Ranked;
use pg_base::{IndexNo, Memory, RelNo, RelSet};
use plan_tree::{BitTree, Path, Plan};
use std::alloc::Global;

/// The numbers of a scan, and whether it is sorted.
type Made = (u64, u64, bool);

/// Two scans, and whether the first is at most the second.
const COMPARED: [(Made, Made, bool); 6] = [
    ((0, 9, false), (0, 9, false), true),
    ((0, 8, false), (0, 9, false), true),
    ((0, 9, false), (0, 8, false), false),
    ((5, 8, false), (4, 9, false), false),
    ((0, 9, true), (0, 9, false), true),
    ((0, 9, false), (0, 9, true), false),
];

/// Whether a path is at most a scan of this parameterisation; none when memory runs out.
fn is_at_most(alloc: Global, one: &Path, other: Made, param: RelSet) -> Option<bool> {
    match scan(alloc, other.0, other.1, other.2) {
        Ok(mut path) => {
            path.param = param;
            Some(one.at_most(&path))
        }
        Err(_) => None,
    }
}

/// Whether a scan is at most another one of this parameterisation.
fn at_most(alloc: Global, one: Made, other: Made, param: RelSet) -> Option<bool> {
    match scan(alloc, one.0, one.1, one.2) {
        Ok(path) => is_at_most(alloc, &path, other, param),
        Err(_) => None,
    }
}

/// The place of the first two scans that compare otherwise.
fn first_other(alloc: Global, rows: &[(Made, Made, bool)]) -> Option<usize> {
    for n in 0..rows.len() {
        let (one, other, is) = rows[n];
        if at_most(alloc, one, other, RelSet(0)) != Some(is) {
            return Some(n);
        }
    }
    None
}

#[test]
fn paths_compare_in_each_number_and_by_prefix(rt: HostRuntime) {
    assert_eq!(rt; first_other(rt.alloc(), &COMPARED), None);
    let parameterised = at_most(rt.alloc(), (0, 1, false), (0, 1, false), RelSet(2));
    assert_eq!(rt; parameterised, Some(false));
}

/// A nested loop over a bitmap scan by an OR of two arms.
fn nested(alloc: Global) -> Result<Plan, Memory> {
    let arms = Vec::from_slice(alloc, &[IndexNo(4), IndexNo(7)])?;
    let inner = Plan::Bitmap {
        rel: RelNo(1),
        param: RelSet(1),
        bits: BitTree::Or(2, arms),
    };
    let inner = Box::new(alloc, inner)?;
    let outer = Box::new(alloc, Plan::Seq { rel: RelNo(0) })?;
    Ok(Plan::Nest { outer, inner })
}

/// The clause of such an OR and the number of its arms, together; 0 of any other plan.
fn shown(p: &Plan) -> usize {
    let Plan::Nest { inner, .. } = p else {
        return 0;
    };
    match &**inner {
        Plan::Bitmap {
            bits: BitTree::Or(clause, arms),
            ..
        } => usize::from(*clause) + arms.len(),
        _ => 0,
    }
}

#[test]
fn copies_have_the_same_tree(rt: HostRuntime) {
    let nest = nested(rt.alloc()).expect(&rt, "ample memory");
    let copied = nest.copy(rt.alloc()).expect(&rt, "ample memory");
    assert_eq!(rt; shown(&copied), 4);
}
