//! Paths made by hand.

use eq_classes::ClassNo;
use pathkeys::Keys;
use pg_base::{Memory, RelNo, RelSet};
use plan_tree::{Path, Plan};
use std::alloc::Global;

/// The list of class 3 alone, or of no class.
pub(crate) fn keys_of(alloc: Global, is_sorted: bool) -> Result<Keys, Memory> {
    if is_sorted {
        Keys::from_slice(alloc, &[ClassNo(3)])
    } else {
        Keys::from_slice(alloc, &[])
    }
}

/// A scan of relation 0 with these numbers, sorted by class 3 or not at all.
pub(crate) fn scan(
    alloc: Global,
    startup: u64,
    cost: u64,
    is_sorted: bool,
) -> Result<Path, Memory> {
    let keys = keys_of(alloc, is_sorted)?;
    Ok(Path {
        plan: Plan::Seq { rel: RelNo(0) },
        set: RelSet(1),
        param: RelSet(0),
        startup,
        cost,
        rows: 1,
        keys,
    })
}
