//! The order in which entries are printed.

ghost use Rattle.std.specs.Prelude.{◌≡◌, OnOk, map};
ghost use Rattle.std.specs.Cmp.Lexicographic.{slice_cmp};
ghost use Rattle.std.specs.List.Sorted.{IsPermutation};
ghost use Rattle.std.specs.Ordering.{nat_cmp};
ghost use Rattle.heap.specs.Tuples.{relation_count};
ghost use Rattle.pathkeys.specs.work.Finding.{class_numbers};
ghost use Rattle.pg_value.specs.Sorting.{IsInOrder};
ghost use Rattle.plan_tree.specs.work.Views.{path};
ghost use Rattle.certificate_laws.specs.work.Printing.{path_order};
ghost use Rattle.planned_table.specs.work.Gathering.{shown};

use eq_classes::ClassNo;
use pg_base::{Memory, RelNo, RelSet};
use plan_tree::Path;
use std::cmp::Ordering;

/// How many relations a set has.
pub(crate) fn size(set: RelSet) -> usize
    ensures { result ≡ relation_count set }
{
    let mut members = 0;
    for k in 0..16 {
        if set.has(RelNo(k)) {
            members += 1;
        }
    }
    members
}

/// Two key lists by the numbers of their classes, place by place.
fn compare_keys(a: &[ClassNo], b: &[ClassNo]) -> Ordering
    ensures { result ≡ slice_cmp nat_cmp (class_numbers a.now) (class_numbers b.now) }
{
    for n in 0..a.len() {
        if n == b.len() {
            return Ordering::Greater;
        }
        let order = a[n].0.cmp(&b[n].0);
        if order.is_ne() {
            return order;
        }
    }
    if a.len() < b.len() {
        Ordering::Less
    } else {
        Ordering::Equal
    }
}

/// Two paths in the order of printing.
fn compare(a: &Path, b: &Path) -> Ordering
    ensures { result ≡ path_order (path a.now) (path b.now) }
{
    let sizes = size(a.set).cmp(&size(b.set));
    let sets = a.set.0.cmp(&b.set.0);
    let params = a.param.0.cmp(&b.param.0);
    let costs = a.cost.cmp(&b.cost);
    let startups = a.startup.cmp(&b.startup);
    let keys = compare_keys(a.keys.items(), b.keys.items());
    sizes.then(sets.then(params.then(costs.then(startups.then(keys)))))
}

/// Brings paths into the order of printing. The error means out of memory.
pub(crate) fn sort_paths(listed: &mut Vec<&Path>) -> Result<(), Memory>
    ensures same { IsPermutation (shown listed.old.items) (shown listed.new.items) }
    ensures ordered { OnOk result (IsInOrder path_order (shown listed.new.items)) }
{
    listed.sort_by(|a, b| compare(a, b))?;
    Ok(())
}
