//! The keys of plans, place by place.

ghost use Rattle.std.specs.Prelude.{◌≡◌, ◌≤◌, ◌↔◌, IsTrue, Some, false, length, slice_get};
ghost use Rattle.eq_classes.specs.declared.classes.ClassNo.{ClassNo as Numbered};
ghost use Rattle.std.specs.Option.{option_map};
ghost use Rattle.catalog.specs.Contents.{IsIndex};
ghost use Rattle.pathkeys.specs.work.Finding.{class_numbers, is_class};
ghost use Rattle.plan_tree.specs.work.Costable.{IsCostable};
ghost use Rattle.plan_tree.specs.Keys as keys;
ghost use Rattle.plan_tree.specs.work.Views.{plan};
ghost use Rattle.plan_space.specs.work.PlanKeys.{KeysBeginWith, keys_of_scan, number_of_class};

use catalog::Catalog;
use eq_classes::ClassNo;
use pathkeys::index_key;
use pg_base::{IndexNo, RelNo, RelSet};
use plan_tree::{Plan, classes_of, range_of};
use sql_query::Prepared;

/// A scan of a relation by an index, where rows of the relations of a set are given.
#[derive(Drop)]
struct IndexScan {
    rel: RelNo,
    index: IndexNo,
    backward: bool,
    param: RelSet,
}

/// The class at place `n`, from 0, of the keys of a scan by an index.
fn scan_key(cat: &Catalog, q: &Prepared, s: &IndexScan, n: u8) -> Option<ClassNo>
    requires index { IsIndex cat.now s.now.index }
    ensures class { number_of_class result ≡ slice_get (keys_of_scan cat.now q.now s.now) n }
{
    if s.param.0 == 0 {
        index_key(
            cat,
            range_of(q),
            classes_of(q),
            s.index,
            s.rel,
            s.backward,
            n,
        )
    } else {
        None
    }
}

/// The class at place `n`, from 0, of a list.
fn list_key(keys: &[ClassNo], n: u8) -> Option<ClassNo>
    ensures class { number_of_class result ≡ slice_get (class_numbers keys.now) n }
{
    keys.get(n as usize).copied()
}

/// The class at place `n`, from 0, of the keys by which a plan's rows are sorted. None exactly where the list is not so
/// long. It takes no memory.
pub fn key_at(cat: &Catalog, q: &Prepared, p: &Plan, n: u8) -> Option<ClassNo>
    requires plan { IsCostable cat.now q.now (plan p.now) }
    ensures class { number_of_class result ≡ slice_get (keys.keys_of cat.now q.now (plan p.now)) n }
{
    match p {
        Plan::Seq { .. } => None,
        Plan::Index {
            rel,
            index,
            backward,
            param,
        }
        | Plan::IndexOnly {
            rel,
            index,
            backward,
            param,
        } => {
            let scan = IndexScan {
                rel: *rel,
                index: *index,
                backward: *backward,
                param: *param,
            };
            scan_key(cat, q, &scan, n)
        }
        Plan::Bitmap { .. } => None,
        Plan::Sort { keys, .. } => list_key(keys.items(), n),
        Plan::Nest { outer, .. } => key_at(cat, q, outer, n),
        Plan::Merge { outer, .. } => key_at(cat, q, outer, n),
    }
}

/// Whether a class was found, and is this one.
pub(crate) fn is_at(found: Option<ClassNo>, c: ClassNo) -> bool
    ensures { result ≡ is_class c.0 (option_map (λ (k : Numbered). k.0) found) }
{
    match found {
        Some(k) => c.0 == k.0,
        None => false,
    }
}

/// Whether the keys by which a plan's rows are sorted begin with a list of at most 255 classes. It takes no memory.
pub fn keys_begin_with(cat: &Catalog, q: &Prepared, p: &Plan, list: &[ClassNo]) -> bool
    requires plan { IsCostable cat.now q.now (plan p.now) }
    requires few { length list.now ≤ 255 }
    ensures covered { IsTrue result ↔ KeysBeginWith cat.now q.now (plan p.now) list.now }
{
    for n in 0..list.len() {
        if !is_at(key_at(cat, q, p, n as u8), list[n]) {
            return false;
        }
    }
    true
}
