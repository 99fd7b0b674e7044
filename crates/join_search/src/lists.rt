//! The lists of classes by which two sets may be merged.

ghost use Rattle.std.specs.Prelude.{◌≡◌, ◌++◌, ◌∷◌, [], All, IfOk, OnOk, false, nat_eq};
ghost use Rattle.std.specs.List.{list_any};
ghost use Rattle.pg_base.specs.Sets.{has};
ghost use Rattle.pathkeys.specs.work.Finding.{class_numbers};
ghost use Rattle.plan_tree.specs.Space.{IsMergeList};
ghost use Rattle.join_search.specs.work.Merges.{lists_of, longer};
ghost use Rattle.join_search.specs.work.Outcomes.{HasEachMergeList, all_longer_by, first_four_joining, longer_by, numbers_with};

use catalog::Catalog;
use eq_classes::ClassNo;
use pathkeys::Keys;
use pg_base::{Memory, RelSet};
use plan_tree::classes_of;
use sql_query::Prepared;
use std::alloc::Global;

/// Puts a class that was found behind others. The error means out of memory.
fn add_found(out: &mut Vec<ClassNo>, class: Option<ClassNo>) -> Result<(), Memory>
    ensures { OnOk result (class_numbers out.new.items ≡ numbers_with out.old.items class) }
{
    if let Some(c) = class {
        out.push(c)?;
    }
    Ok(())
}

/// The first four joining classes of two sets. The error means out of memory.
fn joining(alloc: Global, q: &Prepared, a: RelSet, b: RelSet) -> Result<Vec<ClassNo>, Memory>
    ensures { IfOk result (λ v. class_numbers v.items ≡ first_four_joining q.now a b) }
{
    let four = classes_of(q).joining(a, b);
    let mut found = Vec::new(alloc);
    for n in 0..4 {
        add_found(&mut found, four[n])?;
    }
    Ok(found)
}

/// Whether a class is one of some.
fn is_among(classes: &[ClassNo], c: ClassNo) -> bool
    ensures { result ≡ list_any (nat_eq c.0) (class_numbers classes.now) }
{
    for k in classes {
        if c.0 == k.0 {
            return true;
        }
    }
    false
}

/// Whether a list has a class.
fn has_class(list: &Keys, c: ClassNo) -> bool
    ensures { result ≡ list_any (nat_eq c.0) list.now }
{
    is_among(list.items(), c)
}

/// Some classes, copied. The error means out of memory.
fn copied(alloc: Global, classes: &[ClassNo]) -> Result<Vec<ClassNo>, Memory>
    ensures { IfOk result (λ v. v.items ≡ classes.now) }
{
    let mut items = Vec::new(alloc);
    for k in classes {
        items.push(*k)?;
    }
    Ok(items)
}

/// A list with one more class, which it has not. The error means out of memory.
fn with_class(alloc: Global, list: &Keys, c: ClassNo) -> Result<Keys, Memory>
    requires new { list_any (nat_eq c.0) list.now ≡ false }
    ensures { IfOk result (λ ks. ks ≡ list.now ++ c.0 ∷ []) }
{
    let mut items = copied(alloc, list.items())?;
    items.push(c)?;
    Keys::from_slice(alloc, &items)
}

/// Puts behind some lists the list with one more class, where it has not the class. The error means out of memory.
fn add_one_longer(alloc: Global, c: ClassNo, list: &Keys, out: &mut Vec<Keys>) -> Result<(), Memory>
    ensures { OnOk result (out.new.items ≡ out.old.items ++ longer (c.0 ∷ []) list.now) }
{
    if has_class(list, c) {
        return Ok(());
    }
    let more = with_class(alloc, list, c)?;
    out.push(more)?;
    Ok(())
}

/// Puts behind some lists a list with one more class, each of some that it has not. The error means out of memory.
fn add_longer(
    alloc: Global,
    classes: &[ClassNo],
    list: &Keys,
    out: &mut Vec<Keys>,
) -> Result<(), Memory>
    ensures { OnOk result (out.new.items ≡ out.old.items ++ longer_by classes.now list.now) }
{
    for c in classes {
        add_one_longer(alloc, *c, list, out)?;
    }
    Ok(())
}

/// Puts behind some lists each of other lists with one more class, each of some that it has not. The error means out of memory.
fn add_all_longer(
    alloc: Global,
    classes: &[ClassNo],
    lists: &[Keys],
    out: &mut Vec<Keys>,
) -> Result<(), Memory>
    ensures { OnOk result (out.new.items ≡ out.old.items ++ all_longer_by classes.now lists.now) }
{
    for list in lists {
        add_longer(alloc, classes, list, out)?;
    }
    Ok(())
}

/// The list of the empty list alone. The error means out of memory.
fn no_classes(alloc: Global) -> Result<Vec<Keys>, Memory>
    ensures { IfOk result (λ v. v.items ≡ [] ∷ []) }
{
    let mut lists = Vec::new(alloc);
    lists.push(Keys::from_slice(alloc, &[])?)?;
    Ok(lists)
}

/// The lists of 1 to 3 different ones of some classes, in any order. The error means out of memory.
fn lists_among(alloc: Global, classes: &[ClassNo]) -> Result<Vec<Keys>, Memory>
    ensures { IfOk result (λ v. v.items ≡ lists_of (class_numbers classes.now)) }
{
    if classes.is_empty() {
        return Ok(Vec::new(alloc));
    }
    let none = no_classes(alloc)?;
    let mut ones = Vec::new(alloc);
    add_all_longer(alloc, classes, &none, &mut ones)?;
    let mut twos = Vec::new(alloc);
    add_all_longer(alloc, classes, &ones, &mut twos)?;
    let mut threes = Vec::new(alloc);
    add_all_longer(alloc, classes, &twos, &mut threes)?;
    ones.append(&mut twos)?;
    ones.append(&mut threes)?;
    Ok(ones)
}

/// The lists by which two sets may be merged: 1 to 3 different ones of their first four joining classes, in any order. The
/// error means out of memory.
pub(crate) fn merge_lists(
    alloc: Global,
    cat: &Catalog,
    q: &Prepared,
    a: RelSet,
    b: RelSet,
) -> Result<Vec<Keys>, Memory>
    ensures sound { IfOk result (λ v. All (IsMergeList cat.now q.now (has a.0) (has b.0)) v.items) }
    ensures complete { IfOk result (λ v. HasEachMergeList cat.now q.now a b v.items) }
{
    let classes = joining(alloc, q, a, b)?;
    lists_among(alloc, &classes)
}
