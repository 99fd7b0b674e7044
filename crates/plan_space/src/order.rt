//! Which plans are in the order that a query asks for (PostgreSQL, src/backend/optimizer/README, PathKeys).

ghost use Rattle.std.specs.Prelude.{◌≡◌, ◌≤◌, ◌∷◌, ◌↔◌, [], IfNone, IfSome, IsTrue, MatchOption, false, length, nat_eq, true};
ghost use Rattle.std.specs.List.{list_any};
ghost use Rattle.pg_base.specs.declared.limits.TheConstants.{MOST_COLUMNS};
ghost use Rattle.eq_classes.specs.declared.classes.ClassNo.{ClassNo as Numbered};
ghost use Rattle.pathkeys.specs.work.Finding.{class_numbers};
ghost use Rattle.pathkeys.specs.Keys as lists;
ghost use Rattle.pathkeys.specs.work.Keys as lists_work;
ghost use Rattle.plan_tree.specs.work.Costable.{IsCostable};
ghost use Rattle.plan_tree.specs.Keys as keys;
ghost use Rattle.plan_tree.specs.Space.{IsBuilt, MeetsOrder};
ghost use Rattle.plan_tree.specs.work.Views.{plan};
ghost use Rattle.plan_space.specs.work.OrderKeys.{GoesOnPastClass, GoesOnPastItem, StopsAtClass, StopsAtItem, class_listed, classes_asked, is_order_begun, keys_asked};

use crate::keys::key_at;
use crate::sorts::sort_list;
use arrayvec::ArrayVec;
use catalog::Catalog;
use eq_classes::{ClassNo, Classes, OrderItem};
use pathkeys::{Keys, order_key};
use pg_base::MOST_COLUMNS;
use plan_tree::{Plan, classes_of};
use sql_query::Prepared;

/// Whether a class is one of a list.
fn is_listed(list: &[ClassNo], c: ClassNo) -> bool
    ensures { result ≡ list_any (λ (other : Numbered). nat_eq c.0 other.0) list.now }
{
    list.iter().any(|other| c.0 == other.0)
}

/// The place of a list where the next class is to stand, after a class at a place: the same where the class stands
/// before it, the next one where it stands there. None where the list has another class there or ends.
fn next_place(list: &[ClassNo], at: usize, c: ClassNo) -> Option<usize>
    requires within { at ≤ length list.now }
    ensures within { IfSome result (λ next. next ≤ length list.now) }
    ensures some { IfSome result (λ next. GoesOnPastClass list.now at c next) }
    ensures none { IfNone result (StopsAtClass list.now at c) }
{
    if is_listed(&list[..at], c) {
        return Some(at);
    }
    if at < list.len() && list[at].0 == c.0 {
        Some(at + 1)
    } else {
        None
    }
}

/// The class that one item of ORDER BY asks for: that of its column's default family. None where it has no class, or one
/// with a constant.
fn class_asked(classes: &Classes, item: OrderItem) -> Option<ClassNo>
    ensures { class_listed result ≡ classes_asked classes.now (item ∷ []) }
{
    order_key(classes, &[item], 0)
}

/// The place of a list where the next class is to stand, after an item of ORDER BY at a place. None where the list does
/// not go on with its class.
fn place_after(classes: &Classes, list: &[ClassNo], at: usize, item: OrderItem) -> Option<usize>
    requires within { at ≤ length list.now }
    ensures within { IfSome result (λ next. next ≤ length list.now) }
    ensures some { IfSome result (λ next. GoesOnPastItem classes.now list.now at item next) }
    ensures none { IfNone result (StopsAtItem classes.now list.now at item) }
{
    match class_asked(classes, item) {
        Some(c) => next_place(list, at, c),
        None => Some(at),
    }
}

/// How many keys ORDER BY has, where a list begins with them. None where it does not.
fn keys_begun(classes: &Classes, order: &[OrderItem], list: &[ClassNo]) -> Option<usize>
    ensures some { IfSome result (λ n. is_order_begun classes.now order.now list.now ≡ true) }
    ensures count { IfSome result (λ n. n ≡ length (lists.order_keys classes.now order.now)) }
    ensures none { IfNone result (is_order_begun classes.now order.now list.now ≡ false) }
{
    let mut at = 0;
    for item in order {
        at = place_after(classes, list, at, *item)?;
    }
    Some(at)
}

/// How many keys the query's ORDER BY has, where a list begins with them. None where it does not.
pub fn order_begun(q: &Prepared, list: &[ClassNo]) -> Option<usize>
    ensures some { IfSome result (λ n. is_order_begun q.now.classes q.now.order list.now ≡ true) }
    ensures count { IfSome result (λ n. n ≡ length (keys_asked q.now)) }
    ensures none { IfNone result (is_order_begun q.now.classes q.now.order list.now ≡ false) }
{
    keys_begun(classes_of(q), q.order.items(), list)
}

/// The keys by which a plan's rows are sorted, of which there are at most 16.
fn keys_listed(cat: &Catalog, q: &Prepared, p: &Plan) -> ArrayVec<ClassNo, MOST_COLUMNS>
    requires plan { IsCostable cat.now q.now (plan p.now) }
    requires few { length (keys.keys_of cat.now q.now (plan p.now)) ≤ MOST_COLUMNS }
    ensures { class_numbers result.items ≡ keys.keys_of cat.now q.now (plan p.now) }
{
    let mut list = ArrayVec::new();
    for n in 0..MOST_COLUMNS {
        match key_at(cat, q, p, n as u8) {
            Some(c) => list.push(c),
            None => return list,
        }
    }
    list
}

/// Whether a list is that of the keys of ORDER BY, of which there is one at least.
fn is_order(q: &Prepared, list: &Keys) -> bool
    ensures yes { result ≡ true → list.now ≡ keys_asked q.now }
    ensures some { result ≡ true → 1 ≤ length list.now }
    ensures no { list.now ≡ keys_asked q.now → 1 ≤ length list.now → result ≡ true }
{
    let list = list.items();
    match order_begun(q, list) {
        Some(n) => n == list.len() && n > 0,
        None => false,
    }
}

/// Whether the keys of a plan, of which there are at most 16, begin with those of ORDER BY.
fn begins_with_order(cat: &Catalog, q: &Prepared, p: &Plan) -> bool
    requires plan { IsCostable cat.now q.now (plan p.now) }
    requires few { length (keys.keys_of cat.now q.now (plan p.now)) ≤ MOST_COLUMNS }
    ensures { result ≡ lists.covers (keys.keys_of cat.now q.now (plan p.now)) (keys_asked q.now) }
{
    let list = keys_listed(cat, q, p);
    order_begun(q, list.as_slice()).is_some()
}

/// Whether a plan of the plan space is in the order that the query asks for: its keys begin with those of ORDER BY, or it
/// is a sort by exactly these, of which there is one at least.
pub(crate) fn meets_order(cat: &Catalog, q: &Prepared, p: &Plan) -> bool
    requires built { IsBuilt cat.now q.now (plan p.now) }
    ensures { IsTrue result ↔ MeetsOrder cat.now q.now (plan p.now) (keys_asked q.now) }
{
    cat.lawful();
    match sort_list(p) {
        Some(list) => is_order(q, list),
        None => begins_with_order(cat, q, p),
    }
}
