//! The order that a query asks for (PostgreSQL, src/backend/optimizer/path/pathkeys.c,
//! make_pathkeys_for_sortclauses).

ghost use Rattle.std.specs.Prelude.{◌≡◌, ◌<◌, IfOk, IfSome, length, slice_get};
ghost use Rattle.pathkeys.specs.Keys as keys;
ghost use Rattle.pathkeys.specs.work.Keys as keys_work;
ghost use Rattle.pathkeys.specs.Keys.{order_class};
ghost use Rattle.pathkeys.specs.work.Finding.{is_ordered_by, item_class};
ghost use Rattle.eq_classes.specs.work.Listing.{class_no};

use crate::index_order::is_found;
use crate::keys::{Keys, keys_of};
use catalog::pg_expr::ColRef;
use eq_classes::{ClassNo, Classes, OrderItem};
use pg_base::Memory;
use smallvec::SmallVec;
use std::alloc::Global;

/// The class of a column in the family of its type.
pub fn order_class(classes: &Classes, x: ColRef) -> Option<ClassNo>
    ensures class { class_no result ≡ order_class classes.now x }
    ensures within { IfSome result (λ c. c.0 < length classes.now.classes) }
{
    classes.plain_class_of(x)
}

/// Whether one of the items is by the class.
fn is_ordered_by(classes: &Classes, before: &[OrderItem], c: ClassNo) -> bool
    ensures { result ≡ is_ordered_by classes.now before.now c.0 }
{
    before
        .iter()
        .any(|item| is_found(order_class(classes, item.col), c))
}

/// The class of an item after others. None where it has a constant or stood before.
fn new_class(classes: &Classes, before: &[OrderItem], item: OrderItem) -> Option<ClassNo>
    ensures class { class_no result ≡ item_class classes.now before.now item }
    ensures within { IfSome result (λ c. c.0 < length classes.now.classes) }
{
    let c = order_class(classes, item.col)?;
    if classes.has_constant(c) || is_ordered_by(classes, before, c) {
        return None;
    }
    Some(c)
}

/// The classes by which ORDER BY sorts: those of its columns in their default families, in order, without those that
/// have a constant or stood before. A column without a class adds none. The error means that memory ran out.
pub fn order_keys(alloc: Global, classes: &Classes, order: &[OrderItem]) -> Result<Keys, Memory>
    ensures keys { IfOk result (λ ks. ks ≡ keys.order_keys classes.now order.now) }
{
    let mut items = SmallVec::new(alloc);
    for at in 0..order.len() {
        if let Some(c) = new_class(classes, &order[..at], order[at]) {
            items.push(c)?;
        }
    }
    Ok(keys_of(items))
}

/// The class at place `n`, from 0, of the order keys. None exactly where the list is not so long. It takes no memory.
pub fn order_key(classes: &Classes, order: &[OrderItem], n: u16) -> Option<ClassNo>
    ensures class { class_no result ≡ slice_get (keys.order_keys classes.now order.now) n }
    ensures within { IfSome result (λ c. c.0 < length classes.now.classes) }
{
    let mut left = n;
    for at in 0..order.len() {
        if let Some(c) = new_class(classes, &order[..at], order[at]) {
            if left == 0 {
                return Some(c);
            }
            left -= 1;
        }
    }
    None
}
