//! The order that an index scan gives (PostgreSQL, src/backend/optimizer/path/pathkeys.c, build_index_pathkeys).

ghost use Rattle.std.specs.Prelude.{◌≡◌, ◌<◌, [], IfOk, OnOk, IfSome, length};
ghost use Rattle.catalog.specs.Contents.{IsIndex};
ghost use Rattle.eq_classes.specs.Listing.{class_at};
ghost use Rattle.eq_classes.specs.work.Listing.{class_no};
ghost use Rattle.pathkeys.specs.Keys as keys;
ghost use Rattle.pathkeys.specs.work.Keys as keys_work;
ghost use Rattle.pathkeys.specs.Keys.{class_of_key, has_direction, keys_from, turned};
ghost use Rattle.pathkeys.specs.work.Finding.{is_class, is_of_some, step_found, key_step, GainsKeys, btree_key, index_key_at};

use crate::keys::{Keys, keys_of};
use catalog::opfamily::{IndexKey, Method};
use catalog::pg_expr::ColRef;
use catalog::{Catalog, IndexDef, RangeTable};
use eq_classes::{ClassNo, Classes};
use pg_base::{IndexNo, Memory, RelNo};
use smallvec::SmallVec;
use std::alloc::Global;

/// What a key column of an index adds to the keys.
enum Found {
    /// No more: the list ends before it.
    Ends,
    /// Nothing: its class has a constant or stands in the list already.
    Passes,
    /// Its class.
    Gives(ClassNo),
}

/// The class of a key column, in the family of its operator class. None where it has no class.
fn class_of_key(classes: &Classes, r: RelNo, key: IndexKey) -> Option<ClassNo>
    ensures class { class_no result ≡ class_of_key classes.now r.0 key }
    ensures within { IfSome result (λ c. c.0 < length classes.now.classes) }
{
    let x = ColRef {
        rel: r,
        col: key.col,
    };
    classes.class_of(x, key.family())
}

/// Whether a class was found and is this one.
pub(crate) fn is_found(found: Option<ClassNo>, c: ClassNo) -> bool
    ensures { result ≡ is_class c.0 (class_no found) }
{
    match found {
        Some(f) => c.0 == f.0,
        None => false,
    }
}

/// Whether one of the key columns has the class.
fn is_of_some(classes: &Classes, r: RelNo, before: &[IndexKey], c: ClassNo) -> bool
    ensures { result ≡ is_of_some classes.now r.0 before.now c.0 }
{
    before
        .iter()
        .any(|key| is_found(class_of_key(classes, r, *key), c))
}

/// A direction or place of NULL, turned round for a backward scan.
fn turned(backward: bool, way: bool) -> bool
    ensures { result ≡ turned backward way }
{
    if backward { !way } else { way }
}

/// Whether the key column's direction and place of NULL, both turned round for a backward scan, are the class's.
fn has_direction(classes: &Classes, backward: bool, key: IndexKey, c: ClassNo) -> bool
    requires { c.0 < length classes.now.classes }
    ensures { result ≡ has_direction backward key (class_at classes.now.classes c.0) }
{
    let (descending, nulls_first) = classes.direction(c);
    turned(backward, key.descending) == descending
        && turned(backward, key.nulls_first) == nulls_first
}

/// What a key column adds after others.
fn found_after(
    classes: &Classes,
    r: RelNo,
    backward: bool,
    before: &[IndexKey],
    key: IndexKey,
) -> Found
    ensures { step_found result ≡ key_step classes.now r.0 backward before.now key }
{
    match class_of_key(classes, r, key) {
        None => Found::Ends,
        Some(c) => {
            if classes.has_constant(c) || is_of_some(classes, r, before, c) {
                Found::Passes
            } else if has_direction(classes, backward, key, c) {
                Found::Gives(c)
            } else {
                Found::Ends
            }
        }
    }
}

/// Puts the classes that the key columns of a B-tree give at the end.
fn give_all(
    classes: &Classes,
    r: RelNo,
    backward: bool,
    columns: &[IndexKey],
    items: &mut SmallVec<ClassNo, 4>,
) -> Result<(), Memory>
    ensures { OnOk result (GainsKeys classes.now r backward columns.now items.old.items items.new.items) }
{
    for at in 0..columns.len() {
        match found_after(classes, r, backward, &columns[..at], columns[at]) {
            Found::Ends => return Ok(()),
            Found::Passes => {}
            Found::Gives(c) => items.push(c)?,
        }
    }
    Ok(())
}

/// The keys that the key columns of a B-tree give.
fn given_keys(
    alloc: Global,
    classes: &Classes,
    r: RelNo,
    backward: bool,
    columns: &[IndexKey],
) -> Result<Keys, Memory>
    ensures { IfOk result (λ ks. ks ≡ keys_from classes.now r.0 backward [] columns.now) }
{
    let mut items = SmallVec::new(alloc);
    give_all(classes, r, backward, columns, &mut items)?;
    Ok(keys_of(items))
}

/// The classes by which a scan of the relation by the index, forward or backward, is known to be sorted. From the left
/// over the key columns: a column without a class in its family ends the list; a class that has a constant or stands
/// before is passed over; another is given where its direction and place of NULL are the column's, both turned round for
/// a backward scan, else the list ends. A hash index gives no order. The error means that memory ran out.
pub fn index_keys(
    alloc: Global,
    cat: &Catalog,
    range: &RangeTable,
    classes: &Classes,
    i: IndexNo,
    r: RelNo,
    backward: bool,
) -> Result<Keys, Memory>
    requires index { IsIndex cat.now i }
    ensures keys { IfOk result (λ ks. ks ≡ keys.index_keys cat.now classes.now i r.0 backward) }
{
    let def = cat.index(i);
    match def.method {
        Method::Btree => given_keys(alloc, classes, r, backward, &def.keys),
        Method::Hash => Keys::from_slice(alloc, &[]),
    }
}

/// The class at place `n`, from 0, among those that the key columns of a B-tree give.
fn given_at(
    classes: &Classes,
    r: RelNo,
    backward: bool,
    columns: &[IndexKey],
    n: u8,
) -> Option<ClassNo>
    ensures class { class_no result ≡ btree_key classes.now r.0 backward columns.now n }
{
    let mut left = n;
    for at in 0..columns.len() {
        match found_after(classes, r, backward, &columns[..at], columns[at]) {
            Found::Ends => return None,
            Found::Passes => {}
            Found::Gives(c) => {
                if left == 0 {
                    return Some(c);
                }
                left -= 1;
            }
        }
    }
    None
}

/// The class at place `n`, from 0, of the keys of an index scan. None exactly where the list is not so long. It takes no
/// memory.
pub fn index_key(
    cat: &Catalog,
    range: &RangeTable,
    classes: &Classes,
    i: IndexNo,
    r: RelNo,
    backward: bool,
    n: u8,
) -> Option<ClassNo>
    requires index { IsIndex cat.now i }
    ensures class { class_no result ≡ index_key_at cat.now classes.now i r.0 backward n }
    ensures within { IfSome result (λ c. c.0 < length classes.now.classes) }
{
    let def = cat.index(i);
    match def.method {
        Method::Btree => given_at(classes, r, backward, &def.keys, n),
        Method::Hash => None,
    }
}
