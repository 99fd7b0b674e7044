//! Key lists without repeats.

ghost use Rattle.std.specs.Prelude.{◌≡◌, ◌≢◌, ◌<◌, ◌↔◌, ℕ, IfOk, IfSome, IsTrue, codes, false, length, true};
ghost use Rattle.pg_base.specs.Sets.{has};
ghost use Rattle.pathkeys.specs.work.Finding.{class_numbers};
ghost use Rattle.pathkeys.specs.Keys.{AreDifferent};
ghost use Rattle.sql_query.specs.WellBound.{IsWellBound};
ghost use Rattle.certificate_entries.specs.work.Keys.{HasSomeKeys, ReadsKeyList, nth_key};

use crate::read_keys;
use catalog::Catalog;
use certificate_text::LineCursor;
use eq_classes::ClassNo;
use pathkeys::Keys;
use pg_base::{Memory, RelSet};
use sql_query::Prepared;
use std::alloc::Global;

/// Whether the same class stands at two places.
fn is_same(keys: &[ClassNo], i: usize, n: usize) -> bool
    requires first { i < length keys.now }
    requires second { n < length keys.now }
    ensures { IsTrue result ↔ (nth_key keys.now i ≡ nth_key keys.now n) }
{
    keys[i].0 == keys[n].0
}

/// Whether a class stands among those before a place.
fn stands_before(keys: &[ClassNo], n: usize) -> bool
    requires within { n < length keys.now }
    ensures none { result ≡ false → (i : ℕ) → i < n → nth_key keys.now i ≢ nth_key keys.now n }
    ensures some { result ≡ true → (i : ℕ) × (i < n) × (nth_key keys.now i ≡ nth_key keys.now n) }
{
    for i in 0..n {
        if is_same(keys, i, n) {
            return true;
        }
    }
    false
}

/// Whether no class stands twice.
fn are_different(keys: &[ClassNo]) -> bool
    ensures { IsTrue result ↔ AreDifferent (class_numbers keys.now) }
{
    for n in 0..keys.len() {
        if stands_before(keys, n) {
            return false;
        }
    }
    true
}

/// A key list of one key or more. None where none comes next, and where a class stands in it twice. The error means out of
/// memory.
pub fn read_key_list(
    alloc: Global,
    at: &mut LineCursor,
    cat: &Catalog,
    q: &Prepared,
    set: RelSet,
) -> Result<Option<Keys>, Memory>
    requires bound { IsWellBound cat.now q.now }
    ensures has { IfOk result (λ o. IfSome o (λ keys. HasSomeKeys q.now (has set.0) keys)) }
    ensures only { IfOk result (λ o. ReadsKeyList cat.now q.now (has set.0) at.old at.new o) }
{
    let keys = match read_keys(alloc, at, cat, q, set)? {
        Some(keys) => keys,
        None => return Ok(None),
    };
    if are_different(&keys) {
        let keys = Keys::from_slice(alloc, &keys)?;
        Ok(Some(keys))
    } else {
        Ok(None)
    }
}
