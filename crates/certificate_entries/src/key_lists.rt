//! Key lists.

ghost use Rattle.std.specs.Prelude.{◌≤◌, IfOk, IfSome, length};
ghost use Rattle.pg_base.specs.Sets.{has};
ghost use Rattle.sql_query.specs.WellBound.{IsWellBound};
ghost use Rattle.certificate_entries.specs.work.Keys.{HaveKeyTexts, ReadsKeys};

use crate::line_keys::read_key;
use catalog::Catalog;
use certificate_text::LineCursor;
use eq_classes::ClassNo;
use pg_base::{Memory, RelSet};
use sql_query::Prepared;
use std::alloc::Global;

/// Keys, one or more, each behind a comma and a space but the first. None where no such list comes next. The error means out of
/// memory.
pub fn read_keys(
    alloc: Global,
    at: &mut LineCursor,
    cat: &Catalog,
    q: &Prepared,
    set: RelSet,
) -> Result<Option<Vec<ClassNo>>, Memory>
    requires bound { IsWellBound cat.now q.now }
    ensures has { IfOk result (λ o. IfSome o (λ ks. HaveKeyTexts q.now (has set.0) ks.items)) }
    ensures some { IfOk result (λ o. IfSome o (λ ks. 1 ≤ length ks.items)) }
    ensures only { IfOk result (λ o. ReadsKeys cat.now q.now (has set.0) at.old at.new o) }
{
    let mut keys = Vec::new(alloc);
    match read_key(at, cat, q, set) {
        Some(key) => keys.push(key)?,
        None => return Ok(None),
    }
    while at.eat(b", ") {
        match read_key(at, cat, q, set) {
            Some(key) => keys.push(key)?,
            None => return Ok(None),
        }
    }
    Ok(Some(keys))
}
