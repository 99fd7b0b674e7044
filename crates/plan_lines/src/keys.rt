//! Key lists.

ghost use Rattle.std.specs.Prelude.{[], ◌≡◌, ◌<◌, ◌++◌, All, IfOk, IfSome, codes, cond, length, nat_eq};
ghost use Rattle.pg_base.specs.Sets.{has};
ghost use Rattle.path_cost.specs.work.Columns.{AreTables};
ghost use Rattle.pathkeys.specs.work.Finding.{class_numbers};
ghost use Rattle.sql_query.specs.WellBound.{IsColumnOf, IsWellBound};
ghost use Rattle.certificate_entries.specs.explain_Texts as texts;
ghost use Rattle.certificate_entries.specs.explain_work_Texts as texts_work;
ghost use Rattle.certificate_entries.specs.explain_Texts.{column_text, direction_text, family_text, key_text};
ghost use Rattle.certificate_entries.specs.explain_work_Texts.{key_list, member_at};
ghost use Rattle.certificate_entries.specs.certificate_text_HasText.{HasKeysText};
ghost use Rattle.plan_lines.specs.work.Behind.{GivesBehind, IsLeft};
ghost use Rattle.plan_lines.specs.work.Finding.{FindsKeys};
ghost use Rattle.plan_lines.specs.work.Parts.{next_key};

use crate::relations::behind;
use catalog::Catalog;
use certificate_entries::read_key_list;
use certificate_text::LineCursor;
use eq_classes::ClassNo;
use pathkeys::Keys;
use pg_base::{Memory, RelSet};
use pg_expr::ColRef;
use pg_value::Family;
use plan_tree::{classes_of, range_of};
use sql_query::Prepared;
use std::alloc::Global;

/// What stands behind a name, a point and another name.
fn behind_dotted<'a>(text: &'a [u8], first: &[u8], last: &[u8]) -> Option<&'a [u8]>
    ensures is { IfSome result (λ l. text.now ≡ (first.now ++ (codes "." ++ last.now)) ++ l.now) }
    ensures only { GivesBehind (first.now ++ (codes "." ++ last.now)) text.now result }
{
    let left = behind(text, first)?;
    behind(behind(left, b".")?, last)
}

/// What stands behind a column.
fn behind_column<'a>(text: &'a [u8], cat: &Catalog, q: &Prepared, x: ColRef) -> Option<&'a [u8]>
    requires tables { AreTables cat.now q.now.range }
    requires column { IsColumnOf cat.now q.now.range x }
    ensures is { IfSome result (λ l. text.now ≡ texts.column_text cat.now q.now x ++ l.now) }
    ensures only { GivesBehind (column_text cat.now q.now x) text.now result }
{
    let (table, alias) = &range_of(q).items()[x.rel.0 as usize];
    behind_dotted(text, alias.items(), cat.column_name(*table, x.col))
}

/// What stands behind the first member of a class inside a set.
fn behind_member<'a>(
    text: &'a [u8],
    cat: &Catalog,
    q: &Prepared,
    set: RelSet,
    c: ClassNo,
) -> Option<&'a [u8]>
    requires bound { IsWellBound cat.now q.now }
    requires class { c.0 < length q.now.classes.classes }
    ensures is { IfSome result (λ l. text.now ≡ member_at cat.now q.now (has set.0) c.0 ++ l.now) }
    ensures only { GivesBehind (member_at cat.now q.now (has set.0) c.0) text.now result }
{
    match classes_of(q).member(c, set) {
        Some(x) => behind_column(text, cat, q, x),
        None => Some(text),
    }
}

/// How the family of a key is written, where it is that of absolute values.
fn family_bytes(family: Family) -> &'static [u8]
    ensures { result.now ≡ family_text family }
{
    match family {
        Family::IntAbs => b" int_abs_ops",
        _ => b"",
    }
}

/// How the direction of a key and the place of NULL are written.
fn direction_bytes(descending: bool, nulls_first: bool) -> &'static [u8]
    ensures { result.now ≡ direction_text descending nulls_first }
{
    match (descending, nulls_first) {
        (true, true) => b" DESC",
        (true, false) => b" DESC NULLS LAST",
        (false, true) => b" NULLS FIRST",
        (false, false) => b"",
    }
}

/// What stands behind a key.
fn behind_key<'a>(
    text: &'a [u8],
    cat: &Catalog,
    q: &Prepared,
    set: RelSet,
    c: ClassNo,
) -> Option<&'a [u8]>
    requires bound { IsWellBound cat.now q.now }
    requires class { c.0 < length q.now.classes.classes }
    ensures is { IfSome result (λ l. text.now ≡ key_text cat.now q.now (has set.0) c.0 ++ l.now) }
    ensures only { GivesBehind (key_text cat.now q.now (has set.0) c.0) text.now result }
{
    let left = behind_member(text, cat, q, set, c)?;
    let left = behind(left, family_bytes(classes_of(q).family(c)))?;
    let (descending, nulls_first) = classes_of(q).direction(c);
    behind(left, direction_bytes(descending, nulls_first))
}

/// What stands before a key: nothing before the first.
fn before_key(n: usize) -> &'static [u8]
    ensures { result.now ≡ cond (nat_eq n 0) [] (codes ", ") }
{
    if n > 0 { b", " } else { b"" }
}

/// What stands behind the key of a place, and what stands before that.
fn behind_next<'a>(
    text: &'a [u8],
    cat: &Catalog,
    q: &Prepared,
    set: RelSet,
    n: usize,
    c: ClassNo,
) -> Option<&'a [u8]>
    requires bound { IsWellBound cat.now q.now }
    requires class { c.0 < length q.now.classes.classes }
    ensures is { IfSome result (λ l. text.now ≡ next_key cat.now q.now (has set.0) n c.0 ++ l.now) }
    ensures only { GivesBehind (next_key cat.now q.now (has set.0) n c.0) text.now result }
{
    let left = behind(text, before_key(n))?;
    behind_key(left, cat, q, set, c)
}

/// What stands behind keys by their first members inside a set. None where a text does not begin with them.
pub(crate) fn behind_keys<'a>(
    text: &'a [u8],
    cat: &Catalog,
    q: &Prepared,
    set: RelSet,
    keys: &[ClassNo],
) -> Option<&'a [u8]>
    requires bound { IsWellBound cat.now q.now }
    requires classes { All (λ n. n < length q.now.classes.classes) (class_numbers keys.now) }
    ensures is { IfSome result (IsLeft (key_list cat.now q.now (has set.0) keys.now) text.now) }
    ensures only { GivesBehind (key_list cat.now q.now (has set.0) keys.now) text.now result }
{
    let mut left = text;
    for n in 0..keys.len() {
        left = behind_next(left, cat, q, set, n, keys[n])?;
    }
    Some(left)
}

/// The keys of a node of this set, where a text is theirs; there may be none. None where it is that of no keys. The error means
/// out of memory.
pub fn read_node_keys(
    alloc: Global,
    text: &[u8],
    cat: &Catalog,
    q: &Prepared,
    set: RelSet,
) -> Result<Option<Keys>, Memory>
    requires bound { IsWellBound cat.now q.now }
    ensures has { IfOk result (λ o. IfSome o (HasKeysText q.now (has set.0))) }
    ensures only { IfOk result (λ o. FindsKeys cat.now q.now (has set.0) text.now o) }
{
    if text.is_empty() {
        let keys = Keys::from_slice(alloc, &[])?;
        return Ok(Some(keys));
    }
    let mut at = LineCursor::new(text);
    match read_key_list(alloc, &mut at, cat, q, set)? {
        Some(keys) => Ok(Some(keys)),
        None => Ok(None),
    }
}
