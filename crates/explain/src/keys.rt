//! Key lists.

ghost use Rattle.std.specs.Prelude.{◌≡◌, ◌<◌, ◌++◌, ℕ, All, OnOk, codes, cond, length, nat_eq};
ghost use Rattle.std.specs.Prelude.{[]};
ghost use Rattle.pg_base.specs.Sets.{has};
ghost use Rattle.plan_laws.specs.path_cost_work_Columns.{AreTables};
ghost use Rattle.pathkeys.specs.work.Finding.{class_numbers};
ghost use Rattle.sql_query.specs.WellBound.{IsWellBound};
ghost use Rattle.explain.specs.Texts.{direction_text, family_text, key_text};
ghost use Rattle.explain.specs.work.Texts.{Gets, member_at, key_list};

use crate::relations::put_column;
use catalog::Catalog;
use eq_classes::ClassNo;
use pg_base::{Memory, RelSet};
use pg_value::Family;
use plan_tree::classes_of;
use sql_query::Prepared;

/// Appends the family of a key, where it is that of absolute values.
fn put_family(text: &mut Vec<u8>, family: Family) -> Result<(), Memory>
    ensures { OnOk result (text.new.items ≡ text.old.items ++ family_text family) }
{
    match family {
        Family::IntAbs => text.extend_from_slice(b" int_abs_ops"),
        _ => Ok(()),
    }
}

/// Appends the direction of a key and the place of NULL, where they do not go without saying.
fn put_direction(text: &mut Vec<u8>, descending: bool, nulls_first: bool) -> Result<(), Memory>
    ensures { OnOk result (Gets text.old text.new (direction_text descending nulls_first)) }
{
    match (descending, nulls_first) {
        (true, true) => text.extend_from_slice(b" DESC"),
        (true, false) => text.extend_from_slice(b" DESC NULLS LAST"),
        (false, true) => text.extend_from_slice(b" NULLS FIRST"),
        (false, false) => Ok(()),
    }
}

/// Appends the first member of a class inside a set.
fn put_member(
    text: &mut Vec<u8>,
    cat: &Catalog,
    q: &Prepared,
    set: RelSet,
    c: ClassNo,
) -> Result<(), Memory>
    requires bound { IsWellBound cat.now q.now }
    requires class { c.0 < length q.now.classes.classes }
    ensures { OnOk result (Gets text.old text.new (member_at cat.now q.now (has set.0) c.0)) }
{
    match classes_of(q).member(c, set) {
        Some(x) => put_column(text, cat, q, x),
        None => Ok(()),
    }
}

/// Appends a key.
fn put_key(
    text: &mut Vec<u8>,
    cat: &Catalog,
    q: &Prepared,
    set: RelSet,
    c: ClassNo,
) -> Result<(), Memory>
    requires bound { IsWellBound cat.now q.now }
    requires class { c.0 < length q.now.classes.classes }
    ensures { OnOk result (Gets text.old text.new (key_text cat.now q.now (has set.0) c.0)) }
{
    put_member(text, cat, q, set, c)?;
    put_family(text, classes_of(q).family(c))?;
    let (descending, nulls_first) = classes_of(q).direction(c);
    put_direction(text, descending, nulls_first)
}

/// Appends a comma and a space, where a key is not the first.
fn put_comma(text: &mut Vec<u8>, n: usize) -> Result<(), Memory>
    ensures { OnOk result (text.new.items ≡ text.old.items ++ cond (nat_eq n 0) [] (codes ", ")) }
{
    if n > 0 {
        text.extend_from_slice(b", ")?;
    }
    Ok(())
}

/// Appends keys to a text, each by its first member inside a set of relations, with its family and its direction where these do
/// not go without saying; between two of them a comma and a space. The keys are classes of the query. The error means out of
/// memory.
pub fn put_keys(
    text: &mut Vec<u8>,
    cat: &Catalog,
    q: &Prepared,
    set: RelSet,
    keys: &[ClassNo],
) -> Result<(), Memory>
    requires bound { IsWellBound cat.now q.now }
    requires classes { All (λ n. n < length q.now.classes.classes) (class_numbers keys.now) }
    ensures { OnOk result (Gets text.old text.new (key_list cat.now q.now (has set.0) keys.now)) }
{
    for n in 0..keys.len() {
        put_comma(text, n)?;
        put_key(text, cat, q, set, keys[n])?;
    }
    Ok(())
}
