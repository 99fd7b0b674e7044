//! Relations, and those whose rows a scan is given.

ghost use Rattle.std.specs.Prelude.{◌≡◌, ◌<◌, ◌≤◌, ◌++◌, Bool, IfSome, codes};
ghost use Rattle.pg_base.specs.Sets.{has};
ghost use Rattle.path_cost.specs.work.Columns.{AreTables};
ghost use Rattle.sql_query.specs.Queries.{width};
ghost use Rattle.certificate_entries.specs.explain_Texts as texts;
ghost use Rattle.certificate_entries.specs.explain_work_Texts as texts_work;
ghost use Rattle.certificate_entries.specs.explain_Texts.{given_text, rel_text, relation_text, scanned_text};
ghost use Rattle.certificate_entries.specs.explain_work_Texts.{before_given};
ghost use Rattle.plan_lines.specs.work.Behind.{AddsAlias, GivesBehind, PassesAlias};

use catalog::Catalog;
use pg_base::{RelNo, RelSet};
use plan_tree::range_of;
use sql_query::Prepared;

/// What stands behind some bytes. None where a text does not begin with them.
pub fn behind<'a>(text: &'a [u8], bytes: &[u8]) -> Option<&'a [u8]>
    ensures is { IfSome result (λ l. text.now ≡ bytes.now ++ l.now) }
    ensures only { GivesBehind bytes.now text.now result }
{
    text.strip_prefix(bytes)
}

/// What stands behind the name of a table and an alias.
fn behind_both<'a>(text: &'a [u8], name: &[u8], alias: &[u8]) -> Option<&'a [u8]>
    ensures is { IfSome result (λ l. text.now ≡ (name.now ++ (codes " " ++ alias.now)) ++ l.now) }
    ensures only { GivesBehind (name.now ++ (codes " " ++ alias.now)) text.now result }
{
    let left = behind(text, name)?;
    behind(behind(left, b" ")?, alias)
}

/// What stands behind the name of a table, and behind its alias where that is another. None where a text does not begin so.
fn behind_names<'a>(text: &'a [u8], name: &[u8], alias: &[u8]) -> Option<&'a [u8]>
    ensures is { IfSome result (λ l. text.now ≡ relation_text name.now alias.now ++ l.now) }
    ensures only { GivesBehind (relation_text name.now alias.now) text.now result }
{
    if name == alias {
        behind(text, name)
    } else {
        behind_both(text, name, alias)
    }
}

/// What stands behind a relation. None where a text does not begin with it.
pub(crate) fn behind_relation<'a>(
    text: &'a [u8],
    cat: &Catalog,
    q: &Prepared,
    r: RelNo,
) -> Option<&'a [u8]>
    requires tables { AreTables cat.now q.now.range }
    requires relation { r.0 < width q.now }
    ensures is { IfSome result (λ l. text.now ≡ texts.rel_text cat.now q.now r ++ l.now) }
    ensures only { GivesBehind (rel_text cat.now q.now r) text.now result }
{
    let (table, alias) = &range_of(q).items()[r.0 as usize];
    behind_names(text, cat.table_name(*table), alias.items())
}

/// What stands behind a comma and a space, or behind the word before the first of the relations that are given.
fn behind_comma(text: &[u8], first: bool) -> Option<&[u8]>
    ensures is { IfSome result (λ l. text.now ≡ before_given first ++ l.now) }
    ensures only { GivesBehind (before_given first) text.now result }
{
    if first {
        behind(text, b" for ")
    } else {
        behind(text, b", ")
    }
}

/// What stands behind an alias in a row.
fn behind_item<'a>(text: &'a [u8], alias: &[u8], first: bool) -> Option<&'a [u8]>
    ensures is { IfSome result (λ l. text.now ≡ (before_given first ++ alias.now) ++ l.now) }
    ensures only { GivesBehind (before_given first ++ alias.now) text.now result }
{
    behind(behind_comma(text, first)?, alias)
}

/// What stands behind an alias in a row, where its relation is given, and whether the next one is still the first.
fn behind_alias<'a>(text: &'a [u8], alias: &[u8], is: bool, first: bool) -> Option<(&'a [u8], bool)>
    ensures is { IfSome result (λ s. AddsAlias is alias.now first text.now s) }
    ensures only { PassesAlias is alias.now first text.now result }
{
    if !is {
        return Some((text, first));
    }
    let left = behind_item(text, alias, first)?;
    Some((left, false))
}

/// What stands behind the relations of a set, in FROM order, whose rows a scan is given.
pub(crate) fn behind_given<'a>(text: &'a [u8], q: &Prepared, p: RelSet) -> Option<&'a [u8]>
    requires few { width q.now ≤ 16 }
    ensures is { IfSome result (λ l. text.now ≡ texts.given_text q.now.range p ++ l.now) }
    ensures only { GivesBehind (given_text q.now.range p) text.now result }
{
    let relations = range_of(q).items();
    let mut left = text;
    let mut first = true;
    for n in 0..relations.len() {
        let is = p.has(RelNo(n as u8));
        let next = behind_alias(left, relations[n].1.items(), is, first)?;
        left = next.0;
        first = next.1;
    }
    Some(left)
}

/// What stands behind the relation of a scan, and behind those whose rows it is given. None where a text does not begin so.
pub(crate) fn behind_scanned<'a>(
    text: &'a [u8],
    cat: &Catalog,
    q: &Prepared,
    r: RelNo,
    p: RelSet,
) -> Option<&'a [u8]>
    requires tables { AreTables cat.now q.now.range }
    requires few { width q.now ≤ 16 }
    requires relation { r.0 < width q.now }
    ensures is { IfSome result (λ l. text.now ≡ texts.scanned_text cat.now q.now r p ++ l.now) }
    ensures only { GivesBehind (scanned_text cat.now q.now r p) text.now result }
{
    let left = behind_relation(text, cat, q, r)?;
    behind_given(left, q, p)
}
