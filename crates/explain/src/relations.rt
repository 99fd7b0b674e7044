//! Relations, indexes and columns by their names.

ghost use Rattle.std.specs.Prelude.{◌≡◌, ◌<◌, ◌≤◌, ◌++◌, ℕ, Bool, List, IfOk, OnOk, map};
ghost use Rattle.pg_base.specs.Sets.{has};
ghost use Rattle.catalog.specs.Contents.{IsIndex, index_name_at};
ghost use Rattle.plan_laws.specs.path_cost_work_Columns.{AreTables};
ghost use Rattle.sql_query.specs.Queries.{width};
ghost use Rattle.sql_query.specs.WellBound.{IsColumnOf};
ghost use Rattle.explain.specs.Texts.{column_text, given_text, rel_text, relation_text, scanned_text, with_alias};
ghost use Rattle.explain.specs.work.Texts.{before_given, given_list};

use catalog::Catalog;
use pg_base::{IndexNo, Memory, RelNo, RelSet};
use pg_expr::ColRef;
use plan_tree::range_of;
use sql_query::Prepared;

/// Appends the name of a table, and its alias where that is another.
fn put_names(text: &mut Vec<u8>, name: &[u8], alias: &[u8]) -> Result<(), Memory>
    ensures { OnOk result (text.new.items ≡ text.old.items ++ relation_text name.now alias.now) }
{
    text.extend_from_slice(name)?;
    if name != alias {
        text.push(b' ')?;
        text.extend_from_slice(alias)?;
    }
    Ok(())
}

/// Appends a relation.
pub(crate) fn put_relation(
    text: &mut Vec<u8>,
    cat: &Catalog,
    q: &Prepared,
    r: RelNo,
) -> Result<(), Memory>
    requires tables { AreTables cat.now q.now.range }
    requires relation { r.0 < width q.now }
    ensures { OnOk result (text.new.items ≡ text.old.items ++ rel_text cat.now q.now r) }
{
    let (table, alias) = &range_of(q).items()[r.0 as usize];
    put_names(text, cat.table_name(*table), alias.items())
}

/// Appends a comma and a space, or the word before the first of the relations that are given.
fn put_before(text: &mut Vec<u8>, first: bool) -> Result<(), Memory>
    ensures { OnOk result (text.new.items ≡ text.old.items ++ before_given first) }
{
    if first {
        text.extend_from_slice(b" for ")
    } else {
        text.extend_from_slice(b", ")
    }
}

/// Appends an alias where its relation is given, and says whether the next one is still the first.
fn put_alias(text: &mut Vec<u8>, alias: &[u8], is: bool, first: bool) -> Result<bool, Memory>
    ensures { IfOk result (λ still. (xs : List (List ℕ)) →
        text.new.items ++ given_list still xs ≡
        text.old.items ++ given_list first (with_alias is alias.now xs)) }
{
    if !is {
        return Ok(first);
    }
    put_before(text, first)?;
    text.extend_from_slice(alias)?;
    Ok(false)
}

/// Appends the relations of a set, in FROM order, whose rows a scan is given.
fn put_given(text: &mut Vec<u8>, q: &Prepared, p: RelSet) -> Result<(), Memory>
    requires few { width q.now ≤ 16 }
    ensures { OnOk result (text.new.items ≡ text.old.items ++ given_text q.now.range p) }
{
    let relations = range_of(q).items();
    let mut first = true;
    for n in 0..relations.len() {
        let is = p.has(RelNo(n as u8));
        first = put_alias(text, relations[n].1.items(), is, first)?;
    }
    Ok(())
}

/// Appends the relation of a scan, and those whose rows it is given.
pub(crate) fn put_scanned(
    text: &mut Vec<u8>,
    cat: &Catalog,
    q: &Prepared,
    r: RelNo,
    p: RelSet,
) -> Result<(), Memory>
    requires tables { AreTables cat.now q.now.range }
    requires few { width q.now ≤ 16 }
    requires relation { r.0 < width q.now }
    ensures { OnOk result (text.new.items ≡ text.old.items ++ scanned_text cat.now q.now r p) }
{
    put_relation(text, cat, q, r)?;
    put_given(text, q, p)
}

/// Appends a column behind the alias of its relation.
pub(crate) fn put_column(
    text: &mut Vec<u8>,
    cat: &Catalog,
    q: &Prepared,
    x: ColRef,
) -> Result<(), Memory>
    requires tables { AreTables cat.now q.now.range }
    requires column { IsColumnOf cat.now q.now.range x }
    ensures { OnOk result (text.new.items ≡ text.old.items ++ column_text cat.now q.now x) }
{
    let (table, alias) = &range_of(q).items()[x.rel.0 as usize];
    text.extend_from_slice(alias.items())?;
    text.push(b'.')?;
    text.extend_from_slice(cat.column_name(*table, x.col))
}
