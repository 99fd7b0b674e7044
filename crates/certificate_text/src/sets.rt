//! Sets of relations by their aliases.

ghost use Rattle.std.specs.Prelude.{◌≡◌, ◌≤◌, ◌++◌, ℕ, List, IfOk, OnOk};
ghost use Rattle.pg_base.specs.Sets.{has};
ghost use Rattle.explain.specs.Texts.{with_alias};
ghost use Rattle.sql_query.specs.Queries.{width};
ghost use Rattle.certificate_text.specs.Texts.{alias_list, param_text, set_text, with_bare_commas};
ghost use Rattle.certificate_text.specs.work.Texts.{bare_comma};

use pg_base::{Memory, RelNo, RelSet};
use plan_tree::range_of;
use sql_query::Prepared;

/// Appends a comma, where something stands before.
fn put_before(text: &mut Vec<u8>, first: bool) -> Result<(), Memory>
    ensures { OnOk result (text.new.items ≡ text.old.items ++ bare_comma first) }
{
    if !first {
        text.push(b',')?;
    }
    Ok(())
}

/// Appends an alias where its relation is in the set, and says whether the next one is still the first.
fn put_alias(text: &mut Vec<u8>, alias: &[u8], is: bool, first: bool) -> Result<bool, Memory>
    ensures { IfOk result (λ still. (xs : List (List ℕ)) →
        text.new.items ++ with_bare_commas (bare_comma still) xs ≡
        text.old.items ++ with_bare_commas (bare_comma first) (with_alias is alias.now xs)) }
{
    if !is {
        return Ok(first);
    }
    put_before(text, first)?;
    text.extend_from_slice(alias)?;
    Ok(false)
}

/// Appends the aliases of a set, in FROM order.
fn put_aliases(text: &mut Vec<u8>, q: &Prepared, s: RelSet) -> Result<(), Memory>
    requires few { width q.now ≤ 16 }
    ensures { OnOk result (text.new.items ≡ text.old.items ++ alias_list q.now (has s.0)) }
{
    let relations = range_of(q).items();
    let mut first = true;
    for n in 0..relations.len() {
        let is = s.has(RelNo(n as u8));
        first = put_alias(text, relations[n].1.items(), is, first)?;
    }
    Ok(())
}

/// Appends a set.
pub(crate) fn put_set(text: &mut Vec<u8>, q: &Prepared, s: RelSet) -> Result<(), Memory>
    requires few { width q.now ≤ 16 }
    ensures { OnOk result (text.new.items ≡ text.old.items ++ set_text q.now s) }
{
    text.extend_from_slice(b"{")?;
    put_aliases(text, q, s)?;
    text.extend_from_slice(b"}")
}

/// Appends a parameterisation, where there is one.
pub(crate) fn put_param(text: &mut Vec<u8>, q: &Prepared, p: RelSet) -> Result<(), Memory>
    requires few { width q.now ≤ 16 }
    ensures { OnOk result (text.new.items ≡ text.old.items ++ param_text q.now p) }
{
    if p.0 == 0 {
        return Ok(());
    }
    text.extend_from_slice(b" for ")?;
    put_set(text, q, p)
}
