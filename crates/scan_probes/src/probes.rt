//! The conditions of an index as bounds of a part of it.

ghost use Rattle.std.specs.Prelude.{◌≡◌, ◌<◌, true, IfOk, IfSome, OnOk, IsTrue, length};
ghost use Rattle.opfamily.specs.declared.classes.Method.TheVariants.{Btree, Hash};
ghost use Rattle.pg_expr.specs.Truths.{value_of};
ghost use Rattle.pg_expr.specs.Cond.{compare};
ghost use Rattle.pg_expr.specs.work.View.{cond};
ghost use Rattle.index_match.specs.Conditions as forms;
ghost use Rattle.index_match.specs.work.Conditions as forms_work;
ghost use Rattle.scan_probes.specs.work.Probes.{AddsBounds, AreKnown, compared_with, fixing_bound, given_bound, given_value, is_given, is_known, key_bounds, probe_at};
ghost use Rattle.scan_probes.specs.work.Filters.{lent_conditions};

use crate::given::Given;
use btree_index::{Bound, Probe};
use heap::value_in;
use index_match::{has_form, is_fixing, is_key_side, is_outside};
use opfamily::{IndexKey, Method};
use pg_base::{Memory, RelNo};
use pg_expr::{Expr, Operand};
use pg_value::{Value, commutator};
use std::alloc::Global;

/// The value of a side that is a literal or a column of a row given. The error means out of memory.
fn side_value(alloc: Global, given: &Given, o: &Operand) -> Result<Value, Memory>
    requires { IsTrue (is_given given.now o.now) }
    ensures { IfOk result (λ v. v ≡ value_of (given_value given.now) o.now) }
{
    match o {
        Operand::Lit(v) => v.copy(alloc),
        Operand::Col(x) => match given.row(x.rel) {
            Some(row) => value_in(row, x.col).copy(alloc),
            None => unreachable!(),
        },
    }
}

/// A comparison of a key column. The error means out of memory.
fn bound(
    alloc: Global,
    column: u8,
    op: pg_value::Op,
    given: &Given,
    side: &Operand,
) -> Result<Probe, Memory>
    requires { IsTrue (is_given given.now side.now) }
    ensures { IfOk result (λ p. p ≡ given_bound column op given.now side.now) }
{
    let value = side_value(alloc, given, side)?;
    Ok(Probe::Bound(Bound {
        col: column,
        op,
        value,
    }))
}

/// A key column of an index on relation `rel`: its key, and its place among the keys.
#[derive(Drop)]
struct KeyColumn {
    rel: RelNo,
    key: IndexKey,
    place: u8,
}

/// A comparison of two sides, one of them a key column, with the column on the left. The error means out of memory.
fn comparison_probe(
    alloc: Global,
    at: &KeyColumn,
    given: &Given,
    op: pg_value::Op,
    a: &Operand,
    b: &Operand,
) -> Result<Probe, Memory>
    requires form { forms.has_key_form Btree at.now.rel.0 at.now.key (compare op a.now b.now) ≡ true }
    requires known { is_known at.now.rel.0 given.now (compare op a.now b.now) ≡ true }
    ensures { IfOk result (λ p. p ≡ probe_at at.now given.now (compare op a.now b.now)) }
{
    if is_key_side(at.rel, at.key, a) && is_outside(at.rel, b) {
        bound(alloc, at.place, op, given, b)
    } else {
        bound(alloc, at.place, commutator(op), given, a)
    }
}

/// A condition on a key column, with the column on the left. The error means out of memory.
fn probe(alloc: Global, at: &KeyColumn, given: &Given, e: &Expr) -> Result<Probe, Memory>
    requires form { forms.has_key_form Btree at.now.rel.0 at.now.key (cond e.now) ≡ true }
    requires known { is_known at.now.rel.0 given.now (cond e.now) ≡ true }
    ensures { IfOk result (λ p. p ≡ probe_at at.now given.now (cond e.now)) }
{
    match e {
        Expr::Compare(op, a, b) => comparison_probe(alloc, at, given, *op, a, b),
        Expr::IsNull(_) => Ok(Probe::IsNull(at.place)),
        _ => Ok(Probe::NotNull(at.place)),
    }
}

/// The first condition that fixes a key column. None where no condition does. The error means out of memory.
fn fixing_probe(
    alloc: Global,
    at: &KeyColumn,
    given: &Given,
    conditions: &[&Expr],
) -> Result<Option<Probe>, Memory>
    requires { AreKnown at.now.rel.0 given.now (lent_conditions conditions.now) }
    ensures { IfOk result (λ p. p ≡ fixing_bound at.now given.now conditions.now) }
{
    for condition in conditions {
        if has_form(Method::Btree, at.rel, at.key, condition) && is_fixing(condition) {
            let fixing = probe(alloc, at, given, condition)?;
            return Ok(Some(fixing));
        }
    }
    Ok(None)
}

/// Adds the conditions on a key column that no condition fixes. The error means out of memory.
fn add_open(
    alloc: Global,
    at: &KeyColumn,
    given: &Given,
    conditions: &[&Expr],
    probes: &mut Vec<Probe>,
) -> Result<(), Memory>
    requires { AreKnown at.now.rel.0 given.now (lent_conditions conditions.now) }
    ensures { OnOk result (AddsBounds at.now given.now conditions.now probes.old probes.new) }
{
    for condition in conditions {
        if has_form(Method::Btree, at.rel, at.key, condition) {
            probes.push(probe(alloc, at, given, condition)?)?;
        }
    }
    Ok(())
}

/// The value that the condition of a hash index on a key of relation `r` compares the key with, where rows of other relations
/// are given. The error means out of memory.
pub fn equal_value(
    alloc: Global,
    r: RelNo,
    key: IndexKey,
    given: &Given,
    e: &Expr,
) -> Result<Value, Memory>
    requires form { forms.has_key_form Hash r.0 key (cond e.now) ≡ true }
    requires known { is_known r.0 given.now (cond e.now) ≡ true }
    ensures { IfOk result (λ v. v ≡ compared_with r.0 key given.now (cond e.now)) }
{
    match e {
        Expr::Compare(_, a, b) => {
            if is_key_side(r, key, a) && is_outside(r, b) {
                side_value(alloc, given, b)
            } else {
                side_value(alloc, given, a)
            }
        }
        _ => unreachable!(),
    }
}

/// The conditions of a B-tree of these keys, on relation `r`, as bounds of its entries, where rows of other relations are
/// given. The error means out of memory.
pub fn index_probes(
    alloc: Global,
    r: RelNo,
    keys: &[IndexKey],
    given: &Given,
    conditions: &[&Expr],
) -> Result<Vec<Probe>, Memory>
    requires few { length keys.now < 256 }
    requires known { AreKnown r.0 given.now (lent_conditions conditions.now) }
    ensures { IfOk result (λ v. v.items ≡ key_bounds r.0 keys.now given.now conditions.now) }
{
    let mut probes = Vec::new(alloc);
    for column in 0..keys.len() {
        let at = KeyColumn {
            rel: r,
            key: keys[column],
            place: column as u8,
        };
        match fixing_probe(alloc, &at, given, conditions)? {
            Some(fixing) => probes.push(fixing)?,
            None => {
                add_open(alloc, &at, given, conditions, &mut probes)?;
                return Ok(probes);
            }
        }
    }
    Ok(probes)
}
