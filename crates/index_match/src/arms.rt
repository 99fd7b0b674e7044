//! The arms of an OR clause that an index matches.

ghost use Rattle.std.specs.Prelude.{◌≡◌, ◌≤◌, ◌&&◌, ℕ, map, nat_lt, IfSome, is_some};
ghost use Rattle.pg_base.specs.declared.limits.TheConstants.{MOST_ATOMS};
ghost use Rattle.pg_expr.specs.work.AtomSets.{contains};
ghost use Rattle.pg_expr.specs.Columns.{atom_count};
ghost use Rattle.pg_expr.specs.work.View.{cond};
ghost use Rattle.catalog.specs.Contents.{IsIndex, index_at};
ghost use Rattle.catalog.specs.work.Entries.{index_of};
ghost use Rattle.index_match.specs.Arms as arms;
ghost use Rattle.index_match.specs.work.Arms as arms_work;
ghost use Rattle.index_match.specs.work.Arms.{parts_matched, bounds_arm};
ghost use Rattle.index_match.specs.Conditions as forms;
ghost use Rattle.index_match.specs.work.Conditions as forms_work;

use crate::bounds::bounds;
use crate::forms::is_condition;
use crate::slots::Conditions;
use catalog::opfamily::Method;
use catalog::{Catalog, IndexDef, RangeTable};
use eq_classes::ClauseSet;
use pg_base::{IndexNo, RelNo};
use pg_expr::{AtomSet, Expr};
use predicate_proof::and_parts;
use std::slice;

/// An arm as the list of its AND's parts, or itself.
#[tactic(auto, using(crate::proofs::ArmLemmas::parts))]
fn arm_parts(arm: &Expr) -> &[Expr]
    ensures { map cond result.now ≡ arms.arm_parts (cond arm.now) }
{
    match and_parts(arm) {
        Some(parts) => parts,
        None => slice::from_ref(arm),
    }
}

/// Whether an index may use so many parts.
fn takes_parts(m: Method, n: usize) -> bool
    ensures { result ≡ arms.takes_parts m n }
{
    match m {
        Method::Btree => n > 0,
        Method::Hash => n == 1,
    }
}

/// Whether an index may use each part on some key column.
fn are_conditions(def: &IndexDef, r: RelNo, parts: &[Expr]) -> bool
    ensures { result ≡ forms_work.are_conditions (index_of def.now) r.0 parts.now }
{
    parts.iter().all(|part| is_condition(def, r, part))
}

/// Whether an index matches an arm of these parts wholly.
fn is_matched(def: &IndexDef, r: RelNo, parts: &[Expr]) -> bool
    ensures { result ≡ parts_matched def.now r.0 parts.now }
{
    takes_parts(def.method, parts.len()) && are_conditions(def, r, parts)
}

/// The members of a set below an end, as atoms.
#[tactic(auto, using(crate::proofs::ArmLemmas::atoms))]
fn atoms(set: &ClauseSet, end: usize) -> AtomSet
    requires few { end ≤ MOST_ATOMS }
    ensures { (n : ℕ) → contains result n ≡ nat_lt n end && contains set.now n }
{
    let mut atoms = AtomSet::empty();
    for n in 0..end {
        if set.has(n as u16) {
            atoms.insert(n as u8);
        }
    }
    atoms
}

/// The bounds of index `i` for an arm of an OR clause over relation `r`, as numbers of the arm's parts from 0: the arm is
/// the list of its AND's parts, or itself. None exactly where the index does not match it wholly: where some part is no
/// condition of the index, or there is none, or for a hash index more than one. Whether the index is usable is for the
/// caller to ask. It takes no memory.
pub fn arm(cat: &Catalog, range: &RangeTable, i: IndexNo, r: RelNo, arm: &Expr) -> Option<AtomSet>
    requires index { IsIndex cat.now i }
    requires few { atom_count (cond arm.now) ≤ MOST_ATOMS }
    ensures matched { is_some result ≡ arms.is_matched (index_at cat.now i) r.0 (cond arm.now) }
    ensures bounds { IfSome result (λ set. (n : ℕ) → contains set n ≡ bounds_arm cat.now i r arm.now n) }
{
    let def = cat.index(i);
    let parts = arm_parts(arm);
    if !is_matched(def, r, parts) {
        return None;
    }
    let set = bounds(def, r, &Conditions::Parts(parts));
    Some(atoms(&set, parts.len()))
}
