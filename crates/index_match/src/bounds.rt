//! The conditions that bound one contiguous part of an index.

ghost use Rattle.std.specs.Prelude.{◌≡◌, ◌<◌, ◌≤◌, ◌||◌, ◌&&◌, ℕ, length, nat_eq, IfSome};
ghost use Rattle.std.specs.List.{position_from};
ghost use Rattle.std.specs.Option.{option_map};
ghost use Rattle.pg_expr.specs.work.AtomSets.{contains};
ghost use Rattle.pg_expr.specs.work.View.{cond};
ghost use Rattle.index_match.specs.work.Slots as slots;
ghost use Rattle.index_match.specs.work.Slots.{slots_of, is_key_slot, is_bound};

use crate::forms::{has_form, is_fixing};
use crate::slots::Conditions;
use catalog::IndexDef;
use catalog::opfamily::{IndexKey, Method};
use eq_classes::ClauseSet;
use pg_base::RelNo;
use pg_expr::Expr;

/// Whether there is a condition, and an index may use it on the key column.
fn is_on_key(m: Method, r: RelNo, key: IndexKey, found: Option<&Expr>) -> bool
    ensures { result ≡ slots.is_on_key m r.0 key (option_map (λ e. cond e.now) found.entry) }
{
    match found {
        Some(e) => has_form(m, r, key, e),
        None => false,
    }
}

/// Whether there is such a condition that leaves the key column one value.
fn is_fixing_on(m: Method, r: RelNo, key: IndexKey, found: Option<&Expr>) -> bool
    ensures { result ≡ slots.is_fixing_on m r.0 key (option_map (λ e. cond e.now) found.entry) }
{
    match found {
        Some(e) => has_form(m, r, key, e) && is_fixing(e),
        None => false,
    }
}

/// The number of the first condition that leaves a key column one value.
fn first_fixing(m: Method, r: RelNo, key: IndexKey, list: &Conditions) -> Option<u16>
    requires few { length (slots_of list.now) ≤ 512 }
    ensures first { result ≡ position_from (slots.is_fixing_on m r.0 key) 0 (slots_of list.now) }
    ensures within { IfSome result (λ n. n < length (slots_of list.now)) }
{
    for n in 0..list.end() {
        if is_fixing_on(m, r, key, list.get(n as u16)) {
            return Some(n as u16);
        }
    }
    None
}

/// Puts the number in where it is to be.
#[tactic(auto, using(eq_classes::proofs::WordLemmas::note_laws))]
pub(crate) fn note(set: &mut ClauseSet, n: u16, is: bool)
    requires { n < 512 }
    ensures { (k : ℕ) → contains set.new k ≡ contains set.old k || (nat_eq k n && is) }
{
    if is {
        set.insert(n);
    }
}

/// Puts in the numbers of all conditions on a key column.
#[tactic(auto, using(crate::proofs::SlotLemmas::growing))]
fn note_all(set: &mut ClauseSet, m: Method, r: RelNo, key: IndexKey, list: &Conditions)
    requires few { length (slots_of list.now) ≤ 512 }
    ensures { (j : ℕ) → contains set.new j ≡ contains set.old j || is_key_slot m r key list.now j }
{
    for n in 0..list.end() {
        let is = is_on_key(m, r, key, list.get(n as u16));
        note(set, n as u16, is);
    }
}

/// The numbers of the bounds of an index: from the left over the key columns the first condition that leaves the
/// column one value; the first column without such a one gives all its conditions, and none after it gives any.
pub(crate) fn bounds(def: &IndexDef, r: RelNo, list: &Conditions) -> ClauseSet
    requires few { length (slots_of list.now) ≤ 512 }
    ensures { (j : ℕ) → contains result j ≡ is_bound def.now r.0 (slots_of list.now) j }
{
    let mut set = ClauseSet::empty();
    for key in &def.keys {
        match first_fixing(def.method, r, *key, list) {
            Some(n) => set.insert(n),
            None => {
                note_all(&mut set, def.method, r, *key, list);
                return set;
            }
        }
    }
    set
}
