//! Conditions tested at a row or at an entry.

ghost use Rattle.std.specs.Prelude.{◌≡◌, ◌<◌, IfOk, length};
ghost use Rattle.scan_probes.specs.work.Scenes.{AreReadyIn, values_at};
ghost use Rattle.scan_probes.specs.work.Values.{are_true};
ghost use Rattle.scan_probes.specs.work.Filters.{chosen_conditions, lent_conditions};

use crate::bound::Bound;
use eq_classes::{Classes, ClauseSet};
use pg_base::Memory;
use pg_expr::{Expr, eval};
use pg_value::Truth;
use std::alloc::Global;

/// The conditions of the clauses of a set, by their numbers. The error means out of memory.
pub fn chosen<'a>(
    alloc: Global,
    classes: &'a Classes,
    set: &ClauseSet,
) -> Result<Vec<&'a Expr>, Memory>
    ensures { IfOk result (λ v. lent_conditions v.items ≡ chosen_conditions set.now classes.now) }
{
    let mut chosen = Vec::new(alloc);
    for n in 0..classes.count() {
        if set.has(n as u16) {
            chosen.push(classes.clause(n as u16))?;
        }
    }
    Ok(chosen)
}

/// Whether each condition is True there. False and Unknown leave the row out.
pub(crate) fn all_true(bound: &Bound, conditions: &[&Expr]) -> bool
    requires { AreReadyIn bound.now (lent_conditions conditions.now) }
    ensures { result ≡ are_true (values_at bound.now) (lent_conditions conditions.now) }
{
    for condition in conditions {
        if eval(condition, bound) != Truth::True {
            return false;
        }
    }
    true
}
