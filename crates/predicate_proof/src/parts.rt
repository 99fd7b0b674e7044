//! The parts of an AND and of an OR.

ghost use Rattle.std.specs.Prelude.{◌≡◌, false, MatchOption};
ghost use Rattle.pg_expr.specs.Cond.{all_of, any_of};
ghost use Rattle.pg_expr.specs.work.View.{cond, conds};
ghost use Rattle.predicate_proof.specs.Atoms.{is_any};
ghost use Rattle.predicate_proof.specs.work.Atoms.{is_all};

use pg_expr::Expr;

/// The parts of an AND. None exactly where the condition is no AND.
pub fn and_parts(e: &Expr) -> Option<&[Expr]>
    ensures { MatchOption result (is_all (cond e.now) ≡ false) (λ parts. cond e.now ≡ all_of (conds parts.now)) }
{
    match e {
        Expr::And(parts) => Some(parts.items()),
        _ => None,
    }
}

/// The parts of an OR. None exactly where the condition is no OR.
pub fn or_parts(e: &Expr) -> Option<&[Expr]>
    ensures { MatchOption result (is_any (cond e.now) ≡ false) (λ parts. cond e.now ≡ any_of (conds parts.now)) }
{
    match e {
        Expr::Or(parts) => Some(parts.items()),
        _ => None,
    }
}
