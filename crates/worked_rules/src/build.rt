//! What conditions of the tests are built from.

ghost use Rattle.std.specs.Prelude.{◌≡◌, IfOk};
ghost use Rattle.pg_expr.specs.Cond.{cond_and, no_conds, negation};
ghost use Rattle.pg_expr.specs.work.View.{cond, conds};

use pg_base::{ColNo, Memory, RelNo};
use pg_expr::{ColRef, Expr, Exprs};
use std::alloc::{AllocError, Global};

pub(crate) fn column(rel: u8, col: u8) -> ColRef
    ensures { result ≡ record { rel = record { 0 = rel }; col = record { 0 = col } } }
{
    ColRef {
        rel: RelNo(rel),
        col: ColNo(col),
    }
}

pub(crate) fn pair(alloc: Global, a: Expr, b: Expr) -> Result<Exprs, Memory>
    ensures { IfOk result (λ es. conds es.items.items ≡ cond_and (cond a) (cond_and (cond b) no_conds)) }
{
    match Vec::from_array(alloc, [a, b]) {
        Ok(items) => Ok(Exprs::from_vec(items)),
        Err(_) => Err(AllocError),
    }
}

pub(crate) fn not(alloc: Global, e: Expr) -> Result<Expr, Memory>
    ensures { IfOk result (λ p. cond p ≡ negation (cond e)) }
{
    match Box::new(alloc, e) {
        Ok(inner) => Ok(Expr::Not(inner)),
        Err(_) => Err(AllocError),
    }
}
