//! How many conjuncts a condition has in pushed form.

ghost use Rattle.std.specs.Prelude.{◌≡◌, ◌-◌, ◌^◌, min};
ghost use Rattle.pg_expr.specs.Conjuncts.{conjuncts_of};
ghost use Rattle.pg_expr.specs.Pushed.{group_of, pushed_parts};
ghost use Rattle.pg_expr.specs.work.View.{cond, conds};
ghost use Rattle.expr_reader.specs.work.Counts.{conjuncts_counted, count_of};

use pg_expr::Expr;

/// The number of conjuncts that a condition or, where `negated`, its NOT has in pushed form, which is not made for it. A number past
/// 2^64 - 1, which no memory holds, is answered as 2^64 - 1.
#[cycle(conjunct_count)]
pub fn conjunct_count(e: &Expr, negated: bool) -> u64
    ensures { result ≡ min (conjuncts_counted negated (cond e.now)) (2 ^ 64 - 1) }
{
    match e {
        Expr::Compare(..)
        | Expr::IsNull(_)
        | Expr::IsNotNull(_)
        | Expr::BoolCol(_)
        | Expr::Const(_) => 1,
        Expr::And(parts) => group_count(&parts.items, negated, negated),
        Expr::Or(parts) => group_count(&parts.items, negated, !negated),
        Expr::Not(inner) => conjunct_count(inner, !negated),
    }
}

/// The number of conjuncts of an AND or, where `any`, of an OR of the pushed forms of these conditions or, where `negated`, of their
/// NOTs.
#[cycle(conjunct_count)]
fn group_count(parts: &[Expr], negated: bool, any: bool) -> u64
    ensures { result ≡ min (count_of (conjuncts_of (group_of any
        (pushed_parts negated any (conds parts.now))))) (2 ^ 64 - 1) }
{
    if any {
        return 1;
    }
    let mut all: u64 = 0;
    for part in parts {
        all = all.saturating_add(conjunct_count(part, negated));
    }
    all
}
