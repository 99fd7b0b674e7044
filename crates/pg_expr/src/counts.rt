//! The relations that a condition names, and the number of its atoms.

ghost use Rattle.std.specs.Prelude.{◌≡◌, ℕ, ◌-◌, ◌^◌, ◌<◌, ◌||◌, false, min, nat_eq, nat_lt, IsTrue};
ghost use Rattle.pg_base.specs.Sets.{has};
ghost use Rattle.pg_expr.specs.Columns.{names_rel, names_column, some_column_of, passes_column, each_column_of, atom_count, atom_count_of};
ghost use Rattle.pg_expr.specs.work.Columns.{rels_below};
ghost use Rattle.pg_expr.specs.work.View.{cond, conds};

use crate::expr::{Expr, Exprs};
use crate::operand::Operand;
use pg_base::RelSet;

/// The relations that a condition's columns name. The condition is that each is below 16.
#[cycle(rels)]
pub fn rels(e: &Expr) -> RelSet
    requires { IsTrue (rels_below 16 (cond e.now)) }
    ensures { (k : ℕ) → has result.0 k ≡ names_rel k (cond e.now) }
{
    match e {
        Expr::Compare(_, l, r) => operand_rels(l).union(operand_rels(r)),
        Expr::IsNull(c) | Expr::IsNotNull(c) | Expr::BoolCol(c) => RelSet::one(c.rel),
        Expr::Const(_) => RelSet::empty(),
        Expr::And(parts) | Expr::Or(parts) => rels_of(&parts.items),
        Expr::Not(inner) => rels(inner),
    }
}

#[cycle(rels)]
fn rels_of(parts: &[Expr]) -> RelSet
    requires { IsTrue (each_column_of (λ c. nat_lt c.rel.0 16) (conds parts.now)) }
    ensures { (k : ℕ) → has result.0 k ≡ some_column_of (λ c. nat_eq k c.rel.0) (conds parts.now) }
{
    let mut all = RelSet::empty();
    for part in parts {
        all = all.union(rels(part));
    }
    all
}

fn operand_rels(o: &Operand) -> RelSet
    requires { IsTrue (passes_column (λ c. nat_lt c.rel.0 16) o.now) }
    ensures { (k : ℕ) → has result.0 k ≡ names_column (λ c. nat_eq k c.rel.0) o.now }
{
    match o {
        Operand::Col(c) => RelSet::one(c.rel),
        Operand::Lit(_) => RelSet::empty(),
    }
}

/// The number of a condition's atoms: comparisons, null tests and boolean columns. A constant is none.
/// A number past 2^64 - 1, which no memory holds, is answered as 2^64 - 1.
#[cycle(ops)]
pub fn ops(e: &Expr) -> u64
    ensures { result ≡ min (atom_count (cond e.now)) (2 ^ 64 - 1) }
{
    match e {
        Expr::Compare(..) | Expr::IsNull(_) | Expr::IsNotNull(_) | Expr::BoolCol(_) => 1,
        Expr::Const(_) => 0,
        Expr::And(parts) | Expr::Or(parts) => ops_of(&parts.items),
        Expr::Not(inner) => ops(inner),
    }
}

#[cycle(ops)]
fn ops_of(parts: &[Expr]) -> u64
    ensures { result ≡ min (atom_count_of (conds parts.now)) (2 ^ 64 - 1) }
{
    let mut all: u64 = 0;
    for part in parts {
        all = all.saturating_add(ops(part));
    }
    all
}
