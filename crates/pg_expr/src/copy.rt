//! Copies of conditions.

ghost use Rattle.std.specs.Prelude.{◌≡◌, IfOk};
ghost use Rattle.pg_expr.specs.work.View.{cond, conds};

use crate::expr::{Expr, Exprs};
use pg_base::Memory;
use std::alloc::Global;

impl Expr {
    /// A condition of the same tree. The error means that memory ran out.
    #[cycle(copy)]
    pub fn copy(&self, alloc: Global) -> Result<Expr, Memory>
        ensures { IfOk result (λ e. cond e ≡ cond self.now) }
    {
        match self {
            Expr::Compare(op, l, r) => {
                let l = l.copy(alloc)?;
                let r = r.copy(alloc)?;
                Ok(Expr::Compare(*op, l, r))
            }
            Expr::IsNull(c) => Ok(Expr::IsNull(*c)),
            Expr::IsNotNull(c) => Ok(Expr::IsNotNull(*c)),
            Expr::BoolCol(c) => Ok(Expr::BoolCol(*c)),
            Expr::Const(t) => Ok(Expr::Const(*t)),
            Expr::And(parts) => {
                let parts = parts.copy(alloc)?;
                Ok(Expr::And(parts))
            }
            Expr::Or(parts) => {
                let parts = parts.copy(alloc)?;
                Ok(Expr::Or(parts))
            }
            Expr::Not(inner) => {
                let inner = Box::new(alloc, inner.copy(alloc)?)?;
                Ok(Expr::Not(inner))
            }
        }
    }
}

impl Exprs {
    /// A list of the same trees. The error means that memory ran out.
    #[cycle(copy)]
    pub fn copy(&self, alloc: Global) -> Result<Exprs, Memory>
        ensures { IfOk result (λ es. conds es.items.items ≡ conds self.now.items.items) }
    {
        let mut items = Vec::new(alloc);
        for part in &self.items {
            items.push(part.copy(alloc)?)?;
        }
        Ok(Exprs { items })
    }
}
