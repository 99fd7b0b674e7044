//! The columns that conditions name.

ghost use Rattle.std.specs.Prelude.{◌≡◌, ◌++◌, IfOk};
ghost use Rattle.pg_expr.specs.work.View.{cond, conds};
ghost use Rattle.query_reader.specs.Named.{columns_in, columns_in_all};
ghost use Rattle.eq_classes.specs.Grouping.{operand_columns};

use pg_base::Memory;
use pg_expr::{ColRef, Expr, Operand};
use std::alloc::Global;

fn column_in(alloc: Global, o: &Operand) -> Result<Vec<ColRef>, Memory>
    ensures { IfOk result (λ xs. xs.items ≡ operand_columns o.now) }
{
    let mut all = Vec::new(alloc);
    if let Operand::Col(c) = o {
        all.push(*c)?;
    }
    Ok(all)
}

/// The columns that a condition names, from the left.
#[cycle(named)]
fn columns_in(alloc: Global, e: &Expr) -> Result<Vec<ColRef>, Memory>
    ensures { IfOk result (λ xs. xs.items ≡ columns_in (cond e.now)) }
{
    match e {
        Expr::Compare(_, l, r) => {
            let mut all = column_in(alloc, l)?;
            let mut more = column_in(alloc, r)?;
            all.append(&mut more)?;
            Ok(all)
        }
        Expr::IsNull(c) | Expr::IsNotNull(c) | Expr::BoolCol(c) => {
            let mut all = Vec::new(alloc);
            all.push(*c)?;
            Ok(all)
        }
        Expr::Const(_) => Ok(Vec::new(alloc)),
        Expr::And(parts) | Expr::Or(parts) => columns_in_all(alloc, &parts.items),
        Expr::Not(inner) => columns_in(alloc, inner),
    }
}

/// The columns that conditions name, from the left, each as often as it is named.
#[cycle(named)]
pub fn columns_in_all(alloc: Global, parts: &[Expr]) -> Result<Vec<ColRef>, Memory>
    ensures { IfOk result (λ xs. xs.items ≡ columns_in_all (conds parts.now)) }
{
    let mut all = Vec::new(alloc);
    for part in parts {
        let mut more = columns_in(alloc, part)?;
        all.append(&mut more)?;
    }
    Ok(all)
}
