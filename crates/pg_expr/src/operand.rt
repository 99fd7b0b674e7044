//! What a condition compares: columns and literals.

ghost use Rattle.std.specs.Prelude.{◌≡◌, IfOk};

use pg_base::{ColNo, Memory, RelNo};
use pg_value::Value;
use std::alloc::Global;

/// A column of a relation of the query.
#[derive(Clone, Copy, Debug, Default, PartialEq, Eq, PartialOrd, Ord)]
pub struct ColRef {
    /// The relation, numbered in FROM order.
    pub rel: RelNo,
    /// The column of that relation's table.
    pub col: ColNo,
}

/// A side of a comparison.
#[derive(Debug, Drop)]
pub enum Operand {
    /// A column.
    Col(ColRef),
    /// A literal.
    Lit(Value),
}

impl Operand {
    /// An equal operand. The error means that memory ran out.
    pub fn copy(&self, alloc: Global) -> Result<Operand, Memory>
        ensures { IfOk result (λ o. o ≡ self.now) }
    {
        match self {
            Operand::Col(c) => Ok(Operand::Col(*c)),
            Operand::Lit(v) => Ok(Operand::Lit(v.copy(alloc)?)),
        }
    }
}
