//! Conditions of three-valued logic (SQL; PostgreSQL manual, chapter Functions and Operators).
//! Contracts see the tree that an expression stands for.

ghost use Rattle.std.specs.Prelude.{◌≡◌};

use crate::operand::{ColRef, Operand};
use pg_value::{Op, Truth};

/// A list of conditions. An AND or OR that a statement's text gives has two parts at least; a list of conjuncts may
/// be empty.
#[cycle(expr)]
#[derive(Drop)]
pub struct Exprs {
    /// The conditions in order.
    pub items: Vec<Expr>,
}

/// A condition.
#[cycle(expr)]
#[derive(Drop)]
pub enum Expr {
    /// A comparison by an operator.
    Compare(Op, Operand, Operand),
    /// IS NULL of a column.
    IsNull(ColRef),
    /// IS NOT NULL of a column.
    IsNotNull(ColRef),
    /// A column of type bool by itself.
    BoolCol(ColRef),
    /// A constant truth.
    Const(Truth),
    /// AND of the parts; that of no parts is true.
    And(Exprs),
    /// OR of the parts; that of no parts is false.
    Or(Exprs),
    /// NOT of a condition.
    Not(Box<Expr>),
}

impl Exprs {
    /// The list of these conditions.
    pub fn from_vec(v: Vec<Expr>) -> Exprs
        ensures { result.items ≡ v }
    {
        Exprs { items: v }
    }

    /// The conditions in order, lent.
    pub fn items(&self) -> &[Expr]
        ensures { result.now ≡ self.now.items.items }
    {
        &self.items
    }
}
