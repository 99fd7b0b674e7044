//! Comparisons of two sides whose columns are found.

ghost use Rattle.std.specs.Prelude.{◌≡◌, Option};
ghost use Rattle.pg_expr.specs.work.View.{cond};
ghost use Rattle.expr_reader.specs.Conditions.{BoundSide as SideTree, own_type as own_type_of, type_or as type_or_of, type_beside as type_beside_of, operand_of as operand_of_side, operated as operated_of};
ghost use Rattle.expr_reader.specs.Literals.{type_of_lit};
ghost use Rattle.expr_reader.specs.work.Reads.{seen_as};
ghost use Rattle.expr_reader.specs.work.Written.{side_read, IsComparison};

use crate::Operator;
use crate::value::{literal_value, named_value, number_type};
use crate::written::{Literal, Side};
use opfamily::operator_exists;
use pg_base::{Code, Fault};
use pg_expr::{Expr, Operand};
use pg_value::{SqlType, Truth};
use sql_grammar::fault_at;

/// The type that a side has by itself; a quoted text and NULL have none.
fn own_type(side: &Side) -> Option<SqlType>
    ensures { (s : SideTree) → side.now ≡ side_read s → result ≡ own_type_of s }
{
    match side {
        Side::Column(_, t, _) => Some(*t),
        Side::Literal(Literal::Whole(..)) => Some(SqlType::Int8),
        Side::Literal(Literal::Constant(Truth::True | Truth::False, _)) => Some(SqlType::Bool),
        Side::Literal(Literal::Constant(Truth::Unknown, _) | Literal::Quoted(_)) => None,
        Side::Typed(t, _, _) => *t,
    }
}

/// A type, where there is one, else another.
fn type_or(t: SqlType, own: Option<SqlType>) -> SqlType
    ensures { result ≡ type_or_of t own }
{
    match own {
        Some(own) => own,
        None => t,
    }
}

/// The type of a side beside another one with this type by itself, or with none: its own, else the other's, else text; a
/// whole number beside a numeric has that one's.
fn type_beside(side: &Side, other: Option<SqlType>) -> SqlType
    ensures { (s : SideTree) → side.now ≡ side_read s → result ≡ type_beside_of s other }
{
    let t = type_or(SqlType::Text, other);
    match side {
        Side::Literal(Literal::Whole(..)) => number_type(t),
        _ => type_or(t, own_type(side)),
    }
}

/// What a side stands for, where it has this type, or its literal's fault.
fn operand_of(t: SqlType, side: Side) -> Result<Operand, Fault>
    ensures { (s : SideTree) → side ≡ side_read s → result ≡ operand_of_side t s }
{
    match side {
        Side::Column(c, _, _) => Ok(Operand::Col(c)),
        Side::Literal(literal) => Ok(Operand::Lit(literal_value(t, literal)?)),
        Side::Typed(named, token, text) => Ok(Operand::Lit(named_value(named, token, text)?)),
    }
}

/// The operator between these, where there is one over their types.
fn operated(
    operator: Operator,
    t: SqlType,
    u: SqlType,
    left: Operand,
    right: Operand,
) -> Result<Expr, Fault>
    ensures { seen_as cond result ≡ operated_of operator.op operator.token t u left right }
{
    match operator.op {
        Some(op) if operator_exists(op, t, u) => Ok(Expr::Compare(op, left, right)),
        _ => Err(fault_at(Code::S9, operator.token)),
    }
}

/// The comparison of two sides, or its first fault: of a literal, from the left, and then of the operator. No memory is wanted.
pub fn compare(operator: Operator, left: Side, right: Side) -> Result<Expr, Fault>
    ensures { IsComparison operator left right (seen_as cond result) }
{
    let own = own_type(&left);
    let other = own_type(&right);
    let t = type_beside(&left, other);
    let u = type_beside(&right, own);
    let left = operand_of(t, left)?;
    let right = operand_of(u, right)?;
    operated(operator, t, u, left, right)
}
