//! Operators of a family by their strategies.

ghost use Rattle.std.specs.Prelude.{◌≡◌};
ghost use Rattle.opfamily.specs.Answers.{does_exist, family_has, number_in, some_family_has, takes};
ghost use Rattle.opfamily.specs.work.Answers.{strategy_of};

use crate::classes::{Method, is_of_scale, scale_of};
use pg_value::{Family, Op, SqlType};

/// The strategy of an operator over these types in a family, for an access method: 1 to 5 for `<`, `<=`, `=`, `>=`,
/// `>` of btree, and 1 for `=` of hash. None exactly where the operator is no member there.
pub fn strategy(f: Family, m: Method, op: Op, l: SqlType, r: SqlType) -> Option<u8>
    ensures { result ≡ strategy_of f m op l r }
{
    if !compares(f, l) || !compares(f, r) {
        return None;
    }
    number(f, m, op)
}

/// Whether the operators of a family take values of this type.
fn compares(f: Family, t: SqlType) -> bool
    ensures { result ≡ takes f t }
{
    match f {
        Family::Integer | Family::IntAbs => {
            matches!(t, SqlType::Int2 | SqlType::Int4 | SqlType::Int8)
        }
        Family::Text => matches!(t, SqlType::Text),
        Family::Bool => matches!(t, SqlType::Bool),
        Family::Uuid => matches!(t, SqlType::Uuid),
        Family::Date => matches!(t, SqlType::Date),
        Family::Timestamp => matches!(t, SqlType::Timestamp),
        Family::TimestampTz => matches!(t, SqlType::TimestampTz),
        Family::Numeric(scale) => is_of_scale(t, scale),
    }
}

/// The strategy of an operator in a family.
fn number(f: Family, m: Method, op: Op) -> Option<u8>
    ensures { result ≡ number_in f m op }
{
    match f {
        Family::IntAbs => absolute_number(m, op),
        _ => plain_number(m, op),
    }
}

/// The strategy of an operator in the family of absolute values.
fn absolute_number(m: Method, op: Op) -> Option<u8>
    ensures { result ≡ number_in Family.IntAbs m op }
{
    match (m, op) {
        (Method::Hash, _) => None,
        (Method::Btree, Op::AbsLt) => Some(1),
        (Method::Btree, Op::AbsLe) => Some(2),
        (Method::Btree, Op::AbsEq) => Some(3),
        (Method::Btree, Op::AbsGe) => Some(4),
        (Method::Btree, Op::AbsGt) => Some(5),
        (Method::Btree, _) => None,
    }
}

/// The strategy of an operator in each other family, as in that of integers.
fn plain_number(m: Method, op: Op) -> Option<u8>
    ensures { result ≡ number_in Family.Integer m op }
{
    match (m, op) {
        (Method::Hash, Op::Eq) => Some(1),
        (Method::Hash, _) => None,
        (Method::Btree, Op::Lt) => Some(1),
        (Method::Btree, Op::Le) => Some(2),
        (Method::Btree, Op::Eq) => Some(3),
        (Method::Btree, Op::Ge) => Some(4),
        (Method::Btree, Op::Gt) => Some(5),
        (Method::Btree, _) => None,
    }
}

/// Whether there is an operator over these types. `<>` exists wherever `=` does.
pub fn operator_exists(op: Op, l: SqlType, r: SqlType) -> bool
    ensures { result ≡ does_exist op l r }
{
    match op {
        Op::Ne => is_in_some_family(Op::Eq, l, r),
        _ => is_in_some_family(op, l, r),
    }
}

/// Whether some family has the operator for these types.
fn is_in_some_family(op: Op, l: SqlType, r: SqlType) -> bool
    ensures { result ≡ some_family_has op l r }
{
    has_operator(Family::Integer, op, l, r)
        || has_operator(Family::Text, op, l, r)
        || has_operator(Family::Bool, op, l, r)
        || has_operator(Family::IntAbs, op, l, r)
        || has_operator(Family::Uuid, op, l, r)
        || has_operator(Family::Date, op, l, r)
        || has_operator(Family::Timestamp, op, l, r)
        || has_operator(Family::TimestampTz, op, l, r)
        || has_operator(Family::Numeric(scale_of(l)), op, l, r)
}

/// Whether the family has the operator for these types.
fn has_operator(f: Family, op: Op, l: SqlType, r: SqlType) -> bool
    ensures { result ≡ family_has f op l r }
{
    compares(f, l) && compares(f, r) && number(f, Method::Btree, op).is_some()
}
