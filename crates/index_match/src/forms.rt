//! The forms of conditions that an index serves.

ghost use Rattle.std.specs.Prelude.{◌≡◌, true};
ghost use Rattle.catalog.specs.opfamily_Answers.{takes};
ghost use Rattle.pg_expr.specs.work.View.{cond};
ghost use Rattle.catalog.specs.work.Entries.{index_of};
ghost use Rattle.index_match.specs.Bounds as bounds;
ghost use Rattle.index_match.specs.work.Bounds as bounds_work;
ghost use Rattle.index_match.specs.Conditions as forms;
ghost use Rattle.index_match.specs.work.Conditions as forms_work;

use catalog::IndexDef;
use catalog::opfamily::{IndexKey, Method, strategy};
use catalog::pg_value::{Family, Op, SqlType, Value};
use pg_base::RelNo;
use pg_expr::{ColRef, Expr, Operand};

/// A type that the operators of the family take.
fn type_of(f: Family) -> SqlType
    ensures { takes f result ≡ true }
{
    match f {
        Family::Integer | Family::IntAbs => SqlType::Int8,
        Family::Text => SqlType::Text,
        Family::Bool => SqlType::Bool,
        Family::Uuid => SqlType::Uuid,
        Family::Date => SqlType::Date,
        Family::Timestamp => SqlType::Timestamp,
        Family::TimestampTz => SqlType::TimestampTz,
        Family::Numeric(scale) => SqlType::Numeric { digits: 18, scale },
    }
}

/// Whether the operator is in the family of the key's class, for the method.
fn is_member(m: Method, key: IndexKey, op: Op) -> bool
    ensures { result ≡ forms.is_family_operator m key op }
{
    let t = type_of(key.family());
    strategy(key.family(), m, op, t, t).is_some()
}

/// Whether a column is that of the key, of the relation.
fn is_key(r: RelNo, key: IndexKey, x: ColRef) -> bool
    ensures { result ≡ forms.is_key r.0 key x }
{
    x.rel.0 == r.0 && x.col.0 == key.col.0
}

/// Whether a side of a comparison is the key's column.
pub fn is_key_side(r: RelNo, key: IndexKey, side: &Operand) -> bool
    ensures { result ≡ forms.is_key_side r.0 key side.now }
{
    match side {
        Operand::Col(x) => is_key(r, key, *x),
        Operand::Lit(_) => false,
    }
}

/// Whether a side may be compared with a column of the relation: a literal that is not NULL, or a column of another
/// relation.
pub fn is_outside(r: RelNo, side: &Operand) -> bool
    ensures { result ≡ forms.is_outside r.0 side.now }
{
    match side {
        Operand::Lit(Value::Null) => false,
        Operand::Lit(_) => true,
        Operand::Col(x) => x.rel.0 != r.0,
    }
}

/// Whether a comparison has the key's column on one side, and on the other what it may be compared with.
fn is_across(r: RelNo, key: IndexKey, a: &Operand, b: &Operand) -> bool
    ensures { result ≡ forms.is_across r.0 key a.now b.now }
{
    (is_key_side(r, key, a) && is_outside(r, b)) || (is_outside(r, a) && is_key_side(r, key, b))
}

/// Whether an index may use a condition on a key column.
pub fn has_form(m: Method, r: RelNo, key: IndexKey, e: &Expr) -> bool
    ensures { result ≡ forms.has_key_form m r.0 key (cond e.now) }
{
    match e {
        Expr::Compare(op, a, b) => is_member(m, key, *op) && is_across(r, key, a, b),
        Expr::IsNull(x) | Expr::IsNotNull(x) => m == Method::Btree && is_key(r, key, *x),
        _ => false,
    }
}

/// Whether an index may use a condition on some key column.
pub(crate) fn is_condition(def: &IndexDef, r: RelNo, e: &Expr) -> bool
    ensures { result ≡ forms.is_condition (index_of def.now) r.0 (cond e.now) }
{
    def.keys.iter().any(|key| has_form(def.method, r, *key, e))
}

/// Whether a condition on a key column leaves it one value.
pub fn is_fixing(e: &Expr) -> bool
    ensures { result ≡ bounds.is_fixing (cond e.now) }
{
    match e {
        Expr::IsNull(_) => true,
        Expr::Compare(op, _, _) => *op == Op::Eq || *op == Op::AbsEq,
        _ => false,
    }
}
