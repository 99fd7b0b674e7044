//! The order of values, and the truth of comparisons.

ghost use Rattle.std.specs.Prelude.{◌≡◌, ◌↔◌, ℕ, ℤ, Bool, List, unsigned_abs, IfSome, IfOk, IsTrue};
ghost use Rattle.std.specs.Cmp.{IsTotalOrder};
ghost use Rattle.pg_value.specs.declared.operators.Family.{Family};
ghost use Rattle.pg_value.specs.declared.value.Value.{Value};
ghost use Rattle.pg_value.specs.Order.{value_order};
ghost use Rattle.pg_value.specs.work.Order.{compared, IsOfFamily};
ghost use Rattle.pg_value.specs.Truths.{both, either, opposite, truth_of, truth_of_op, accepts, AreComparable, negator_of, commutator_of};

use crate::operators::{Family, Op, Truth};
use crate::value::Value;
use std::alloc::{AllocError, Global};
use std::cmp::Ordering;

/// How two values stand to one another in a family (PostgreSQL manual, Operator Classes and Operator Families);
/// `None` exactly where one is NULL. Each value is NULL or of the kind that the family orders.
pub fn compare(f: Family, a: &Value, b: &Value) -> Option<Ordering>
    requires a { IsOfFamily f a.now }
    requires b { IsOfFamily f b.now }
    ensures { result ≡ compared f a.now b.now }
{
    match (a, b) {
        (Value::Int(x), Value::Int(y)) => Some(compare_numbers(f, *x, *y)),
        (Value::Text(x), Value::Text(y)) => Some(x.items().cmp(y.items())),
        (Value::Bool(x), Value::Bool(y)) => Some(x.cmp(y)),
        _ => None,
    }
}

fn compare_numbers(f: Family, x: i64, y: i64) -> Ordering
    requires { IsOfFamily f (Value.Int x) }
    ensures { result ≡ value_order f (Value.Int x) (Value.Int y) }
{
    match f {
        Family::IntAbs => x.unsigned_abs().cmp(&y.unsigned_abs()),
        _ => x.cmp(&y),
    }
}

/// Each family's order is a total order up to equality: values that tie are equal, and in `IntAbs` their absolute
/// values are.
pub fn order_is_total()
    ensures total { (f : Family) → IsTotalOrder (value_order f) }
    ensures numbers { (m n : ℤ) → value_order Family.Integer (Value.Int m) (Value.Int n) ≡ Ordering.Equal → m ≡ n }
    ensures magnitudes { (m n : ℤ) → value_order Family.IntAbs (Value.Int m) (Value.Int n) ≡ Ordering.Equal → unsigned_abs m ≡ unsigned_abs n }
    ensures texts { (s t : List ℕ) → value_order Family.Text (Value.Text s) (Value.Text t) ≡ Ordering.Equal → s ≡ t }
    ensures flags { (p q : Bool) → value_order Family.Bool (Value.Bool p) (Value.Bool q) ≡ Ordering.Equal → p ≡ q }
    ensures uuids { (s t : List ℕ) → value_order Family.Uuid (Value.Text s) (Value.Text t) ≡ Ordering.Equal → s ≡ t }
    ensures dates { (m n : ℤ) → value_order Family.Date (Value.Int m) (Value.Int n) ≡ Ordering.Equal → m ≡ n }
    ensures timestamps { (m n : ℤ) → value_order Family.Timestamp (Value.Int m) (Value.Int n) ≡ Ordering.Equal → m ≡ n }
    ensures instants { (m n : ℤ) → value_order Family.TimestampTz (Value.Int m) (Value.Int n) ≡ Ordering.Equal → m ≡ n }
    ensures numerics { (scale : ℕ) (m n : ℤ) → value_order (Family.Numeric scale) (Value.Int m) (Value.Int n) ≡ Ordering.Equal → m ≡ n }
{}

/// The truth of `a op b`: `Unknown` exactly where a side is NULL. Each side is NULL or of a kind on which `op` is
/// defined, and both are of one kind.
pub fn apply(op: Op, a: &Value, b: &Value) -> Truth
    requires { AreComparable op a.now b.now }
    ensures { result ≡ truth_of_op op a.now b.now }
{
    let family = match (a, b) {
        (Value::Null, _) | (_, Value::Null) => return Truth::Unknown,
        (Value::Text(_), _) => Family::Text,
        (Value::Bool(_), _) => Family::Bool,
        _ if op.is_by_magnitude() => Family::IntAbs,
        _ => Family::Integer,
    };
    match compare(family, a, b) {
        Some(order) => Truth::of(is_met(op, order)),
        None => Truth::Unknown,
    }
}

fn is_met(op: Op, order: Ordering) -> bool
    ensures { result ≡ accepts op order }
{
    match op {
        Op::Lt | Op::AbsLt => order.is_lt(),
        Op::Le | Op::AbsLe => order.is_le(),
        Op::Eq | Op::AbsEq => order.is_eq(),
        Op::Ge | Op::AbsGe => order.is_ge(),
        Op::Gt | Op::AbsGt => order.is_gt(),
        Op::Ne => order.is_ne(),
    }
}

/// The operator that is true exactly where `op` is false; `None` exactly for `|=|`.
pub fn negator(op: Op) -> Option<Op>
    ensures table { result ≡ negator_of op }
    ensures opposite { IfSome result (λ n. (a b : Value) → truth_of_op n a b ≡ opposite (truth_of_op op a b)) }
{
    match op {
        Op::Lt => Some(Op::Ge),
        Op::Le => Some(Op::Gt),
        Op::Eq => Some(Op::Ne),
        Op::Ge => Some(Op::Lt),
        Op::Gt => Some(Op::Le),
        Op::Ne => Some(Op::Eq),
        Op::AbsLt => Some(Op::AbsGe),
        Op::AbsLe => Some(Op::AbsGt),
        Op::AbsEq => None,
        Op::AbsGe => Some(Op::AbsLt),
        Op::AbsGt => Some(Op::AbsLe),
    }
}

/// The operator that has the truth of `op` when the sides change places.
pub fn commutator(op: Op) -> Op
    ensures table { result ≡ commutator_of op }
    ensures exchanged { (a b : Value) → AreComparable op a b → truth_of_op result b a ≡ truth_of_op op a b }
{
    turned(op)
}

fn turned(op: Op) -> Op
    ensures { result ≡ commutator_of op }
{
    match op {
        Op::Lt => Op::Gt,
        Op::Le => Op::Ge,
        Op::Ge => Op::Le,
        Op::Gt => Op::Lt,
        Op::AbsLt => Op::AbsGt,
        Op::AbsLe => Op::AbsGe,
        Op::AbsGe => Op::AbsLe,
        Op::AbsGt => Op::AbsLt,
        Op::Eq | Op::Ne | Op::AbsEq => op,
    }
}

impl Truth {
    /// `True` where the test holds, else `False`.
    pub fn of(holds: bool) -> Truth
        ensures { result ≡ truth_of holds }
    {
        if holds { Truth::True } else { Truth::False }
    }

    /// AND.
    pub fn and(self, other: Truth) -> Truth
        ensures { result ≡ both self other }
    {
        match (self, other) {
            (Truth::False, _) | (_, Truth::False) => Truth::False,
            (Truth::True, Truth::True) => Truth::True,
            _ => Truth::Unknown,
        }
    }

    /// OR.
    pub fn or(self, other: Truth) -> Truth
        ensures { result ≡ either self other }
    {
        match (self, other) {
            (Truth::True, _) | (_, Truth::True) => Truth::True,
            (Truth::False, Truth::False) => Truth::False,
            _ => Truth::Unknown,
        }
    }

    /// NOT.
    pub fn not(self) -> Truth
        ensures { result ≡ opposite self }
    {
        match self {
            Truth::True => Truth::False,
            Truth::False => Truth::True,
            Truth::Unknown => Truth::Unknown,
        }
    }
}

impl Value {
    /// Whether two values are the same: of one kind, and equal there. NULL is the same as NULL alone, unlike in SQL, whose
    /// `=` leaves it open.
    pub fn is_same(&self, other: &Value) -> bool
        ensures { IsTrue result ↔ (self.now ≡ other.now) }
    {
        match (self, other) {
            (Value::Null, Value::Null) => true,
            (Value::Int(m), Value::Int(n)) => m == n,
            (Value::Bool(p), Value::Bool(q)) => p == q,
            (Value::Text(s), Value::Text(t)) => s.items() == t.items(),
            _ => false,
        }
    }

    /// An equal value.
    pub fn copy(&self, alloc: Global) -> Result<Value, AllocError>
        ensures { IfOk result (λ v. v ≡ self.now) }
    {
        match self {
            Value::Null => Ok(Value::Null),
            Value::Int(n) => Ok(Value::Int(*n)),
            Value::Bool(b) => Ok(Value::Bool(*b)),
            Value::Text(bytes) => Ok(Value::Text(bytes.copy(alloc)?)),
        }
    }
}
