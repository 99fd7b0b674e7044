//! The order of one column's values: a family's, with a direction and a place of NULL (PostgreSQL manual, chapter
//! Queries, Sorting Rows).

ghost use Rattle.std.specs.Prelude.{◌≡◌};
ghost use Rattle.pg_value.specs.Order.{value_order, number, flag, bytes};
ghost use Rattle.pg_value.specs.ColumnOrder.{column_order, place_of_null};

use crate::operators::Family;
use crate::value::Value;
use std::cmp::Ordering;

/// How two values of a column stand to one another: NULL before or after all others as `nulls_first` says, whatever
/// the direction; other values by the family, turned round where descending. A value of a kind that the family does
/// not order counts as 0, false or the empty text.
pub fn column_order(
    f: Family,
    descending: bool,
    nulls_first: bool,
    a: &Value,
    b: &Value,
) -> Ordering
    ensures { result ≡ column_order f descending nulls_first a.now b.now }
{
    match (a, b) {
        (Value::Null, Value::Null) => Ordering::Equal,
        (Value::Null, _) => null_place(nulls_first),
        (_, Value::Null) => null_place(nulls_first).reverse(),
        _ if descending => family_order(f, a, b).reverse(),
        _ => family_order(f, a, b),
    }
}

/// Where NULL stands to each other value.
fn null_place(nulls_first: bool) -> Ordering
    ensures { result ≡ place_of_null nulls_first }
{
    if nulls_first {
        Ordering::Less
    } else {
        Ordering::Greater
    }
}

/// Two values by a family.
fn family_order(f: Family, a: &Value, b: &Value) -> Ordering
    ensures { result ≡ value_order f a.now b.now }
{
    match f {
        Family::Integer
        | Family::Date
        | Family::Timestamp
        | Family::TimestampTz
        | Family::Numeric(_) => number(a).cmp(&number(b)),
        Family::IntAbs => number(a).unsigned_abs().cmp(&number(b).unsigned_abs()),
        Family::Text | Family::Uuid => bytes(a).cmp(bytes(b)),
        Family::Bool => flag(a).cmp(&flag(b)),
    }
}

/// A whole number, or 0.
fn number(v: &Value) -> i64
    ensures { result ≡ number v.now }
{
    match v {
        Value::Int(n) => *n,
        _ => 0,
    }
}

/// A truth value, or false.
fn flag(v: &Value) -> bool
    ensures { result ≡ flag v.now }
{
    match v {
        Value::Bool(b) => *b,
        _ => false,
    }
}

/// The bytes of a text, or none.
fn bytes(v: &Value) -> &[u8]
    ensures { result.now ≡ bytes v.now }
{
    match v {
        Value::Text(t) => t.items(),
        _ => &[],
    }
}
