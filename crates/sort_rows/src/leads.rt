//! Numbers that stand for the first values of keys (PostgreSQL's abbreviated keys, src/backend/utils/sort/tuplesort.c).

ghost use Rattle.std.specs.Prelude.{◌≡◌, pos};
ghost use Rattle.pg_value.specs.Order as order;
ghost use Rattle.pg_value.specs.work.Order as order_work;
ghost use Rattle.sort_rows.specs.work.Leads.{absent_lead, family_lead, flag_lead, key_lead, later, lead_of, leading, text_lead};
ghost use Rattle.sort_rows.specs.work.Columns.{lent_key_values};

use crate::columns::SortColumn;
use crate::keys::value_or;
use pg_value::{Family, Value};

/// A number that stands for a value of a column. Where those of two values differ, the values stand to one another as they do.
fn lead(column: SortColumn, v: &Value) -> i64
    ensures { result ≡ lead_of column v.now }
{
    match v {
        Value::Null => null_lead(column.nulls_first),
        _ if column.descending => -1 - family_lead(column.family, v),
        _ => family_lead(column.family, v),
    }
}

/// The lead of NULL, before or after all others.
fn null_lead(first: bool) -> i64
    ensures { result ≡ absent_lead first }
{
    if first { i64::MIN } else { i64::MAX }
}

/// The lead of any other value, where the column is not descending.
fn family_lead(f: Family, v: &Value) -> i64
    ensures { result ≡ family_lead f v.now }
{
    match f {
        Family::Integer
        | Family::Date
        | Family::Timestamp
        | Family::TimestampTz
        | Family::Numeric(_) => number(v),
        Family::IntAbs => number(v).saturating_abs(),
        Family::Bool => flag(v),
        Family::Text | Family::Uuid => text_lead(bytes(v)),
    }
}

/// 1 for true, else 0.
fn flag(v: &Value) -> i64
    ensures { result ≡ flag_lead (order.flag v.now) }
{
    match v {
        Value::Bool(true) => 1,
        _ => 0,
    }
}

/// A whole number, or 0.
fn number(v: &Value) -> i64
    ensures { result ≡ order.number v.now }
{
    match v {
        Value::Int(n) => *n,
        _ => 0,
    }
}

/// The bytes of a text or a uuid, or none.
fn bytes(v: &Value) -> &[u8]
    ensures { result.now ≡ order.bytes v.now }
{
    match v {
        Value::Text(t) => t.items(),
        _ => &[],
    }
}

/// The first seven bytes of a text as one number, 0 for each past its end.
fn text_lead(text: &[u8]) -> i64
    ensures { result ≡ pos (text_lead 7 0 text.now) }
{
    let mut lead: u64 = 0;
    let mut rest = text;
    for n in 0..7u32 {
        let byte = leading(rest);
        lead = lead * 256 + byte;
        rest = later(rest);
    }
    lead as i64
}

/// The first byte, or 0.
fn leading(text: &[u8]) -> u64
    ensures { result ≡ leading text.now }
{
    match text.first() {
        Some(byte) => u64::from(*byte),
        None => 0,
    }
}

/// The bytes behind the first, or none behind one of 255.
fn later(text: &[u8]) -> &[u8]
    ensures { result.now ≡ later text.now }
{
    if text.is_empty() || text[0] == 255 {
        return &[];
    }
    &text[1..]
}

/// The lead of a key: that of its first value.
pub(crate) fn key_lead(columns: &[SortColumn], key: &[&Value]) -> i64
    ensures { result ≡ key_lead columns.now (lent_key_values key.now) }
{
    let null = Value::Null;
    match columns.first() {
        Some(column) => lead(*column, value_or(key, 0, &null)),
        None => 0,
    }
}
