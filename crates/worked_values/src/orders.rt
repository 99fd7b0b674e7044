//! The order of values within the family of their type.

use pg_base::Memory;
use pg_value::{Bytes, Family, SqlType, Value, column_order, compare, read_value};
use std::alloc::{AllocError, Global};
use std::cmp::Ordering;
use std::test::Fail;

/// Texts of values of one type, the least value first.
type Rising<'a> = (SqlType, Family, [&'a [u8]; 5]);

const ORDERS: [Rising; 5] = [
    (
        SqlType::Date,
        Family::Date,
        [
            b"0001-01-01",
            b"1900-02-28",
            b"1999-12-31",
            b"2000-01-01",
            b"9999-12-31",
        ],
    ),
    (
        SqlType::Timestamp,
        Family::Timestamp,
        [
            b"0001-01-01",
            b"1999-12-31 23:59:59.999999",
            b"2024-02-29 13:05:06",
            b"2024-02-29 13:05:06.000001",
            b"2024-02-29 13:05:06.12",
        ],
    ),
    (
        SqlType::TimestampTz,
        Family::TimestampTz,
        [
            b"0001-01-01 00:00-15:59",
            b"2024-02-28 23:59:59.5-00:01",
            b"2024-02-29 13:05:06+02",
            b"2024-02-29 12:05:06Z",
            b"2024-02-29 11:05:07-01:00",
        ],
    ),
    (
        SqlType::Uuid,
        Family::Uuid,
        [
            b"00000000-0000-0000-0000-000000000000",
            b"00000000-0000-0000-0000-00000000000A",
            b"0000000A-0000-0000-0000-000000000000",
            b"a0eebc99-9c0b-4ef8-bb6d-6bb9bd380a10",
            b"A0EEBC99-9C0B-4EF8-BB6D-6BB9BD380A11",
        ],
    ),
    (
        SqlType::Numeric {
            digits: 10,
            scale: 2,
        },
        Family::Numeric(2),
        [b"-99999999.99", b"-0.05", b"-0.00", b"0.1", b"9"],
    ),
];

fn spelled(alloc: Global, t: SqlType, text: &[u8]) -> Result<Value, Memory> {
    match read_value(alloc, t, text) {
        Ok(value) => Ok(value),
        Err(_) => Err(AllocError),
    }
}

/// Whether a text's value stands so to that of another in a rising and a falling order.
fn stands(
    alloc: Global,
    of: (SqlType, Family),
    a: &[u8],
    b: &[u8],
    told: Ordering,
) -> Result<bool, Memory> {
    let (t, family) = of;
    let first = spelled(alloc, t, a)?;
    let second = spelled(alloc, t, b)?;
    Ok(
        column_order(family, false, false, &first, &second) == told
            && column_order(family, true, false, &first, &second) == told.reverse(),
    )
}

/// The place of the first text that does not stand among the others as the list says.
fn first_astray(alloc: Global, row: Rising) -> Result<Option<usize>, Memory> {
    let (t, family, texts) = row;
    for i in 0..texts.len() {
        for j in 0..texts.len() {
            if !stands(alloc, (t, family), texts[i], texts[j], i.cmp(&j))? {
                return Ok(Some(i));
            }
        }
    }
    Ok(None)
}

#[test]
fn values_rise_as_told(rt: HostRuntime) -> Result<(), Fail> {
    for row in ORDERS {
        assert_eq!(rt; first_astray(rt.alloc(), row)?, None);
    }
    Ok(())
}

#[test]
fn families_compare_what_they_hold(rt: HostRuntime) -> Result<(), Fail> {
    let (less, more) = (Value::Int(-5), Value::Int(3));
    let below = Some(Ordering::Less);
    assert_eq!(rt; compare(Family::Date, &less, &more), below);
    assert_eq!(rt; compare(Family::Timestamp, &less, &more), below);
    assert_eq!(rt; compare(Family::TimestampTz, &less, &more), below);
    assert_eq!(rt; compare(Family::Numeric(2), &less, &more), below);
    assert_eq!(rt;
        compare(Family::IntAbs, &less, &more),
        Some(Ordering::Greater)
    );
    assert_eq!(rt; compare(Family::Numeric(0), &less, &Value::Null), None);
    let first = Value::Text(Bytes::from_vec(Vec::from_slice(rt.alloc(), b"0a")?));
    let last = Value::Text(Bytes::from_vec(Vec::from_slice(rt.alloc(), b"a0")?));
    assert_eq!(rt; compare(Family::Uuid, &first, &last), below);
    assert_eq!(rt; compare(Family::Uuid, &Value::Null, &last), None);
    Ok(())
}
