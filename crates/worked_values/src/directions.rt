//! Directions and places of NULL in an order of values.

use pg_value::{Family, Value, column_order};
use std::cmp::Ordering;

#[test]
fn directions_and_nulls(rt: HostRuntime) {
    let (one, two, null) = (Value::Int(1), Value::Int(-2), Value::Null);
    let cases = [
        (
            Family::Integer,
            false,
            false,
            Ordering::Greater,
            Ordering::Less,
        ),
        (Family::Integer, true, false, Ordering::Less, Ordering::Less),
        (
            Family::Integer,
            false,
            true,
            Ordering::Greater,
            Ordering::Greater,
        ),
        (
            Family::Integer,
            true,
            true,
            Ordering::Less,
            Ordering::Greater,
        ),
        (Family::IntAbs, false, false, Ordering::Less, Ordering::Less),
        (
            Family::IntAbs,
            true,
            true,
            Ordering::Greater,
            Ordering::Greater,
        ),
    ];
    for (f, descending, nulls_first, numbers, number_null) in cases {
        assert_eq!(rt;
            column_order(f, descending, nulls_first, &one, &two),
            numbers
        );
        assert_eq!(rt;
            column_order(f, descending, nulls_first, &two, &null),
            number_null
        );
        assert_eq!(rt;
            column_order(f, descending, nulls_first, &null, &null),
            Ordering::Equal
        );
    }
}
