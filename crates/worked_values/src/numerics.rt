//! Numerics and uuids that are read, what a whole number is as a numeric, and how numerics are printed.

use crate::typed::{first_other, first_printed, first_taken};
use pg_value::{FieldFault, SqlType, Value, read_value, whole_value};
use std::alloc::Global;

/// Numbers of at most ten digits, two of them behind the point.
const CENTS: SqlType = SqlType::Numeric {
    digits: 10,
    scale: 2,
};

/// Numbers of at most four digits, none of them behind the point.
const WHOLE: SqlType = SqlType::Numeric {
    digits: 4,
    scale: 0,
};

/// Numbers of three digits behind the point.
const PARTS: SqlType = SqlType::Numeric {
    digits: 3,
    scale: 3,
};

/// Numbers of eighteen digits behind the point.
const FINE: SqlType = SqlType::Numeric {
    digits: 18,
    scale: 18,
};

/// Numbers in hundredths.
const IN_CENTS: [(&[u8], i64); 13] = [
    (b"12.5", 1_250),
    (b"12.500", 1_250),
    (b"+0012.00", 1_200),
    (b"-0.05", -5),
    (b"-0", 0),
    (b"-0.00", 0),
    (b"0.0000", 0),
    (b" 3 ", 300),
    (b"\t-1\n", -100),
    (b"99999999.99", 9_999_999_999),
    (b"-99999999.99", -9_999_999_999),
    (b"00000000000000000000000000000000000007", 700),
    (b"0.10", 10),
];

/// Numbers that are not whole in hundredths, or too large.
const NO_CENTS: [&[u8]; 6] = [
    b"12.345",
    b"0.001",
    b"100000000",
    b"-100000000.00",
    b"99999999.990001",
    b"99999999999999999999999999999999999999.99",
];

/// Texts without the form of a number.
const NO_NUMBERS: [&[u8]; 17] = [
    b"",
    b" ",
    b"-",
    b".",
    b".5",
    b"5.",
    b"1e3",
    b"NaN",
    b"- 5",
    b"--5",
    b"1,5",
    b"1.2.3",
    b"1 2",
    b"0x1",
    b"1_000",
    b"12.34x",
    b"Infinity",
];

#[test]
fn numerics_have_so_many_digits(rt: HostRuntime) {
    assert_eq!(rt; first_other(rt.alloc(), CENTS, &IN_CENTS), None);
    assert_eq!(rt;
        first_taken(rt.alloc(), CENTS, FieldFault::Range, &NO_CENTS),
        None
    );
    assert_eq!(rt;
        first_taken(rt.alloc(), CENTS, FieldFault::Invalid, &NO_NUMBERS),
        None
    );
}

/// Whole numbers of at most four digits.
const FOUR_DIGITS: [(&[u8], i64); 4] = [
    (b"9999", 9_999),
    (b"-9999", -9_999),
    (b"0.0", 0),
    (b"7.000", 7),
];

/// Numbers of three digits behind the point.
const THREE_PLACES: [(&[u8], i64); 4] = [
    (b"0.5", 500),
    (b"-0.999", -999),
    (b"0", 0),
    (b"000.0010", 1),
];

/// The least and the greatest number with eighteen digits behind the point, and the ones about 0.
const EIGHTEEN_PLACES: [(&[u8], i64); 4] = [
    (b"0.999999999999999999", 999_999_999_999_999_999),
    (b"-0.999999999999999999", -999_999_999_999_999_999),
    (b"0.000000000000000001", 1),
    (b"-0.000000000000000001000", -1),
];

#[test]
fn numerics_reach_to_their_ends(rt: HostRuntime) {
    let range = FieldFault::Range;
    let tens: [&[u8]; 3] = [b"10000", b"-10000", b"0.5"];
    let ones: [&[u8]; 3] = [b"1", b"-1.000", b"0.0005"];
    let parts: [&[u8]; 2] = [b"1", b"0.0000000000000000001"];
    assert_eq!(rt; first_other(rt.alloc(), WHOLE, &FOUR_DIGITS), None);
    assert_eq!(rt; first_taken(rt.alloc(), WHOLE, range, &tens), None);
    assert_eq!(rt; first_other(rt.alloc(), PARTS, &THREE_PLACES), None);
    assert_eq!(rt; first_taken(rt.alloc(), PARTS, range, &ones), None);
    assert_eq!(rt; first_other(rt.alloc(), FINE, &EIGHTEEN_PLACES), None);
    assert_eq!(rt; first_taken(rt.alloc(), FINE, range, &parts), None);
}

/// Numbers in hundredths, and how they are printed.
const PRINTED: [(&[u8], &[u8]); 8] = [
    (b"12.5", b"12.50"),
    (b"-0.05", b"-0.05"),
    (b"-0.00", b"0.00"),
    (b"-0", b"0.00"),
    (b"+0012.00", b"12.00"),
    (b"-1", b"-1.00"),
    (b"99999999.99", b"99999999.99"),
    (b"0.1", b"0.10"),
];

#[test]
fn numerics_are_printed_by_their_scale(rt: HostRuntime) {
    let whole: [(&[u8], &[u8]); 3] = [(b" 0.0", b"0"), (b"-9999", b"-9999"), (b"+7.0", b"7")];
    let parts: [(&[u8], &[u8]); 2] = [(b"0", b"0.000"), (b"-0.5", b"-0.500")];
    let fine: [(&[u8], &[u8]); 1] = [(b"-0.1", b"-0.100000000000000000")];
    assert_eq!(rt; first_printed(rt.alloc(), CENTS, &PRINTED), None);
    assert_eq!(rt; first_printed(rt.alloc(), WHOLE, &whole), None);
    assert_eq!(rt; first_printed(rt.alloc(), PARTS, &parts), None);
    assert_eq!(rt; first_printed(rt.alloc(), FINE, &fine), None);
}

/// Sizes of a numeric type, a whole number by its sign and size, and the number by which it is held; none where the type does
/// not have it.
type Whole = (u8, u8, bool, u64, Option<i64>);

const WHOLES: [Whole; 14] = [
    (10, 2, false, 3, Some(300)),
    (10, 2, true, 1, Some(-100)),
    (10, 2, true, 0, Some(0)),
    (10, 2, false, 99_999_999, Some(9_999_999_900)),
    (10, 2, false, 100_000_000, None),
    (10, 2, true, 100_000_000, None),
    (10, 2, false, u64::MAX, None),
    (4, 0, true, 9_999, Some(-9_999)),
    (4, 0, false, 10_000, None),
    (3, 3, false, 0, Some(0)),
    (3, 3, false, 1, None),
    (
        18,
        0,
        false,
        999_999_999_999_999_999,
        Some(999_999_999_999_999_999),
    ),
    (18, 0, true, 1_000_000_000_000_000_000, None),
    (18, 17, true, 9, Some(-900_000_000_000_000_000)),
];

/// The number by which a whole number is held as a numeric.
fn held(digits: u8, scale: u8, minus: bool, magnitude: u64) -> Option<i64> {
    match &whole_value(SqlType::Numeric { digits, scale }, minus, magnitude) {
        Ok(Value::Int(n)) => Some(*n),
        _ => None,
    }
}

/// The place of the first whole number that is held otherwise.
fn first_held(rows: &[Whole]) -> Option<usize> {
    for n in 0..rows.len() {
        let (digits, scale, minus, magnitude, told) = rows[n];
        if held(digits, scale, minus, magnitude) != told {
            return Some(n);
        }
    }
    None
}

#[test]
fn whole_numbers_are_numerics(rt: HostRuntime) {
    assert_eq!(rt; first_held(&WHOLES), None);
}

/// Uuids in capital and in small letters, and their values.
const UUIDS: [(&[u8], &[u8]); 3] = [
    (
        b"A0EEBC99-9C0B-4EF8-BB6D-6BB9BD380A11",
        b"a0eebc99-9c0b-4ef8-bb6d-6bb9bd380a11",
    ),
    (
        b"a0eebc99-9c0b-4ef8-bb6d-6bb9bd380a10",
        b"a0eebc99-9c0b-4ef8-bb6d-6bb9bd380a10",
    ),
    (
        b"00000000-0000-0000-0000-00000000000F",
        b"00000000-0000-0000-0000-00000000000f",
    ),
];

const NO_UUIDS: [&[u8]; 10] = [
    b"",
    b"00000000000040008000000000000000",
    b"{00000000-0000-4000-8000-000000000000}",
    b" 00000000-0000-4000-8000-000000000000",
    b"00000000-0000-4000-8000-000000000000 ",
    b"00000000-0000-4000-8000-00000000000",
    b"00000000-0000-4000-8000-0000000000000",
    b"00000000-0000-4000-8000-00000000000g",
    b"000000000-000-4000-8000-000000000000",
    b"00000000_0000_4000_8000_000000000000",
];

fn is_spelled(alloc: Global, text: &[u8], value: &[u8]) -> bool {
    match &read_value(alloc, SqlType::Uuid, text) {
        Ok(Value::Text(bytes)) => bytes.items() == value,
        _ => false,
    }
}

/// The first text of another uuid than told.
fn first_uuid<'a>(alloc: Global, rows: &[(&'a [u8], &[u8])]) -> Option<&'a [u8]> {
    for (text, value) in rows {
        if !is_spelled(alloc, text, value) {
            return Some(*text);
        }
    }
    None
}

#[test]
fn uuids_are_held_in_small_letters(rt: HostRuntime) {
    assert_eq!(rt; first_uuid(rt.alloc(), &UUIDS), None);
    let invalid = FieldFault::Invalid;
    assert_eq!(rt;
        first_taken(rt.alloc(), SqlType::Uuid, invalid, &NO_UUIDS),
        None
    );
}
