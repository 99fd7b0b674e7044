//! Lines that count rows, and a line of values by their types, byte by byte. Further lines of rows are data of
//! `tools/check_examples.py`.

use pg_value::{SqlType, Value};
use reply_text::{Lines, count_line};
use std::alloc::Global;

const COUNTS: [(u64, &[u8]); 4] = [
    (0, b"(0 rows)\n"),
    (1, b"(1 row)\n"),
    (2, b"(2 rows)\n"),
    (u64::MAX, b"(18446744073709551615 rows)\n"),
];

fn is_count(alloc: Global, n: u64, line: &[u8]) -> bool {
    match count_line(alloc, n) {
        Ok(found) => found.as_slice() == line,
        Err(_) => false,
    }
}

/// The first number whose line is another one.
fn first_count(alloc: Global, counts: &[(u64, &[u8])]) -> Option<u64> {
    for (n, line) in counts {
        if !is_count(alloc, *n, line) {
            return Some(*n);
        }
    }
    None
}

#[test]
fn counts(rt: HostRuntime) {
    assert_eq!(rt; first_count(rt.alloc(), &COUNTS), None);
}

/// The types of a line's values.
const TYPES: [SqlType; 5] = [
    SqlType::Date,
    SqlType::TimestampTz,
    SqlType::Numeric {
        digits: 10,
        scale: 2,
    },
    SqlType::Timestamp,
    SqlType::Int8,
];

/// Whether a day, an instant before 2000, five hundredths below 0, NULL and a whole number are printed so.
fn is_printed(alloc: Global, line: &[u8]) -> bool {
    let (day, instant) = (Value::Int(8_825), Value::Int(-500_000));
    let (price, number, null) = (Value::Int(-5), Value::Int(-5), Value::Null);
    let mut lines = Lines::new(alloc);
    match lines.line(&TYPES, &[&day, &instant, &price, &null, &number]) {
        Ok(found) => found == line,
        Err(_) => false,
    }
}

#[test]
fn values_are_printed_by_their_types(rt: HostRuntime) {
    let line = b"2024-02-29,1999-12-31 23:59:59.5+00,-0.05,\\N,-5\n";
    assert!(rt; is_printed(rt.alloc(), line));
}
