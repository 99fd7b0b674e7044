//! Texts of COPY fields that are read, as PostgreSQL reads them.

use pg_value::{FieldFault, SqlType, Value, read_value};
use std::alloc::Global;

/// What a text spells, with a truth value as 0 or 1 and a text as its length.
fn spelled(alloc: Global, t: SqlType, text: &[u8]) -> Result<i64, FieldFault> {
    match &read_value(alloc, t, text)? {
        Value::Int(n) => Ok(*n),
        Value::Bool(b) => Ok(i64::from(*b)),
        Value::Text(bytes) => Ok(bytes.items().len() as i64),
        Value::Null => Err(FieldFault::Memory),
    }
}

#[test]
fn whole_numbers(rt: HostRuntime) {
    assert_eq!(rt;
        spelled(rt.alloc(), SqlType::Int2, b" -32768\n"),
        Ok(-32768)
    );
    assert_eq!(rt;
        spelled(rt.alloc(), SqlType::Int2, b"32768"),
        Err(FieldFault::Range)
    );
    assert_eq!(rt;
        spelled(rt.alloc(), SqlType::Int4, b"+2147483647\r"),
        Ok(2_147_483_647)
    );
    assert_eq!(rt;
        spelled(rt.alloc(), SqlType::Int4, b"-2147483649"),
        Err(FieldFault::Range)
    );
    assert_eq!(rt;
        spelled(rt.alloc(), SqlType::Int8, b"-9223372036854775808"),
        Ok(i64::MIN)
    );
    assert_eq!(rt;
        spelled(
            rt.alloc(),
            SqlType::Int8,
            b"0000000000000000000000000000000007"
        ),
        Ok(7)
    );
    assert_eq!(rt;
        spelled(rt.alloc(), SqlType::Int8, b"99999999999999999999999999"),
        Err(FieldFault::Range)
    );
    for text in [
        b"" as &[u8],
        b" ",
        b"-",
        b"- 1",
        b"--1",
        b"1 2",
        b"0x1",
        b"1_0",
        b"1.0",
        b"99999999999999999999x",
        b"\x0B1",
    ] {
        assert_eq!(rt;
            spelled(rt.alloc(), SqlType::Int8, text),
            Err(FieldFault::Invalid)
        );
    }
}

#[test]
fn truth_values_and_texts(rt: HostRuntime) {
    for text in [b"1" as &[u8], b"t", b"tr", b"TRUE", b"y", b"Yes", b" on\t"] {
        assert_eq!(rt; spelled(rt.alloc(), SqlType::Bool, text), Ok(1));
    }
    for text in [b"0" as &[u8], b"f", b"FaLse", b"n", b"no", b"of", b"off "] {
        assert_eq!(rt; spelled(rt.alloc(), SqlType::Bool, text), Ok(0));
    }
    for text in [b"" as &[u8], b"o", b"truer", b"10", b"2", b"t f", b"nu"] {
        assert_eq!(rt;
            spelled(rt.alloc(), SqlType::Bool, text),
            Err(FieldFault::Invalid)
        );
    }
    assert_eq!(rt; spelled(rt.alloc(), SqlType::Text, b" \\N "), Ok(4));
}
