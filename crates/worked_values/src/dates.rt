//! Dates and timestamps: days counted by the calendar, clocks in UTC, and texts that are none.

use crate::typed::{first_other, first_printed, first_taken};
use pg_value::{FieldFault, SqlType};

/// Dates, and their days from 2000-01-01 on: leap days, days about them, the ends of the range, and white space.
const DAYS: [(&[u8], i64); 15] = [
    (b"2000-01-01", 0),
    (b" 1999-12-31 ", -1),
    (b"2000-02-29", 59),
    (b"2000-03-01", 60),
    (b"2000-12-31", 365),
    (b"1900-02-28", -36_466),
    (b"1900-03-01", -36_465),
    (b"2100-02-28", 36_583),
    (b"2100-03-01", 36_584),
    (b"\t2024-02-29\r\n", 8_825),
    (b"\x0C2024-03-01", 8_826),
    (b"0001-01-01", -730_119),
    (b"9999-12-31", 2_921_939),
    (b"2001-02-28", 424),
    (b"2001-03-01", 425),
];

/// Texts of the form of a date with a part out of range.
const NO_DAYS: [&[u8]; 12] = [
    b"2023-02-29",
    b"1900-02-29",
    b"2100-02-29",
    b"2024-02-30",
    b"2024-04-31",
    b"2024-13-01",
    b"2024-00-10",
    b"2024-01-00",
    b"2024-01-32",
    b"0000-12-31",
    b"0000-02-29",
    b"9999-99-99",
];

/// Texts without the form of a date.
const NO_DATES: [&[u8]; 17] = [
    b"",
    b"2024-2-9",
    b"2024-13-1",
    b"20240229",
    b"10000-01-01",
    b"-2024-02-29",
    b"+2024-02-29",
    b"2024-02-29 BC",
    b"2024-02-29 00:00",
    b"2024-02-29T",
    b"2024/02/29",
    b"02-29-2024",
    b"2024-02-2x",
    b"infinity",
    b"today",
    b"\\N",
    b"\x0B2024-02-29",
];

#[test]
fn days_are_counted_by_the_calendar(rt: HostRuntime) {
    let t = SqlType::Date;
    assert_eq!(rt; first_other(rt.alloc(), t, &DAYS), None);
    assert_eq!(rt;
        first_taken(rt.alloc(), t, FieldFault::Range, &NO_DAYS),
        None
    );
    assert_eq!(rt;
        first_taken(rt.alloc(), t, FieldFault::Invalid, &NO_DATES),
        None
    );
}

/// Timestamps, and their microseconds from 2000-01-01 00:00:00 on.
const MOMENTS: [(&[u8], i64); 14] = [
    (b"2000-01-01", 0),
    (b"1999-12-31 23:59:59.999999", -1),
    (b"2024-02-29", 762_480_000_000_000),
    (b"2024-02-29 13:05", 762_527_100_000_000),
    (b"2024-02-29T13:05:06", 762_527_106_000_000),
    (b"2024-02-29 13:05:06.5", 762_527_106_500_000),
    (b"2024-02-29 13:05:06.120000", 762_527_106_120_000),
    (b"2024-02-29 13:05:06.12", 762_527_106_120_000),
    (b" 2024-02-29T13:05:06.000001 ", 762_527_106_000_001),
    (b"2024-02-29 13:05:06.000000", 762_527_106_000_000),
    (b"0001-01-01 00:00:00", -63_082_281_600_000_000),
    (b"9999-12-31 23:59:59.999999", 252_455_615_999_999_999),
    (b"2100-02-28 23:59:59", 3_160_857_599_000_000),
    (b"1900-03-01 00:00", -3_150_576_000_000_000),
];

/// Texts of the form of a timestamp with a part out of range.
const NO_MOMENTS: [&[u8]; 7] = [
    b"2024-02-29 24:00:00",
    b"2024-02-29 23:59:60",
    b"2024-02-29 23:60",
    b"2023-02-29 25:00",
    b"1900-02-29 00:00:00.000001",
    b"0000-12-31 23:59:59",
    b"2024-13-01",
];

/// Texts without the form of a timestamp.
const NO_TIMESTAMPS: [&[u8]; 17] = [
    b"",
    b"2024-02-29 13:05:06.1234567",
    b"2024-02-29 13:05:06.",
    b"2024-02-29 13:05.5",
    b"2024-02-29 1:05",
    b"2024-02-29 13",
    b"2024-02-29 13:5",
    b"2024-02-29  13:05",
    b"2024-02-29t13:05",
    b"2024-02-29\t13:05",
    b"2024-02-29 13:05:06+02",
    b"2024-02-29 13:05:06Z",
    b"2024-02-29 01:05 PM",
    b"2024-02-29 13:05:06,5",
    b"2024-13-1 00:00",
    b"13:05:06",
    b"infinity",
];

#[test]
fn clocks_are_counted_in_microseconds(rt: HostRuntime) {
    let t = SqlType::Timestamp;
    assert_eq!(rt; first_other(rt.alloc(), t, &MOMENTS), None);
    assert_eq!(rt;
        first_taken(rt.alloc(), t, FieldFault::Range, &NO_MOMENTS),
        None
    );
    assert_eq!(rt;
        first_taken(rt.alloc(), t, FieldFault::Invalid, &NO_TIMESTAMPS),
        None
    );
}

/// Timestamps with time zone, and the microseconds of their clocks in UTC from 2000-01-01 00:00:00 on.
const INSTANTS: [(&[u8], i64); 14] = [
    (b"2024-02-29 13:05:06+02", 762_519_906_000_000),
    (b"2024-02-29T13:05:06Z", 762_527_106_000_000),
    (b"2024-02-29 13:05:06", 762_527_106_000_000),
    (b"2024-02-29 13:05:06-00", 762_527_106_000_000),
    (b"2024-02-29 13:05:06.000000+00:00", 762_527_106_000_000),
    (b"2024-03-01 00:30+01:00", 762_564_600_000_000),
    (b"2024-02-28 23:59:59.5-00:01", 762_480_059_500_000),
    (b"2024-02-29", 762_480_000_000_000),
    (b"2000-01-01 00:00+00:01", -60_000_000),
    (b"0001-01-01 00:00-15:59", -63_082_224_060_000_000),
    (b"0001-01-01 15:59+15:59", -63_082_281_600_000_000),
    (b"0001-01-01", -63_082_281_600_000_000),
    (b"9999-12-31 08:00:59.999999-15:59", 252_455_615_999_999_999),
    (b" 9999-12-31 23:59:59.999999+00 ", 252_455_615_999_999_999),
];

/// Texts of the form of a timestamp with time zone, with a part out of range or of an instant outside the type.
const NO_INSTANTS: [&[u8]; 8] = [
    b"2024-02-29 13:05+16",
    b"2024-02-29 13:05-16:00",
    b"2024-02-29 13:05+02:60",
    b"2023-02-29 13:05+02",
    b"2024-02-29 24:00Z",
    b"0001-01-01 00:00:00+00:01",
    b"0001-01-01 15:58:59.999999+15:59",
    b"9999-12-31 23:59:59-00:01",
];

/// Texts without the form of a timestamp with time zone.
const NO_ZONED: [&[u8]; 11] = [
    b"2024-02-29 13:05+0200",
    b"2024-02-29 13:05+2",
    b"2024-02-29 13:05:06+02:00:30",
    b"2024-02-29 13:05z",
    b"2024-02-29+02",
    b"2024-02-29Z",
    b"2024-02-29 13:05 +02",
    b"2024-02-29 13:05 UTC",
    b"2024-02-29 13:05ZZ",
    b"2024-02-29 13:05+16:0",
    b"",
];

#[test]
fn an_offset_leads_to_utc(rt: HostRuntime) {
    let t = SqlType::TimestampTz;
    assert_eq!(rt; first_other(rt.alloc(), t, &INSTANTS), None);
    assert_eq!(rt;
        first_taken(rt.alloc(), t, FieldFault::Range, &NO_INSTANTS),
        None
    );
    assert_eq!(rt;
        first_taken(rt.alloc(), t, FieldFault::Invalid, &NO_ZONED),
        None
    );
}

/// Dates, and how they are printed.
const DATES: [(&[u8], &[u8]); 5] = [
    (b" 2024-02-29", b"2024-02-29"),
    (b"0001-01-01", b"0001-01-01"),
    (b"9999-12-31", b"9999-12-31"),
    (b"1900-02-28", b"1900-02-28"),
    (b"2100-03-01", b"2100-03-01"),
];

/// Timestamps, and how they are printed.
const TIMESTAMPS: [(&[u8], &[u8]); 9] = [
    (b"2024-02-29", b"2024-02-29 00:00:00"),
    (b"2024-02-29 13:05", b"2024-02-29 13:05:00"),
    (b"2024-02-29T13:05:06.000000", b"2024-02-29 13:05:06"),
    (b"2024-02-29 13:05:06.120000", b"2024-02-29 13:05:06.12"),
    (b"2024-02-29 13:05:06.000001", b"2024-02-29 13:05:06.000001"),
    (b"2024-02-29 13:05:06.010", b"2024-02-29 13:05:06.01"),
    (b"1999-12-31 23:59:59.999999", b"1999-12-31 23:59:59.999999"),
    (b"0001-01-01", b"0001-01-01 00:00:00"),
    (b"9999-12-31 23:59:59.999999", b"9999-12-31 23:59:59.999999"),
];

/// Timestamps with time zone, and how they are printed.
const ZONED: [(&[u8], &[u8]); 7] = [
    (b"2024-02-29 13:05:06+02", b"2024-02-29 11:05:06+00"),
    (b"2024-03-01 00:30+01:00", b"2024-02-29 23:30:00+00"),
    (b"2024-02-29 23:30-01", b"2024-03-01 00:30:00+00"),
    (b"2024-02-28 23:59:59.5-00:01", b"2024-02-29 00:00:59.5+00"),
    (b"2024-02-29", b"2024-02-29 00:00:00+00"),
    (b"0001-01-01 00:00-15:59", b"0001-01-01 15:59:00+00"),
    (
        b"9999-12-31 23:59:59.999999Z",
        b"9999-12-31 23:59:59.999999+00",
    ),
];

#[test]
fn dates_and_clocks_are_printed(rt: HostRuntime) {
    assert_eq!(rt; first_printed(rt.alloc(), SqlType::Date, &DATES), None);
    assert_eq!(rt;
        first_printed(rt.alloc(), SqlType::Timestamp, &TIMESTAMPS),
        None
    );
    assert_eq!(rt;
        first_printed(rt.alloc(), SqlType::TimestampTz, &ZONED),
        None
    );
}
