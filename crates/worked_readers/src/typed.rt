//! Columns of dates, timestamps, numerics and uuids: their definitions, what is said of them, their indexes and conditions on
//! them. Kinds and places were found by a reader written apart.

use crate::cases::{Cases, Reader, Tables, Wrong, first_failing};
use crate::{definitions, indexes, selects};
use opfamily::{Method, OpClass};
use pg_base::Code;
use pg_value::{Column, SqlType};
use std::alloc::Global;

/// Numbers of at most ten digits, two of them behind the point.
const PRICE: SqlType = SqlType::Numeric {
    digits: 10,
    scale: 2,
};

/// Definitions of tables, the first fault of their types and the place of its word: the columns from the left, in each the word
/// and then its numbers.
const REFUSED: [Wrong; 30] = [
    (b"CREATE TABLE x (a timestamp(3));", Code::S17, 28, 29),
    (b"CREATE TABLE x (a timestamp(6, 6));", Code::S17, 28, 29),
    (
        b"CREATE TABLE x (a timestamp(0) with time zone);",
        Code::S17,
        28,
        29,
    ),
    (
        b"CREATE TABLE x (a timestamptz(7) NOT NULL);",
        Code::S17,
        30,
        31,
    ),
    (b"CREATE TABLE x (a varchar(0));", Code::S17, 26, 27),
    (b"CREATE TABLE x (a varchar(10485761));", Code::S17, 26, 34),
    (b"CREATE TABLE x (a varchar(1, 2));", Code::S17, 26, 27),
    (
        b"CREATE TABLE x (a character varying(0));",
        Code::S17,
        36,
        37,
    ),
    (b"CREATE TABLE x (a date(6));", Code::S17, 23, 24),
    (b"CREATE TABLE x (a uuid(36));", Code::S17, 23, 25),
    (b"CREATE TABLE x (a int4(4));", Code::S17, 23, 24),
    (b"CREATE TABLE x (a text(9));", Code::S17, 23, 24),
    (
        b"CREATE TABLE x (a varchar(0), b money);",
        Code::S17,
        26,
        27,
    ),
    (
        b"CREATE TABLE x (a money(10, 2), b varchar(0));",
        Code::S8,
        18,
        23,
    ),
    (b"CREATE TABLE x (a varchar(2), b money);", Code::S8, 32, 37),
    (b"CREATE TABLE x (a numeric);", Code::S8, 18, 25),
    (b"CREATE TABLE x (a decimal NOT NULL);", Code::S8, 18, 25),
    (b"CREATE TABLE x (a numeric(19, 2));", Code::S17, 26, 28),
    (b"CREATE TABLE x (a numeric(0));", Code::S17, 26, 27),
    (b"CREATE TABLE x (a numeric(5, 6));", Code::S17, 29, 30),
    (b"CREATE TABLE x (a numeric(19, 20));", Code::S17, 26, 28),
    (b"CREATE TABLE x (a decimal(5, 2, 1));", Code::S17, 26, 27),
    (
        b"CREATE TABLE x (a numeric(99999999999999999999));",
        Code::S17,
        26,
        46,
    ),
    (b"CREATE TABLE x (a char(3));", Code::S8, 18, 22),
    (b"CREATE TABLE x (a character(3));", Code::S8, 18, 27),
    (b"CREATE TABLE x (a character);", Code::S8, 18, 27),
    (b"CREATE TABLE x (a time);", Code::S8, 18, 22),
    (b"CREATE TABLE x (a varying);", Code::S8, 18, 25),
    (
        b"CREATE TABLE x (a timestamp with time zone, b time);",
        Code::S8,
        46,
        50,
    ),
    (
        b"CREATE TABLE x (a timestamp without time zone, b zone(1));",
        Code::S8,
        49,
        53,
    ),
];

/// Columns that are defined.
const TEXTS: [Column; 3] = [
    Column {
        typed: SqlType::Text,
        not_null: false,
    },
    Column {
        typed: SqlType::Text,
        not_null: false,
    },
    Column {
        typed: SqlType::Uuid,
        not_null: true,
    },
];

const CLOCKS: [Column; 3] = [
    Column {
        typed: SqlType::Timestamp,
        not_null: false,
    },
    Column {
        typed: SqlType::TimestampTz,
        not_null: false,
    },
    Column {
        typed: SqlType::TimestampTz,
        not_null: false,
    },
];

const NUMBERS: [Column; 3] = [
    Column {
        typed: PRICE,
        not_null: false,
    },
    Column {
        typed: SqlType::Numeric {
            digits: 18,
            scale: 0,
        },
        not_null: true,
    },
    Column {
        typed: SqlType::Date,
        not_null: false,
    },
];

const NAMES: [Column; 3] = [
    Column {
        typed: SqlType::Date,
        not_null: false,
    },
    Column {
        typed: SqlType::Timestamp,
        not_null: false,
    },
    Column {
        typed: SqlType::Text,
        not_null: false,
    },
];

const SIZES: [Column; 3] = [
    Column {
        typed: SqlType::Numeric {
            digits: 18,
            scale: 18,
        },
        not_null: false,
    },
    Column {
        typed: SqlType::Numeric {
            digits: 1,
            scale: 0,
        },
        not_null: false,
    },
    Column {
        typed: SqlType::Text,
        not_null: false,
    },
];

const DEFINED: [definitions::Right; 5] = [
    (
        b"CREATE TABLE t (a varchar(3), b character varying, c uuid NOT NULL);",
        definitions::Wanted::Table(&TEXTS, b"b"),
        &[13, 16, 30, 51],
    ),
    (
        b"CREATE TABLE t (d timestamp(6) without time zone, e TIMESTAMP WITH TIME ZONE, f timestamptz(6));",
        definitions::Wanted::Table(&CLOCKS, b"e"),
        &[13, 16, 50, 78],
    ),
    (
        b"CREATE TABLE t (n numeric(10, 2), o decimal(18) NOT NULL, p date NULL);",
        definitions::Wanted::Table(&NUMBERS, b"o"),
        &[13, 16, 34, 58],
    ),
    (
        b"CREATE TABLE t (date date, zone timestamp, time varchar(10485760));",
        definitions::Wanted::Table(&NAMES, b"zone"),
        &[13, 16, 27, 43],
    ),
    (
        b"CREATE TABLE t (a numeric(18, 18), b numeric(1, 0), c character varying(7));",
        definitions::Wanted::Table(&SIZES, b"b"),
        &[13, 16, 35, 52],
    ),
];

#[test]
fn types_of_columns_are_read(rt: HostRuntime) {
    let refused = Cases::Wrong(Reader::Definition, &REFUSED);
    assert_eq!(rt; first_failing(rt.alloc(), Tables::One, refused), None);
    let defined = Cases::Definitions(&DEFINED);
    assert_eq!(rt; first_failing(rt.alloc(), Tables::One, defined), None);
}

/// The place of the first case that fails over the table v, of c, a column of this type.
fn first_of(alloc: Global, t: SqlType, cases: Cases) -> Option<usize> {
    first_failing(alloc, Tables::Of(t), cases)
}

/// What is said of a date column, the fault that refuses it and the place of its word.
const DATE_STATISTICS: [Wrong; 4] = [
    (
        b"STATISTICS v.c DISTINCT 9 NULLS 0 COMMON ('2024-02-30' 5);",
        Code::S11,
        42,
        54,
    ),
    (
        b"STATISTICS v.c DISTINCT 9 NULLS 0 COMMON (8825 5);",
        Code::S10,
        42,
        46,
    ),
    (
        b"STATISTICS v.c DISTINCT 9 NULLS 0 COMMON ('2024-2-9' 5) HISTOGRAM (TRUE);",
        Code::S12,
        42,
        52,
    ),
    (
        b"STATISTICS v.c DISTINCT 9 NULLS 0 HISTOGRAM ('2024-02-29', FALSE);",
        Code::S10,
        59,
        64,
    ),
];

/// What is said of a numeric column with two digits behind the point.
const PRICE_STATISTICS: [Wrong; 5] = [
    (
        b"STATISTICS v.c DISTINCT 9 NULLS 0 HISTOGRAM ('-1', 100000000);",
        Code::S11,
        51,
        60,
    ),
    (
        b"STATISTICS v.c DISTINCT 9 NULLS 0 HISTOGRAM (TRUE, 1);",
        Code::S10,
        45,
        49,
    ),
    (
        b"STATISTICS v.c DISTINCT 9 NULLS 0 COMMON ('12.345' 5);",
        Code::S11,
        42,
        50,
    ),
    (
        b"STATISTICS v.c DISTINCT 9 NULLS 0 COMMON (1 5, '1e3' 5);",
        Code::S12,
        47,
        52,
    ),
    (
        b"STATISTICS v.c DISTINCT 9 NULLS 0 COMMON (- 100000000 5);",
        Code::S11,
        42,
        43,
    ),
];

/// What is said of a uuid column.
const UUID_STATISTICS: [Wrong; 3] = [
    (
        b"STATISTICS v.c DISTINCT 9 NULLS 0 HISTOGRAM (TRUE, NULL);",
        Code::S10,
        45,
        49,
    ),
    (
        b"STATISTICS v.c DISTINCT 9 NULLS 0 HISTOGRAM ('0000000A-0000-4000-8000-00000000000');",
        Code::S12,
        45,
        82,
    ),
    (
        b"STATISTICS v.c DISTINCT 9 NULLS 0 COMMON (7 5);",
        Code::S10,
        42,
        43,
    ),
];

/// What is said of a date, a numeric and a timestamp column with time zone, as it is read.
const DAYS: [definitions::Right; 1] = [(
    b"STATISTICS v.c DISTINCT 9 NULLS 0 COMMON ('2024-02-29' 5) HISTOGRAM ('0001-01-01', '9999-12-31');",
    definitions::Wanted::Column(9, 0, &[(8_825, 5)], &[-730_119, 2_921_939]),
    &[24, 32, 42, 55, 69, 83],
)];

const PRICES: [definitions::Right; 1] = [(
    b"STATISTICS v.c DISTINCT 9 NULLS 0 COMMON (5 10, '0.01' 7) HISTOGRAM (0, '10.00', - 99, '-0.5');",
    definitions::Wanted::Column(9, 0, &[(500, 10), (1, 7)], &[0, 1_000, -9_900, -50]),
    &[24, 32, 42, 44, 48, 55, 69, 72, 81, 87],
)];

const INSTANTS: [definitions::Right; 1] = [(
    b"STATISTICS v.c DISTINCT 9 NULLS 0 COMMON ('2000-01-01 00:00+00:01' 5, '2000-01-01 00:00:01Z' 6);",
    definitions::Wanted::Column(9, 0, &[(-60_000_000, 5), (1_000_000, 6)], &[]),
    &[24, 32, 42, 67, 70, 93],
)];

#[test]
fn statistics_have_values_of_the_type(rt: HostRuntime) {
    let (alloc, definition) = (rt.alloc(), Reader::Definition);
    let (date, uuid) = (SqlType::Date, SqlType::Uuid);
    assert_eq!(rt;
        first_of(alloc, date, Cases::Wrong(definition, &DATE_STATISTICS)),
        None
    );
    assert_eq!(rt;
        first_of(alloc, PRICE, Cases::Wrong(definition, &PRICE_STATISTICS)),
        None
    );
    assert_eq!(rt;
        first_of(alloc, uuid, Cases::Wrong(definition, &UUID_STATISTICS)),
        None
    );
    assert_eq!(rt; first_of(alloc, date, Cases::Definitions(&DAYS)), None);
    assert_eq!(rt; first_of(alloc, PRICE, Cases::Definitions(&PRICES)), None);
    assert_eq!(rt;
        first_of(alloc, SqlType::TimestampTz, Cases::Definitions(&INSTANTS)),
        None
    );
}

/// Indexes of a date column, the fault that refuses them and the place of its word.
const DATE_INDEXES: [Wrong; 8] = [
    (b"CREATE INDEX i ON v (c timestamp_ops);", Code::S10, 23, 36),
    (b"CREATE INDEX i ON v (c datetime_ops);", Code::S8, 23, 35),
    (b"CREATE INDEX i ON v (c date_abs_ops);", Code::S8, 23, 35),
    (b"CREATE INDEX i ON v (c numeric_ops);", Code::S10, 23, 34),
    (
        b"CREATE INDEX i ON v (c) WHERE c >= '2024-02-30';",
        Code::S11,
        35,
        47,
    ),
    (
        b"CREATE INDEX i ON v (c) WHERE c >= 8766;",
        Code::S9,
        32,
        34,
    ),
    (
        b"CREATE INDEX i ON v (c) WHERE c >= timestamp '2024-02-29';",
        Code::S9,
        32,
        34,
    ),
    (
        b"CREATE INDEX i ON v (c) WHERE c >= day '2024-02-29';",
        Code::S8,
        35,
        38,
    ),
];

/// Indexes of a numeric column.
const PRICE_INDEXES: [Wrong; 4] = [
    (b"CREATE INDEX i ON v (c int8_ops);", Code::S10, 23, 31),
    (
        b"CREATE INDEX i ON v (c numeric_abs_ops);",
        Code::S8,
        23,
        38,
    ),
    (
        b"CREATE INDEX i ON v (c) WHERE c < 100000000;",
        Code::S11,
        34,
        43,
    ),
    (b"CREATE INDEX i ON v (c) WHERE c |<| 5;", Code::S9, 32, 35),
];

/// Indexes of a uuid column.
const UUID_INDEXES: [Wrong; 2] = [
    (
        b"CREATE INDEX i ON v USING hash (c text_ops);",
        Code::S10,
        34,
        42,
    ),
    (
        b"CREATE INDEX i ON v (c) WHERE c = text 'x';",
        Code::S9,
        32,
        33,
    ),
];

/// Indexes of an int4 column.
const WHOLE_INDEXES: [Wrong; 1] = [(b"CREATE INDEX i ON v (c numeric_ops);", Code::S10, 23, 34)];

/// Indexes of a text column.
const TEXT_INDEXES: [Wrong; 2] = [
    (b"CREATE INDEX i ON v (c varchar_ops);", Code::S8, 23, 34),
    (b"CREATE INDEX i ON v (c uuid_ops);", Code::S10, 23, 31),
];

/// Indexes of a date column, as they are read.
const BY_DATE: [indexes::Right; 2] = [
    (
        b"CREATE INDEX i ON v (c);",
        Method::Btree,
        0,
        OpClass::DateOps,
        false,
        false,
        &[13, 21],
    ),
    (
        b"CREATE INDEX i ON v USING hash (c date_ops);",
        Method::Hash,
        26,
        OpClass::DateOps,
        false,
        false,
        &[13, 32],
    ),
];

/// Indexes of a numeric column with two digits behind the point, and of one with none.
const BY_PRICE: [indexes::Right; 2] = [
    (
        b"CREATE INDEX i ON v (c numeric_ops DESC);",
        Method::Btree,
        0,
        OpClass::NumericOps(2),
        true,
        true,
        &[13, 21],
    ),
    (
        b"CREATE INDEX i ON v USING hash (c);",
        Method::Hash,
        26,
        OpClass::NumericOps(2),
        false,
        false,
        &[13, 32],
    ),
];

const BY_COUNT: [indexes::Right; 1] = [(
    b"CREATE INDEX i ON v (c NUMERIC_OPS);",
    Method::Btree,
    0,
    OpClass::NumericOps(0),
    false,
    false,
    &[13, 21],
)];

/// Indexes of a uuid column.
const BY_UUID: [indexes::Right; 1] = [(
    b"CREATE INDEX i ON v USING hash (c uuid_ops);",
    Method::Hash,
    26,
    OpClass::UuidOps,
    false,
    false,
    &[13, 32],
)];

#[test]
fn classes_are_of_the_type(rt: HostRuntime) {
    let (alloc, index) = (rt.alloc(), Reader::Index);
    let whole = SqlType::Numeric {
        digits: 4,
        scale: 0,
    };
    let (date, uuid) = (SqlType::Date, SqlType::Uuid);
    assert_eq!(rt;
        first_of(alloc, date, Cases::Wrong(index, &DATE_INDEXES)),
        None
    );
    assert_eq!(rt;
        first_of(alloc, PRICE, Cases::Wrong(index, &PRICE_INDEXES)),
        None
    );
    assert_eq!(rt;
        first_of(alloc, uuid, Cases::Wrong(index, &UUID_INDEXES)),
        None
    );
    assert_eq!(rt;
        first_of(alloc, SqlType::Int4, Cases::Wrong(index, &WHOLE_INDEXES)),
        None
    );
    assert_eq!(rt;
        first_of(alloc, SqlType::Text, Cases::Wrong(index, &TEXT_INDEXES)),
        None
    );
    assert_eq!(rt; first_of(alloc, date, Cases::Indexes(&BY_DATE)), None);
    assert_eq!(rt; first_of(alloc, PRICE, Cases::Indexes(&BY_PRICE)), None);
    assert_eq!(rt; first_of(alloc, whole, Cases::Indexes(&BY_COUNT)), None);
    assert_eq!(rt; first_of(alloc, uuid, Cases::Indexes(&BY_UUID)), None);
}

/// Conditions on a timestamp column: two texts of one value are one constant, and two values are two.
const ON_CLOCK: [selects::Right; 2] = [
    (
        b"SELECT c FROM v WHERE c = '2024-02-29' AND c = '2024-02-29T00:00:00.0';",
        0,
        b"v",
        &[0],
        &[0, 0, 0],
        2,
        1,
    ),
    (
        b"SELECT c FROM v WHERE c = '2024-02-29' AND c = '2024-02-29 00:00:01';",
        0,
        b"v",
        &[0],
        &[0, 0, 0],
        2,
        2,
    ),
];

/// Conditions on a numeric column, where a whole number is one of its type.
const ON_PRICE: [selects::Right; 2] = [
    (
        b"SELECT c FROM v WHERE c = 3 AND c = '3.00';",
        0,
        b"v",
        &[0],
        &[0, 0, 0],
        2,
        1,
    ),
    (
        b"SELECT c FROM v WHERE c = 3 AND c = '0.03' AND c <= '-0';",
        0,
        b"v",
        &[0],
        &[0, 0, 0, 0],
        3,
        3,
    ),
];

/// Conditions on a date column that are refused, the fault and the place of its word.
const NOT_ON_DATE: [Wrong; 3] = [
    (
        b"SELECT c FROM v WHERE c = timestamp '2024-02-29';",
        Code::S9,
        24,
        25,
    ),
    (
        b"SELECT c FROM v WHERE c > interval '1 day';",
        Code::S8,
        26,
        34,
    ),
    (
        b"SELECT c FROM v WHERE c = '2023-02-29';",
        Code::S11,
        26,
        38,
    ),
];

#[test]
fn constants_are_values_and_not_texts(rt: HostRuntime) {
    let (alloc, select) = (rt.alloc(), Reader::Select);
    assert_eq!(rt;
        first_of(alloc, SqlType::Timestamp, Cases::Selects(&ON_CLOCK)),
        None
    );
    assert_eq!(rt; first_of(alloc, PRICE, Cases::Selects(&ON_PRICE)), None);
    assert_eq!(rt;
        first_of(alloc, SqlType::Date, Cases::Wrong(select, &NOT_ON_DATE)),
        None
    );
}
