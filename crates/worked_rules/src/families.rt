//! Operator families as the manual has them (chapter Extending SQL, Interfacing Extensions to Indexes), and lists of keys.

use opfamily::{
    IndexKey, Method, OpClass, accepts, class_named, default_class, default_family, family,
    keys_order, operator_exists, strategy,
};
use pg_base::ColNo;
use pg_value::{Family, Op, SqlType, Value};
use std::cmp::Ordering;

const SMALL: SqlType = SqlType::Int2;

const BIG: SqlType = SqlType::Int8;

const TEXT: SqlType = SqlType::Text;

const DATE: SqlType = SqlType::Date;

const CLOCK: SqlType = SqlType::Timestamp;

const ID: SqlType = SqlType::Uuid;

/// Numbers of at most ten digits, two of them behind the point, and of at most four without a point.
const CENTS: SqlType = SqlType::Numeric {
    digits: 10,
    scale: 2,
};

const WHOLE: SqlType = SqlType::Numeric {
    digits: 4,
    scale: 0,
};

/// A name, the type of a column, and the operator class that has the name there.
type Named<'a> = (&'a [u8], SqlType, Option<OpClass>);

const NAMED: [Named; 16] = [
    (b"int4_ops", SMALL, Some(OpClass::Int4Ops)),
    (b"int2_abs_ops", TEXT, Some(OpClass::Int2AbsOps)),
    (b"INT4_OPS", SMALL, None),
    (b"int4_op", SMALL, None),
    (b"uuid_ops", SqlType::Uuid, Some(OpClass::UuidOps)),
    (b"date_ops", SqlType::Timestamp, Some(OpClass::DateOps)),
    (b"timestamp_ops", TEXT, Some(OpClass::TimestampOps)),
    (
        b"timestamptz_ops",
        SqlType::TimestampTz,
        Some(OpClass::TimestampTzOps),
    ),
    (b"numeric_ops", CENTS, Some(OpClass::NumericOps(2))),
    (b"numeric_ops", WHOLE, Some(OpClass::NumericOps(0))),
    (b"numeric_ops", SMALL, Some(OpClass::NumericOps(0))),
    (b"numeric_abs_ops", CENTS, None),
    (b"datetime_ops", SqlType::Date, None),
    (b"varchar_ops", TEXT, None),
    (b"date_abs_ops", SqlType::Date, None),
    (b"", SqlType::Date, None),
];

/// The place of the first name that another class has.
fn first_named(rows: &[Named]) -> Option<usize> {
    for n in 0..rows.len() {
        let (name, t, class) = rows[n];
        if class_named(name, t) != class {
            return Some(n);
        }
    }
    None
}

/// A type with its class and its family where none is named.
type Usual = (SqlType, OpClass, Family);

const DEFAULTS: [Usual; 8] = [
    (SMALL, OpClass::Int2Ops, Family::Integer),
    (TEXT, OpClass::TextOps, Family::Text),
    (SqlType::Uuid, OpClass::UuidOps, Family::Uuid),
    (SqlType::Date, OpClass::DateOps, Family::Date),
    (SqlType::Timestamp, OpClass::TimestampOps, Family::Timestamp),
    (
        SqlType::TimestampTz,
        OpClass::TimestampTzOps,
        Family::TimestampTz,
    ),
    (CENTS, OpClass::NumericOps(2), Family::Numeric(2)),
    (WHOLE, OpClass::NumericOps(0), Family::Numeric(0)),
];

/// Whether indexes of both methods take this class for a type where none is named, and it is of the type's family.
fn is_default(row: Usual) -> bool {
    let (t, class, of) = row;
    default_class(t, Method::Btree) == class
        && default_class(t, Method::Hash) == class
        && default_family(t) == of
        && family(class) == of
        && accepts(class, Method::Btree, t)
        && accepts(class, Method::Hash, t)
}

/// The place of the first type with other defaults.
fn first_default(rows: &[Usual]) -> Option<usize> {
    for n in 0..rows.len() {
        if !is_default(rows[n]) {
            return Some(n);
        }
    }
    None
}

/// A class, a type, and whether a B-tree takes the class for it.
type Accepted = (OpClass, SqlType, bool);

const ACCEPTED: [Accepted; 9] = [
    (OpClass::DateOps, SqlType::Timestamp, false),
    (OpClass::TimestampOps, SqlType::TimestampTz, false),
    (OpClass::TextOps, SqlType::Uuid, false),
    (OpClass::UuidOps, TEXT, false),
    (OpClass::Int8Ops, CENTS, false),
    (OpClass::NumericOps(0), SqlType::Int4, false),
    (OpClass::NumericOps(2), WHOLE, false),
    (
        OpClass::NumericOps(2),
        SqlType::Numeric {
            digits: 5,
            scale: 2,
        },
        true,
    ),
    (OpClass::TimestampTzOps, SqlType::TimestampTz, true),
];

/// The place of the first class that is taken otherwise.
fn first_accepted(rows: &[Accepted]) -> Option<usize> {
    for n in 0..rows.len() {
        let (class, t, told) = rows[n];
        if accepts(class, Method::Btree, t) != told {
            return Some(n);
        }
    }
    None
}

/// An operator, the types of its sides, and whether there is one.
type Existing = (Op, SqlType, SqlType, bool);

const EXISTING: [Existing; 16] = [
    (Op::Ne, SMALL, BIG, true),
    (Op::AbsLt, TEXT, TEXT, false),
    (Op::Eq, SqlType::Int4, SqlType::Bool, false),
    (Op::Lt, SqlType::Date, SqlType::Date, true),
    (Op::Eq, SqlType::Date, SqlType::Timestamp, false),
    (Op::Lt, SqlType::Timestamp, SqlType::TimestampTz, false),
    (Op::Eq, SqlType::Date, SqlType::Int4, false),
    (Op::Eq, SqlType::Date, TEXT, false),
    (Op::Eq, SqlType::Uuid, TEXT, false),
    (Op::Ge, SqlType::Uuid, SqlType::Uuid, true),
    (Op::AbsEq, SqlType::Date, SqlType::Date, false),
    (Op::Eq, CENTS, WHOLE, false),
    (
        Op::Ne,
        CENTS,
        SqlType::Numeric {
            digits: 5,
            scale: 2,
        },
        true,
    ),
    (Op::Lt, SqlType::Int4, WHOLE, false),
    (Op::AbsEq, CENTS, CENTS, false),
    (Op::Ne, SqlType::Bool, SqlType::TimestampTz, false),
];

/// The place of the first operator of which the other is told.
fn first_existing(rows: &[Existing]) -> Option<usize> {
    for n in 0..rows.len() {
        let (op, left, right, told) = rows[n];
        if operator_exists(op, left, right) != told {
            return Some(n);
        }
    }
    None
}

#[test]
fn answers_of_the_manual(rt: HostRuntime) {
    assert_eq!(rt; first_named(&NAMED), None);
    assert_eq!(rt; first_strategy(&STRATEGIES), None);
    let (text, size) = (
        default_class(TEXT, Method::Hash),
        family(OpClass::Int8AbsOps),
    );
    let number = default_family(SqlType::Int2);
    assert!(rt; (text, size, number) == (OpClass::TextOps, Family::IntAbs, Family::Integer));
    let accepted = [
        accepts(OpClass::BoolOps, Method::Hash, SqlType::Bool),
        accepts(OpClass::Int4Ops, Method::Btree, SqlType::Int8),
        accepts(OpClass::Int4AbsOps, Method::Hash, SqlType::Int4),
    ];
    assert!(rt; accepted == [true, false, false]);
}

#[test]
fn types_have_their_own_operators(rt: HostRuntime) {
    assert_eq!(rt; first_default(&DEFAULTS), None);
    assert_eq!(rt; first_accepted(&ACCEPTED), None);
    assert_eq!(rt; first_existing(&EXISTING), None);
}

/// A family, a method, an operator, the types of its sides, and the number of its strategy.
type Strategy = (Family, Method, Op, SqlType, SqlType, Option<u8>);

const STRATEGIES: [Strategy; 17] = [
    (Family::Integer, Method::Btree, Op::Lt, SMALL, BIG, Some(1)),
    (Family::Integer, Method::Btree, Op::Gt, BIG, SMALL, Some(5)),
    (Family::Integer, Method::Btree, Op::Ne, BIG, BIG, None),
    (Family::Integer, Method::Hash, Op::Eq, SMALL, BIG, Some(1)),
    (Family::Text, Method::Hash, Op::Ge, TEXT, TEXT, None),
    (Family::Text, Method::Btree, Op::Eq, TEXT, SMALL, None),
    (Family::IntAbs, Method::Btree, Op::AbsGe, BIG, BIG, Some(4)),
    (Family::IntAbs, Method::Hash, Op::AbsEq, BIG, BIG, None),
    (Family::Date, Method::Btree, Op::Lt, DATE, DATE, Some(1)),
    (Family::Date, Method::Hash, Op::Eq, DATE, DATE, Some(1)),
    (Family::Date, Method::Btree, Op::AbsLt, DATE, DATE, None),
    (
        Family::Timestamp,
        Method::Btree,
        Op::Le,
        CLOCK,
        CLOCK,
        Some(2),
    ),
    (
        Family::TimestampTz,
        Method::Btree,
        Op::Le,
        CLOCK,
        CLOCK,
        None,
    ),
    (Family::Uuid, Method::Btree, Op::Ge, ID, ID, Some(4)),
    (Family::Uuid, Method::Hash, Op::Gt, ID, ID, None),
    (
        Family::Numeric(2),
        Method::Btree,
        Op::Gt,
        CENTS,
        CENTS,
        Some(5),
    ),
    (Family::Numeric(0), Method::Hash, Op::Eq, CENTS, CENTS, None),
];

/// The place of the first row with another strategy.
fn first_strategy(rows: &[Strategy]) -> Option<usize> {
    for n in 0..rows.len() {
        let (family, method, op, left, right, number) = rows[n];
        if strategy(family, method, op, left, right) != number {
            return Some(n);
        }
    }
    None
}

fn key(class: OpClass, descending: bool, nulls_first: bool) -> IndexKey {
    IndexKey {
        col: ColNo(0),
        class,
        descending,
        nulls_first,
    }
}

/// Two lists of two values, the second of each none for NULL, and how the first stands to the second.
type Compared = (i64, Option<i64>, i64, Option<i64>, Ordering);

const COMPARED: [Compared; 6] = [
    (1, Some(1), 2, Some(1), Ordering::Less),
    (1, Some(-1), 1, Some(1), Ordering::Equal),
    (1, Some(-3), 1, Some(2), Ordering::Less),
    (1, None, 1, Some(2), Ordering::Less),
    (2, None, 1, Some(2), Ordering::Greater),
    (1, None, 1, None, Ordering::Equal),
];

fn value(n: Option<i64>) -> Value {
    match n {
        Some(n) => Value::Int(n),
        None => Value::Null,
    }
}

fn order(keys: &[IndexKey], row: Compared) -> Ordering {
    let left = [Value::Int(row.0), value(row.1)];
    let right = [Value::Int(row.2), value(row.3)];
    keys_order(keys, &left, &right)
}

/// The place of the first lists with another order.
fn first_order(keys: &[IndexKey], rows: &[Compared]) -> Option<usize> {
    for n in 0..rows.len() {
        if order(keys, rows[n]) != rows[n].4 {
            return Some(n);
        }
    }
    None
}

#[test]
fn lists_of_two_keys(rt: HostRuntime) {
    let keys = [
        key(OpClass::Int4Ops, false, false),
        key(OpClass::Int8AbsOps, true, true),
    ];
    assert_eq!(rt; first_order(&keys, &COMPARED), None);
}
