//! Values that are compared, copied and told apart.

use pg_value::{Bytes, Family, Op, Truth, Value, apply, compare};
use std::test::Fail;

#[test]
fn numbers_and_nulls(rt: HostRuntime) {
    let table = [
        (Op::Lt, -5, 3, Truth::True),
        (Op::Ge, -5, 3, Truth::False),
        (Op::Ne, -5, 5, Truth::True),
        (Op::AbsEq, -5, 5, Truth::True),
        (Op::AbsLt, -5, 3, Truth::False),
        (Op::AbsGt, i64::MIN, i64::MAX, Truth::True),
        (Op::AbsLe, i64::MIN, 0, Truth::False),
    ];
    for (op, a, b, truth) in table {
        assert_eq!(rt; apply(op, &Value::Int(a), &Value::Int(b)), truth);
        assert_eq!(rt; apply(op, &Value::Int(a), &Value::Null), Truth::Unknown);
        assert_eq!(rt; apply(op, &Value::Null, &Value::Int(b)), Truth::Unknown);
    }
    assert_eq!(rt;
        apply(Op::Lt, &Value::Bool(false), &Value::Bool(true)),
        Truth::True
    );
}

#[test]
fn copies_and_texts(rt: HostRuntime) -> Result<(), Fail> {
    let short = Value::Text(Bytes::from_vec(Vec::from_slice(rt.alloc(), b"a\xFF")?));
    let long = Value::Text(Bytes::from_vec(Vec::from_slice(rt.alloc(), b"ab")?));
    let copied = short.copy(rt.alloc())?;
    assert_eq!(rt; apply(Op::Eq, &short, &copied), Truth::True);
    assert_eq!(rt; apply(Op::Gt, &copied, &long), Truth::True);
    assert_eq!(rt; compare(Family::Text, &long, &Value::Null), None);
    Ok(())
}

#[test]
fn sameness_is_of_kind_and_value(rt: HostRuntime) -> Result<(), Fail> {
    let empty = Value::Text(Bytes::from_vec(Vec::new(rt.alloc())));
    let all = [
        Value::Null,
        Value::Int(0),
        Value::Int(-1),
        Value::Bool(false),
        empty,
    ];
    for (i, a) in all.iter().enumerate() {
        for (j, b) in all.iter().enumerate() {
            assert_eq!(rt; a.is_same(b), i == j, "{i} {j}");
        }
    }
    Ok(())
}
