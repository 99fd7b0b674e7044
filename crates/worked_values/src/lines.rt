//! The lines of four tuples by hand, as PostgreSQL gives them.

ghost use Rattle.std.specs.Prelude.{◌≡◌, IfOk, length};
ghost use Rattle.worked_values.specs.work.Worked.{IsWorked};

use group_values::{Call, Form, Groups, Lines, Shape, Shown, Values};
use pg_base::Memory;
use pg_value::Value;
use std::alloc::Global;

/// The columns `a` and `b` of four rows.
const ROWS: [(Option<i64>, Option<i64>); 4] = [
    (Some(1), Some(5)),
    (Some(2), Some(7)),
    (Some(1), None),
    (None, Some(3)),
];

/// `a`, `count(*)`, `count(b)`, `max(b)` by `a`.
const LINES: [[Option<i64>; 4]; 3] = [
    [Some(1), Some(2), Some(1), Some(5)],
    [Some(2), Some(1), Some(1), Some(7)],
    [None, Some(1), Some(1), Some(3)],
];

fn value(n: Option<i64>) -> Value {
    match n {
        Some(n) => Value::Int(n),
        None => Value::Null,
    }
}

fn keys_of(alloc: Global, a: Option<i64>) -> Result<Values, Memory>
    ensures { IfOk result (λ v. length v ≡ 1) }
{
    let mut values = Vec::new(alloc);
    values.push(value(a))?;
    Ok(Values::from_vec(values))
}

fn args_of(alloc: Global, b: Option<i64>) -> Result<Values, Memory>
    ensures { IfOk result (λ v. length v ≡ 3) }
{
    let mut values = Vec::new(alloc);
    values.push(Value::Null)?;
    values.push(value(b))?;
    values.push(value(b))?;
    Ok(Values::from_vec(values))
}

fn shape(alloc: Global) -> Result<Shape, Memory>
    ensures width { IfOk result (λ s. s.width ≡ 1) }
    ensures calls { IfOk result (λ s. length s.calls ≡ 3) }
{
    let calls = Vec::from_slice(alloc, &[Call::CountAll, Call::Count, Call::Max])?;
    let items = Vec::from_slice(
        alloc,
        &[
            Shown::Key(0),
            Shown::Called(0),
            Shown::Called(1),
            Shown::Called(2),
        ],
    )?;
    Ok(Shape {
        width: 1,
        calls,
        items,
        order: Vec::new(alloc),
    })
}

fn add(alloc: Global, groups: &mut Groups, row: (Option<i64>, Option<i64>)) -> Result<(), Memory>
    requires { IsWorked groups.old }
    ensures { IsWorked groups.new }
{
    let keys = keys_of(alloc, row.0)?;
    let args = args_of(alloc, row.1)?;
    groups.push(keys, args)
}

fn lines_of(alloc: Global, rows: &[(Option<i64>, Option<i64>)]) -> Result<Lines, Memory> {
    let mut groups = Groups::new(alloc, shape(alloc)?, Form::Hashed, false)?;
    for row in rows {
        add(alloc, &mut groups, *row)?;
    }
    groups.finish()
}

fn is_value(v: &Value, n: Option<i64>) -> bool {
    match v {
        Value::Int(m) => n == Some(*m),
        Value::Null => n.is_none(),
        _ => false,
    }
}

fn is_line(values: &[Value], want: &[Option<i64>]) -> bool {
    if values.len() != want.len() {
        return false;
    }
    for i in 0..want.len() {
        if !is_value(&values[i], want[i]) {
            return false;
        }
    }
    true
}

/// The number of the first line that is not the one wanted.
fn first_wrong(lines: &[Values], want: &[[Option<i64>; 4]]) -> Option<usize> {
    if lines.len() != want.len() {
        return Some(lines.len());
    }
    for i in 0..want.len() {
        if !is_line(lines[i].items(), &want[i]) {
            return Some(i);
        }
    }
    None
}

#[test]
fn lines_by_hand(rt: HostRuntime) {
    let lines = lines_of(rt.alloc(), &ROWS).expect(&rt, "no memory");
    assert_eq!(rt; first_wrong(lines.items(), &LINES), None);
}
