//! Small lists of conjuncts with their classes and clauses, and each call once with ample memory.

ghost use Rattle.std.specs.Prelude.{◌≡◌, ◌<◌, true, All, IfOk, IsTrue, length, nat_lt};
ghost use Rattle.pg_value.specs.declared.value.SqlType.TheVariants.{Int8};
ghost use Rattle.opfamily.specs.Answers.{does_exist};
ghost use Rattle.pg_expr.specs.Columns.{each_column, each_column_of};
ghost use Rattle.pg_expr.specs.Typed.{IsTyped, AreTyped};
ghost use Rattle.pg_expr.specs.work.View.{cond, conds};

use crate::build::column;
use eq_classes::{ClassNo, Classes, ClauseSet, OrderItem};
use pg_base::{ColNo, Memory, RelNo, RelSet};
use pg_expr::{Binding, ColRef, Expr, Exprs, Operand, is_same};
use pg_value::{Family, Op, SqlType, Value};
use std::alloc::{AllocError, Global};

/// Columns of type int8.
#[derive(Drop)]
struct Wide {
    value: Value,
}

impl Binding for Wide {
    ghost use Rattle.std.specs.Prelude.{true};
    ghost use Rattle.pg_value.specs.declared.value.SqlType.TheVariants.{Int8};

    ghost binds = { λ r c. true };

    ghost value_at = { λ r c. r.value };

    ghost type_of = { λ r c. Int8 };

    fn value(&self, _c: ColRef) -> &Value {
        &self.value
    }

    fn typed(&self, _c: ColRef) -> SqlType {
        SqlType::Int8
    }
}

/// The sign of a comparison.
#[derive(Clone, Copy)]
enum Sign {
    Equal,
    AbsEqual,
    Less,
    Greater,
}

/// A conjunct or a clause of a case, over int8 columns: two columns, each by its relation and its place there, a column and a
/// number, or a column that is not NULL.
#[derive(Clone, Copy)]
enum Part {
    Two(Sign, u8, u8, u8, u8),
    One(Sign, u8, u8, i64),
    Given(u8, u8),
}

fn op_of(sign: Sign) -> Op
    ensures { does_exist result Int8 Int8 ≡ true }
{
    match sign {
        Sign::Equal => Op::Eq,
        Sign::AbsEqual => Op::AbsEq,
        Sign::Less => Op::Lt,
        Sign::Greater => Op::Gt,
    }
}

/// The expression of a part. Relations count below 16.
fn expr_of(part: Part) -> Expr
    ensures typed { IsTyped (λ c. Int8) (cond result) }
    ensures rels { IsTrue (each_column (λ c. nat_lt c.rel.0 16) (cond result)) }
    ensures bound { IsTrue (each_column (λ c. true) (cond result)) }
{
    match part {
        Part::Two(sign, a, i, b, j) => Expr::Compare(
            op_of(sign),
            Operand::Col(column(a % 16, i)),
            Operand::Col(column(b % 16, j)),
        ),
        Part::One(sign, a, i, n) => Expr::Compare(
            op_of(sign),
            Operand::Col(column(a % 16, i)),
            Operand::Lit(Value::Int(n)),
        ),
        Part::Given(a, i) => Expr::IsNotNull(column(a % 16, i)),
    }
}

/// The expressions of some parts.
fn exprs_of(alloc: Global, parts: &[Part]) -> Result<Vec<Expr>, Memory>
    ensures typed { IfOk result (λ es. AreTyped (λ c. Int8) (conds es.items)) }
    ensures rels { IfOk result (λ es. IsTrue (each_column_of (λ c. nat_lt c.rel.0 16) (conds es.items))) }
    ensures bound { IfOk result (λ es. IsTrue (each_column_of (λ c. true) (conds es.items))) }
    ensures many { IfOk result (λ es. length es.items ≡ length parts.now) }
{
    let Some((part, others)) = parts.split_first() else {
        return Ok(Vec::new(alloc));
    };
    let mut exprs = exprs_of(alloc, others)?;
    exprs.insert(0, expr_of(*part))?;
    Ok(exprs)
}

/// The most conjuncts of a case.
const MOST: usize = 32;

/// The classes of some parts and an order.
fn classes_of(alloc: Global, parts: &[Part], order: &[OrderItem]) -> Result<Classes, Memory>
    requires { All (λ i. i.col.rel.0 < 16) order.now }
{
    if parts.len() > MOST {
        return Err(AllocError);
    }
    let conjuncts = Exprs::from_vec(exprs_of(alloc, parts)?);
    Classes::build(alloc, conjuncts, order, &Wide { value: Value::Null })
}

/// Whether the clauses of a set are those wanted.
fn holds(t: &Classes, set: &ClauseSet, wanted: &[u16]) -> bool {
    for n in 0..t.count() {
        if set.has(n as u16) != wanted.contains(&(n as u16)) {
            return false;
        }
    }
    true
}

/// Whether the clauses are those wanted, with the numbers of their conjuncts, 0 for none.
fn lists(t: &Classes, wanted: &[Expr], numbers: &[u16]) -> bool {
    if t.count() != wanted.len() || numbers.len() != wanted.len() {
        return false;
    }
    for n in 0..wanted.len() {
        if !is_same(t.clause(n as u16), &wanted[n])
            || t.conjunct(n as u16).unwrap_or(0) != numbers[n]
        {
            return false;
        }
    }
    true
}

/// A set of clauses that is asked for, with sets of relations as bits.
#[derive(Clone, Copy)]
enum Asked {
    Base(u8),
    All(u16),
    Join(u16, u16),
    Param(u8, u16),
    JoinParam(u16, u8, u16),
}

/// The clauses that are asked for. Relations count below 16.
fn clauses_of(t: &Classes, asked: Asked) -> ClauseSet {
    match asked {
        Asked::Base(r) => t.base_clauses(RelNo(r % 16)),
        Asked::All(s) => t.all_clauses(RelSet(s)),
        Asked::Join(a, b) => t.join_clauses(RelSet(a), RelSet(b)),
        Asked::Param(r, p) => t.param_clauses(RelNo(r % 16), RelSet(p)),
        Asked::JoinParam(a, r, p) => t.join_param_clauses(RelSet(a), RelNo(r % 16), RelSet(p)),
    }
}

/// The first set that has other clauses than wanted.
fn first_other(t: &Classes, rows: &[(Asked, &[u16])]) -> Option<Asked> {
    for (asked, wanted) in rows {
        if !holds(t, &clauses_of(t, *asked), wanted) {
            return Some(*asked);
        }
    }
    None
}

/// Whether the clauses are these parts, with the numbers of their conjuncts, 0 for none.
fn has_clauses(alloc: Global, t: &Classes, wanted: &[Part], numbers: &[u16]) -> bool {
    match exprs_of(alloc, wanted) {
        Ok(exprs) => lists(t, &exprs, numbers),
        Err(_) => false,
    }
}

/// Three relations of one class, and a comparison beside it.
const CHAIN_PARTS: [Part; 3] = [
    Part::Two(Sign::Equal, 0, 0, 1, 0),
    Part::Two(Sign::Less, 0, 0, 2, 0),
    Part::Two(Sign::Equal, 1, 0, 2, 0),
];

const CHAIN_CLAUSES: [Part; 4] = [
    Part::Two(Sign::Less, 0, 0, 2, 0),
    Part::Two(Sign::Equal, 0, 0, 1, 0),
    Part::Two(Sign::Equal, 0, 0, 2, 0),
    Part::Two(Sign::Equal, 1, 0, 2, 0),
];

/// The classes of three relations of one class and a comparison beside it, with an order.
fn chain_of(alloc: Global) -> Result<Classes, Memory> {
    let order = [
        OrderItem {
            col: ColRef {
                rel: RelNo(3),
                col: ColNo(1),
            },
            descending: false,
            nulls_first: true,
        },
        OrderItem {
            col: ColRef {
                rel: RelNo(2),
                col: ColNo(0),
            },
            descending: true,
            nulls_first: true,
        },
    ];
    classes_of(alloc, &CHAIN_PARTS, &order)
}

const CHAIN: [(Asked, &[u16]); 9] = [
    (Asked::Base(0), &[]),
    (Asked::All(0b111), &[0, 1, 2]),
    (Asked::All(0b110), &[3]),
    (Asked::Join(0b011, 0b100), &[0, 2]),
    (Asked::Join(0b010, 0b100), &[3]),
    (Asked::Param(2, 0b011), &[0, 2]),
    (Asked::Param(2, 0b010), &[3]),
    (Asked::JoinParam(0b011, 2, 0b010), &[0]),
    (Asked::JoinParam(0b011, 2, 0b011), &[]),
];

/// Whether column `a` of relation 2 is of class 0, whose direction is that of the order, with a member in relation 1.
fn has_first_class(t: &Classes) -> bool {
    let Some(n) = t.class_of(column(2, 0), Family::Integer) else {
        return false;
    };
    n == ClassNo(0)
        && !t.has_constant(n)
        && t.direction(n) == (true, true)
        && t.family(n) == Family::Integer
        && t.member(n, RelSet(0b110)) == Some(column(1, 0))
}

/// Whether the other column of the order is of class 1, without a member in relations 0 and 1.
fn has_second_class(t: &Classes) -> bool {
    let Some(n) = t.class_of(column(3, 1), Family::Integer) else {
        return false;
    };
    n == ClassNo(1) && t.direction(n) == (false, true) && t.member(n, RelSet(0b011)).is_none()
}

#[test]
fn chain(rt: HostRuntime) {
    let t = chain_of(rt.alloc()).expect(&rt, "classes");
    assert!(rt; has_clauses(rt.alloc(), &t, &CHAIN_CLAUSES, &[2, 0, 0, 0]));
    assert!(rt; first_other(&t, &CHAIN).is_none());
    assert!(rt; t.joining(RelSet(0b011), RelSet(0b100)) == [Some(ClassNo(0)), None, None, None]);
    assert!(rt; t.joining(RelSet(0b100), RelSet(0b1000)) == [None, None, None, None]);
    assert!(rt; t.class_of(column(0, 0), Family::IntAbs).is_none());
    assert!(rt; has_first_class(&t));
    assert!(rt; has_second_class(&t));
}

/// A column equal to itself, two of equal size, and one with a number.
const CONSTANT_PARTS: [Part; 3] = [
    Part::Two(Sign::Equal, 0, 0, 0, 0),
    Part::Two(Sign::AbsEqual, 0, 0, 0, 1),
    Part::One(Sign::Equal, 1, 0, 5),
];

const CONSTANT_CLAUSES: [Part; 3] = [
    Part::Given(0, 0),
    Part::Two(Sign::AbsEqual, 0, 0, 0, 1),
    Part::One(Sign::Equal, 1, 0, 5),
];

const CONSTANTS: [(Asked, &[u16]); 3] = [
    (Asked::Base(0), &[0, 1]),
    (Asked::Base(1), &[2]),
    (Asked::All(0b011), &[0, 1, 2]),
];

/// Whether the class of the number is class 1.
fn has_constant_class(t: &Classes) -> bool {
    match t.class_of(column(1, 0), Family::Integer) {
        Some(n) => n == ClassNo(1) && t.has_constant(n),
        None => false,
    }
}

#[test]
fn constants(rt: HostRuntime) {
    let t = classes_of(rt.alloc(), &CONSTANT_PARTS, &[]).expect(&rt, "classes");
    assert!(rt; has_clauses(rt.alloc(), &t, &CONSTANT_CLAUSES, &[1, 0, 0]));
    assert!(rt; first_other(&t, &CONSTANTS).is_none());
    assert!(rt; t.class_of(column(0, 0), Family::Integer).is_none());
    assert!(rt; t.class_of(column(0, 1), Family::IntAbs) == Some(ClassNo(0)));
    assert!(rt; has_constant_class(&t));
}

/// Conjuncts, their clauses, and the numbers of the conjuncts that these are, 0 for none.
type Row<'a> = (&'a [Part], &'a [Part], &'a [u16]);

const LISTS: [Row; 9] = [
    // a column and a number
    (
        &[Part::One(Sign::Equal, 0, 0, 5)],
        &[Part::One(Sign::Equal, 0, 0, 5)],
        &[0],
    ),
    // two numbers for one column
    (
        &[
            Part::One(Sign::Equal, 0, 0, 1),
            Part::One(Sign::Equal, 0, 0, 2),
        ],
        &[
            Part::One(Sign::Equal, 0, 0, 1),
            Part::One(Sign::Equal, 0, 0, 2),
        ],
        &[0, 0],
    ),
    // one number twice
    (
        &[
            Part::One(Sign::Equal, 0, 0, 1),
            Part::One(Sign::Equal, 0, 0, 1),
        ],
        &[Part::One(Sign::Equal, 0, 0, 1)],
        &[0],
    ),
    // one number joins two columns
    (
        &[
            Part::One(Sign::Equal, 1, 0, 3),
            Part::One(Sign::Equal, 0, 1, 3),
        ],
        &[
            Part::One(Sign::Equal, 0, 1, 3),
            Part::One(Sign::Equal, 1, 0, 3),
        ],
        &[0, 0],
    ),
    // what is no equality comes first, with its number
    (
        &[
            Part::One(Sign::Equal, 0, 1, 7),
            Part::One(Sign::Greater, 0, 0, 10),
        ],
        &[
            Part::One(Sign::Greater, 0, 0, 10),
            Part::One(Sign::Equal, 0, 1, 7),
        ],
        &[2, 0],
    ),
    // a chain over three relations
    (
        &[
            Part::Two(Sign::Equal, 0, 0, 1, 0),
            Part::Two(Sign::Equal, 1, 0, 2, 0),
        ],
        &[
            Part::Two(Sign::Equal, 0, 0, 1, 0),
            Part::Two(Sign::Equal, 0, 0, 2, 0),
            Part::Two(Sign::Equal, 1, 0, 2, 0),
        ],
        &[0, 0, 0],
    ),
    // two members of one relation
    (
        &[
            Part::Two(Sign::Equal, 0, 0, 0, 1),
            Part::Two(Sign::Equal, 0, 1, 1, 0),
        ],
        &[
            Part::Two(Sign::Equal, 0, 0, 0, 1),
            Part::Two(Sign::Equal, 0, 0, 1, 0),
        ],
        &[0, 0],
    ),
    // two families are two classes
    (
        &[
            Part::Two(Sign::AbsEqual, 0, 0, 1, 0),
            Part::One(Sign::Equal, 0, 0, 3),
        ],
        &[
            Part::Two(Sign::AbsEqual, 0, 0, 1, 0),
            Part::One(Sign::Equal, 0, 0, 3),
        ],
        &[0, 0],
    ),
    // customers, orders and lines: the number reaches the orders
    (
        &[
            Part::Two(Sign::Equal, 0, 0, 1, 1),
            Part::Two(Sign::Equal, 1, 0, 2, 0),
            Part::One(Sign::Equal, 0, 0, 7),
        ],
        &[
            Part::One(Sign::Equal, 0, 0, 7),
            Part::One(Sign::Equal, 1, 1, 7),
            Part::Two(Sign::Equal, 1, 0, 2, 0),
        ],
        &[0, 0, 0],
    ),
];

/// Whether the classes of these conjuncts have these clauses.
fn are_listed(alloc: Global, row: Row) -> bool {
    let (conjuncts, clauses, numbers) = row;
    match classes_of(alloc, conjuncts, &[]) {
        Ok(t) => has_clauses(alloc, &t, clauses, numbers),
        Err(_) => false,
    }
}

/// The place of the first conjuncts with other clauses.
fn first_wrong(alloc: Global, rows: &[Row]) -> Option<usize> {
    for n in 0..rows.len() {
        if !are_listed(alloc, rows[n]) {
            return Some(n);
        }
    }
    None
}

#[test]
fn clauses_of_small_lists(rt: HostRuntime) {
    assert_eq!(rt; first_wrong(rt.alloc(), &LISTS), None);
}
