//! Pairs of conditions with the answer by hand.

use crate::build::{column, not, pair};
use pg_base::Memory;
use pg_expr::{Expr, Exprs, Operand};
use pg_value::{Column, Columns, Op, SqlType, Truth, Value};
use predicate_proof::{ClauseList, implies};
use std::alloc::Global;

/// No clause, one or two.
#[derive(Drop)]
enum Clauses {
    Nothing(Expr),
    One(Expr),
    Two(Expr, Expr),
}

impl ClauseList for Clauses {
    ghost use Rattle.std.specs.Prelude.{[], ◌∷◌};
    ghost use Rattle.pg_expr.specs.work.View.{cond};
    ghost use Rattle.worked_rules.specs.declared.implications.Clauses.TheVariants.{Nothing, One, Two};

    ghost conditions = { elim [ Nothing e ↦ [] | One e ↦ cond e ∷ [] | Two e f ↦ cond e ∷ cond f ∷ [] ] };

    fn count(&self) -> u16 {
        match self {
            Clauses::Nothing(_) => 0,
            Clauses::One(_) => 1,
            Clauses::Two(_, _) => 2,
        }
    }

    fn clause(&self, n: u16) -> &Expr {
        match self {
            Clauses::Nothing(e) => e,
            Clauses::One(e) => e,
            Clauses::Two(first, second) => { if n == 0 { first } else { second } }
        }
    }
}

/// A column of a relation beside a number.
fn compared(rel: u8, col: u8, op: Op, n: i64) -> Expr {
    Expr::Compare(
        op,
        Operand::Col(column(rel, col)),
        Operand::Lit(Value::Int(n)),
    )
}

fn column_of(typed: SqlType) -> Column {
    Column {
        typed,
        not_null: false,
    }
}

/// Five columns: int4, int8, bool, date, and a numeric with two digits behind the point.
fn columns(alloc: Global) -> Result<Columns, Memory> {
    let columns = [
        column_of(SqlType::Int4),
        column_of(SqlType::Int8),
        column_of(SqlType::Bool),
        column_of(SqlType::Date),
        column_of(SqlType::Numeric {
            digits: 10,
            scale: 2,
        }),
    ];
    Ok(Columns::from_vec(Vec::from_slice(alloc, &columns)?))
}

/// A comparison of a clause, one of a goal, and whether the first implies the second.
type Row = (Op, i64, Op, i64, bool);

const COMPARISONS: [Row; 26] = [
    (Op::Lt, 5, Op::Lt, 5, true),
    (Op::Lt, 5, Op::Lt, 4, false),
    (Op::Lt, 5, Op::Le, 4, false),
    (Op::Lt, 5, Op::Ne, 5, true),
    (Op::Lt, 5, Op::Ge, 0, false),
    (Op::Le, 5, Op::Lt, 5, false),
    (Op::Le, 5, Op::Lt, 6, true),
    (Op::Le, 5, Op::Le, 5, true),
    (Op::Le, 5, Op::Ne, 5, false),
    (Op::Eq, 5, Op::Lt, 6, true),
    (Op::Eq, 5, Op::Le, 5, true),
    (Op::Eq, 5, Op::Eq, 6, false),
    (Op::Eq, 5, Op::Ge, 5, true),
    (Op::Eq, 5, Op::Gt, 5, false),
    (Op::Eq, 5, Op::Ne, 6, true),
    (Op::Ge, 10, Op::Gt, 10, false),
    (Op::Ge, 11, Op::Gt, 10, true),
    (Op::Gt, 10, Op::Gt, 10, true),
    (Op::Gt, 10, Op::Ge, 11, false),
    (Op::Gt, 10, Op::Ne, 10, true),
    (Op::Ne, 5, Op::Ne, 5, true),
    (Op::Ne, 5, Op::Lt, 6, false),
    (Op::AbsLt, -5, Op::AbsLe, 5, true),
    (Op::AbsEq, -5, Op::AbsEq, 5, true),
    (Op::AbsLt, 5, Op::Lt, 5, false),
    (Op::AbsEq, 5, Op::Ne, 6, false),
];

/// A column beside a number.
type Compared = (u8, Op, i64);

/// A condition on the columns of one relation: a column beside a number or NULL, a column that is not NULL, two comparisons
/// joined, that the flag is not true, as NOT has it, and True.
#[derive(Clone, Copy)]
enum Part {
    Compare(u8, Op, i64),
    CompareNull(u8, Op),
    Given(u8),
    And(Compared, Compared),
    Or(Compared, Compared),
    NotFlag,
    True,
}

/// Two comparisons of a relation.
fn both(alloc: Global, rel: u8, first: Compared, second: Compared) -> Result<Exprs, Memory> {
    let one = compared(rel, first.0, first.1, first.2);
    pair(alloc, one, compared(rel, second.0, second.1, second.2))
}

/// The condition of a relation.
fn expr(alloc: Global, rel: u8, part: Part) -> Result<Expr, Memory> {
    match part {
        Part::Compare(col, op, n) => Ok(compared(rel, col, op, n)),
        Part::CompareNull(col, op) => {
            let null = Operand::Lit(Value::Null);
            Ok(Expr::Compare(op, Operand::Col(column(rel, col)), null))
        }
        Part::Given(col) => Ok(Expr::IsNotNull(column(rel, col))),
        Part::And(first, second) => Ok(Expr::And(both(alloc, rel, first, second)?)),
        Part::Or(first, second) => Ok(Expr::Or(both(alloc, rel, first, second)?)),
        Part::NotFlag => not(alloc, Expr::BoolCol(column(rel, 2))),
        Part::True => Ok(Expr::Const(Truth::True)),
    }
}

/// No condition, one or two.
#[derive(Clone, Copy)]
enum Given {
    Nothing,
    One(Part),
    Two(Part, Part),
}

/// The conditions of relation 1 as clauses.
fn clauses_of(alloc: Global, given: Given) -> Result<Clauses, Memory> {
    match given {
        Given::Nothing => Ok(Clauses::Nothing(Expr::Const(Truth::True))),
        Given::One(one) => Ok(Clauses::One(expr(alloc, 1, one)?)),
        Given::Two(first, second) => {
            let first = expr(alloc, 1, first)?;
            let second = expr(alloc, 1, second)?;
            Ok(Clauses::Two(first, second))
        }
    }
}

/// Clauses, a goal, and whether the clauses imply it.
type Implied = (Given, Part, bool);

const TENS: Given = Given::Two(Part::Compare(0, Op::Gt, 10), Part::Compare(1, Op::Eq, 7));

const BOTH: Part = Part::And((0, Op::Gt, 5), (1, Op::Ne, 8));

const ONE_OF: Given = Given::Two(
    Part::Compare(1, Op::Lt, 0),
    Part::Or((0, Op::Eq, 1), (0, Op::Eq, 2)),
);

/// The days 2023-12-31, 2024-01-01 and 2024-02-29.
const EVE: i64 = 8_765;

const NEW_YEAR: i64 = 8_766;

const LEAP_DAY: i64 = 8_825;

const FROM_NEW_YEAR: Part = Part::Compare(3, Op::Ge, NEW_YEAR);

const IMPLIED: [Implied; 20] = [
    // each part of a goal
    (TENS, Part::Given(1), true),
    (TENS, Part::Given(2), false),
    (TENS, BOTH, true),
    (Given::One(Part::Compare(0, Op::Gt, 10)), BOTH, false),
    // each alternative of a clause
    (ONE_OF, Part::Compare(0, Op::Lt, 3), true),
    (ONE_OF, Part::Compare(0, Op::Lt, 2), false),
    (ONE_OF, Part::Or((0, Op::Eq, 2), (0, Op::Le, 1)), true),
    // NULL, and no clause
    (
        Given::One(Part::CompareNull(0, Op::Lt)),
        Part::Given(0),
        true,
    ),
    (
        Given::One(Part::CompareNull(0, Op::Lt)),
        Part::Compare(0, Op::Le, 5),
        false,
    ),
    (Given::Nothing, Part::True, false),
    // a negated flag is its own goal
    (Given::One(Part::NotFlag), Part::NotFlag, true),
    (Given::One(Part::NotFlag), Part::Given(2), false),
    // days: one above the last day of a year is not taken to be one of the next year
    (Given::One(FROM_NEW_YEAR), FROM_NEW_YEAR, true),
    (
        Given::One(Part::Compare(3, Op::Gt, EVE)),
        FROM_NEW_YEAR,
        false,
    ),
    (
        Given::One(Part::Compare(3, Op::Eq, LEAP_DAY)),
        FROM_NEW_YEAR,
        true,
    ),
    (
        Given::One(Part::Compare(3, Op::Ge, EVE)),
        FROM_NEW_YEAR,
        false,
    ),
    (
        Given::One(Part::Compare(3, Op::Gt, NEW_YEAR)),
        Part::Given(3),
        true,
    ),
    // hundredths, and no comparison of another column with the number
    (
        Given::One(Part::Compare(4, Op::Lt, 1_250)),
        Part::Compare(4, Op::Ne, 1_250),
        true,
    ),
    (
        Given::One(Part::Compare(4, Op::Le, 1_250)),
        Part::Compare(4, Op::Lt, 1_250),
        false,
    ),
    (
        Given::One(Part::Compare(3, Op::Eq, NEW_YEAR)),
        Part::Compare(4, Op::Ge, NEW_YEAR),
        false,
    ),
];

/// Whether this is the answer of whether clauses imply the condition of relation 0.
fn is_answer(alloc: Global, columns: &Columns, given: &Clauses, goal: Part, wanted: bool) -> bool {
    match expr(alloc, 0, goal) {
        Ok(goal) => implies(given, &goal, columns) == wanted,
        Err(_) => false,
    }
}

fn is_implied(alloc: Global, columns: &Columns, row: Implied) -> bool {
    let (clauses, goal, wanted) = row;
    match clauses_of(alloc, clauses) {
        Ok(given) => is_answer(alloc, columns, &given, goal, wanted),
        Err(_) => false,
    }
}

/// The place of the first row with another answer.
fn first_other(alloc: Global, columns: &Columns, rows: &[Implied]) -> Option<usize> {
    for n in 0..rows.len() {
        if !is_implied(alloc, columns, rows[n]) {
            return Some(n);
        }
    }
    None
}

/// Whether a comparison of a column has this answer, and implies no comparison of another column.
fn is_row(alloc: Global, columns: &Columns, row: Row) -> bool {
    let (op, n, sign, m, wanted) = row;
    let given = Given::One(Part::Compare(0, op, n));
    is_implied(alloc, columns, (given, Part::Compare(0, sign, m), wanted))
        && is_implied(alloc, columns, (given, Part::Compare(1, sign, m), false))
}

/// The place of the first comparison with another answer.
fn first_wrong(alloc: Global, columns: &Columns, rows: &[Row]) -> Option<usize> {
    for n in 0..rows.len() {
        if !is_row(alloc, columns, rows[n]) {
            return Some(n);
        }
    }
    None
}

#[test]
fn implied_goals(rt: HostRuntime) {
    let columns = columns(rt.alloc()).expect(&rt, "columns");
    assert_eq!(rt; first_wrong(rt.alloc(), &columns, &COMPARISONS), None);
    assert_eq!(rt; first_other(rt.alloc(), &columns, &IMPLIED), None);
}
