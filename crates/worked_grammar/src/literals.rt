//! Literals of types: beside columns of dates, numerics, uuids and timestamps, and with the word of their type before them. What
//! is expected was found by a binder written apart from this one.

ghost use Rattle.std.specs.Prelude.{◌≡◌, ◌≤◌, ◌^◌, length};

use crate::conditions::is_shown;
use expr_reader::{Found, Scope, read_expr};
use pg_base::{Code, ColNo, Fault, Refusal, RelNo};
use pg_expr::{ColRef, Expr};
use pg_value::SqlType;
use sql_grammar::expr_end;
use sql_lex::lex_statement;
use std::alloc::Global;

/// The relation v, of d (date), p (numeric of ten digits, two of them behind the point), u (uuid) and z (timestamp with time
/// zone).
#[derive(Drop)]
struct Dated {
    relations: u8,
}

fn found(col: u8) -> Found
    ensures { result ≡ Found.One (record { rel = record { 0 = 0 }; col = record { 0 = col } }) }
{
    Found::One(ColRef {
        rel: RelNo(0),
        col: ColNo(col),
    })
}

impl Scope for Dated {
    ghost use Rattle.std.specs.Prelude.{[], ◌∷◌, cond, nat_eq};
    ghost use Rattle.pg_value.specs.declared.value.SqlType.TheVariants as types;
    ghost use Rattle.expr_reader.specs.work.Scope.{shown};

    ghost visible = { λ dated. shown (118 ∷ []) (100 ∷ []) 0 0 ∷ shown (118 ∷ []) (112 ∷ []) 0 1 ∷ shown (118 ∷ []) (117 ∷ []) 0 2 ∷
        shown (118 ∷ []) (122 ∷ []) 0 3 ∷ [] };

    ghost type_of = { λ dated c. cond (nat_eq c.col.0 0) types.Date (cond (nat_eq c.col.0 1) (types.Numeric 10 2)
        (cond (nat_eq c.col.0 2) types.Uuid types.TimestampTz)) };

    fn column(&self, qualifier: Option<&[u8]>, name: &[u8]) -> Found {
        let Some(alias) = qualifier else {
            return match name {
                b"d" => found(0),
                b"p" => found(1),
                b"u" => found(2),
                b"z" => found(3),
                _ => Found::NoColumn,
            };
        };
        match alias {
            b"v" => match name {
                b"d" => found(0),
                b"p" => found(1),
                b"u" => found(2),
                b"z" => found(3),
                _ => Found::NoColumn,
            },
            _ => Found::NoTable,
        }
    }

    fn typed(&self, c: ColRef) -> SqlType {
        if c.col.0 == 0 {
            SqlType::Date
        } else if c.col.0 == 1 {
            SqlType::Numeric {
                digits: 10,
                scale: 2,
            }
        } else if c.col.0 == 2 {
            SqlType::Uuid
        } else {
            SqlType::TimestampTz
        }
    }
}

/// Conditions and what they mean: a column by its relation and number, a whole number, a day, an instant and a numeric by the
/// sign and the last digit of the number by which it is held. 2024-02-29 is day 8825.
const RIGHT: [(&[u8], &[u8]); 12] = [
    (
        b"d = '2024-02-29' OR '2024-02-28' < v.d;",
        b"|((0.0=5)(4<0.0))",
    ),
    (
        b"d = date '2024-02-29' AND DATE '2000-01-02' <> d",
        b"&((0.0=5)(1<>0.0))",
    ),
    (b"date '2000-01-10' = '2000-01-08'", b"(9=7)"),
    (b"'2000-01-08' < date '1999-12-30'", b"(7<-2)"),
    (b"'2024-02-29' = '2024-2-29'", b"('2024-02-29'='2024-2-29')"),
    (
        b"p = 3 OR p < '-0.05' OR -7 <= p",
        b"|((0.1=0)(0.1<-5)(-0<=0.1))",
    ),
    (b"p <> '12.5' AND '0.04' < p", b"&((0.1<>0)(4<0.1))"),
    (
        b"u = 'A0EEBC99-9C0B-4EF8-BB6D-6BB9BD380A11'",
        b"(0.2='a0eebc99-9c0b-4ef8-bb6d-6bb9bd380a11')",
    ),
    (
        b"z = NULL AND NULL <> date '2000-01-04' AND u IS NULL",
        b"&((0.3=N)(N<>3)?0.2)",
    ),
    (
        b"int4 ' 7 ' = 8 AND bool 't' = FALSE OR text 'X' = varchar 'y'",
        b"|(&((7=8)(T=F))('X'='y'))",
    ),
    (
        b"z < '2000-01-01 00:00:00.000009+00' OR timestamptz '2000-01-01' < z",
        b"|((0.3<9)(0<0.3))",
    ),
    (
        b"integer '4' >= int8 '5' AND smallint '6' = bigint '-7'",
        b"&((4>=5)(6=-7))",
    ),
];

/// Conditions, the fault that refuses them, and from where to where its word stands, which no line of a fault names. Within a
/// comparison the columns come first, then the literals from the left, then the operator.
const WRONG: [(&[u8], Code, u32, u32); 37] = [
    (b"d = '2023-02-29';", Code::S11, 4, 16),
    (b"d = '2024-2-9'", Code::S12, 4, 14),
    (b"d = '2024-13-1'", Code::S12, 4, 15),
    (b"d = '\\N'", Code::S12, 4, 8),
    (b"d = date '2023-02-29'", Code::S11, 4, 8),
    (b"d = date '2024-2-9'", Code::S12, 4, 8),
    (b"d = timestamp '2024-02-29'", Code::S9, 2, 3),
    (
        b"date '2024-02-29' < timestamptz '2024-03-01'",
        Code::S9,
        18,
        19,
    ),
    (b"d > interval '1 day'", Code::S8, 4, 12),
    (b"p = numeric '5'", Code::S8, 4, 11),
    (b"decimal '5' = p", Code::S8, 0, 7),
    (b"zz '1' = yy", Code::S3, 9, 11),
    (b"d = '2024-13-01' OR zz '1' = 5", Code::S11, 4, 16),
    (b"'x' = zz '1'", Code::S8, 6, 8),
    (b"date '2024-13-01' = zz '1'", Code::S11, 0, 4),
    (b"zz '1' = date '2024-13-01'", Code::S8, 0, 2),
    (b"int4 'x' = p", Code::S12, 0, 4),
    (b"d = 5", Code::S9, 2, 3),
    (b"TRUE <> z", Code::S9, 5, 7),
    (b"d |=| '2024-02-29'", Code::S9, 2, 5),
    (b"d |=| 'x'", Code::S12, 6, 9),
    (b"v.d", Code::S10, 0, 1),
    (b"NOT u", Code::S10, 4, 5),
    (b"p = '12.345'", Code::S11, 4, 12),
    (b"p < 100000000", Code::S11, 4, 13),
    (b"p < 99999999999999999999", Code::S11, 4, 24),
    (b"p < -100000000", Code::S11, 4, 5),
    (b"p = '.5'", Code::S12, 4, 8),
    (b"p |=| 5", Code::S9, 2, 5),
    (b"p = TRUE", Code::S9, 2, 3),
    (b"d = z", Code::S9, 2, 3),
    (b"u = d", Code::S9, 2, 3),
    (
        b"u = ' 00000000-0000-4000-8000-000000000000'",
        Code::S12,
        4,
        43,
    ),
    (b"z = '0001-01-01 00:00:00+00:01'", Code::S11, 4, 31),
    (b"z = '2024-02-29+02'", Code::S12, 4, 19),
    (b"date = '2024-02-29'", Code::S3, 0, 4),
    (b"u = 7 AND zz = 1", Code::S9, 2, 3),
];

/// The expression at the text's beginning.
fn reading(alloc: Global, text: &[u8]) -> Result<Expr, Refusal>
    requires { length text.now ≤ 2 ^ 31 }
{
    let tokens = lex_statement(alloc, text, 0)?;
    let end = expr_end(text, &tokens, 0)?;
    read_expr(alloc, &Dated { relations: 1 }, text, &tokens, 0, end)
}

/// Whether the expression at the text's beginning means this.
fn is_meant(alloc: Global, text: &[u8], meaning: &[u8]) -> bool
    requires { length text.now ≤ 2 ^ 31 }
{
    match reading(alloc, text) {
        Ok(e) => is_shown(alloc, &e, meaning),
        Err(_) => false,
    }
}

/// The first of some texts that has more than 100 bytes, or another meaning than told.
fn first_other<'a>(alloc: Global, rows: &[(&'a [u8], &[u8])]) -> Option<&'a [u8]> {
    for (text, meaning) in rows {
        if text.len() > 100 || !is_meant(alloc, text, meaning) {
            return Some(*text);
        }
    }
    None
}

#[test]
fn reads_literals(rt: HostRuntime) {
    assert_eq!(rt; first_other(rt.alloc(), &RIGHT), None);
}

/// Why the text is refused, if it is.
fn refusal(alloc: Global, text: &[u8]) -> Option<Refusal>
    requires { length text.now ≤ 2 ^ 31 }
{
    reading(alloc, text).err()
}

fn fault(code: Code, from: u32, to: u32) -> Refusal {
    Refusal::Fault(Fault::at_words(code, from, to))
}

/// The first of some texts that has more than 100 bytes, or is refused elsewhere than told.
fn first_wrong<'a>(alloc: Global, rows: &[(&'a [u8], Code, u32, u32)]) -> Option<&'a [u8]> {
    for (text, code, from, to) in rows {
        if text.len() > 100 || refusal(alloc, text) != Some(fault(*code, *from, *to)) {
            return Some(*text);
        }
    }
    None
}

#[test]
fn refuses_literals_at_the_first_fault(rt: HostRuntime) {
    assert_eq!(rt; first_wrong(rt.alloc(), &WRONG), None);
}
