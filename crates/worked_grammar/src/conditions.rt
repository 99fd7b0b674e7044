//! Conditions over two relations: what they mean, and where they are refused. What is expected was found by a binder written
//! apart from this one.

ghost use Rattle.std.specs.Prelude.{◌≡◌, ◌≤◌, ◌^◌, length};

use expr_reader::{Found, Scope, read_expr};
use pg_base::{Code, ColNo, Fault, Memory, Refusal, RelNo, TableNo};
use pg_expr::{ColRef, Expr, Operand};
use pg_value::{Op, SqlType, Truth, Value};
use sql_grammar::expr_end;
use sql_lex::lex_statement;
use std::alloc::Global;

/// The relations t, of a (int4), s (text) and f (bool), and u, of a (int2) and n (int8).
#[derive(Drop)]
struct Two {
    relations: u8,
}

fn found(rel: u8, col: u8) -> Found
    ensures { result ≡ Found.One (record { rel = record { 0 = rel }; col = record { 0 = col } }) }
{
    Found::One(ColRef {
        rel: RelNo(rel),
        col: ColNo(col),
    })
}

impl Scope for Two {
    ghost use Rattle.std.specs.Prelude.{[], ◌∷◌, cond, nat_eq};
    ghost use Rattle.pg_value.specs.declared.value.SqlType.TheVariants as types;
    ghost use Rattle.expr_reader.specs.work.Scope.{shown};

    ghost visible = { λ two. shown (116 ∷ []) (97 ∷ []) 0 0 ∷ shown (116 ∷ []) (115 ∷ []) 0 1 ∷ shown (116 ∷ []) (102 ∷ []) 0 2 ∷
        shown (117 ∷ []) (97 ∷ []) 1 0 ∷ shown (117 ∷ []) (110 ∷ []) 1 1 ∷ [] };

    ghost type_of = { λ two c. cond (nat_eq c.rel.0 0) (cond (nat_eq c.col.0 0) types.Int4 (cond (nat_eq c.col.0 1) types.Text types.Bool))
        (cond (nat_eq c.col.0 0) types.Int2 types.Int8) };

    fn column(&self, qualifier: Option<&[u8]>, name: &[u8]) -> Found {
        let Some(alias) = qualifier else {
            return match name {
                b"a" => Found::Many,
                b"s" => found(0, 1),
                b"f" => found(0, 2),
                b"n" => found(1, 1),
                _ => Found::NoColumn,
            };
        };
        match alias {
            b"t" => match name {
                b"a" => found(0, 0),
                b"s" => found(0, 1),
                b"f" => found(0, 2),
                _ => Found::NoColumn,
            },
            b"u" => match name {
                b"a" => found(1, 0),
                b"n" => found(1, 1),
                _ => Found::NoColumn,
            },
            _ => Found::NoTable,
        }
    }

    fn typed(&self, c: ColRef) -> SqlType {
        if c.rel.0 == 0 {
            if c.col.0 == 0 {
                SqlType::Int4
            } else if c.col.0 == 1 {
                SqlType::Text
            } else {
                SqlType::Bool
            }
        } else if c.col.0 == 0 {
            SqlType::Int2
        } else {
            SqlType::Int8
        }
    }
}

/// Conditions and what they mean: a column by its relation and number, a number by its sign and last digit.
const RIGHT: [(&[u8], &[u8]); 9] = [
    (
        b"t.a = 5 AND s = 'x' OR NOT f;",
        b"|(&((0.0=5)(0.1='x'))~0.2)",
    ),
    (b"((n >= -9223372036854775808));", b"(1.1>=-8)"),
    (
        b"'7' <= t.a AND 'a' <> 'b' AND NULL = NULL",
        b"&((7<=0.0)('a'<>'b')(N=N))",
    ),
    (b"u.a |=| -3 OR TRUE OR NULL", b"|((1.0|=|-3)TU)"),
    (b"s IS NULL AND NOT NOT n IS NOT NULL;", b"&(?0.1~~!1.1)"),
    (
        b"f = 'yes' AND FALSE = f AND NULL < n",
        b"&((0.2=T)(F=0.2)(N<1.1))",
    ),
    (b"S = '\\N' AND T.A != u.a", b"&((0.1='\\N')(0.0<>1.0))"),
    (b"t.a = NULL OR 1 = 2", b"|((0.0=N)(1=2))"),
    (b"FALSE)", b"F"),
];

/// Conditions, the fault that refuses them, and from where to where its word stands, which no line of a fault names.
const WRONG: [(&[u8], Code, u32, u32); 8] = [
    (b"t.a = '\\N';", Code::S12, 6, 10),
    (b"n < 9223372036854775808;", Code::S11, 4, 23),
    (b"n < -9223372036854775809;", Code::S11, 4, 5),
    (b"t.a = 'x' AND zz = 1", Code::S12, 6, 9),
    (b"t.a < '99999999999'", Code::S11, 6, 19),
    (b"n != 'x' OR s != 5;", Code::S12, 5, 8),
    (b"t.a", Code::S10, 0, 1),
    (b"NOT (f AND n)", Code::S10, 11, 12),
];

fn operator(op: Op) -> &'static [u8] {
    match op {
        Op::Lt => b"<",
        Op::Le => b"<=",
        Op::Eq => b"=",
        Op::Ge => b">=",
        Op::Gt => b">",
        Op::Ne => b"<>",
        Op::AbsLt => b"|<|",
        Op::AbsLe => b"|<=|",
        Op::AbsEq => b"|=|",
        Op::AbsGe => b"|>=|",
        Op::AbsGt => b"|>|",
    }
}

fn put_column(out: &mut Vec<u8>, c: ColRef) -> Result<(), Memory> {
    out.push(b'0' + c.rel.0 % 10)?;
    out.push(b'.')?;
    out.push(b'0' + c.col.0 % 10)?;
    Ok(())
}

fn put_number(out: &mut Vec<u8>, n: i64) -> Result<(), Memory> {
    if n < 0 {
        out.push(b'-')?;
    }
    out.push(b'0' + (n.unsigned_abs() % 10) as u8)?;
    Ok(())
}

fn put_value(out: &mut Vec<u8>, v: &Value) -> Result<(), Memory> {
    match v {
        Value::Null => out.push(b'N')?,
        Value::Int(n) => put_number(out, *n)?,
        Value::Bool(true) => out.push(b'T')?,
        Value::Bool(false) => out.push(b'F')?,
        Value::Text(bytes) => {
            out.push(b'\'')?;
            out.extend_from_slice(bytes.items())?;
            out.push(b'\'')?;
        }
    }
    Ok(())
}

fn put_operand(out: &mut Vec<u8>, o: &Operand) -> Result<(), Memory> {
    match o {
        Operand::Col(c) => put_column(out, *c),
        Operand::Lit(v) => put_value(out, v),
    }
}

fn put_comparison(out: &mut Vec<u8>, op: Op, l: &Operand, r: &Operand) -> Result<(), Memory> {
    out.push(b'(')?;
    put_operand(out, l)?;
    out.extend_from_slice(operator(op))?;
    put_operand(out, r)?;
    out.push(b')')?;
    Ok(())
}

fn put_marked(out: &mut Vec<u8>, mark: u8, c: ColRef) -> Result<(), Memory> {
    out.push(mark)?;
    put_column(out, c)
}

fn truth(t: Truth) -> u8 {
    match t {
        Truth::True => b'T',
        Truth::False => b'F',
        Truth::Unknown => b'U',
    }
}

#[cycle(put)]
fn put(out: &mut Vec<u8>, e: &Expr) -> Result<(), Memory> {
    match e {
        Expr::Compare(op, l, r) => put_comparison(out, *op, l, r),
        Expr::IsNull(c) => put_marked(out, b'?', *c),
        Expr::IsNotNull(c) => put_marked(out, b'!', *c),
        Expr::BoolCol(c) => put_column(out, *c),
        Expr::Const(t) => Ok(out.push(truth(*t))?),
        Expr::And(parts) => put_all(out, b'&', &parts.items),
        Expr::Or(parts) => put_all(out, b'|', &parts.items),
        Expr::Not(inner) => {
            out.push(b'~')?;
            put(out, inner)
        }
    }
}

#[cycle(put)]
fn put_all(out: &mut Vec<u8>, mark: u8, parts: &[Expr]) -> Result<(), Memory> {
    out.push(mark)?;
    out.push(b'(')?;
    for part in parts {
        put(out, part)?;
    }
    out.push(b')')?;
    Ok(())
}

/// The expression at the text's beginning.
fn reading(alloc: Global, text: &[u8]) -> Result<Expr, Refusal>
    requires { length text.now ≤ 2 ^ 31 }
{
    let tokens = lex_statement(alloc, text, 0)?;
    let end = expr_end(text, &tokens, 0)?;
    read_expr(alloc, &Two { relations: 2 }, text, &tokens, 0, end)
}

fn fault(code: Code, from: u32, to: u32) -> Refusal {
    Refusal::Fault(Fault {
        code,
        at: from,
        from,
        to,
        rec: 0,
        table: TableNo(0),
        col: 0,
    })
}

/// Whether the text of an expression's meaning is this one.
pub(crate) fn is_shown(alloc: Global, e: &Expr, meaning: &[u8]) -> bool {
    let mut out = Vec::new(alloc);
    put(&mut out, e).is_ok() && out.as_slice() == meaning
}

/// Whether the expression at the text's beginning means this.
fn is_meant(alloc: Global, text: &[u8], meaning: &[u8]) -> bool
    requires { length text.now ≤ 2 ^ 31 }
{
    match reading(alloc, text) {
        Ok(e) => is_shown(alloc, &e, meaning),
        Err(_) => false,
    }
}

/// The first of some texts that has more than 100 bytes, or another meaning than told.
fn first_other<'a>(alloc: Global, rows: &[(&'a [u8], &[u8])]) -> Option<&'a [u8]> {
    for (text, meaning) in rows {
        if text.len() > 100 || !is_meant(alloc, text, meaning) {
            return Some(*text);
        }
    }
    None
}

#[test]
fn reads_conditions(rt: HostRuntime) {
    assert_eq!(rt; first_other(rt.alloc(), &RIGHT), None);
}

/// Why the text is refused, if it is.
fn refusal(alloc: Global, text: &[u8]) -> Option<Refusal>
    requires { length text.now ≤ 2 ^ 31 }
{
    reading(alloc, text).err()
}

/// The first of some texts that has more than 100 bytes, or is refused elsewhere than told.
fn first_wrong<'a>(alloc: Global, rows: &[(&'a [u8], Code, u32, u32)]) -> Option<&'a [u8]> {
    for (text, code, from, to) in rows {
        if text.len() > 100 || refusal(alloc, text) != Some(fault(*code, *from, *to)) {
            return Some(*text);
        }
    }
    None
}

#[test]
fn refuses_at_the_first_fault(rt: HostRuntime) {
    assert_eq!(rt; first_wrong(rt.alloc(), &WRONG), None);
}
