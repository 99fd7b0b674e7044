//! The words of an expression, from the left.

ghost use Rattle.std.specs.Prelude.{◌≡◌, ◌≢◌, ◌≤◌, ◌<◌, true, false, length, List, [], ◌∷◌, ◌++◌, Ok, IfOk, MatchOption};
ghost use Rattle.pg_expr.specs.Cond.{is_null, is_not_null, const, negation};
ghost use Rattle.pg_expr.specs.work.View.{cond, conds};
ghost use Rattle.pg_value.specs.declared.operators.Truth.{Truth};
ghost use Rattle.expr_reader.specs.declared.written.Literal.TheVariants.{Constant as ConstantOf};
ghost use Rattle.sql_lex.specs.declared.tokens.Token.{Token};
ghost use Rattle.sql_grammar.specs.declared.class.Word.TheVariants.{Is};
ghost use Rattle.sql_grammar.specs.Syntax.{Lit};
ghost use Rattle.sql_grammar.specs.Terminals.{Terminal, t_key};
ghost use Rattle.sql_grammar.specs.work.Unique.{ends_operand, ends_atom, ends_conj, ends_expr};
ghost use Rattle.sql_grammar.specs.Words.{words_of_expr, words_of_conj, words_of_neg, words_of_atom, words_of_operand, words_of_lit};
ghost use Rattle.expr_reader.specs.work.Reading.{BeginsNot, StandsFirst, IfNext, free_name};
ghost use Rattle.expr_reader.specs.Conditions.{flag_column as flag_column_of, or_of as or_of_conds, and_of as and_of_conds};
ghost use Rattle.expr_reader.specs.work.Reads.{seen_as};
ghost use Rattle.expr_reader.specs.work.Written.{IsNullWords, ReadsNull, ReadsNotNull, ReadsIsNull, ReadsIsNotNull};
ghost use Rattle.expr_reader.specs.work.Expressions.{StandsBetween, ReadsBetween, ReadsEquality, StandsAmong, ReadsAmong, ReadsComparison, StandsTail, ReadsTail, ReadsAtom, ReadsNeg, ReadsConj, ReadsExpr};

use crate::comparison::compare;
use crate::literal::literal;
use crate::operand::operand;
use crate::scope::Scope;
use crate::written::{Literal, Side};
use crate::{Cursor, Operator, Spelled};
use pg_base::{Code, Fault, Memory, Refusal};
use pg_expr::{ColRef, Expr, Exprs};
use pg_value::{Op, SqlType};
use sql_grammar::{Free, Symbol, Word, fault_at};
use sql_lex::Token;
use std::alloc::Global;

/// The null test of a column, after IS.
fn null_test(from: &mut Cursor, c: ColRef) -> Expr
    requires { IsNullWords from.old }
    ensures plain { ReadsNull (is_null c) from.old (cond result) from.new }
    ensures negated { ReadsNotNull (is_not_null c) from.old (cond result) from.new }
    ensures ahead { length from.new ≤ length from.old }
{
    let negated = from.takes(Word::Not);
    if !from.takes(Word::Null) {
        unreachable!();
    }
    if negated {
        Expr::IsNotNull(c)
    } else {
        Expr::IsNull(c)
    }
}

/// A column by itself, of this type and with this first token: a condition where it is bool.
fn flag_column(c: ColRef, t: SqlType, token: Token) -> Result<Expr, Fault>
    ensures { seen_as cond result ≡ flag_column_of t c token }
{
    match t {
        SqlType::Bool => Ok(Expr::BoolCol(c)),
        _ => Err(fault_at(Code::S10, token)),
    }
}

/// A column's null test where IS is next, else the column by itself.
fn column_test(from: &mut Cursor, c: ColRef, t: SqlType, token: Token) -> Result<Expr, Fault>
    requires { IfNext (t_key Is) from.old (λ is left. IsNullWords left) }
    ensures plain { ReadsIsNull (Ok (is_null c)) from.old (seen_as cond result) from.new }
    ensures negated { ReadsIsNotNull (Ok (is_not_null c)) from.old (seen_as cond result) from.new }
    ensures alone { BeginsNot (t_key Is) from.old →
        (seen_as cond result ≡ flag_column_of t c token) × (from.new ≡ from.old) }
    ensures ahead { length from.new ≤ length from.old }
{
    if from.takes(Word::Is) {
        return Ok(null_test(from, c));
    }
    flag_column(c, t, token)
}

/// TRUE, FALSE or NULL by itself.
fn constant(literal: Literal) -> Expr
    requires { (t : Truth) × (token : Token) × (literal ≡ ConstantOf t token) }
    ensures { (t : Truth) (token : Token) → literal ≡ ConstantOf t token → cond result ≡ const t }
{
    match literal {
        Literal::Constant(truth, _) => Expr::Const(truth),
        _ => unreachable!(),
    }
}

/// The comparison whose left side and operator are taken.
fn comparison<S: Scope>(
    alloc: Global,
    scope: &S,
    from: &mut Cursor,
    left: Side,
    operator: Operator,
) -> Result<Expr, Refusal>
    requires { StandsFirst words_of_operand ends_operand from.old }
    ensures read { ReadsComparison (S.visible scope.now) (S.type_of scope.now) left operator
        from.old result from.new }
    ensures ahead { length from.new ≤ length from.old }
{
    let right = operand(alloc, scope, from)?;
    Ok(compare(operator, left, right)?)
}

/// A literal that is equal to this one.
fn copied(alloc: Global, literal: &Literal) -> Result<Literal, Memory>
    ensures { IfOk result (λ l. l ≡ literal.now) }
{
    match literal {
        Literal::Whole(minus, magnitude, token) => Ok(Literal::Whole(*minus, *magnitude, *token)),
        Literal::Constant(truth, token) => Ok(Literal::Constant(*truth, *token)),
        Literal::Quoted(text) => {
            let bytes = text.bytes.copy(alloc)?;
            let token = text.token;
            Ok(Literal::Quoted(Spelled { bytes, token }))
        }
    }
}

/// A side that is equal to this one.
fn same_side(alloc: Global, side: &Side) -> Result<Side, Memory>
    ensures { IfOk result (λ s. s ≡ side.now) }
{
    match side {
        Side::Column(c, t, token) => Ok(Side::Column(*c, *t, *token)),
        Side::Literal(literal) => Ok(Side::Literal(copied(alloc, literal)?)),
        Side::Typed(t, token, text) => Ok(Side::Typed(*t, *token, text.copy(alloc)?)),
    }
}

/// The comparisons of BETWEEN, which is taken: its low side, AND and its high side are next.
fn between<S: Scope>(
    alloc: Global,
    scope: &S,
    from: &mut Cursor,
    left: Side,
    word: Token,
) -> Result<Expr, Refusal>
    requires { StandsBetween left from.old }
    ensures read { ReadsBetween (S.visible scope.now) (S.type_of scope.now) left word
        from.old result from.new }
    ensures ahead { length from.new ≤ length from.old }
{
    let again = same_side(alloc, &left)?;
    let mut parts = Vec::new(alloc);
    let low = Operator {
        op: Some(Op::Ge),
        token: word,
    };
    parts.push(comparison(alloc, scope, from, left, low)?)?;
    if !from.takes(Word::And) {
        unreachable!();
    }
    let high = Operator {
        op: Some(Op::Le),
        token: word,
    };
    parts.push(comparison(alloc, scope, from, again, high)?)?;
    Ok(and_of(parts))
}

/// The comparison of a column with the literal that is next, by the `=` for which IN stands.
fn equality(
    alloc: Global,
    from: &mut Cursor,
    c: ColRef,
    t: SqlType,
    first: Token,
    word: Token,
) -> Result<Expr, Refusal>
    requires { (l : Lit) × (rest : List Terminal) × (from.old ≡ words_of_lit l ++ rest) }
    ensures read { ReadsEquality c t first word from.old result from.new }
    ensures ahead { length from.new ≤ length from.old }
{
    let right = literal(alloc, from)?;
    let operator = Operator {
        op: Some(Op::Eq),
        token: word,
    };
    Ok(compare(operator, Side::Column(c, t, first), Side::Literal(right))?)
}

/// The comparisons of IN, which is taken: `(`, literals with a comma between them, and `)` are next.
fn among(
    alloc: Global,
    from: &mut Cursor,
    c: ColRef,
    t: SqlType,
    first: Token,
    word: Token,
) -> Result<Expr, Refusal>
    requires { StandsAmong from.old }
    ensures read { ReadsAmong c t first word from.old result from.new }
    ensures ahead { length from.new ≤ length from.old }
{
    if !from.takes_mark(Symbol::Open) {
        unreachable!();
    }
    let mut parts = Vec::new(alloc);
    parts.push(equality(alloc, from, c, t, first, word)?)?;
    'more: while from.takes_mark(Symbol::Comma) {
        parts.push(equality(alloc, from, c, t, first, word)?)?;
    }
    if !from.takes_mark(Symbol::Close) {
        unreachable!();
    }
    Ok(or_of(parts))
}

/// The condition, or its negation.
fn perhaps_not(alloc: Global, negated: bool, e: Expr) -> Result<Expr, Memory>
    ensures plain { negated ≡ false → IfOk result (λ x. cond x ≡ cond e) }
    ensures negated { negated ≡ true → IfOk result (λ x. cond x ≡ negation (cond e)) }
{
    if negated {
        return Ok(Expr::Not(Box::new(alloc, e)?));
    }
    Ok(e)
}

/// Takes the next word, which there is, where it is this word, which is not reserved; its token.
fn word_taken(from: &mut Cursor, wanted: Free) -> Option<Token>
    requires { (word : Terminal) × (left : List Terminal) × (from.old ≡ word ∷ left) }
    ensures { MatchOption result ((from.new ≡ from.old) × BeginsNot (free_name wanted) from.old)
        (λ token. from.old ≡ free_name wanted token ∷ from.new) }
{
    let token = from.token();
    if from.takes_free(wanted) {
        return Some(token);
    }
    None
}

/// Takes the next word where it is this word, which is not reserved; its token.
fn free_word(from: &mut Cursor, wanted: Free) -> Option<Token>
    ensures { MatchOption result ((from.new ≡ from.old) × BeginsNot (free_name wanted) from.old)
        (λ token. from.old ≡ free_name wanted token ∷ from.new) }
{
    match from.peek() {
        Some(_) => word_taken(from, wanted),
        None => None,
    }
}

/// The condition that begins with an operand, which is taken.
fn after_operand<S: Scope>(
    alloc: Global,
    scope: &S,
    from: &mut Cursor,
    left: Side,
) -> Result<Expr, Refusal>
    requires { StandsTail (S.visible scope.now) (S.type_of scope.now) left from.old }
    ensures read { ReadsTail (S.visible scope.now) (S.type_of scope.now) left
        from.old result from.new }
    ensures ahead { length from.new ≤ length from.old }
{
    if let Some(operator) = from.operator() {
        return comparison(alloc, scope, from, left, operator);
    }
    let negated = from.takes(Word::Not);
    if let Some(word) = free_word(from, Free::Between) {
        let e = between(alloc, scope, from, left, word)?;
        return Ok(perhaps_not(alloc, negated, e)?);
    }
    if let Some(word) = free_word(from, Free::In) {
        let Side::Column(c, t, first) = left else {
            unreachable!();
        };
        let e = among(alloc, from, c, t, first, word)?;
        return Ok(perhaps_not(alloc, negated, e)?);
    }
    match left {
        Side::Column(c, t, token) => Ok(column_test(from, c, t, token)?),
        Side::Literal(literal) => Ok(constant(literal)),
        Side::Typed(..) => unreachable!(),
    }
}

/// The part, where it is the only one.
fn only(parts: &mut Vec<Expr>) -> Option<Expr>
    ensures { MatchOption result ((parts.new ≡ parts.old) × (length parts.old.items ≢ 1))
        (λ e. parts.old.items ≡ e ∷ []) }
{
    if parts.len() == 1 { parts.pop() } else { None }
}

/// The OR of some parts; that of one part is the part.
fn or_of(mut parts: Vec<Expr>) -> Expr
    requires { 0 < length parts.items }
    ensures { cond result ≡ or_of_conds (conds parts.items) }
{
    match only(&mut parts) {
        Some(part) => part,
        None => Expr::Or(Exprs::from_vec(parts)),
    }
}

/// The AND of some parts; that of one part is the part.
fn and_of(mut parts: Vec<Expr>) -> Expr
    requires { 0 < length parts.items }
    ensures { cond result ≡ and_of_conds (conds parts.items) }
{
    match only(&mut parts) {
        Some(part) => part,
        None => Expr::And(Exprs::from_vec(parts)),
    }
}

/// The expression in parentheses, the comparison, the null test, the column or the constant that is next.
#[cycle(expr)]
fn atom<S: Scope>(alloc: Global, scope: &S, from: &mut Cursor) -> Result<Expr, Refusal>
    requires { StandsFirst words_of_atom ends_atom from.old }
    ensures read { ReadsAtom (S.visible scope.now) (S.type_of scope.now) from.old result from.new }
    ensures ahead { length from.new ≤ length from.old }
{
    if from.takes_mark(Symbol::Open) {
        let inner = disjunction(alloc, scope, from)?;
        if !from.takes_mark(Symbol::Close) {
            unreachable!();
        }
        return Ok(inner);
    }
    let left = operand(alloc, scope, from)?;
    after_operand(alloc, scope, from, left)
}

/// The atom that is next, with the NOTs before it.
#[cycle(expr)]
fn negation<S: Scope>(alloc: Global, scope: &S, from: &mut Cursor) -> Result<Expr, Refusal>
    requires { StandsFirst words_of_neg ends_atom from.old }
    ensures read { ReadsNeg (S.visible scope.now) (S.type_of scope.now) from.old result from.new }
    ensures ahead { length from.new ≤ length from.old }
{
    if from.takes(Word::Not) {
        let inner = Box::new(alloc, negation(alloc, scope, from)?)?;
        return Ok(Expr::Not(inner));
    }
    atom(alloc, scope, from)
}

/// The AND that is next.
#[cycle(expr)]
fn conjunction<S: Scope>(alloc: Global, scope: &S, from: &mut Cursor) -> Result<Expr, Refusal>
    requires { StandsFirst words_of_conj ends_conj from.old }
    ensures read { ReadsConj (S.visible scope.now) (S.type_of scope.now) from.old result from.new }
    ensures ahead { length from.new ≤ length from.old }
{
    let mut parts = Vec::new(alloc);
    parts.push(negation(alloc, scope, from)?)?;
    'more: while from.takes(Word::And) {
        parts.push(negation(alloc, scope, from)?)?;
    }
    Ok(and_of(parts))
}

/// The OR that is next.
#[cycle(expr)]
pub fn disjunction<S: Scope>(alloc: Global, scope: &S, from: &mut Cursor) -> Result<Expr, Refusal>
    requires { StandsFirst words_of_expr ends_expr from.old }
    ensures read { ReadsExpr (S.visible scope.now) (S.type_of scope.now) from.old result from.new }
    ensures ahead { length from.new ≤ length from.old }
{
    let mut parts = Vec::new(alloc);
    parts.push(conjunction(alloc, scope, from)?)?;
    'more: while from.takes(Word::Or) {
        parts.push(conjunction(alloc, scope, from)?)?;
    }
    Ok(or_of(parts))
}
