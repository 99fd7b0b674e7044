//! Reading an expression of a statement.

ghost use Rattle.std.specs.Prelude.{◌≡◌, ◌≤◌, ◌^◌, ℕ, length, drop, take, IfOk};
ghost use Rattle.pg_expr.specs.Typed.{IsTyped};
ghost use Rattle.pg_expr.specs.work.View.{cond};
ghost use Rattle.sql_lex.specs.Words.{AreWords};
ghost use Rattle.sql_grammar.specs.Faults.{terminals};
ghost use Rattle.sql_grammar.specs.work.Faults.{EndsAt, IsExpr};
ghost use Rattle.sql_grammar.specs.Syntax.{Expr as ExprTree};
ghost use Rattle.sql_grammar.specs.work.Unique.{ends_expr};
ghost use Rattle.sql_grammar.specs.Words.{words_of_expr};
ghost use Rattle.expr_reader.specs.Conditions.{meaning_of_expr};
ghost use Rattle.expr_reader.specs.work.Conditions.{IsOfVisible};
ghost use Rattle.expr_reader.specs.work.Reads.{IsReadAs};
ghost use Rattle.expr_reader.specs.work.Reading.{StandsFirst};
ghost use Rattle.expr_reader.specs.work.Expressions.{ReadsExpr};

use crate::Cursor;
use crate::expr::disjunction;
use crate::scope::Scope;
use pg_base::Refusal;
use pg_expr::Expr;
use sql_lex::Tokens;
use std::alloc::Global;

/// The expression that is next, its names bound to the visible columns, as written: AND, OR and NOT with their parts in order,
/// AND and OR of one part as that part; parentheses add nothing. The cursor then stands behind it. The condition is that the
/// words that are left begin with an expression, and that no dot, operator, IS, NOT, IN, BETWEEN, AND or OR follows it.
///
/// IN and BETWEEN are read as what they stand for: `c IN (a, b)` as `(c = a OR c = b)`, with one literal as `c = a`, and `x BETWEEN a
/// AND b` as `(x >= a AND x <= b)`; with NOT before the word, as NOT of that.
///
/// A quoted text beside an operand of another type is read as that type by the rules of COPY's fields, but never as NULL;
/// beside text, NULL and another quoted text it is text. A whole number is an int8. The refusal is `Memory`, or the first
/// fault from the left: an unknown qualifier (42P01) at the qualifier; an unknown column (42703) or one that several visible
/// columns are (42702) at the column's word; a number past int8 (22003), or a quoted text that is out of the type's range
/// (22003) or spells none of it (22P02), at the literal's first token, a `-` included; an operator that is not there for the
/// types of its sides (42883) at the operator, or at the word IN or BETWEEN; a column that is a condition by itself and not bool
/// (42804) at its first word. Within one comparison the columns come first, then the literals, each from the left, and then the
/// operator; the comparisons of IN and BETWEEN are read one after the other.
///
/// What is read is well typed, and names visible columns alone.
pub fn take_expr<S: Scope>(alloc: Global, scope: &S, from: &mut Cursor) -> Result<Expr, Refusal>
    requires { StandsFirst words_of_expr ends_expr from.old }
    ensures read { ReadsExpr (S.visible scope.now) (S.type_of scope.now) from.old result from.new }
    ensures ahead { length from.new ≤ length from.old }
    ensures typed { IfOk result (λ e. IsTyped (S.type_of scope.now) (cond e)) }
    ensures visible { IfOk result (λ e. IsOfVisible (S.visible scope.now) (cond e)) }
{
    disjunction(alloc, scope, from)
}

/// The expression that begins at token `first` and ends before token `end`, as `take_expr` gives it. The condition is that
/// the text has at most 2^31 bytes, that the tokens are the words of a statement from some offset of it, and that `end` is the
/// end that `sql_grammar::expr_end` gives for `first`. The refusals are those of `take_expr`.
pub fn read_expr<S: Scope>(
    alloc: Global,
    scope: &S,
    text: &[u8],
    tokens: &Tokens,
    first: u32,
    end: u32,
) -> Result<Expr, Refusal>
    requires short { length text.now ≤ 2 ^ 31 }
    requires words { (from : ℕ) × AreWords text.now from tokens.now }
    requires end { EndsAt IsExpr text.now tokens.now first end }
    ensures read { (e : ExprTree) →
        words_of_expr e ≡ terminals text.now (drop first (take end tokens.now)) →
        IsReadAs cond (meaning_of_expr (S.visible scope.now) (S.type_of scope.now) e) result }
    ensures typed { IfOk result (λ e. IsTyped (S.type_of scope.now) (cond e)) }
    ensures visible { IfOk result (λ e. IsOfVisible (S.visible scope.now) (cond e)) }
{
    let mut from = Cursor::part(text, tokens, first, end);
    take_expr(alloc, scope, &mut from)
}
