//! Laws of the meaning of conditions.

ghost use Rattle.std.specs.Prelude.{◌≡◌, Bool, All, IsTrue, Ok};
ghost use Rattle.pg_value.specs.declared.value.SqlType.{SqlType};
ghost use Rattle.pg_expr.specs.declared.operand.ColRef.{ColRef};
ghost use Rattle.pg_expr.specs.Columns.{each_column};
ghost use Rattle.pg_expr.specs.Cond.{Cond};
ghost use Rattle.pg_expr.specs.Typed.{IsTyped};
ghost use Rattle.sql_grammar.specs.Syntax.{Expr};
ghost use Rattle.expr_reader.specs.Conditions.{meaning_of_expr};
ghost use Rattle.expr_reader.specs.work.Conditions.{EachMeaning};
ghost use Rattle.expr_reader.specs.work.Parted.{HasParts};
ghost use Rattle.expr_reader.specs.Scope.{Scope};

/// What an expression means is well typed, and each column that it names is a visible one: a test that all visible columns
/// pass, each column of it passes.
pub fn meanings_are_bound()
    ensures typed { EachMeaning (λ scope type_of c. IsTyped type_of c) }
    ensures visible { (scope : Scope) (type_of : ColRef → SqlType) (e : Expr) (c : Cond)
        (test : ColRef → Bool) → meaning_of_expr scope type_of e ≡ Ok c →
        All (λ v. IsTrue (test v.column)) scope → IsTrue (each_column test c) }
{}

/// What an expression means has a part in each AND and in each OR: what is written with either has two parts at least.
pub fn meanings_have_parts()
    ensures { EachMeaning (λ scope type_of c. HasParts c) }
{}
