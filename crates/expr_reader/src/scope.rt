//! The visible columns.

use crate::found::Found;
use pg_expr::ColRef;
use pg_value::SqlType;

/// The columns that a condition may name, with their types (PostgreSQL manual, chapter Value Expressions, Column References).
/// Contracts see the list of the visible columns, each with its relation's alias and its name in small letters, and the type
/// of each.
pub trait Scope {
    ghost use Rattle.std.specs.Prelude.{◌≡◌, List, Contains, option_map};
    ghost use Rattle.pg_expr.specs.declared.operand.ColRef.{ColRef};
    ghost use Rattle.pg_value.specs.declared.value.SqlType.{SqlType};
    ghost use Rattle.expr_reader.specs.Scope.{Visible, columns_in_scope, look_up};

    ghost visible: { Self → List Visible };

    ghost type_of: { Self → ColRef → SqlType };

    /// What a name in small letters means, under this alias where one is given.
    fn column(&self, qualifier: Option<&[u8]>, name: &[u8]) -> Found
        ensures { result ≡
            look_up (visible self.now) (option_map (λ q. q.now) qualifier.entry) name.now };

    /// The type of a visible column.
    fn typed(&self, c: ColRef) -> SqlType
        requires { Contains (columns_in_scope (visible self.now)) c }
        ensures { result ≡ type_of self.now c };
}
