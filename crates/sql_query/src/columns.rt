//! Lists of columns of a query.

ghost use Rattle.std.specs.Prelude.{◌≡◌};

use pg_expr::ColRef;
use std::marker::Model;

/// A list of columns. Contracts see the list.
#[derive(Debug)]
pub struct ColList {
    columns: Vec<ColRef>,
}

impl Drop for ColList {
    fn drop(self) {
        let ColList { columns: _ } = self;
    }
}

impl Model for ColList {
    ghost use Rattle.std.specs.Prelude.{List};
    ghost use Rattle.pg_expr.specs.declared.operand.ColRef.{ColRef};

    ghost Value = { List ColRef };

    ghost view = { λ c. c.columns.items };
}

impl ColList {
    /// The list of these columns.
    pub fn from_vec(v: Vec<ColRef>) -> ColList
        ensures { result ≡ v.items }
    {
        ColList { columns: v }
    }

    /// The columns in order, lent.
    pub fn items(&self) -> &[ColRef]
        ensures { result.now ≡ self.now }
    {
        &self.columns
    }
}
