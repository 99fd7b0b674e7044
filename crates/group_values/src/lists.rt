//! Lists of values, and lists of these.

ghost use Rattle.std.specs.Prelude.{◌≡◌};

use pg_value::Value;
use std::marker::Model;

/// A list of values. Contracts see the list.
pub struct Values {
    pub(crate) values: Vec<Value>,
}

impl Drop for Values {
    fn drop(self) {
        let Values { values: _ } = self;
    }
}

impl Model for Values {
    ghost use Rattle.std.specs.Prelude.{List};
    ghost use Rattle.pg_value.specs.declared.value.Value.{Value as AnyValue};

    ghost Value = { List AnyValue };

    ghost view = { λ v. v.values.items };
}

impl Values {
    /// The list of these values.
    pub fn from_vec(v: Vec<Value>) -> Values
        ensures { result ≡ v.items }
    {
        Values { values: v }
    }

    /// The values from the left, lent.
    pub fn items(&self) -> &[Value]
        ensures { result.now ≡ self.now }
    {
        &self.values
    }
}

/// A list of lines, each a list of values. Contracts see the list.
pub struct Lines {
    lines: Vec<Values>,
}

impl Drop for Lines {
    fn drop(self) {
        let Lines { lines: _ } = self;
    }
}

impl Model for Lines {
    ghost use Rattle.std.specs.Prelude.{List};
    ghost use Rattle.pg_value.specs.declared.value.Value.{Value as AnyValue};

    ghost Value = { List (List AnyValue) };

    ghost view = { λ l. l.lines.items };
}

impl Lines {
    /// The list of these lines.
    pub fn from_vec(v: Vec<Values>) -> Lines
        ensures { result ≡ v.items }
    {
        Lines { lines: v }
    }

    /// The lines in order, lent.
    pub fn items(&self) -> &[Values]
        ensures { result.now ≡ self.now }
    {
        &self.lines
    }
}
