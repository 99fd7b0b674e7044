//! Operators, their families, and three-valued truth (PostgreSQL manual, chapter Indexes, Operator Classes and Families).

ghost use Rattle.std.specs.Prelude.{◌≡◌};
ghost use Rattle.pg_value.specs.Truths.{is_absolute};

/// Three-valued truth, as of SQL conditions.
#[derive(Clone, Copy, Debug, PartialEq, Eq)]
pub enum Truth {
    /// The condition holds.
    True,
    /// The condition does not hold.
    False,
    /// A NULL leaves open whether the condition holds.
    Unknown,
}

/// A family of operators that share one order of values.
#[derive(Clone, Copy, Debug, PartialEq, Eq)]
pub enum Family {
    /// `integer_ops`: whole numbers by value.
    Integer,
    /// `int_abs_ops` (own): whole numbers by absolute value, that of -2^63 being 2^63.
    IntAbs,
    /// `text_ops`: texts byte by byte.
    Text,
    /// `bool_ops`: false before true.
    Bool,
    /// `uuid_ops`: uuids byte by byte.
    Uuid,
    /// `date_ops`: the earlier day first.
    Date,
    /// `timestamp_ops`: the earlier time first.
    Timestamp,
    /// `timestamptz_ops`: the earlier instant first.
    TimestampTz,
    /// `numeric_ops` of numbers with so many digits behind the point, by value.
    Numeric(u8),
}

/// A comparison operator.
#[derive(Clone, Copy, Debug, PartialEq, Eq)]
pub enum Op {
    /// `<`
    Lt,
    /// `<=`
    Le,
    /// `=`
    Eq,
    /// `>=`
    Ge,
    /// `>`
    Gt,
    /// `<>`, also written `!=`
    Ne,
    /// `|<|`: below by absolute value.
    AbsLt,
    /// `|<=|`
    AbsLe,
    /// `|=|`
    AbsEq,
    /// `|>=|`
    AbsGe,
    /// `|>|`
    AbsGt,
}

impl Op {
    /// Whether the operator compares whole numbers by absolute value.
    pub fn is_by_magnitude(self) -> bool
        ensures { result ≡ is_absolute self }
    {
        matches!(
            self,
            Op::AbsLt | Op::AbsLe | Op::AbsEq | Op::AbsGe | Op::AbsGt
        )
    }
}
