//! Types and values (PostgreSQL manual, chapter Data Types).

use crate::bytes::Bytes;

/// A type of columns.
#[derive(Clone, Copy, Debug, PartialEq, Eq)]
pub enum SqlType {
    /// Whole numbers from -2^15 to 2^15 - 1.
    Int2,
    /// Whole numbers from -2^31 to 2^31 - 1.
    Int4,
    /// Whole numbers from -2^63 to 2^63 - 1.
    Int8,
    /// Bytes, of which a stored text has at most 8,192.
    Text,
    /// False and true.
    Bool,
    /// Uuids in the canonical form, in small letters.
    Uuid,
    /// Days of the years 1 to 9999, as whole numbers from 2000-01-01 on.
    Date,
    /// Times of the years 1 to 9999, as microseconds from 2000-01-01 00:00:00 on.
    Timestamp,
    /// Instants of the years 1 to 9999, as microseconds from 2000-01-01 00:00:00 in UTC on.
    TimestampTz,
    /// Numbers with a fixed number of digits behind the point, as whole numbers: 10^scale times as much. No number has other
    /// digits than 1 to 18, or more of them behind the point than in all.
    Numeric {
        /// How many decimal digits a number has at most.
        digits: u8,
        /// How many of them stand behind the point.
        scale: u8,
    },
}

/// A value of a column or a literal.
#[derive(Debug)]
pub enum Value {
    /// No value.
    Null,
    /// A whole number of any of the integer types, or one that stands for a date, a timestamp or a numeric.
    Int(i64),
    /// A truth value.
    Bool(bool),
    /// A text or a uuid.
    Text(Bytes),
}

impl Drop for Value {
    fn drop(self) {
        match self {
            Value::Null => {},
            Value::Int(_) => {},
            Value::Bool(_) => {},
            Value::Text(_) => {},
        }
    }
}
