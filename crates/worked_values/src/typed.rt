//! What texts spell as values of a type, and how the values are printed.

use civil::{date_text, is_date, is_instant, numeric_text, timestamp_text, timestamptz_text};
use pg_value::{FieldFault, SqlType, Value, read_value};
use std::alloc::Global;

/// The whole number by which the value of a text is held. `Memory` stands for a value that is none, too.
pub(crate) fn number(alloc: Global, t: SqlType, text: &[u8]) -> Result<i64, FieldFault> {
    match &read_value(alloc, t, text)? {
        Value::Int(n) => Ok(*n),
        _ => Err(FieldFault::Memory),
    }
}

/// The first text with another number than told.
pub(crate) fn first_other<'a>(
    alloc: Global,
    t: SqlType,
    rows: &[(&'a [u8], i64)],
) -> Option<&'a [u8]> {
    for (text, told) in rows {
        if number(alloc, t, text) != Ok(*told) {
            return Some(*text);
        }
    }
    None
}

/// The first text that has a value, or another fault than this.
pub(crate) fn first_taken<'a>(
    alloc: Global,
    t: SqlType,
    fault: FieldFault,
    texts: &[&'a [u8]],
) -> Option<&'a [u8]> {
    for text in texts {
        if read_value(alloc, t, text).err() != Some(fault) {
            return Some(*text);
        }
    }
    None
}

fn has_date_text(n: i64, printed: &[u8]) -> bool {
    if !is_date(n) {
        return false;
    }
    date_text(n).bytes() == printed
}

fn has_timestamp_text(n: i64, printed: &[u8]) -> bool {
    if !is_instant(n) {
        return false;
    }
    timestamp_text(n).bytes() == printed
}

fn has_timestamptz_text(n: i64, printed: &[u8]) -> bool {
    if !is_instant(n) {
        return false;
    }
    timestamptz_text(n).bytes() == printed
}

fn has_numeric_text(scale: u8, n: i64, printed: &[u8]) -> bool {
    if scale > 18 {
        return false;
    }
    numeric_text(scale, n).bytes() == printed
}

/// Whether a whole number has this text as a value of a type.
fn has_text(t: SqlType, n: i64, printed: &[u8]) -> bool {
    match t {
        SqlType::Date => has_date_text(n, printed),
        SqlType::Timestamp => has_timestamp_text(n, printed),
        SqlType::TimestampTz => has_timestamptz_text(n, printed),
        SqlType::Numeric { scale, .. } => has_numeric_text(scale, n, printed),
        _ => false,
    }
}

/// Whether the value of a text has this text when it is printed.
fn is_printed(alloc: Global, t: SqlType, text: &[u8], printed: &[u8]) -> bool {
    match number(alloc, t, text) {
        Ok(n) => has_text(t, n, printed),
        Err(_) => false,
    }
}

/// The first text whose value is printed otherwise than told, or printed with a text that does not spell it.
pub(crate) fn first_printed<'a>(
    alloc: Global,
    t: SqlType,
    rows: &[(&'a [u8], &[u8])],
) -> Option<&'a [u8]> {
    for (text, printed) in rows {
        if !is_printed(alloc, t, text, printed) || !is_printed(alloc, t, printed, printed) {
            return Some(*text);
        }
    }
    None
}
