//! The names of types.

ghost use Rattle.std.specs.Prelude.{◌≡◌};
ghost use Rattle.expr_reader.specs.Types.{type_named as type_of_name};

use pg_value::SqlType;

/// The type for which this name, which is in small letters, stands by itself (PostgreSQL manual, chapter Data Types). None
/// where no type has it.
pub fn type_named(name: &[u8]) -> Option<SqlType>
    ensures { result ≡ type_of_name name.now }
{
    if name == b"int2".as_slice() || name == b"smallint".as_slice() {
        return Some(SqlType::Int2);
    }
    if name == b"int4".as_slice() || name == b"int".as_slice() || name == b"integer".as_slice() {
        return Some(SqlType::Int4);
    }
    if name == b"int8".as_slice() || name == b"bigint".as_slice() {
        return Some(SqlType::Int8);
    }
    if name == b"text".as_slice() || name == b"varchar".as_slice() {
        return Some(SqlType::Text);
    }
    if name == b"bool".as_slice() || name == b"boolean".as_slice() {
        return Some(SqlType::Bool);
    }
    if name == b"uuid".as_slice() {
        return Some(SqlType::Uuid);
    }
    if name == b"date".as_slice() {
        return Some(SqlType::Date);
    }
    if name == b"timestamp".as_slice() {
        return Some(SqlType::Timestamp);
    }
    if name == b"timestamptz".as_slice() {
        return Some(SqlType::TimestampTz);
    }
    None
}
