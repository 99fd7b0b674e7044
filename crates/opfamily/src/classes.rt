//! Access methods and operator classes.

ghost use Rattle.std.specs.Prelude.{◌≡◌, Some};
ghost use Rattle.opfamily.specs.Answers.{accepted, class_of_name, default_class_of, default_family_of, family_of, takes, type_scale};
ghost use Rattle.opfamily.specs.work.Answers.{class_among, further_classes, is_for, is_own, plain_classes};

use pg_base::ColNo;
use pg_value::{Family, SqlType};

/// An access method of indexes.
#[derive(Clone, Copy, Debug, PartialEq, Eq)]
pub enum Method {
    /// `btree`: entries in the order of their keys.
    Btree,
    /// `hash`: entries by equality of their key.
    Hash,
}

/// An operator class, by its name. int_abs_ops and its classes are this project's own; the others are PostgreSQL's.
#[derive(Clone, Copy, Debug, PartialEq, Eq)]
pub enum OpClass {
    /// `int2_ops`
    Int2Ops,
    /// `int4_ops`
    Int4Ops,
    /// `int8_ops`
    Int8Ops,
    /// `text_ops`
    TextOps,
    /// `bool_ops`
    BoolOps,
    /// `int2_abs_ops`
    Int2AbsOps,
    /// `int4_abs_ops`
    Int4AbsOps,
    /// `int8_abs_ops`
    Int8AbsOps,
    /// `uuid_ops`
    UuidOps,
    /// `date_ops`
    DateOps,
    /// `timestamp_ops`
    TimestampOps,
    /// `timestamptz_ops`
    TimestampTzOps,
    /// `numeric_ops`, for numerics with so many digits behind the point.
    NumericOps(u8),
}

/// A key of an index.
#[derive(Clone, Copy, Debug, PartialEq, Eq)]
pub struct IndexKey {
    /// The key's column.
    pub col: ColNo,
    /// The operator class that orders or hashes the column's values.
    pub class: OpClass,
    /// Whether greater values stand first.
    pub descending: bool,
    /// Whether NULL stands before all values, else after them.
    pub nulls_first: bool,
}

/// The class that an index of this method takes for a column of this type where none is named.
pub fn default_class(t: SqlType, m: Method) -> OpClass
    ensures { Some result ≡ default_class_of t m }
{
    match t {
        SqlType::Int2 => OpClass::Int2Ops,
        SqlType::Int4 => OpClass::Int4Ops,
        SqlType::Int8 => OpClass::Int8Ops,
        SqlType::Text => OpClass::TextOps,
        SqlType::Bool => OpClass::BoolOps,
        SqlType::Uuid => OpClass::UuidOps,
        SqlType::Date => OpClass::DateOps,
        SqlType::Timestamp => OpClass::TimestampOps,
        SqlType::TimestampTz => OpClass::TimestampTzOps,
        SqlType::Numeric { scale, .. } => OpClass::NumericOps(scale),
    }
}

/// The scale of a numeric type, or 0.
pub(crate) fn scale_of(t: SqlType) -> u8
    ensures { result ≡ type_scale t }
{
    match t {
        SqlType::Numeric { scale, .. } => scale,
        _ => 0,
    }
}

/// The class of this name in small letters for a column of this type: `numeric_ops` is of the type's scale. None exactly
/// where no class has the name.
pub fn class_named(name: &[u8], t: SqlType) -> Option<OpClass>
    ensures { result ≡ class_of_name name.now t }
{
    match plain_class(name) {
        Some(class) => Some(class),
        None => further_class(name, t),
    }
}

/// The class of this name for whole numbers, texts or truth values.
fn plain_class(name: &[u8]) -> Option<OpClass>
    ensures { result ≡ class_among name.now plain_classes }
{
    match name {
        b"int2_ops" => Some(OpClass::Int2Ops),
        b"int4_ops" => Some(OpClass::Int4Ops),
        b"int8_ops" => Some(OpClass::Int8Ops),
        b"text_ops" => Some(OpClass::TextOps),
        b"bool_ops" => Some(OpClass::BoolOps),
        b"int2_abs_ops" => Some(OpClass::Int2AbsOps),
        b"int4_abs_ops" => Some(OpClass::Int4AbsOps),
        b"int8_abs_ops" => Some(OpClass::Int8AbsOps),
        _ => None,
    }
}

/// The class of this name for uuids, dates, timestamps, or numerics of the scale of this type.
fn further_class(name: &[u8], t: SqlType) -> Option<OpClass>
    ensures { result ≡ class_among name.now (further_classes (type_scale t)) }
{
    match name {
        b"uuid_ops" => Some(OpClass::UuidOps),
        b"date_ops" => Some(OpClass::DateOps),
        b"timestamp_ops" => Some(OpClass::TimestampOps),
        b"timestamptz_ops" => Some(OpClass::TimestampTzOps),
        b"numeric_ops" => Some(OpClass::NumericOps(scale_of(t))),
        _ => None,
    }
}

/// Whether an index of this method may use the class for a column of this type: the class has the method, and the
/// type is its own. Of numerics each of the class's scale is.
pub fn accepts(c: OpClass, m: Method, t: SqlType) -> bool
    ensures { result ≡ accepted c m t }
{
    has_method(c, m) && has_type(c, t)
}

/// Whether indexes of this method have the class.
fn has_method(c: OpClass, m: Method) -> bool
    ensures { result ≡ is_for c m }
{
    match c {
        OpClass::Int2AbsOps | OpClass::Int4AbsOps | OpClass::Int8AbsOps => m == Method::Btree,
        _ => true,
    }
}

/// The family of a class.
pub fn family(c: OpClass) -> Family
    ensures { Some result ≡ family_of c }
{
    match c {
        OpClass::Int2Ops | OpClass::Int4Ops | OpClass::Int8Ops => Family::Integer,
        OpClass::TextOps => Family::Text,
        OpClass::BoolOps => Family::Bool,
        OpClass::Int2AbsOps | OpClass::Int4AbsOps | OpClass::Int8AbsOps => Family::IntAbs,
        OpClass::UuidOps => Family::Uuid,
        OpClass::DateOps => Family::Date,
        OpClass::TimestampOps => Family::Timestamp,
        OpClass::TimestampTzOps => Family::TimestampTz,
        OpClass::NumericOps(scale) => Family::Numeric(scale),
    }
}

/// Whether the class is for columns of this type.
fn has_type(c: OpClass, t: SqlType) -> bool
    ensures { result ≡ is_own c t }
{
    match c {
        OpClass::Int2Ops | OpClass::Int2AbsOps => matches!(t, SqlType::Int2),
        OpClass::Int4Ops | OpClass::Int4AbsOps => matches!(t, SqlType::Int4),
        OpClass::Int8Ops | OpClass::Int8AbsOps => matches!(t, SqlType::Int8),
        OpClass::TextOps => matches!(t, SqlType::Text),
        OpClass::BoolOps => matches!(t, SqlType::Bool),
        OpClass::UuidOps => matches!(t, SqlType::Uuid),
        OpClass::DateOps => matches!(t, SqlType::Date),
        OpClass::TimestampOps => matches!(t, SqlType::Timestamp),
        OpClass::TimestampTzOps => matches!(t, SqlType::TimestampTz),
        OpClass::NumericOps(scale) => is_of_scale(t, scale),
    }
}

/// Whether a type is a numeric one with so many digits behind the point.
pub(crate) fn is_of_scale(t: SqlType, scale: u8) -> bool
    ensures { result ≡ takes (Family.Numeric scale) t }
{
    match t {
        SqlType::Numeric { scale: own, .. } => scale == own,
        _ => false,
    }
}

/// The family whose order a type has where none is named.
pub fn default_family(t: SqlType) -> Family
    ensures { Some result ≡ default_family_of t }
{
    match t {
        SqlType::Int2 | SqlType::Int4 | SqlType::Int8 => Family::Integer,
        SqlType::Text => Family::Text,
        SqlType::Bool => Family::Bool,
        SqlType::Uuid => Family::Uuid,
        SqlType::Date => Family::Date,
        SqlType::Timestamp => Family::Timestamp,
        SqlType::TimestampTz => Family::TimestampTz,
        SqlType::Numeric { scale, .. } => Family::Numeric(scale),
    }
}
