//! The operator class of a key column.

ghost use Rattle.std.specs.Prelude.{◌≡◌, ◌≤◌, length, true, OnOk};
ghost use Rattle.opfamily.specs.Answers.{class_of_name};
ghost use Rattle.index_reader.specs.Keys.{class_has_method, class_known};
ghost use Rattle.index_reader.specs.work.Reads.{opens_class, begins_class, StandsClass, ReadsClass};

use expr_reader::{Cursor, Spelled};
use opfamily::{Method, OpClass, accepts, class_named, default_class, family};
use pg_base::{Code, Fault, Refusal};
use pg_value::{Family, SqlType};
use sql_grammar::{Class, Free, fault_at};
use std::alloc::Global;

/// Whether indexes of this method have the class: hash has none that compares by absolute value.
fn has_method(c: OpClass, m: Method) -> bool
    ensures { result ≡ class_has_method c m }
{
    m == Method::Btree || family(c) != Family::IntAbs
}

/// The class of this name for a column of this type. An unknown one, and one that the method has not, is refused (42704) at
/// its name; any other that does not accept the type (42804) too.
fn class_of(name: &Spelled, m: Method, t: SqlType) -> Result<OpClass, Fault>
    ensures { result ≡ class_known name.now.token m t (class_of_name name.now.bytes t) }
{
    let Some(class) = class_named(name.bytes.items(), t) else {
        return Err(fault_at(Code::S8, name.token));
    };
    if !has_method(class, m) {
        return Err(fault_at(Code::S8, name.token));
    }
    if !accepts(class, m, t) {
        return Err(fault_at(Code::S10, name.token));
    }
    Ok(class)
}

/// Whether a word of this class is an operator class where one may stand: `nulls` begins NULLS FIRST or NULLS LAST there.
fn opens(class: Class) -> bool
    ensures { result ≡ opens_class class }
{
    match class {
        Class::Name(Some(Free::Nulls)) => false,
        Class::Name(_) => true,
        _ => false,
    }
}

/// Whether an operator class is next.
fn names_class(from: &Cursor) -> bool
    ensures { result ≡ begins_class from.now }
{
    match from.peek() {
        Some(class) => opens(class),
        None => false,
    }
}

/// The operator class that is next, or that of the type's default family.
pub fn op_class(alloc: Global, m: Method, t: SqlType, from: &mut Cursor) -> Result<OpClass, Refusal>
    requires { StandsClass from.old }
    ensures read { ReadsClass m t from.old result from.new }
    ensures ahead { OnOk result (length from.new ≤ length from.old) }
{
    if !names_class(from) {
        return Ok(default_class(t, m));
    }
    let name = from.expect_name(alloc)?;
    Ok(class_of(&name, m, t)?)
}
