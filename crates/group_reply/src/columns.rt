//! The values that are seen of a tuple where it is grouped, copied.

ghost use Rattle.std.specs.Prelude.{◌≡◌, All, IfOk, map};
ghost use Rattle.group_explain.specs.reply_Showing.{HasColumn, cell_of};
ghost use Rattle.group_reply.specs.work.Columns.{HasArg, arg_in};

use group_values::Values;
use heap::{Row, value_in};
use pg_base::Memory;
use pg_expr::ColRef;
use pg_value::Value;
use std::alloc::Global;

/// The columns that are seen of each tuple.
#[derive(Drop)]
pub(crate) struct Columns<'a> {
    /// The GROUP BY columns.
    pub(crate) keys: &'a [ColRef],
    /// The column of each call; `count(*)` has none.
    pub(crate) args: &'a [Option<ColRef>],
}

/// The values of columns in rows of all relations. The error means out of memory.
pub(crate) fn keys_in(alloc: Global, columns: &[ColRef], rows: &[Row]) -> Result<Values, Memory>
    requires { All (HasColumn (map (λ r. r.now) rows.now)) columns.now }
    ensures { IfOk result (λ v. v ≡ map (cell_of (map (λ r. r.now) rows.now)) columns.now) }
{
    let mut values = Vec::new(alloc);
    for column in columns {
        let value = cell_in(alloc, *column, rows)?;
        values.push(value)?;
    }
    Ok(Values::from_vec(values))
}

/// The value of each call's column in rows of all relations. The error means out of memory.
pub(crate) fn args_in(
    alloc: Global,
    args: &[Option<ColRef>],
    rows: &[Row],
) -> Result<Values, Memory>
    requires { All (HasArg (map (λ r. r.now) rows.now)) args.now }
    ensures { IfOk result (λ v. v ≡ map (arg_in (map (λ r. r.now) rows.now)) args.now) }
{
    let mut values = Vec::new(alloc);
    for arg in args {
        let value = arg_in(alloc, *arg, rows)?;
        values.push(value)?;
    }
    Ok(Values::from_vec(values))
}

/// The value of a call's column, NULL where it has none.
fn arg_in(alloc: Global, arg: Option<ColRef>, rows: &[Row]) -> Result<Value, Memory>
    requires { HasArg (map (λ r. r.now) rows.now) arg }
    ensures { IfOk result (λ v. v ≡ arg_in (map (λ r. r.now) rows.now) arg) }
{
    match arg {
        Some(column) => cell_in(alloc, column, rows),
        None => Ok(Value::Null),
    }
}

/// The value of a column.
fn cell_in(alloc: Global, column: ColRef, rows: &[Row]) -> Result<Value, Memory>
    requires { HasColumn (map (λ r. r.now) rows.now) column }
    ensures { IfOk result (λ v. v ≡ cell_of (map (λ r. r.now) rows.now) column) }
{
    let row = rows[column.rel.0 as usize];
    value_in(row, column.col).copy(alloc)
}
