//! Rows read from COPY data.

ghost use Rattle.std.specs.Prelude.{◌≡◌, ◌+◌, ◌*◌, ◌<◌, ◌≤◌, List, length, slice_get, true, Some, Ok, Err, IfOk, IfErr, OnOk};
ghost use Rattle.std.specs.List.{All};
ghost use Rattle.csv.specs.Reading.{error_kind, stops_reader};
ghost use Rattle.csv.specs.Records.{fields_of};
ghost use Rattle.pg_base.specs.declared.limits.TheConstants.{MOST_COLUMNS, MOST_ROWS};
ghost use Rattle.pg_value.specs.declared.columns.Column.{Column};
ghost use Rattle.heap.specs.Loading.{records_of, field, row, rows_from, is_long};
ghost use Rattle.heap.specs.work.Loading.{BeginsWith, NamesColumnOf, appended, appended_rows, IsFaultOf};
ghost use Rattle.heap.specs.Stored.{IsRowOf, IsColumnValue};

use crate::fault::CopyFault;
use csv::{ByteRecord, Error as CsvError, ErrorKind, ReaderBuilder};
use pg_base::{ColNo, MOST_TEXT_BYTES};
use pg_value::{Column, FieldFault, SqlType, Value, read_value};
use std::alloc::Global;

/// Puts a row for each record of a block at the end of a flat list, `room` of them at most, and says how many, or tells
/// the first fault. What stood in the list stays.
pub(crate) fn read_rows(
    alloc: Global,
    columns: &[Column],
    room: usize,
    block: &[u8],
    values: &mut Vec<Value>,
) -> Result<u32, CopyFault>
    requires room { room ≤ MOST_ROWS }
    requires columns { length columns.now ≤ MOST_COLUMNS }
    ensures kept { BeginsWith values.old.items values.new.items }
    ensures rows { IfOk result (λ n.
        rows_from columns.now room 1 (records_of block.now) ≡
        Ok (appended_rows columns.now n values.old.items values.new.items)) }
    ensures few { IfOk result (λ n. n ≤ room) }
    ensures count { IfOk result (λ n.
        length values.new.items ≡ length values.old.items + n * length columns.now) }
    ensures lawful { IfOk result (λ n.
        All (IsRowOf columns.now) (appended_rows columns.now n values.old.items values.new.items)) }
    ensures fault { IfErr result (IsFaultOf (rows_from columns.now room 1 (records_of block.now))) }
    ensures field { IfErr result (NamesColumnOf columns.now) }
{
    let rdr = ReaderBuilder::new()
        .has_headers(false)
        .flexible(true)
        .from_reader(alloc, block);
    let mut count = 0;
    for taken in rdr.into_byte_records() {
        let fields = match taken {
            Ok(fields) => fields,
            Err(error) => return Err(out_of_memory(&error)),
        };
        read_row(alloc, columns, room, count, &fields, values)?;
        count += 1;
    }
    Ok(count)
}

/// What stopped a reader: a slice does not fail, so memory ran out.
fn out_of_memory(error: &CsvError) -> CopyFault
    requires { stops_reader (error_kind error.now) ≡ true }
    ensures { result ≡ CopyFault.Memory }
{
    match error.kind() {
        ErrorKind::Io(_) | ErrorKind::OutOfMemory => CopyFault::Memory,
        _ => unreachable!(),
    }
}

/// Puts the row of the record that `before` others of its block stand before at the end of a flat list.
fn read_row(
    alloc: Global,
    columns: &[Column],
    room: usize,
    before: u32,
    fields: &ByteRecord,
    values: &mut Vec<Value>,
) -> Result<(), CopyFault>
    requires before { before ≤ room }
    requires room { room ≤ MOST_ROWS }
    requires columns { length columns.now ≤ MOST_COLUMNS }
    ensures kept { BeginsWith values.old.items values.new.items }
    ensures row { OnOk result (
        row columns.now room (before + 1) (fields_of fields.now) ≡
        Ok (appended values.old.items values.new.items)) }
    ensures few { OnOk result (before < room) }
    ensures lawful { OnOk result (IsRowOf columns.now (appended values.old.items values.new.items)) }
    ensures fault { IfErr result (IsFaultOf (row columns.now room (before + 1) (fields_of fields.now))) }
    ensures field { IfErr result (NamesColumnOf columns.now) }
{
    let rec = before + 1;
    if before as usize == room {
        return Err(CopyFault::TooMany { rec });
    }
    if fields.len() != columns.len() {
        return Err(CopyFault::Arity { rec });
    }
    for col in 0..columns.len() {
        let column = columns[col];
        let text = text_at(fields, col);
        let value = read_field(alloc, rec, ColNo(col as u8), column, text)?;
        values.push(value)?;
    }
    Ok(())
}

fn text_at(fields: &ByteRecord, col: usize) -> &[u8]
    requires { col < length (fields_of fields.now) }
    ensures { slice_get (fields_of fields.now) col ≡ Some result.now }
{
    let Some(text) = fields.get(col) else {
        unreachable!();
    };
    text
}

/// The value of a column that a field's text stands for.
fn read_field(
    alloc: Global,
    rec: u32,
    col: ColNo,
    column: Column,
    text: &[u8],
) -> Result<Value, CopyFault>
    ensures value { IfOk result (λ v. field rec col column text.now ≡ Ok v) }
    ensures lawful { IfOk result (λ v. IsColumnValue column v) }
    ensures fault { IfErr result (IsFaultOf (field rec col column text.now)) }
    ensures field { (columns : List Column) → col.0 < length columns → IfErr result (NamesColumnOf columns) }
{
    if text == b"\\N".as_slice() {
        return if column.not_null {
            Err(CopyFault::IsNull { rec, col })
        } else {
            Ok(Value::Null)
        };
    }
    if is_too_long(column.typed, text) {
        return Err(CopyFault::TooLong { rec, col });
    }
    match read_value(alloc, column.typed, text) {
        Ok(value) => Ok(value),
        Err(FieldFault::Range) => Err(CopyFault::Range { rec, col }),
        Err(FieldFault::Invalid) => Err(CopyFault::Invalid { rec, col }),
        Err(FieldFault::Memory) => Err(CopyFault::Memory),
    }
}

fn is_too_long(t: SqlType, text: &[u8]) -> bool
    ensures { result ≡ is_long t text.now }
{
    t == SqlType::Text && text.len() > MOST_TEXT_BYTES
}
