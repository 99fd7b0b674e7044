//! The lines of rows, each as one record of comma-separated values.

ghost use Rattle.std.specs.Prelude.{◌≡◌, IfOk, OnOk, Some, map};
ghost use Rattle.csv.specs.Writing.{writer_setup, writer_under};
ghost use Rattle.reply_text.specs.Texts.{field_text, number_text, row_line};
ghost use Rattle.reply_text.specs.work.Printed.{ArePrintable, IsPrintable, IsPrintableNumber};
ghost use Rattle.reply_text.specs.work.Writers.{HasField, HasNewText, IsBetween, row_writer};

use civil::{date_text, numeric_text, timestamp_text, timestamptz_text};
use csv::{Error, Writer, WriterBuilder};
use itoa::Buffer;
use pg_base::Memory;
use pg_value::{SqlType, Value};
use std::alloc::{AllocError, Global};
use std::io::Write;
use std::marker::Model;

/// Once a writer has written so many bytes, the next line is written by a new one.
const MOST: usize = 65536;

/// The lines of rows, one after another. One writer of csv writes them to a list of bytes, which it keeps until it has written
/// some 64 KiB.
pub struct Lines {
    alloc: Global,
    writer: Writer<Vec<u8>>,
}

impl Drop for Lines {
    fn drop(self) {
        let Lines {
            alloc: _,
            writer: _,
        } = self;
    }
}

impl Model for Lines {
    ghost use Rattle.reply_text.specs.work.Writers.{IsBetween};

    ghost Value = { Unit {0} };

    ghost view = { λ _. tt };

    ghost invariant = { λ lines. IsBetween lines.writer };
}

impl Lines {
    /// No line yet.
    pub fn new(alloc: Global) -> Lines {
        Lines {
            alloc,
            writer: new_writer(alloc),
        }
    }

    /// The line of a row that shows these values, from the left, each by the type at its place, ended by LF. NULL is `\N`, a
    /// whole number is decimal, a date, a timestamp or a numeric has the text that its type gives it, a truth value is `t` or
    /// `f`, and a text is its bytes, quoted as CSV (RFC 4180) where it has a comma, a quote, CR or LF, and where it is empty
    /// and alone. The only error is out of memory. Over a list of bytes the writer fails for that alone, since a list takes
    /// every byte and rows may differ in length; that this is so is no clause of `csv`.
    pub fn line(&mut self, types: &[SqlType], values: &[&Value]) -> Result<&[u8], Memory>
        requires { ArePrintable types.now (map (λ v. v.now) values.now) }
        ensures { IfOk result (λ line. line.now ≡ row_line types.now (map (λ v. v.now) values.now)) }
    {
        if self.writer.get_ref().len() >= MOST {
            begin_anew(self.alloc, &mut self.writer);
        }
        let start = self.writer.get_ref().len();
        if write_row(&mut self.writer, types, values).is_err() {
            begin_anew(self.alloc, &mut self.writer);
            return Err(AllocError);
        }
        Ok(&self.writer.get_ref()[start..])
    }
}

/// A writer of rows that has written none.
fn new_writer(alloc: Global) -> Writer<Vec<u8>>
    ensures { IsBetween result }
{
    WriterBuilder::new()
        .flexible(true)
        .from_writer(Vec::new(alloc))
}

/// Puts a new writer in a writer's place. A call of its own, since a new one is 8 KiB that are filled.
#[cold]
#[inline(never)]
fn begin_anew(alloc: Global, writer: &mut Writer<Vec<u8>>)
    ensures { IsBetween writer.new }
{
    *writer = new_writer(alloc);
}

/// Writes the record of these values, each by the type at its place, and holds nothing of it back.
fn write_row<W: Write + Drop>(
    writer: &mut Writer<W>,
    types: &[SqlType],
    values: &[&Value],
) -> Result<(), Error>
    requires between { IsBetween writer.old }
    requires printable { ArePrintable types.now (map (λ v. v.now) values.now) }
    ensures between { OnOk result (IsBetween writer.new) }
    ensures text { OnOk result
        (HasNewText W.contents writer.old writer.new (row_line types.now (map (λ v. v.now) values.now))) }
{
    for n in 0..values.len() {
        write_value(writer, types[n], values[n])?;
    }
    writer.end_record()?;
    writer.flush()
}

/// Writes a value of a type as one field more.
fn write_value<W: Write + Drop>(
    writer: &mut Writer<W>,
    t: SqlType,
    value: &Value,
) -> Result<(), Error>
    requires setup { writer_setup writer.old ≡ row_writer }
    requires printable { IsPrintable t value.now }
    ensures { OnOk result (HasField W.contents writer.old writer.new (field_text t value.now)) }
{
    match value {
        Value::Null => writer.write_field(b"\\N"),
        Value::Int(number) => write_number(writer, t, *number),
        Value::Bool(flag) => writer.write_field(if *flag { b"t" } else { b"f" }),
        Value::Text(text) => writer.write_field(text.items()),
    }
}

/// Writes a whole number, as a value of a type, as one field more.
fn write_number<W: Write + Drop>(writer: &mut Writer<W>, t: SqlType, n: i64) -> Result<(), Error>
    requires setup { writer_setup writer.old ≡ row_writer }
    requires printable { IsPrintableNumber t n }
    ensures { OnOk result (HasField W.contents writer.old writer.new (number_text t n)) }
{
    match t {
        SqlType::Date => writer.write_field(date_text(n).bytes()),
        SqlType::Timestamp => writer.write_field(timestamp_text(n).bytes()),
        SqlType::TimestampTz => writer.write_field(timestamptz_text(n).bytes()),
        SqlType::Numeric { digits: _, scale } => writer.write_field(numeric_text(scale, n).bytes()),
        _ => writer.write_field(Buffer::new().format(n).as_bytes()),
    }
}
