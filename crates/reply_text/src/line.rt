//! The error line of a fault.

ghost use Rattle.std.specs.Prelude.{◌≡◌, ◌++◌, ◌-◌, OnOk, OnErr, codes, drop, take};
ghost use Rattle.std.specs.Io.KnownBytes.{Appends};
ghost use Rattle.pg_base.specs.Causes.{HasCause};
ghost use Rattle.pg_base.specs.Writing.{AppendsPrefix};
ghost use Rattle.reply_text.specs.Tells.{IsFieldOf};
ghost use Rattle.reply_text.specs.Lines.{fault_line, named_word, suffix};
ghost use Rattle.reply_text.specs.work.Lines.{line_head};

use crate::pieces::{write_pieces, write_small};
use crate::tells::{Naming, Place, how_named, place_named};
use crate::texts::{code_word, first_words};
use catalog::Catalog;
use itoa::Buffer;
use pg_base::{ColNo, Failed, Fault, Sink, write_all};

/// Writes the line of a fault of the script `text`: `ERROR`, the SQLSTATE code, the byte offset and the text, ended by LF.
/// No memory is taken. At `Failed` the sink has a prefix of the line, and its count of faults rose.
/// Of words that do not lie in the script the line has what the script has of them.
/// Where a field of COPY data is in error, the catalogue has its table and column.
pub fn write_fault<E: Sink>(
    errors: &mut E,
    cat: &Catalog,
    text: &[u8],
    fault: &Fault,
) -> Result<(), Failed>
    requires field { IsFieldOf cat.now fault.now }
    ensures ok { OnOk result (Appends (E.held errors.old) (E.held errors.new)
        (fault_line cat.now text.now fault.now)) }
    ensures err { OnErr result (AppendsPrefix (E.held errors.old) (E.held errors.new)
        (fault_line cat.now text.now fault.now)) }
    ensures cause { HasCause (E.faults errors.old) (E.faults errors.new) result }
{
    write_head(errors, fault)?;
    write_word(errors, text, fault)?;
    write_end(errors, cat, fault)
}

// The code, the offset and the first words of the text.
fn write_head<E: Sink>(errors: &mut E, fault: &Fault) -> Result<(), Failed>
    ensures ok { OnOk result (Appends (E.held errors.old) (E.held errors.new)
        (line_head fault.now)) }
    ensures err { OnErr result (AppendsPrefix (E.held errors.old) (E.held errors.new)
        (line_head fault.now)) }
    ensures cause { HasCause (E.faults errors.old) (E.faults errors.new) result }
{
    let mut buffer = Buffer::new();
    let offset = buffer.format(fault.at).as_bytes();
    let code = code_word(fault.code);
    let words = first_words(fault.code, fault.rec);
    write_pieces(errors, &[b"ERROR ", code, b" at ", offset, b": ", words])
}

// The bytes from one offset up to another, as far as the text has them.
fn word(text: &[u8], from: usize, to: usize) -> &[u8]
    ensures { result.now ≡ take (to - from) (drop from text.now) }
{
    let from = from.min(text.len());
    let to = to.clamp(from, text.len());
    &text[from..to]
}

// The word in error, where the text names it.
fn write_word<E: Sink>(errors: &mut E, text: &[u8], fault: &Fault) -> Result<(), Failed>
    ensures ok { OnOk result (Appends (E.held errors.old) (E.held errors.new)
        (named_word text.now fault.now)) }
    ensures err { OnErr result (AppendsPrefix (E.held errors.old) (E.held errors.new)
        (named_word text.now fault.now)) }
    ensures cause { HasCause (E.faults errors.old) (E.faults errors.new) result }
{
    let word = word(text, fault.from as usize, fault.to as usize);
    match how_named(fault.code) {
        Naming::Nothing => write_all(errors, b""),
        Naming::Small => write_small(errors, word),
    }
}

// The record and the column of COPY data, where the text names them, and LF.
fn write_end<E: Sink>(errors: &mut E, cat: &Catalog, fault: &Fault) -> Result<(), Failed>
    requires field { IsFieldOf cat.now fault.now }
    ensures ok { OnOk result (Appends (E.held errors.old) (E.held errors.new)
        (suffix cat.now fault.now ++ codes "\n")) }
    ensures err { OnErr result (AppendsPrefix (E.held errors.old) (E.held errors.new)
        (suffix cat.now fault.now ++ codes "\n")) }
    ensures cause { HasCause (E.faults errors.old) (E.faults errors.new) result }
{
    if fault.rec == 0 {
        return write_all(errors, b"\n");
    }
    let mut buffer = Buffer::new();
    let rec = buffer.format(fault.rec).as_bytes();
    match place_named(fault.code) {
        Place::Nowhere => write_all(errors, b"\n"),
        Place::Record => write_pieces(errors, &[b", record ", rec, b"\n"]),
        Place::Field => {
            let column = cat.column_name(fault.table, ColNo(fault.col));
            write_pieces(errors, &[b", record ", rec, b" column ", column, b"\n"])
        }
    }
}
