//! The words of COPY.

ghost use Rattle.ddl_reader.specs.declared.ddl.Read.{Read};
ghost use Rattle.ddl_reader.specs.work.AsMeant.{Tells};
ghost use Rattle.ddl_reader.specs.Tables.{Reading};
ghost use Rattle.ddl_reader.specs.work.Tables.{data_spelled, data_named};
ghost use Rattle.ddl_reader.specs.work.Readings.{reading, IsReadingOf, AreOfCopy, IfCopy};

use crate::ddl::{Ddl, Read};
use crate::words::{name, quoted, word_fault};
use catalog::Catalog;
use expr_reader::{Cursor, Spelled};
use pg_base::{Code, Refusal};
use std::alloc::Global;

/// Data for the table of this name, which begin at the byte offset `start`. An unknown table is refused (42P01) at its name, and
/// then a text for NULL other than `\N` (22023).
fn bind(
    alloc: Global,
    cat: &Catalog,
    name: &Spelled,
    null: &Spelled,
    start: u32,
) -> Result<Read, Refusal>
    ensures { Tells Read Reading reading result (data_spelled cat.now name.now null.now start) }
{
    let Some(table) = cat.table(name.bytes.items()) else {
        return Err(word_fault(Code::S2, name.token));
    };
    if null.bytes.items() != b"\\N".as_slice() {
        return Err(word_fault(Code::S17, null.token));
    }
    Ok(Read {
        ddl: Ddl::Copy { table, start },
        at: Vec::new(alloc),
    })
}

/// COPY, whose data begin at the byte offset `start`.
pub fn copy(alloc: Global, cat: &Catalog, start: u32, from: &mut Cursor) -> Result<Read, Refusal>
    requires { AreOfCopy from.old }
    ensures { IfCopy from.old (λ k n null. IsReadingOf result (data_named cat.now n null start)) }
{
    from.skip(1);
    let title = name(alloc, from)?;
    from.skip(8);
    let null = quoted(alloc, from)?;
    bind(alloc, cat, &title, &null, start)
}
