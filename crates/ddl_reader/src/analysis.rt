//! ANALYZE: the table whose statistics its rows give.

ghost use Rattle.std.specs.Prelude.{◌≡◌, ◌∷◌, List};
ghost use Rattle.sql_grammar.specs.Terminals.{Terminal, Ident, t_name};
ghost use Rattle.ddl_reader.specs.Statistics.{analysis as analysis_meant};
ghost use Rattle.expr_reader.specs.work.Reading.{IfNext};
ghost use Rattle.ddl_reader.specs.work.Readings.{IsReadingOf};

use crate::ddl::{Ddl, Read};
use crate::statistics::table_of;
use crate::words::name;
use catalog::Catalog;
use expr_reader::Cursor;
use pg_base::Refusal;
use std::alloc::Global;

/// ANALYZE from the table's name on. An unknown table is refused (42P01) at its name.
pub(crate) fn analysis(alloc: Global, cat: &Catalog, from: &mut Cursor) -> Result<Read, Refusal>
    requires { (n : Ident) × (rest : List Terminal) × (from.old ≡ t_name n ∷ rest) }
    ensures { IfNext t_name from.old (λ n rest. IsReadingOf result (analysis_meant cat.now n)) }
{
    let title = name(alloc, from)?;
    let table = table_of(cat, &title)?;
    Ok(Read {
        ddl: Ddl::Analyze { table },
        at: Vec::new(alloc),
    })
}
