//! What one line of a certificate text says.

ghost use Rattle.sql_query.specs.WellBound.{IsWellBound};
ghost use Rattle.certificate_entries.specs.work.Reading.{IsRead};

use catalog::Catalog;
use certificate_text::plan_check::{Entry, Side};
use sql_query::Prepared;
use std::alloc::Global;

/// What a line says.
#[derive(Drop)]
pub enum Line {
    /// The entry of the next number.
    Entry(Entry),
    /// The best plan.
    Best(Side),
}

/// Why a line says nothing.
#[derive(Clone, Copy, Debug, PartialEq, Eq)]
pub enum LineFault {
    /// No entry and no best plan has this line.
    Bad,
    /// Out of memory.
    Memory,
}

/// A reader of one line.
pub trait ReadLine {
    ghost use Rattle.sql_query.specs.WellBound.{IsWellBound};
    ghost use Rattle.certificate_entries.specs.work.Reading.{IsRead};

    /// What a line says, which is given without its LF: the entry of this number or a best plan.
    fn read(
        &self,
        alloc: Global,
        cat: &Catalog,
        q: &Prepared,
        n: u64,
        line: &[u8],
    ) -> Result<Line, LineFault>
        requires bound { IsWellBound cat.now q.now }
        ensures read { IsRead cat.now q.now n line.now result };
}
