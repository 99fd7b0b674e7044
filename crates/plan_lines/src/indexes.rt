//! Indexes by their names, and scans by them.

ghost use Rattle.std.specs.Prelude.{◌↔◌, IfSome, IsTrue};
ghost use Rattle.catalog.specs.Contents.{IsIndex, index_name_at};
ghost use Rattle.sql_query.specs.WellBound.{IsWellBound};
ghost use Rattle.plan_lines.specs.HasText.{IsIndexOfQuery, IsTableOfQuery};
ghost use Rattle.plan_lines.specs.work.Scans.{IsIndexScan, indexed_text};
ghost use Rattle.plan_lines.specs.work.Finding.{Finds};
ghost use Rattle.plan_lines.specs.work.Behind.{CutsDirection, CutsIndex};

use crate::relations::behind;
use crate::scanned::read_scanned;
use catalog::Catalog;
use certificate_text::LineCursor;
use pg_base::{IndexNo, RelNo, RelSet, TableNo};
use plan_tree::range_of;
use sql_query::Prepared;

/// Whether a table is that of some relation of the query.
fn has_table(q: &Prepared, t: TableNo) -> bool
    ensures { IsTrue result ↔ IsTableOfQuery q.now t }
{
    for (table, _) in range_of(q).items() {
        if *table == t {
            return true;
        }
    }
    false
}

/// Whether an index is one of the table of some relation of the query.
fn is_of_query(cat: &Catalog, q: &Prepared, i: IndexNo) -> bool
    requires index { IsIndex cat.now i }
    ensures { IsTrue result ↔ IsIndexOfQuery cat.now q.now i }
{
    has_table(q, cat.index(i).table)
}

/// The index of a table of the query by its name, with which a text begins, and what stands behind it. None where it begins
/// with the name of none.
fn read_index<'a>(text: &'a [u8], cat: &Catalog, q: &Prepared) -> Option<(IndexNo, &'a [u8])>
    ensures has { IfSome result (λ r. IsIndexOfQuery cat.now q.now r.0) }
    ensures only { CutsIndex cat.now q.now text.now result }
{
    cat.lawful();
    let name = LineCursor::new(text).word();
    let index = cat.index_named(name)?;
    if !is_of_query(cat, q, index) {
        return None;
    }
    let left = behind(text, name)?;
    Some((index, left))
}

/// The index of a table of the query whose name a text is.
pub fn read_index_name(text: &[u8], cat: &Catalog, q: &Prepared) -> Option<IndexNo>
    ensures has { IfSome result (IsIndexOfQuery cat.now q.now) }
    ensures only { Finds (IsIndexOfQuery cat.now q.now) (index_name_at cat.now) text.now result }
{
    let (index, _) = read_index(text, cat, q)?;
    Some(index)
}

/// Whether a text says that a scan goes backward, and what stands behind that.
fn read_direction(text: &[u8]) -> (bool, &[u8])
    ensures { CutsDirection text.now result.0 result.1.now }
{
    match behind(text, b" Backward") {
        Some(left) => (true, left),
        None => (false, text),
    }
}

/// A scan by an index, behind the name of its kind.
#[derive(Clone, Copy)]
pub struct IndexScan {
    /// The relation.
    pub rel: RelNo,
    /// The index.
    pub index: IndexNo,
    /// Whether it goes from the last entry to the first.
    pub backward: bool,
    /// The relations whose rows it is given.
    pub param: RelSet,
}

/// A scan by an index, where a text is what stands behind the name of its kind. None where it is that of none.
pub fn read_index_scan(text: &[u8], cat: &Catalog, q: &Prepared) -> Option<IndexScan>
    requires bound { IsWellBound cat.now q.now }
    ensures has { IfSome result (IsIndexScan cat.now q.now) }
    ensures only { Finds (IsIndexScan cat.now q.now) (indexed_text cat.now q.now) text.now result }
{
    let (backward, left) = read_direction(text);
    let (index, left) = read_index(behind(left, b" using ")?, cat, q)?;
    let (rel, param) = read_scanned(behind(left, b" on ")?, cat, q)?;
    Some(IndexScan {
        rel,
        index,
        backward,
        param,
    })
}
