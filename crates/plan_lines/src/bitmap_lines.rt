//! What one line of a bitmap tree says.

ghost use Rattle.std.specs.Prelude.{◌≡◌, ◌≤◌, List, IfSome, Some, codes};
ghost use Rattle.certificate_entries.specs.explain_Texts.{conjunct_text, leaf_title};
ghost use Rattle.sql_query.specs.WellBound.{IsWellBound};
ghost use Rattle.plan_lines.specs.HasText.{IsConjunct, IsIndexOfQuery};
ghost use Rattle.plan_lines.specs.work.Lines.{HasLine};
ghost use Rattle.plan_lines.specs.declared.bitmap_lines.TreeLine.TheVariants.{All as AllHold};
ghost use Rattle.plan_lines.specs.work.Finding.{Finds, FindsArm, FindsScan};

use crate::certificate_entries::find_clause;
use crate::{behind, read_index_name};
use catalog::Catalog;
use certificate_text::LineCursor;
use pg_base::IndexNo;
use sql_query::Prepared;

/// What a line of a bitmap tree says.
#[derive(Clone, Copy)]
pub(crate) enum TreeLine {
    /// The entries of an index.
    Leaf(IndexNo),
    /// What all of the trees beneath hold.
    All,
    /// What some arm of the OR clause of this number holds.
    Arm(u16),
}

/// The index whose entries are scanned by a line.
pub(crate) fn read_leaf(line: &[u8], cat: &Catalog, q: &Prepared) -> Option<IndexNo>
    ensures has { IfSome result (IsIndexOfQuery cat.now q.now) }
    ensures only { Finds (IsIndexOfQuery cat.now q.now) (leaf_title cat.now) line.now result }
{
    read_index_name(behind(line, b"Bitmap Index Scan on ")?, cat, q)
}

/// The clause whose conjunct's number a text is.
fn read_conjunct(text: &[u8], cat: &Catalog, q: &Prepared) -> Option<u16>
    requires bound { IsWellBound cat.now q.now }
    ensures has { IfSome result (λ n. IsConjunct cat.now q.now n) }
    ensures only { Finds (IsConjunct cat.now q.now) (conjunct_text q.now) text.now result }
{
    let number = LineCursor::new(text).number()?;
    find_clause(cat, q, number)
}

/// What a line says that begins with the word of an OR.
fn read_arm(line: &[u8], cat: &Catalog, q: &Prepared) -> Option<TreeLine>
    requires bound { IsWellBound cat.now q.now }
    ensures has { IfSome result (HasLine cat.now q.now) }
    ensures arm { FindsArm cat.now q.now line.now result }
{
    let clause = read_conjunct(behind(line, b"BitmapOr ")?, cat, q)?;
    Some(TreeLine::Arm(clause))
}

/// What a line says that begins with the words of a scan of an index's entries.
fn read_scan(line: &[u8], cat: &Catalog, q: &Prepared) -> Option<TreeLine>
    ensures has { IfSome result (HasLine cat.now q.now) }
    ensures leaf { FindsScan cat.now q.now line.now result }
{
    let index = read_leaf(line, cat, q)?;
    Some(TreeLine::Leaf(index))
}

/// What a line of a bitmap tree says. None where no such tree has it.
pub(crate) fn read_line(line: &[u8], cat: &Catalog, q: &Prepared) -> Option<TreeLine>
    requires bound { IsWellBound cat.now q.now }
    ensures has { IfSome result (HasLine cat.now q.now) }
    ensures leaf { FindsScan cat.now q.now line.now result }
    ensures all { line.now ≡ codes "BitmapAnd" → result ≡ Some AllHold }
    ensures arm { FindsArm cat.now q.now line.now result }
{
    if line.starts_with(b"BitmapA") {
        return Some(TreeLine::All);
    }
    if line.starts_with(b"BitmapO") {
        return read_arm(line, cat, q);
    }
    read_scan(line, cat, q)
}
