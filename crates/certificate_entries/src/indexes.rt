//! Indexes, and scans by them.

ghost use Rattle.std.specs.Prelude.{◌≤◌, IfSome, length};
ghost use Rattle.catalog.specs.Contents.{IsIndex, index_name_at};
ghost use Rattle.certificate_text.specs.Texts.{leaf_text};
ghost use Rattle.certificate_entries.specs.work.Parts.{Reads};
ghost use Rattle.certificate_entries.specs.work.Scans.{ReadsScan};

use catalog::Catalog;
use certificate_text::LineCursor;
use pg_base::IndexNo;

/// An index by its name.
fn read_index(at: &mut LineCursor, cat: &Catalog) -> Option<IndexNo>
    ensures has { IfSome result (IsIndex cat.now) }
    ensures only { Reads (IsIndex cat.now) (index_name_at cat.now) at.old at.new result }
    ensures shorter { length at.new ≤ length at.old }
{
    cat.lawful();
    cat.index_named(at.word())
}

/// The entries of an index, in a bitmap tree.
pub fn read_leaf(at: &mut LineCursor, cat: &Catalog) -> Option<IndexNo>
    ensures has { IfSome result (IsIndex cat.now) }
    ensures only { Reads (IsIndex cat.now) (leaf_text cat.now) at.old at.new result }
    ensures shorter { length at.new ≤ length at.old }
{
    if at.eat(b"Index ") {
        read_index(at, cat)
    } else {
        None
    }
}

/// What stands behind the name of a scan by an index: whether it is backward, and the index.
pub fn read_scan(at: &mut LineCursor, cat: &Catalog) -> Option<(IndexNo, bool)>
    ensures has { IfSome result (λ r. IsIndex cat.now r.0) }
    ensures only { ReadsScan cat.now at.old at.new result }
{
    let backward = at.eat(b" Backward");
    if !at.eat(b" using ") {
        return None;
    }
    let index = read_index(at, cat)?;
    Some((index, backward))
}
