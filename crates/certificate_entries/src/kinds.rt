//! What entries are, by the words that they begin with.

ghost use Rattle.certificate_entries.specs.work.Kinds.{ReadsKind};

use certificate_text::LineCursor;

/// What an entry is.
#[derive(Clone, Copy)]
pub(crate) enum Kind {
    /// A sequential scan.
    Seq,
    /// A scan by an index.
    Index,
    /// A scan by an index with the columns taken from its entries.
    IndexOnly,
    /// A scan by a bitmap tree.
    Bitmap,
    /// A nested loop.
    Nest,
    /// A merge.
    Merge,
}

/// The kind whose words come next. None where those of none do.
pub(crate) fn read_kind(at: &mut LineCursor) -> Option<Kind>
    ensures only { ReadsKind at.old at.new result }
{
    if at.eat(b"Seq Scan") {
        return Some(Kind::Seq);
    }
    if at.eat(b"Index Scan") {
        return Some(Kind::Index);
    }
    if at.eat(b"Index Only Scan") {
        return Some(Kind::IndexOnly);
    }
    if at.eat(b"Bitmap Heap Scan ") {
        return Some(Kind::Bitmap);
    }
    if at.eat(b"Nested Loop ") {
        return Some(Kind::Nest);
    }
    if at.eat(b"Merge Join by ") {
        return Some(Kind::Merge);
    }
    None
}
