//! The first line of a node.

ghost use Rattle.sql_query.specs.WellBound.{IsWellBound};
ghost use Rattle.plan_reader.specs.work.Nodes.{CutsParts, ReadsFirst};

use catalog::Catalog;
use plan_lines::{Kind, Lines, read_kind, read_line};
use sql_query::Prepared;

/// The first line of a node: what it says.
#[derive(Clone, Copy)]
pub(crate) struct NodeLine<'a> {
    /// What the node is.
    pub(crate) kind: Kind,
    /// What stands behind the words of that.
    pub(crate) behind: &'a [u8],
    /// The cost and the rows.
    pub(crate) numbers: (u64, u64),
}

/// What a line says of a node. None where it is the first line of none.
fn parts_of(line: &[u8]) -> Option<NodeLine<'_>>
    ensures only { CutsParts line.now result }
{
    let (title, numbers) = read_line(line)?;
    let (kind, behind) = read_kind(title)?;
    Some(NodeLine {
        kind,
        behind,
        numbers,
    })
}

/// The first line of a node, where it comes next at a depth. None where none does.
pub(crate) fn read_first<'a>(
    at: &mut Lines<'a>,
    cat: &Catalog,
    q: &Prepared,
    depth: u8,
) -> Option<NodeLine<'a>>
    requires bound { IsWellBound cat.now q.now }
    ensures only { ReadsFirst cat.now q.now depth at.old at.new result }
{
    cat.lawful();
    let line = at.next_at(depth)?;
    parts_of(line)
}
