//! What nodes are, by the words that their lines begin with.

ghost use Rattle.std.specs.Prelude.{◌≡◌, ◌++◌, ℕ, List, IfSome};
ghost use Rattle.plan_lines.specs.work.Kinds.{words};
ghost use Rattle.plan_lines.specs.declared.kinds.Kind as kinds;
ghost use Rattle.plan_lines.specs.work.Behind.{CutsKind, GivesBehind};

/// What a node is.
#[derive(Clone, Copy)]
pub enum Kind {
    /// A sequential scan.
    Seq,
    /// A scan by an index.
    Index,
    /// A scan by an index with the columns taken from its entries.
    IndexOnly,
    /// A scan by a bitmap tree.
    Bitmap,
    /// A sort.
    Sort,
    /// A nested loop.
    Nest,
    /// A merge.
    Merge,
}

/// The words that the line of a node begins with.
fn words_of(kind: Kind) -> &'static [u8]
    ensures { result.now ≡ words kind }
{
    match kind {
        Kind::Seq => b"Seq Scan on ",
        Kind::Index => b"Index Scan",
        Kind::IndexOnly => b"Index Only Scan",
        Kind::Bitmap => b"Bitmap Heap Scan on ",
        Kind::Sort => b"Sort by ",
        Kind::Nest => b"Nested Loop",
        Kind::Merge => b"Merge Join by ",
    }
}

/// What stands behind the words of a kind.
fn behind(title: &[u8], kind: Kind) -> Option<&[u8]>
    ensures is { IfSome result (λ l. title.now ≡ words kind ++ l.now) }
    ensures only { GivesBehind (words kind) title.now result }
{
    title.strip_prefix(words_of(kind))
}

/// The kind whose words begin a line; any one where those of none do.
fn kind_of(title: &[u8]) -> Kind
    ensures only { (k : kinds.Kind) (rest : List ℕ) → title.now ≡ words k ++ rest → result ≡ k }
{
    if title.starts_with(b"Seq") {
        return Kind::Seq;
    }
    if title.starts_with(b"Index S") {
        return Kind::Index;
    }
    if title.starts_with(b"Index O") {
        return Kind::IndexOnly;
    }
    if title.starts_with(b"B") {
        return Kind::Bitmap;
    }
    if title.starts_with(b"Sort") {
        return Kind::Sort;
    }
    if title.starts_with(b"N") {
        return Kind::Nest;
    }
    Kind::Merge
}

/// The kind whose words begin a line, and what stands behind them. None where those of no kind do.
pub fn read_kind(title: &[u8]) -> Option<(Kind, &[u8])>
    ensures only { CutsKind title.now result }
{
    let kind = kind_of(title);
    let rest = behind(title, kind)?;
    Some((kind, rest))
}
