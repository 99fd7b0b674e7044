//! What a node is.

ghost use Rattle.std.specs.Prelude.{◌≡◌, ◌<◌, ◌++◌, All, IfSome, length};
ghost use Rattle.catalog.specs.Contents.{IsIndex};
ghost use Rattle.plan_tree.specs.work.Views.{plan};
ghost use Rattle.sql_query.specs.Queries.{width};
ghost use Rattle.sql_query.specs.WellBound.{IsWellBound};
ghost use Rattle.certificate_entries.specs.explain_Texts as texts;
ghost use Rattle.certificate_entries.specs.explain_work_Texts as texts_work;
ghost use Rattle.certificate_entries.specs.explain_Texts.{backward_text, title};
ghost use Rattle.certificate_entries.specs.explain_work_Texts.{node_keys};
ghost use Rattle.plan_lines.specs.work.Kinds.{words};
ghost use Rattle.plan_lines.specs.HasText.{IsText};
ghost use Rattle.plan_lines.specs.work.Scans.{indexed_text};
ghost use Rattle.plan_lines.specs.work.TitleKinds.{behind_words, kind_of, parted_title};
ghost use Rattle.plan_lines.specs.work.Behind.{GivesBehind, IsLeft};

use crate::indexes::IndexScan;
use crate::keys::behind_keys;
use crate::relations::{behind, behind_relation, behind_scanned};
use catalog::Catalog;
use pathkeys::Keys;
use pg_base::{IndexNo, RelNo, RelSet};
use plan_tree::{Plan, set_of};
use sql_query::Prepared;

/// How the direction of a scan is written.
fn direction_bytes(backward: bool) -> &'static [u8]
    ensures { result.now ≡ backward_text backward }
{
    if backward { b" Backward" } else { b"" }
}

/// What stands behind a scan by an index, behind the name of its kind.
fn behind_index<'a>(
    text: &'a [u8],
    cat: &Catalog,
    q: &Prepared,
    scan: IndexScan,
) -> Option<&'a [u8]>
    requires bound { IsWellBound cat.now q.now }
    requires relation { scan.rel.0 < width q.now }
    requires index { IsIndex cat.now scan.index }
    ensures is { IfSome result (λ l. text.now ≡ indexed_text cat.now q.now scan ++ l.now) }
    ensures only { GivesBehind (indexed_text cat.now q.now scan) text.now result }
{
    let left = behind(behind(text, direction_bytes(scan.backward))?, b" using ")?;
    let left = behind(left, cat.index_name(scan.index))?;
    behind_scanned(behind(left, b" on ")?, cat, q, scan.rel, scan.param)
}

/// A scan by an index of these parts.
fn scan_of(rel: RelNo, index: IndexNo, backward: bool, param: RelSet) -> IndexScan
    ensures rel { result.rel ≡ rel }
    ensures index { result.index ≡ index }
    ensures backward { result.backward ≡ backward }
    ensures param { result.param ≡ param }
{
    IndexScan {
        rel,
        index,
        backward,
        param,
    }
}

/// What stands behind the keys of a node, by their first members inside the relations of its plan.
fn behind_node_keys<'a>(
    text: &'a [u8],
    cat: &Catalog,
    q: &Prepared,
    p: &Plan,
    keys: &Keys,
) -> Option<&'a [u8]>
    requires bound { IsWellBound cat.now q.now }
    requires has { IsText cat.now q.now (plan p.now) }
    requires classes { All (λ n. n < length q.now.classes.classes) keys.now }
    ensures is { IfSome result (IsLeft (node_keys cat.now q.now (plan p.now) keys.now) text.now) }
    ensures only { GivesBehind (node_keys cat.now q.now (plan p.now) keys.now) text.now result }
{
    behind_keys(text, cat, q, set_of(p), keys.items())
}

/// The words that the line of a node of this plan's kind begins with.
fn words_of(p: &Plan) -> &'static [u8]
    ensures { result.now ≡ words (kind_of (plan p.now)) }
{
    match p {
        Plan::Seq { .. } => b"Seq Scan on ",
        Plan::Index { .. } => b"Index Scan",
        Plan::IndexOnly { .. } => b"Index Only Scan",
        Plan::Bitmap { .. } => b"Bitmap Heap Scan on ",
        Plan::Sort { .. } => b"Sort by ",
        Plan::Nest { .. } => b"Nested Loop",
        Plan::Merge { .. } => b"Merge Join by ",
    }
}

/// What stands behind that which follows those words.
fn behind_named<'a>(text: &'a [u8], cat: &Catalog, q: &Prepared, p: &Plan) -> Option<&'a [u8]>
    requires bound { IsWellBound cat.now q.now }
    requires has { IsText cat.now q.now (plan p.now) }
    ensures is { IfSome result (λ l. text.now ≡ behind_words cat.now q.now (plan p.now) ++ l.now) }
    ensures only { GivesBehind (behind_words cat.now q.now (plan p.now)) text.now result }
{
    match p {
        Plan::Seq { rel } => behind_relation(text, cat, q, *rel),
        Plan::Index {
            rel,
            index,
            backward,
            param,
        } => behind_index(text, cat, q, scan_of(*rel, *index, *backward, *param)),
        Plan::IndexOnly {
            rel,
            index,
            backward,
            param,
        } => behind_index(text, cat, q, scan_of(*rel, *index, *backward, *param)),
        Plan::Bitmap { rel, param, .. } => behind_scanned(text, cat, q, *rel, *param),
        Plan::Sort { keys, .. } => behind_node_keys(text, cat, q, p, keys),
        Plan::Nest { .. } => Some(text),
        Plan::Merge { keys, .. } => behind_node_keys(text, cat, q, p, keys),
    }
}

/// What stands behind the words of a node's kind, and behind that which follows them.
fn behind_parts<'a>(text: &'a [u8], cat: &Catalog, q: &Prepared, p: &Plan) -> Option<&'a [u8]>
    requires bound { IsWellBound cat.now q.now }
    requires has { IsText cat.now q.now (plan p.now) }
    ensures is { IfSome result (λ l. text.now ≡ parted_title cat.now q.now (plan p.now) ++ l.now) }
    ensures only { GivesBehind (parted_title cat.now q.now (plan p.now)) text.now result }
{
    let left = behind(text, words_of(p))?;
    behind_named(left, cat, q, p)
}

/// What stands behind the words that say what the first node of a plan is. None where a text does not begin with them.
pub fn behind_title<'a>(text: &'a [u8], cat: &Catalog, q: &Prepared, p: &Plan) -> Option<&'a [u8]>
    requires bound { IsWellBound cat.now q.now }
    requires has { IsText cat.now q.now (plan p.now) }
    ensures is { IfSome result (λ l. text.now ≡ texts.title cat.now q.now (plan p.now) ++ l.now) }
    ensures only { GivesBehind (title cat.now q.now (plan p.now)) text.now result }
{
    behind_parts(text, cat, q, p)
}
