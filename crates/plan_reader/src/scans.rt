//! Scans, from what stands behind their words, and beneath their lines.

ghost use Rattle.std.specs.Prelude.{◌≤◌, ◌+◌, ℕ, Bool, IfOk, IfSome, length};
ghost use Rattle.plan_tree.specs.Plans as plans;
ghost use Rattle.plan_tree.specs.work.Views.{bits, plan};
ghost use Rattle.sql_query.specs.WellBound.{IsWellBound};
ghost use Rattle.plan_lines.specs.HasText.{IsIndexOfQuery, IsText};
ghost use Rattle.plan_reader.specs.Written.{StandsAt};
ghost use Rattle.plan_reader.specs.work.Nodes.{FindsIndexed, FindsSeq, IsTextAt, ReadsBits, ReadsHeapScan};
ghost use Rattle.plan_lines.specs.work.Trees.{HasBitsAt};

use catalog::Catalog;
use pg_base::Memory;
use plan_lines::{Lines, read_index_scan, read_relation, read_scanned, read_tree};
use plan_tree::{BitTree, Plan};
use sql_query::Prepared;
use std::alloc::Global;

/// A sequential scan.
pub(crate) fn seq_of(behind: &[u8], cat: &Catalog, q: &Prepared) -> Option<Plan>
    requires bound { IsWellBound cat.now q.now }
    ensures has { IfSome result (λ p. IsText cat.now q.now (plan p)) }
    ensures stands { (d : ℕ) → d ≤ 64 → IfSome result (λ p. StandsAt d (plan p)) }
    ensures only { FindsSeq cat.now q.now behind.now result }
{
    let rel = read_relation(behind, cat, q)?;
    Some(Plan::Seq { rel })
}

/// A scan by an index.
pub(crate) fn index_of(behind: &[u8], cat: &Catalog, q: &Prepared) -> Option<Plan>
    requires bound { IsWellBound cat.now q.now }
    ensures has { IfSome result (λ p. IsText cat.now q.now (plan p)) }
    ensures stands { (d : ℕ) → d ≤ 64 → IfSome result (λ p. StandsAt d (plan p)) }
    ensures only { FindsIndexed cat.now q.now plans.index behind.now result }
{
    let scan = read_index_scan(behind, cat, q)?;
    Some(Plan::Index {
        rel: scan.rel,
        index: scan.index,
        backward: scan.backward,
        param: scan.param,
    })
}

/// An index-only scan, behind its words.
pub(crate) fn index_only_of(behind: &[u8], cat: &Catalog, q: &Prepared) -> Option<Plan>
    requires bound { IsWellBound cat.now q.now }
    ensures has { IfSome result (λ p. IsText cat.now q.now (plan p)) }
    ensures stands { (d : ℕ) → d ≤ 64 → IfSome result (λ p. StandsAt d (plan p)) }
    ensures only { FindsIndexed cat.now q.now plans.index_only behind.now result }
{
    let scan = read_index_scan(behind, cat, q)?;
    Some(Plan::IndexOnly {
        rel: scan.rel,
        index: scan.index,
        backward: scan.backward,
        param: scan.param,
    })
}

/// The bitmap tree whose first line comes next one deeper than a depth.
fn read_bits(
    alloc: Global,
    at: &mut Lines,
    cat: &Catalog,
    q: &Prepared,
    depth: u8,
) -> Result<Option<BitTree>, Memory>
    requires bound { IsWellBound cat.now q.now }
    requires deep { depth ≤ 64 }
    ensures has { IfOk result (λ o. IfSome o (λ b. HasBitsAt cat.now q.now (depth + 1) (bits b))) }
    ensures only { IfOk result (λ o. ReadsBits cat.now q.now (depth + 1) at.old at.new o) }
{
    cat.lawful();
    match at.next_at(depth + 1) {
        Some(line) => read_tree(alloc, at, cat, q, depth + 1, line),
        None => Ok(None),
    }
}

/// A bitmap scan, whose bitmap tree comes next one deeper than a depth.
pub(crate) fn bitmap_of(
    alloc: Global,
    at: &mut Lines,
    cat: &Catalog,
    q: &Prepared,
    depth: u8,
    behind: &[u8],
) -> Result<Option<Plan>, Memory>
    requires bound { IsWellBound cat.now q.now }
    requires deep { depth ≤ 64 }
    ensures has { IfOk result (λ o. IfSome o (λ p. IsTextAt cat.now q.now depth (plan p))) }
    ensures only { IfOk result (λ o. ReadsHeapScan cat.now q.now depth behind.now at.old at.new o) }
{
    let Some((rel, param)) = read_scanned(behind, cat, q) else {
        return Ok(None);
    };
    match read_bits(alloc, at, cat, q, depth)? {
        Some(bits) => Ok(Some(Plan::Bitmap { rel, param, bits })),
        None => Ok(None),
    }
}
