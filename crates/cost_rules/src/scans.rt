//! Costs of scans of one table and of its indexes. Each cost is cut to at most 10^18. Rows, entries and pages are from
//! 1 to 10^12.

ghost use Rattle.std.specs.Prelude.{◌≡◌, ◌≤◌, ◌*◌, ◌^◌};
ghost use Rattle.cost_rules.specs.declared.parameters.TheConstants.{MOST_COST, MOST_ESTIMATE};
ghost use Rattle.cost_rules.specs.Costs.{row_cost};
ghost use Rattle.cost_rules.specs.work.Costs.{IsCost, IsEstimate, capped, capped_pair};
ghost use Rattle.cost_rules.specs.Scans.{pages_of_entries, height_of, descent_of, heap_pages_of, seq_scan_cost, part_cost, fetch_cost, index_scan_cost, page_in_order, bitmap_scan_cost, run_cost, leaves_cost};

use crate::pair::{Pair, cut};
use crate::parameters::{
    ENTRIES_PER_PAGE, INDEX_TUPLE, LEVEL, OPERATOR, RANDOM_PAGE, SEQUENTIAL_PAGE, TUPLE,
};
use crate::powers::log_up;

/// The pages of an index of so many entries.
pub fn index_pages(entries: u64) -> u64
    requires entries { IsEstimate entries }
    ensures pages { result ≡ pages_of_entries entries }
    ensures estimate { IsEstimate result }
{
    entries.div_ceil(ENTRIES_PER_PAGE).max(1)
}

/// The way down a B-tree of so many entries: the comparisons of a binary search, and each level.
pub fn btree_descent(entries: u64) -> u64
    requires entries { IsEstimate entries }
    ensures descent { result ≡ descent_of entries }
    ensures small { result ≤ 2_090 }
{
    let height = log_up(ENTRIES_PER_PAGE, index_pages(entries));
    log_up(2, entries.max(2)) * OPERATOR + LEVEL * (height + 1)
}

/// The pages of a heap that so many rows at random places touch, at most all (after Mackert and Lohman).
pub fn heap_pages(rows: u64, pages: u64) -> u64
    requires rows { IsEstimate rows }
    requires pages { IsEstimate pages }
    ensures touched { result ≡ heap_pages_of rows pages }
    ensures few { result ≤ pages }
{
    let (t, p) = (u128::from(rows), u128::from(pages));
    (2 * p * t).div_ceil(2 * p + t).min(p) as u64
}

/// What one of so many runs of a scan pays for pages, at `price` a page: those that the rows of all runs touch together.
fn run_pages(runs: u64, rows: u64, pages: u64, price: u64) -> u64
    requires runs { IsEstimate runs }
    requires rows { rows ≤ MOST_ESTIMATE }
    requires pages { IsEstimate pages }
    requires price { price ≤ 1_600 }
    ensures value { result ≡ run_cost runs rows pages price }
    ensures most { result ≤ pages * price }
{
    let (t, p) = (u128::from(rows) * u128::from(runs), u128::from(pages));
    let touched = (2 * p * t).div_ceil(2 * p + t).min(p);
    (touched * u128::from(price)).div_ceil(u128::from(runs)) as u64
}

/// What one of so many runs pays for so many pages of an index.
fn leaf_pages(runs: u64, leaves: u64, pages: u64) -> u64
    requires runs { IsEstimate runs }
    requires leaves { leaves ≤ MOST_ESTIMATE }
    requires pages { IsEstimate pages }
    ensures value { result ≡ leaves_cost runs leaves pages }
    ensures most { result ≤ 2 ^ 52 }
{
    if runs == 1 {
        leaves * RANDOM_PAGE
    } else {
        run_pages(runs, leaves, pages, RANDOM_PAGE)
    }
}

/// Rows worked on, each with so many operators.
fn work(rows: u64, ops: u64) -> u128
    requires { rows ≤ MOST_ESTIMATE }
    ensures value { result ≡ rows * row_cost ops }
    ensures fits { result ≤ 2 ^ 110 }
{
    u128::from(rows) * (u128::from(TUPLE) + u128::from(ops) * u128::from(OPERATOR))
}

/// A sequential scan: every page in order, and each row with `ops` operators.
pub fn seq_scan(pages: u64, rows: u64, ops: u64) -> Pair
    requires pages { IsEstimate pages }
    requires rows { IsEstimate rows }
    ensures rule { result ≡ capped_pair (seq_scan_cost pages rows ops) }
    ensures cost { IsCost result }
{
    Pair {
        startup: 0,
        total: cut(u128::from(pages * SEQUENTIAL_PAGE) + work(rows, ops)),
    }
}

/// An index's own part in one of so many runs: the way down, the part of its pages that the entries looked at have, at
/// random, and each of these entries with so many conditions. No more are looked at than there are.
pub fn index_entries(runs: u64, descent: u64, looked: u64, entries: u64, conditions: u64) -> u64
    requires runs { IsEstimate runs }
    requires descent { descent ≤ MOST_COST }
    requires entries { IsEstimate entries }
    requires looked { looked ≤ entries }
    ensures part { result ≡ capped (part_cost runs descent looked entries conditions) }
    ensures reached { descent ≤ result }
    ensures most { result ≤ MOST_COST }
{
    let pages = index_pages(entries);
    let leaves = (u128::from(looked) * u128::from(pages)).div_ceil(u128::from(entries)) as u64;
    let read = leaf_pages(runs, leaves, pages);
    let each = u128::from(INDEX_TUPLE) + u128::from(conditions) * u128::from(OPERATOR);
    cut(u128::from(descent) + u128::from(read) + u128::from(looked) * each)
}

/// An index scan in one of so many runs, over the index's own part, of which the way down comes before the first row: the
/// heap pages of the rows found, at random, but none where the scan is index-only, and each row with `ops` operators.
pub fn index_scan(
    runs: u64,
    descent: u64,
    part: u64,
    only: bool,
    rows: u64,
    pages: u64,
    ops: u64,
) -> Pair
    requires runs { IsEstimate runs }
    requires descent { descent ≤ part }
    requires part { part ≤ MOST_COST }
    requires rows { IsEstimate rows }
    requires pages { IsEstimate pages }
    ensures rule { result ≡ capped_pair (index_scan_cost runs descent part only rows pages ops) }
    ensures cost { IsCost result }
    ensures part_of { part ≤ result.total }
{
    let fetched = if only {
        0
    } else {
        run_pages(runs, rows, pages, RANDOM_PAGE)
    };
    Pair {
        startup: descent,
        total: cut(u128::from(part) + u128::from(fetched) + work(rows, ops)),
    }
}

/// A bitmap scan in one of so many runs, over the parts of its indexes, which come before the first row: the heap pages in
/// order, the cheaper the more of them one run reads, and each row with `ops` operators.
pub fn bitmap_scan(runs: u64, parts: u64, rows: u64, pages: u64, ops: u64) -> Pair
    requires runs { IsEstimate runs }
    requires parts { parts ≤ MOST_COST }
    requires rows { IsEstimate rows }
    requires pages { IsEstimate pages }
    ensures rule { result ≡ capped_pair (bitmap_scan_cost runs parts rows pages ops) }
    ensures cost { IsCost result }
    ensures part_of { parts ≤ result.total }
{
    let one = heap_pages(rows, pages);
    let page = RANDOM_PAGE - (RANDOM_PAGE - SEQUENTIAL_PAGE) * one / pages;
    let read = run_pages(runs, rows, pages, page);
    Pair {
        startup: parts,
        total: cut(u128::from(parts) + u128::from(read) + work(rows, ops)),
    }
}
