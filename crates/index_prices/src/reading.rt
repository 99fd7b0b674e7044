//! The candidates that a plan reads.

ghost use Rattle.std.specs.Prelude.{◌≡◌, ◌<◌, ◌≤◌, ◌⊎◌, ℕ, true, nat_eq, length};
ghost use Rattle.std.specs.List.{list_any};
ghost use Rattle.pg_base.specs.Sets.{has};
ghost use Rattle.pg_base.specs.declared.numbers.IndexNo.{IndexNo};
ghost use Rattle.advisor.specs.work.Choices.{IsPart};
ghost use Rattle.catalog.specs.work.Tables.{HasIndexName};
ghost use Rattle.plan_tree.specs.work.Views.{bits, bits_all, plan};
ghost use Rattle.plan_laws.specs.work.Fewer.{reads, some_reads, tree_reads};
ghost use Rattle.index_prices.specs.work.Quotes.{HasAllRead};

use crate::adding::has_number;
use catalog::{Candidate, Catalog};
use pg_base::{IndexNo, MOST_CANDIDATES, RelNo, RelSet};
use plan_tree::{BitTree, Plan};

/// Whether an index is one of a list.
fn is_among(indexes: &[IndexNo], i: IndexNo) -> bool
    ensures { result ≡ list_any (λ (j : IndexNo). nat_eq j.0 i.0) indexes.now }
{
    indexes.iter().any(|j| j.0 == i.0)
}

/// Whether a bitmap tree reads an index.
#[cycle(bits)]
fn tree_reads(tree: &BitTree, i: IndexNo) -> bool
    ensures { result ≡ tree_reads (bits tree.now) i }
{
    match tree {
        BitTree::Leaf(j) => j.0 == i.0,
        BitTree::And(parts) => some_reads(&parts.items, i),
        BitTree::Or(_, indexes) => is_among(indexes, i),
    }
}

/// Whether some tree of a list reads an index.
#[cycle(bits)]
fn some_reads(trees: &[BitTree], i: IndexNo) -> bool
    ensures { result ≡ some_reads (bits_all trees.now) i }
{
    for tree in trees {
        if tree_reads(tree, i) {
            return true;
        }
    }
    false
}

/// Whether a plan reads an index.
fn reads(p: &Plan, i: IndexNo) -> bool
    ensures { result ≡ reads (plan p.now) i }
{
    match p {
        Plan::Seq { rel: _ } => false,
        Plan::Index {
            rel: _,
            index,
            backward: _,
            param: _,
        } => index.0 == i.0,
        Plan::IndexOnly {
            rel: _,
            index,
            backward: _,
            param: _,
        } => index.0 == i.0,
        Plan::Bitmap {
            rel: _,
            param: _,
            bits,
        } => tree_reads(bits, i),
        Plan::Sort { keys: _, input } => reads(input, i),
        Plan::Nest { outer, inner } => reads(outer, i) || reads(inner, i),
        Plan::Merge {
            keys: _,
            outer,
            inner,
        } => reads(outer, i) || reads(inner, i),
    }
}

/// Whether a plan reads the index of a name.
fn reads_named(cat: &Catalog, name: &[u8], p: &Plan) -> bool
    ensures { (i : IndexNo) → HasIndexName cat.now name.now i → reads (plan p.now) i ≡ true → result ≡ true }
{
    cat.lawful();
    match cat.index_named(name) {
        Some(i) => reads(p, i),
        None => false,
    }
}

/// Some candidates, with that of a number where a plan reads its index.
fn with_read(cat: &Catalog, x: &Candidate, j: usize, p: &Plan, read: RelSet) -> RelSet
    requires { j < 16 }
    ensures mine { (i : IndexNo) → HasIndexName cat.now x.now.name i → reads (plan p.now) i ≡ true → has result.0 j ≡ true }
    ensures others { (k : ℕ) → has read.0 k ≡ true → has result.0 k ≡ true }
    ensures only { (k : ℕ) → has result.0 k ≡ true → (has read.0 k ≡ true) ⊎ (k ≡ j) }
{
    if reads_named(cat, x.name.items(), p) {
        read.union(RelSet::one(RelNo(j as u8)))
    } else {
        read
    }
}

/// The candidates of a set whose indexes a plan reads.
pub(crate) fn candidates_read(cat: &Catalog, candidates: &[Candidate], set: u16, p: &Plan) -> u16
    requires { length candidates.now ≤ MOST_CANDIDATES }
    ensures part { IsPart result set }
    ensures all { HasAllRead cat.now candidates.now set (plan p.now) (length candidates.now) result }
{
    let mut read = RelSet::empty();
    for j in 0..candidates.len() {
        if has_number(set, j) {
            read = with_read(cat, &candidates[j], j, p, read);
        }
    }
    read.0
}
