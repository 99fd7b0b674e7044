//! Scans of a B-tree, begun from the conditions of the index.

ghost use Rattle.std.specs.Prelude.{◌≡◌, IfOk, false, true};
ghost use Rattle.opfamily.specs.declared.classes.Method.TheVariants.{Btree};
ghost use Rattle.btree_index.specs.work.Tree.{in_direction};
ghost use Rattle.catalog.specs.Contents.{index_at};
ghost use Rattle.plan_tree.specs.Bitmaps.{IsIndexOn};
ghost use Rattle.plan_tree.specs.Space.{IsIndexOnlyScan, IsIndexScan};
ghost use Rattle.store.specs.work.Kept.{sorted};
ghost use Rattle.scan_probes.specs.work.Values.{Given as Rows};
ghost use Rattle.scan_exec.specs.work.Scene.{IsSceneOf};
ghost use Rattle.scan_exec.specs.work.AtScene.{AreUsedThere, entries_within, scene_index, tree_rows};

use crate::scene::Scene;
use crate::sorted::{IndexRows, OnlyRows};
use btree_index::{BTree, Cursor};
use heap::Counters;
use pg_base::{IndexNo, Memory};
use pg_expr::Expr;
use scan_probes::{Given, index_probes};
use store::BuiltIndex;

/// A cursor over the entries of an index that meet those of its conditions that bound a part of it. The error means out of
/// memory.
pub(crate) fn seek<'a, C: Counters>(
    at: &Scene<'a, '_, C>,
    given: &Given,
    i: IndexNo,
    tree: &'a BTree<C::Looks>,
    conditions: &[&Expr],
    backward: bool,
) -> Result<Cursor<'a, C::Looks>, Memory>
    requires scene { IsSceneOf at.now given.now }
    requires index { IsIndexOn at.now.cat.now at.now.q.now at.now.rel.0 i }
    requires tree { sorted tree.now ≡ scene_index at.now i }
    requires conditions { AreUsedThere at.now i conditions.now }
    ensures { IfOk result (λ cursor. cursor ≡
        in_direction backward (entries_within at.now i conditions.now)) }
{
    let def = at.cat.index(i);
    let probes = index_probes(at.alloc, at.rel, &def.keys, given, conditions)?;
    Ok(tree.seek(&probes, backward))
}

/// The scan of a B-tree. The error means out of memory.
pub(crate) fn index_rows<'a, C: Counters>(
    at: &Scene<'a, '_, C>,
    given: Given<'a>,
    i: IndexNo,
    tree: &'a BTree<C::Looks>,
    backward: bool,
) -> Result<IndexRows<'a, C>, Memory>
    requires scene { IsSceneOf at.now given }
    requires scan { IsIndexScan at.now.cat.now at.now.q.now at.now.rel i backward at.now.param }
    requires tree { sorted tree.now ≡ scene_index at.now i }
    ensures { IfOk result (λ s. s ≡ tree_rows at.now i false backward) }
{
    let conditions = at.conditions(i)?;
    let cursor = seek(at, &given, i, tree, &conditions, backward)?;
    let clauses = at.clauses()?;
    let beside = at.beside();
    let def = at.cat.index(i);
    let heap = at.heap();
    Ok(IndexRows::start(beside, given, conditions, clauses, def, cursor, heap))
}

/// The index-only scan of a B-tree. The error means out of memory.
pub(crate) fn only_rows<'a, C: Counters>(
    at: &Scene<'a, '_, C>,
    given: Given<'a>,
    i: IndexNo,
    backward: bool,
) -> Result<OnlyRows<'a, C>, Memory>
    requires scene { IsSceneOf at.now given }
    requires scan { IsIndexOnlyScan at.now.cat.now at.now.q.now at.now.rel i backward at.now.param }
    ensures { IfOk result (λ s. s ≡ tree_rows at.now i true backward) }
{
    let tree = sorted_index(at, i);
    let conditions = at.conditions(i)?;
    let cursor = seek(at, &given, i, tree, &conditions, backward)?;
    let clauses = at.clauses()?;
    let beside = at.beside();
    let def = at.cat.index(i);
    Ok(OnlyRows::start(beside, given, conditions, clauses, def, cursor))
}

/// The B-tree of an index.
pub(crate) fn sorted_index<'a, C: Counters>(
    at: &Scene<'a, '_, C>,
    i: IndexNo,
) -> &'a BTree<C::Looks>
    requires scene { (given : Rows) × IsSceneOf at.now given }
    requires index { IsIndexOn at.now.cat.now at.now.q.now at.now.rel.0 i }
    requires ordered { (index_at at.now.cat.now i).method ≡ Btree }
    ensures { sorted result.now ≡ scene_index at.now i }
{
    match at.store.index(i) {
        BuiltIndex::Sorted(tree) => tree,
        BuiltIndex::Hashed(_) => unreachable!(),
    }
}
