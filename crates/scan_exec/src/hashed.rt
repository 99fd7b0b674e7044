//! Scans of a hash index, begun from the condition of the index.

ghost use Rattle.std.specs.Prelude.{◌≡◌, ◌∷◌, [], IfOk, map};
ghost use Rattle.pg_expr.specs.work.View.{cond};
ghost use Rattle.plan_tree.specs.Bitmaps.{IsIndexOn};
ghost use Rattle.store.specs.work.Kept.{hashed};
ghost use Rattle.scan_exec.specs.work.Scene.{IsSceneOf};
ghost use Rattle.scan_exec.specs.work.AtScene.{HasIndexCondition, IsUsedThere, hash_scan_rows, rows_meeting, scene_index};

use crate::numbers::HashRows;
use crate::scene::Scene;
use hash_index::HashIndex;
use heap::Counters;
use pg_base::{IndexNo, Memory, Tid};
use pg_expr::Expr;
use scan_probes::{Given, equal_value};

/// The rows of a hash index at which a condition is True, rising. The error means out of memory.
pub(crate) fn rows_equal<'a, C: Counters>(
    at: &Scene<'a, '_, C>,
    given: &Given,
    i: IndexNo,
    index: &'a HashIndex,
    condition: &Expr,
) -> Result<&'a [Tid], Memory>
    requires scene { IsSceneOf at.now given.now }
    requires index { IsIndexOn at.now.cat.now at.now.q.now at.now.rel.0 i }
    requires table { hashed index.now ≡ scene_index at.now i }
    requires used { IsUsedThere at.now i (cond condition.now) }
    ensures { IfOk result (λ tids. map (λ t. t.0) tids.now ≡
        rows_meeting at.now i (cond condition.now ∷ [])) }
{
    let def = at.cat.index(i);
    let value = equal_value(at.alloc, at.rel, def.keys[0], given, condition)?;
    Ok(index.matches(&value))
}

/// The scan of a hash index, which has one condition. The error means out of memory.
pub(crate) fn hash_rows<'a, C: Counters>(
    at: &Scene<'a, '_, C>,
    given: Given<'a>,
    i: IndexNo,
    index: &'a HashIndex,
) -> Result<HashRows<'a, C>, Memory>
    requires scene { IsSceneOf at.now given }
    requires index { IsIndexOn at.now.cat.now at.now.q.now at.now.rel.0 i }
    requires condition { HasIndexCondition at.now i }
    requires table { hashed index.now ≡ scene_index at.now i }
    ensures { IfOk result (λ s. s ≡ hash_scan_rows at.now i) }
{
    let conditions = at.conditions(i)?;
    let tids = rows_equal(at, &given, i, index, conditions[0])?;
    let clauses = at.clauses()?;
    let beside = at.beside();
    let heap = at.heap();
    Ok(HashRows::start(beside, given, clauses, heap, tids))
}
