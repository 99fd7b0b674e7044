//! Scans of every kind, drawn from row by row.

ghost use Rattle.std.specs.Prelude.{◌≡◌, ◌+◌, ◌≤◌, IfOk, OnErr, OnOk, option_map};
ghost use Rattle.sql_query.specs.WellBound.{IsWellBound};
ghost use Rattle.sql_query.specs.Worlds.{world};
ghost use Rattle.plan_tree.specs.Space.{IsBuilt, IsIndexScan};
ghost use Rattle.plan_tree.specs.work.Views.{plan};
ghost use Rattle.store.specs.work.Kept.{IsStoreOf};
ghost use Rattle.scan_exec.specs.Coming.{is_given, owed};
ghost use Rattle.scan_exec.specs.work.Coming.{looks_allowed, behind, first_given};
ghost use Rattle.scan_exec.specs.work.Plans as plans;
ghost use Rattle.scan_exec.specs.work.Plans.{IsScan};
ghost use Rattle.scan_exec.specs.work.Rows.{rows_of_kind};
ghost use Rattle.scan_exec.specs.work.Scene.{IsSceneOf};
ghost use Rattle.scan_exec.specs.work.Handed.{AreHanded, handed_coming, handed_looks};
ghost use Rattle.scan_exec.specs.work.AtScene.{index_scan_rows, outer_looks, scene_coming, scene_looks};

use crate::bitmap::bit_rows;
use crate::hashed::hash_rows;
use crate::index::{index_rows, only_rows};
use crate::numbers::{BitRows, HashRows};
use crate::scene::Scene;
use crate::seq::{SeqRows, seq_rows};
use crate::sorted::{IndexRows, OnlyRows};
use catalog::Catalog;
use heap::Counters;
use pg_base::{IndexNo, Memory, RelNo, RelSet, Steps, Tid};
use plan_tree::Plan;
use scan_probes::{Given, read_given};
use sql_query::Prepared;
use std::alloc::Global;
use std::marker::Model;
use store::{BuiltIndex, Store};

/// A scan by its kind.
#[derive(Drop)]
pub(crate) enum Kind<'a, C: Counters> {
    Seq(SeqRows<'a, C>),
    Index(IndexRows<'a, C>),
    Only(OnlyRows<'a, C>),
    Hash(HashRows<'a, C>),
    Bits(BitRows<'a, C>),
}

/// A scan of a plan, drawn from row by row. Contracts see the rows that it has still to come to.
pub struct ScanRows<'a, C: Counters> {
    kind: Kind<'a, C>,
}

impl<'a, C: Counters> Drop for ScanRows<'a, C> {
    fn drop(self) {
        let ScanRows { kind: _ } = self;
    }
}

impl<'a, C: Counters> Model for ScanRows<'a, C> {
    ghost use Rattle.std.specs.Prelude.{List};
    ghost use Rattle.scan_exec.specs.Coming.{Coming};

    ghost Value = { List Coming };

    ghost use Rattle.scan_exec.specs.work.Rows.{rows_of_kind};

    ghost view = { λ s. rows_of_kind s.kind };
}

/// The relation of a scan.
pub(crate) fn relation_of(p: &Plan) -> RelNo
    requires { IsScan (plan p.now) }
    ensures { result ≡ plans.relation_of (plan p.now) }
{
    match p {
        Plan::Seq { rel }
        | Plan::Index { rel, .. }
        | Plan::IndexOnly { rel, .. }
        | Plan::Bitmap { rel, .. } => *rel,
        _ => unreachable!(),
    }
}

/// The relations whose rows a scan is given.
fn param_of(p: &Plan) -> RelSet
    requires { IsScan (plan p.now) }
    ensures { result ≡ plans.param_set (plan p.now) }
{
    match p {
        Plan::Index { param, .. } | Plan::IndexOnly { param, .. } | Plan::Bitmap { param, .. } => {
            *param
        }
        _ => RelSet(0),
    }
}

/// The scan of an index, by the kind of the index.
fn by_index<'a, C: Counters>(
    at: &Scene<'a, '_, C>,
    given: Given<'a>,
    i: IndexNo,
    backward: bool,
) -> Result<Kind<'a, C>, Memory>
    requires scene { IsSceneOf at.now given }
    requires scan { IsIndexScan at.now.cat.now at.now.q.now at.now.rel i backward at.now.param }
    ensures { IfOk result (λ kind. rows_of_kind kind ≡ index_scan_rows at.now i backward) }
{
    match at.store.index(i) {
        BuiltIndex::Sorted(tree) => {
            let rows = index_rows(at, given, i, tree, backward)?;
            Ok(Kind::Index(rows))
        }
        BuiltIndex::Hashed(index) => {
            let rows = hash_rows(at, given, i, index)?;
            Ok(Kind::Hash(rows))
        }
    }
}

/// The scan of a plan, where its rows are given.
fn by_plan<'a, C: Counters>(
    at: &Scene<'a, '_, C>,
    given: Given<'a>,
    p: &Plan,
    reads: &mut Steps<C::Looks>,
) -> Result<Kind<'a, C>, Memory>
    requires scene { IsSceneOf at.now given }
    requires scan { IsScan (plan p.now) }
    requires built { IsBuilt at.now.cat.now at.now.q.now (plan p.now) }
    requires relation { at.now.rel ≡ plans.relation_of (plan p.now) }
    requires param { at.now.param ≡ plans.param_set (plan p.now) }
    ensures coming { IfOk result (λ kind. rows_of_kind kind ≡ scene_coming at.now (plan p.now)) }
    ensures looks { IfOk result (λ kind.
        reads.new + (looks_allowed (rows_of_kind kind) + outer_looks at.now) ≤
        reads.old + scene_looks at.now (plan p.now)) }
    ensures most { reads.new + outer_looks at.now ≤ reads.old + scene_looks at.now (plan p.now) }
{
    match p {
        Plan::Seq { .. } => {
            let rows = seq_rows(at, given)?;
            Ok(Kind::Seq(rows))
        }
        Plan::Index {
            index,
            backward,
            ..
        } => by_index(at, given, *index, *backward),
        Plan::IndexOnly {
            index,
            backward,
            ..
        } => {
            let rows = only_rows(at, given, *index, *backward)?;
            Ok(Kind::Only(rows))
        }
        Plan::Bitmap { bits, .. } => {
            let rows = bit_rows(at, given, bits, reads)?;
            Ok(Kind::Bits(rows))
        }
        _ => unreachable!(),
    }
}

impl<'a, C: Counters> ScanRows<'a, C> {
    /// The scan of a plan over a store, where rows of the relations of its parameterisation are given by their numbers, in FROM
    /// order. These are read, and the tree of a bitmap is made; the looks of both, and those still to come, are within the
    /// plan's. The error means out of memory.
    pub fn start(
        alloc: Global,
        cat: &'a Catalog,
        q: &'a Prepared,
        p: &'a Plan,
        store: &'a Store<C>,
        outer: &[Tid],
        reads: &mut Steps<C::Looks>,
    ) -> Result<ScanRows<'a, C>, Memory>
        requires bound { IsWellBound cat.now q.now }
        requires store { IsStoreOf cat.now store.now }
        requires scan { IsScan (plan p.now) }
        requires built { IsBuilt cat.now q.now (plan p.now) }
        requires outer { AreHanded (world cat.now store.now.stored) q.now (plan p.now) outer.now }
        ensures coming { IfOk result (λ s.
            s ≡ handed_coming (world cat.now store.now.stored) q.now (plan p.now) outer.now) }
        ensures looks { IfOk result (λ s. reads.new + looks_allowed s ≤ reads.old +
            handed_looks (world cat.now store.now.stored) q.now (plan p.now) outer.now) }
        ensures most { reads.new ≤ reads.old +
            handed_looks (world cat.now store.now.stored) q.now (plan p.now) outer.now }
    {
        let rel = relation_of(p);
        let param = param_of(p);
        let heaps = store.heaps();
        let given = read_given(alloc, cat, q, heaps, param, outer, reads)?;
        let at = Scene {
            alloc,
            cat,
            q,
            store,
            rel,
            param,
            outer,
        };
        let kind = by_plan(&at, given, p, reads)?;
        Ok(ScanRows { kind })
    }

    /// Begins anew, as `start` does, in the place of the scan that it was. If memory runs out, it is as before.
    pub fn restart(
        &mut self,
        alloc: Global,
        cat: &'a Catalog,
        q: &'a Prepared,
        p: &'a Plan,
        store: &'a Store<C>,
        outer: &[Tid],
        reads: &mut Steps<C::Looks>,
    ) -> Result<(), Memory>
        requires bound { IsWellBound cat.now q.now }
        requires store { IsStoreOf cat.now store.now }
        requires scan { IsScan (plan p.now) }
        requires built { IsBuilt cat.now q.now (plan p.now) }
        requires outer { AreHanded (world cat.now store.now.stored) q.now (plan p.now) outer.now }
        ensures coming { OnOk result (self.new ≡
            handed_coming (world cat.now store.now.stored) q.now (plan p.now) outer.now) }
        ensures refused { OnErr result (self.new ≡ self.old) }
        ensures looks { OnOk result (reads.new + looks_allowed self.new ≤ reads.old +
            handed_looks (world cat.now store.now.stored) q.now (plan p.now) outer.now) }
        ensures most { reads.new ≤ reads.old +
            handed_looks (world cat.now store.now.stored) q.now (plan p.now) outer.now }
    {
        let rows = ScanRows::start(alloc, cat, q, p, store, outer, reads)?;
        *self = rows;
        Ok(())
    }

    /// The next row that is given. Of the rows that the scan comes to, up to and with that one, each that its kind fetches is
    /// one fetch, and each entry one look.
    pub fn next(
        &mut self,
        fetches: &mut Steps<C::Fetches>,
        reads: &mut Steps<C::Looks>,
    ) -> Option<Tid>
        ensures row { option_map (λ t. t.0) result ≡ first_given self.old }
        ensures rest { self.new ≡ behind is_given self.old }
        ensures exact { fetches.new + owed self.new ≡ fetches.old + owed self.old }
        ensures looked { reads.new + looks_allowed self.new ≡ reads.old + looks_allowed self.old }
    {
        match &mut self.kind {
            Kind::Seq(rows) => rows.next(fetches),
            Kind::Index(rows) => rows.next(fetches, reads),
            Kind::Only(rows) => rows.next(reads),
            Kind::Hash(rows) => rows.next(fetches),
            Kind::Bits(rows) => rows.next(fetches),
        }
    }
}
