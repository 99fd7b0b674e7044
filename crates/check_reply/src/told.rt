//! What is reported of a plan that one entry must dominate and none does.

ghost use Rattle.std.specs.Prelude.{◌≡◌, ◌++◌, IfOk, codes};
ghost use Rattle.std.specs.Fmt.{decimal};
ghost use Rattle.plan_tree.specs.Plans.{Plan};
ghost use Rattle.plan_tree.specs.Space.{IsBuilt};
ghost use Rattle.sql_query.specs.WellBound.{IsWellBound};
ghost use Rattle.plan_check.specs.Certificates as forms;
ghost use Rattle.plan_check.specs.work.Views.{certificate, entry, node as seen};
ghost use Rattle.certificate_check.specs.certificate_text_HasText.{HasEntryLine, HasText};
ghost use Rattle.check_reply.specs.Checked as texts;
ghost use Rattle.check_reply.specs.work.Checked as texts_work;
ghost use Rattle.check_reply.specs.Checked.{IsToldBy};
ghost use Rattle.check_reply.specs.work.Telling.{IsShapeOf, entry_with};
ghost use Rattle.plan_check.specs.Plains.{StandsForPlan};
ghost use Rattle.plan_check.specs.Reasons.{AllRight};
ghost use Rattle.plan_check.specs.Verdicts.{IsUncovered};
ghost use Rattle.certificate_check.specs.certificate_laws_Arms.{HasArmsInOrs};

use crate::shape::Shape;
use crate::shapes::{bitmap_shape, index_shape, merge_shape, nest_shape, seq_shape};
use catalog::Catalog;
use certificate_check::certificate_laws::certificate_text::entry_line;
use certificate_check::entry_check::ByIndex;
use certificate_check::join_cover::Uncovered;
use pg_base::Memory;
use plan_check::{Certificate, Entry, Plain};
use sql_query::Prepared;
use std::alloc::Global;

/// The entry of a candidate over the entries of a certificate, without its numbers. The error means out of memory.
fn shape_of(
    alloc: Global,
    cat: &Catalog,
    q: &Prepared,
    t: &Certificate,
    node: &Plain,
) -> Result<Shape, Memory>
    requires bound { IsWellBound cat.now q.now }
    requires right { AllRight cat.now q.now (certificate t.now) }
    requires built { (p : Plan) ×
        StandsForPlan cat.now q.now (certificate t.now) node.now p × IsBuilt cat.now q.now p }
    ensures { IfOk result (IsShapeOf cat.now q.now (certificate t.now) node.now) }
{
    match node {
        Plain::Seq { rel } => seq_shape(alloc, *rel),
        Plain::Index {
            rel,
            index,
            backward,
            only,
            param,
        } => {
            let s = ByIndex {
                rel: *rel,
                index: *index,
                backward: *backward,
                param: *param,
                only: *only,
            };
            index_shape(alloc, cat, q, s)
        }
        Plain::Bitmap {
            rel,
            param,
            elements,
            arms,
        } => bitmap_shape(alloc, cat, q, (*rel, *param), *elements, arms),
        Plain::Nest { outer, inner } => nest_shape(alloc, t, *outer, *inner),
        Plain::Merge { keys, outer, inner } => merge_shape(alloc, t, keys, *outer, *inner),
    }
}

/// An entry with its numbers.
fn with_numbers(shape: Shape, x: Uncovered) -> Entry
    ensures { entry result ≡
        entry_with shape.set shape.param (seen shape.node) shape.keys x.startup x.cost x.rows }
{
    Entry {
        set: shape.set,
        param: shape.param,
        node: shape.node,
        startup: x.startup,
        cost: x.cost,
        rows: x.rows,
        keys: shape.keys,
    }
}

/// The entry that tells a candidate which no entry of a certificate dominates. The error means out of memory.
fn told_by(
    alloc: Global,
    cat: &Catalog,
    q: &Prepared,
    t: &Certificate,
    node: &Plain,
    x: Uncovered,
) -> Result<Entry, Memory>
    requires bound { IsWellBound cat.now q.now }
    requires arms { HasArmsInOrs q.now }
    requires right { AllRight cat.now q.now (certificate t.now) }
    requires uncovered { IsUncovered cat.now q.now (certificate t.now)
        node.now x.startup x.cost x.rows }
    ensures told { IfOk result (λ e.
        IsToldBy cat.now q.now (certificate t.now) node.now x.startup x.cost x.rows (entry e)) }
    ensures line { IfOk result (λ e. HasEntryLine cat.now q.now (entry e)) }
{
    cat.lawful();
    let _ = t.entries.items();
    let shape = shape_of(alloc, cat, q, t, node)?;
    Ok(with_numbers(shape, x))
}

/// The line of an entry without its number. The error means out of memory.
fn entry_text(alloc: Global, cat: &Catalog, q: &Prepared, e: &Entry) -> Result<Vec<u8>, Memory>
    requires bound { IsWellBound cat.now q.now }
    requires line { HasEntryLine cat.now q.now (entry e.now) }
    ensures { IfOk result (λ text. text.items ≡ texts.uncovered_text cat.now q.now (entry e.now)) }
{
    let line = entry_line(alloc, cat, q, 1, e)?;
    let mut text = Vec::from_slice(alloc, b"C4 ")?;
    text.extend_from_slice(&line.items()[2..])?;
    Ok(text)
}

/// A plan that one entry must dominate and none does, as the line of an entry without its number. The error means out of
/// memory.
pub(crate) fn uncovered_text(
    alloc: Global,
    cat: &Catalog,
    q: &Prepared,
    t: &Certificate,
    node: &Plain,
    x: Uncovered,
) -> Result<Vec<u8>, Memory>
    requires bound { IsWellBound cat.now q.now }
    requires arms { HasArmsInOrs q.now }
    requires right { AllRight cat.now q.now (certificate t.now) }
    requires uncovered { IsUncovered cat.now q.now (certificate t.now)
        node.now x.startup x.cost x.rows }
    ensures { IfOk result (λ text. (e : forms.Entry) ×
        IsToldBy cat.now q.now (certificate t.now) node.now x.startup x.cost x.rows e ×
        HasEntryLine cat.now q.now e × (text.items ≡ texts.uncovered_text cat.now q.now e)) }
{
    let told = told_by(alloc, cat, q, t, node, x)?;
    entry_text(alloc, cat, q, &told)
}
