//! The scans of a table with a B-tree and a hash index on its first column.

ghost use Rattle.std.specs.Prelude.{◌≡◌, ◌<◌, [], All, IfOk, length};
ghost use Rattle.sql_query.specs.Queries.{width};

use crate::texts::{Texts, indexed};
use catalog::{Catalog, RangeTable};
use eq_classes::Classes;
use fixtures::name;
use pareto::Front;
use pg_base::{ColNo, Memory, RelNo, RelSet, TableNo};
use pg_expr::{ColRef, Exprs};
use pg_value::Value;
use plan_tree::Path;
use scan_paths::scans;
use sql_query::{ColList, OrderList, Prepared};
use std::alloc::Global;

/// The classes of no conditions and no order.
fn no_classes(alloc: Global) -> Result<Classes, Memory>
    ensures { IfOk result (λ t. t.clauses ≡ []) }
{
    let texts = Texts { value: Value::Null };
    let classes = Classes::build(alloc, Exprs::from_vec(Vec::new(alloc)), &[], &texts)?;
    Ok(classes)
}

/// The first table as `t`.
fn relation(alloc: Global) -> Result<RangeTable, Memory>
    ensures range { IfOk result (λ r. All (λ x. x.0.0 ≡ 0) r) }
    ensures one { IfOk result (λ r. length r ≡ 1) }
{
    let named = name(alloc, b't')?;
    let mut range = Vec::new(alloc);
    range.push((TableNo(0), named))?;
    Ok(RangeTable::from_vec(range))
}

/// The first `count` columns of the first relation.
fn columns(alloc: Global, count: u8) -> Result<ColList, Memory> {
    let columns = (0..count).map(|col| ColRef {
        rel: RelNo(0),
        col: ColNo(col),
    });
    Ok(ColList::from_vec(columns.collect(alloc)?))
}

/// A query of the table without a condition, which names so many of its columns.
fn query(alloc: Global, count: u8) -> Result<Prepared, Memory>
    ensures range { IfOk result (λ q. All (λ r. r.0.0 ≡ 0) q.range) }
    ensures width { IfOk result (λ q. width q ≡ 1) }
    ensures clauses { IfOk result (λ q. q.classes.clauses ≡ []) }
{
    let range = relation(alloc)?;
    let used = columns(alloc, count)?;
    let classes = no_classes(alloc)?;
    Ok(Prepared {
        range,
        classes,
        select: ColList::from_vec(Vec::new(alloc)),
        order: OrderList::from_vec(Vec::new(alloc)),
        used,
        where_all: Exprs::from_vec(Vec::new(alloc)),
        window: None,
    })
}

/// Whether no scan is offered for a parameterisation by a relation that is not there, and one scan of this cost is kept without
/// one.
fn is_kept(alloc: Global, cat: &Catalog, q: &Prepared, front: &mut Front<Path>, cost: u64) -> bool
    requires some { 0 < length cat.now.tables }
    requires none { front.old ≡ [] }
    requires range { All (λ r. r.0.0 ≡ 0) q.now.range }
    requires width { width q.now ≡ 1 }
    requires clauses { q.now.classes.clauses ≡ [] }
{
    let offered = scans(alloc, cat, q, RelNo(0), RelSet(2), front).is_ok();
    let none = front.items().len();
    let kept = scans(alloc, cat, q, RelNo(0), RelSet(0), front).is_ok();
    let costs_so = matches!(front.items(), [path] if path.cost == cost);
    offered && none == 0 && kept && costs_so
}

/// Whether one scan of this cost is kept of a query of this number of columns, without a parameterisation alone.
fn is_kept_of(alloc: Global, cat: &Catalog, columns: u8, cost: u64) -> bool
    requires { 0 < length cat.now.tables }
{
    match query(alloc, columns) {
        Ok(q) => is_kept(alloc, cat, &q, &mut Front::new(alloc), cost),
        Err(_) => false,
    }
}

#[test]
fn the_cheapest_scan_is_kept(rt: HostRuntime) {
    let alloc = rt.alloc();
    let mut cat = indexed(alloc).expect(&rt, "a catalogue");
    let sized = cat.set_rows(TableNo(0), 100_000, 50_000);
    assert!(rt; sized.is_ok());
    assert!(rt; is_kept_of(alloc, &cat, 1, 1_400_167));
    assert!(rt; is_kept_of(alloc, &cat, 2, 20_400_000));
}
