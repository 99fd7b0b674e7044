//! Trees inside and outside the plan space of a query of one table, taken twice, joined by its first column and sorted by
//! it.

ghost use Rattle.std.specs.Prelude.{◌≡◌, ◌<◌, ◌≤◌, All, IfOk, IsTrue, length};
ghost use Rattle.pg_base.specs.declared.limits.TheConstants.{MOST_CONJUNCTS};
ghost use Rattle.pg_expr.specs.Cond.{cond_and, no_conds};
ghost use Rattle.pg_expr.specs.work.View.{cond, conds};
ghost use Rattle.catalog.specs.work.TextTables.{HasTexts};
ghost use Rattle.eq_classes.specs.Clauses.{Clause};
ghost use Rattle.worked_plans.specs.work.Examples.{firsts_equal, twice};

use crate::texts::{Texts, indexed};
use catalog::{Catalog, RangeTable};
use eq_classes::{ClassNo, Classes, OrderItem};
use fixtures::name;
use pathkeys::Keys;
use pg_base::{ColNo, IndexNo, Memory, RelNo, RelSet, TableNo};
use pg_expr::{ColRef, Expr, Exprs, Operand, is_same};
use pg_value::{Op, Value};
use plan_space::validate;
use plan_tree::{BitTree, BitTrees, Plan, classes_of};
use sql_query::{ColList, OrderList, Prepared};
use std::alloc::Global;

fn column(rel: u8, col: u8) -> ColRef
    ensures { result ≡ record { rel = record { 0 = rel }; col = record { 0 = col } } }
{
    ColRef {
        rel: RelNo(rel),
        col: ColNo(col),
    }
}

fn firsts() -> Expr
    ensures { cond result ≡ firsts_equal }
{
    Expr::Compare(
        Op::Eq,
        Operand::Col(column(0, 0)),
        Operand::Col(column(1, 0)),
    )
}

fn conjuncts(alloc: Global) -> Result<Exprs, Memory>
    ensures parts { IfOk result (λ es. conds es.items.items ≡ cond_and firsts_equal no_conds) }
    ensures few { IfOk result (λ es. length es.items.items ≤ MOST_CONJUNCTS) }
{
    let mut items = Vec::new(alloc);
    items.push(firsts())?;
    Ok(Exprs::from_vec(items))
}

fn relations(alloc: Global) -> Result<RangeTable, Memory>
    ensures { IfOk result (λ r. r ≡ twice) }
{
    let (first, second) = (name(alloc, b'a')?, name(alloc, b'b')?);
    let mut range = Vec::new(alloc);
    range.push((TableNo(0), first))?;
    range.push((TableNo(0), second))?;
    Ok(RangeTable::from_vec(range))
}

/// The classes of the condition and an order by a column of the first relation.
fn classes(alloc: Global, item: OrderItem) -> Result<Classes, Memory>
    requires { item.col.rel.0 ≡ 0 }
{
    let conjuncts = conjuncts(alloc)?;
    Classes::build(alloc, conjuncts, &[item], &Texts { value: Value::Null })
}

/// The query: the first relation sorted by its first column; it names both columns of the first relation and the first
/// one of the second.
fn query(alloc: Global) -> Result<Prepared, Memory>
    ensures { IfOk result (λ q. q.range ≡ twice) }
{
    let item = OrderItem {
        col: column(0, 0),
        descending: false,
        nulls_first: false,
    };
    let order = Vec::from_slice(alloc, &[item])?;
    let used = Vec::from_slice(alloc, &[column(0, 0), column(0, 1), column(1, 0)])?;
    let range = relations(alloc)?;
    let classes = classes(alloc, item)?;
    Ok(Prepared {
        range,
        classes,
        select: ColList::from_vec(Vec::new(alloc)),
        order: OrderList::from_vec(order),
        used: ColList::from_vec(used),
        where_all: Exprs::from_vec(Vec::new(alloc)),
        window: None,
    })
}

/// Whether each clause is the condition, that the first columns are equal.
fn are_all(classes: &Classes, wanted: &Expr) -> bool
    requires { cond wanted.now ≡ firsts_equal }
    ensures { IsTrue result → All (λ (k : Clause). k.cond ≡ firsts_equal) classes.now.clauses }
{
    for n in 0..classes.count() {
        if !is_same(classes.clause(n as u16), wanted) {
            return false;
        }
    }
    true
}

/// Whether each clause is that the first columns are equal.
fn are_firsts(q: &Prepared) -> bool
    ensures { IsTrue result → All (λ (k : Clause). k.cond ≡ firsts_equal) q.now.classes.clauses }
{
    are_all(classes_of(q), &firsts())
}

/// What a scan of a table is.
#[derive(Clone, Copy)]
enum Form {
    Seq,
    Index,
    IndexOnly,
    Bitmap,
    And,
}

/// A scan: its form, relation, index and parameterisation, and by how many classes a sort on top of it sorts.
type Scan = (Form, u8, u16, u16, usize);

/// The bitmap by one index, or an AND of it alone.
fn bits(alloc: Global, index: u16, alone: bool) -> Result<BitTree, Memory> {
    let leaf = BitTree::Leaf(IndexNo(index));
    if alone {
        return Ok(leaf);
    }
    let mut items = Vec::new(alloc);
    items.push(leaf)?;
    Ok(BitTree::And(BitTrees { items }))
}

/// The plan of a scan, without its sort.
fn bare(alloc: Global, s: Scan) -> Result<Plan, Memory> {
    let (form, rel, index, param, _) = s;
    let (rel, index, param) = (RelNo(rel), IndexNo(index), RelSet(param));
    let backward = false;
    match form {
        Form::Seq => Ok(Plan::Seq { rel }),
        Form::Index => Ok(Plan::Index {
            rel,
            index,
            backward,
            param,
        }),
        Form::IndexOnly => Ok(Plan::IndexOnly {
            rel,
            index,
            backward,
            param,
        }),
        Form::Bitmap => {
            let bits = bits(alloc, s.2, true)?;
            Ok(Plan::Bitmap { rel, param, bits })
        }
        Form::And => {
            let bits = bits(alloc, s.2, false)?;
            Ok(Plan::Bitmap { rel, param, bits })
        }
    }
}

/// A list of so many classes, from one on.
fn list(alloc: Global, from: u16, count: usize) -> Result<Keys, Memory>
    requires { from < 1000 }
{
    let all = [ClassNo(from), ClassNo(from + 1), ClassNo(from + 2)];
    Keys::from_slice(alloc, &all[..count.min(3)])
}

/// A plan under a sort by so many classes; itself where there are none.
fn sorted(alloc: Global, sorts: usize, p: Plan) -> Result<Plan, Memory> {
    if sorts == 0 {
        return Ok(p);
    }
    let input = Box::new(alloc, p)?;
    let keys = list(alloc, 0, sorts)?;
    Ok(Plan::Sort { keys, input })
}

/// The plan of a scan.
fn side(alloc: Global, s: Scan) -> Result<Box<Plan>, Memory> {
    let p = sorted(alloc, s.4, bare(alloc, s)?)?;
    Ok(Box::new(alloc, p)?)
}

/// A merge of two scans by the class of a number, a nested loop where there is none.
fn joined(alloc: Global, class: Option<u16>, o: Scan, i: Scan) -> Result<Plan, Memory> {
    let outer = side(alloc, o)?;
    let inner = side(alloc, i)?;
    match class {
        None => Ok(Plan::Nest { outer, inner }),
        Some(c) => {
            let keys = list(alloc, c.min(900), 1)?;
            Ok(Plan::Merge { keys, outer, inner })
        }
    }
}

/// Sequential scans of the first relation, the second and one that is not there.
const A: Scan = (Form::Seq, 0, 0, 0, 0);

const B: Scan = (Form::Seq, 1, 0, 0, 0);

const F: Scan = (Form::Seq, 5, 0, 0, 0);
/// Scans of both by the B-tree.
const A_BY: Scan = (Form::Index, 0, 0, 0, 0);

const B_BY: Scan = (Form::Index, 1, 0, 0, 0);
/// Sequential scans of both under a sort by one class, and of the first by two.
const A_SORTED: Scan = (Form::Seq, 0, 0, 0, 1);

const B_SORTED: Scan = (Form::Seq, 1, 0, 0, 1);

const A_LONGER: Scan = (Form::Seq, 0, 0, 0, 2);

/// The class of a merge, none for a nested loop; its sides; by how many classes a sort on top sorts; whether the tree is a
/// finished plan of the plan space.
type Tree = (Option<u16>, Scan, Scan, usize, bool);

const TREES: [Tree; 24] = [
    (None, A_BY, B, 0, true),
    (None, A, B, 1, true),
    (None, A, (Form::Index, 1, 0, 1, 0), 1, true),
    (None, A, (Form::Index, 1, 1, 1, 0), 1, true),
    (None, A, (Form::Bitmap, 1, 0, 1, 0), 1, true),
    (None, A_BY, (Form::IndexOnly, 1, 0, 0, 0), 0, true),
    (None, A, B, 0, false),
    (None, (Form::IndexOnly, 0, 0, 0, 0), B, 0, false),
    (None, A, B, 2, false),
    (None, A_SORTED, B, 0, false),
    (None, A, (Form::And, 1, 0, 1, 0), 1, false),
    (None, A, F, 1, false),
    (None, A, A, 1, false),
    (None, A, (Form::Index, 1, 99, 1, 0), 1, false),
    (None, A, (Form::Index, 1, 0, 0x8001, 0), 1, false),
    (None, (Form::Index, 0, 0, 2, 0), B, 1, false),
    (None, A, (Form::Index, 1, 1, 0, 0), 1, false),
    (Some(0), A_BY, B_BY, 0, true),
    (Some(0), A_SORTED, B_SORTED, 0, true),
    (Some(0), (Form::Index, 0, 0, 0, 1), B_BY, 0, true),
    (Some(0), A_BY, B, 0, false),
    (Some(0), A_LONGER, B_BY, 0, false),
    (Some(1), A_SORTED, B_SORTED, 0, false),
    (Some(900), A_BY, B_BY, 0, false),
];

/// Whether a tree is judged as it should be.
fn is_judged(alloc: Global, cat: &Catalog, q: &Prepared, tree: Tree) -> Result<bool, Memory>
    requires texts { HasTexts cat.now }
    requires range { q.now.range ≡ twice }
    requires firsts { All (λ (k : Clause). k.cond ≡ firsts_equal) q.now.classes.clauses }
{
    let (class, outer, inner, sorts, is) = tree;
    let p = sorted(alloc, sorts, joined(alloc, class, outer, inner)?)?;
    Ok(validate(cat, q, &p) == is)
}

/// The place of the first tree that is not judged so. None where each is.
fn first_wrong(
    alloc: Global,
    cat: &Catalog,
    q: &Prepared,
    trees: &[Tree],
) -> Result<Option<usize>, Memory>
    requires texts { HasTexts cat.now }
    requires range { q.now.range ≡ twice }
    requires firsts { All (λ (k : Clause). k.cond ≡ firsts_equal) q.now.classes.clauses }
{
    for n in 0..trees.len() {
        if !is_judged(alloc, cat, q, trees[n])? {
            return Ok(Some(n));
        }
    }
    Ok(None)
}

#[test]
fn trees_are_judged(rt: HostRuntime) {
    let alloc = rt.alloc();
    let cat = indexed(alloc).expect(&rt, "a catalogue");
    let q = query(alloc).expect(&rt, "a query");
    assert!(rt; are_firsts(&q));
    assert_eq!(rt; first_wrong(alloc, &cat, &q, &TREES), Ok(None));
}
