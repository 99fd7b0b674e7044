//! Leaves as they split, and slots as they are linked.

ghost use Rattle.std.specs.Prelude.{◌≡◌, ◌<◌, ◌∷◌, [], IfOk};

use crate::entries::{next_row, of_numbers, put};
use btree_index::{BTree, Cursor};
use linked::Links;
use pg_base::Steps;
use std::alloc::{AllocError, Global};
use std::marker::Brand;
use std::sync::ledger::{Blank, Ledger};

/// Adds so many entries, the least number first or the greatest.
fn put_numbers<L: Ledger>(
    alloc: Global,
    tree: &mut BTree<L>,
    count: u32,
    falling: bool,
) -> Result<(), AllocError> {
    for row in 0..count {
        let number = if falling {
            -i64::from(row)
        } else {
            i64::from(row)
        };
        put(alloc, tree, number, row)?;
    }
    Ok(())
}

/// How many leaves so many entries stand on, which are added to an index.
fn leaves_in<L: Ledger>(
    alloc: Global,
    tree: &mut BTree<L>,
    count: u32,
    falling: bool,
) -> Result<u32, AllocError> {
    put_numbers(alloc, tree, count, falling)?;
    Ok(tree.leaves())
}

/// How many leaves so many entries stand on.
fn leaves_of<L: Ledger>(alloc: Global, count: u32, falling: bool) -> Result<u32, AllocError> {
    let mut tree = of_numbers::<L>(alloc)?;
    leaves_in(alloc, &mut tree, count, falling)
}

/// Numbers of entries, and on how many leaves they stand where each is put in behind the others, and where before them. 129
/// are split into 64 and 65: 63 more fit on the second leaf, and 64 more on the first.
const LEAVES: [(u32, u32, u32); 8] = [
    (0, 1, 1),
    (128, 1, 1),
    (129, 2, 2),
    (192, 2, 2),
    (193, 3, 2),
    (194, 3, 3),
    (257, 4, 3),
    (1_000, 15, 15),
];

/// The first row with other leaves.
fn first_other<L: Ledger>(alloc: Global, rows: &[(u32, u32, u32)]) -> Option<u32> {
    for (count, rising, falling) in rows {
        if leaves_of::<L>(alloc, *count, false) != Ok(*rising)
            || leaves_of::<L>(alloc, *count, true) != Ok(*falling)
        {
            return Some(*count);
        }
    }
    None
}

#[test]
fn full_leaves_are_split(rt: HostRuntime) {
    assert_eq!(rt; first_other::<Brand>(rt.alloc(), &LEAVES), None);
}

/// Whether a cursor gives the rows from 0 up to a number, or the same from the last on, and no other.
fn gives_all<L: Ledger>(tree: &BTree<L>, count: u32, backward: bool, steps: &mut Steps<L>) -> bool {
    let mut cursor = tree.seek(&[], backward);
    follows_all(&mut cursor, count, backward, steps)
}

fn follows_all<L: Ledger>(
    cursor: &mut Cursor<L>,
    count: u32,
    backward: bool,
    steps: &mut Steps<L>,
) -> bool {
    for n in 0..count {
        let row = if backward { count - 1 - n } else { n };
        if next_row(cursor, steps) != Some(row) {
            return false;
        }
    }
    next_row(cursor, steps).is_none()
}

/// The order in which entries are put in.
#[derive(Clone, Copy)]
enum Order {
    Rising,
    Falling,
    Scattered,
}

/// How many entries are put in.
const MANY: u32 = 100_000;

/// The row that is put in as one of many. In each order every row comes once: 61,803 has no divisor in common with their
/// number.
fn row_at(order: Order, n: u32) -> u32
    requires { n < 100000 }
{
    match order {
        Order::Rising => n,
        Order::Falling => MANY - 1 - n,
        Order::Scattered => (u64::from(n) * 61_803 % 100_000) as u32,
    }
}

/// Adds many entries in an order, ten rows to a number.
fn put_many<L: Ledger>(alloc: Global, tree: &mut BTree<L>, order: Order) -> Result<(), AllocError> {
    for n in 0..MANY {
        let row = row_at(order, n);
        put(alloc, tree, i64::from(row / 10), row)?;
    }
    Ok(())
}

/// Whether cursors both ways give many entries, put in by an order, as the sorted list of their rows.
fn gives_many(alloc: Global, order: Order) -> Result<[bool; 2], AllocError> {
    gives_many_with::<Brand>(alloc, order, Blank::new(1))
}

fn gives_many_with<L: Ledger>(
    alloc: Global,
    order: Order,
    blank: Blank,
) -> Result<[bool; 2], AllocError>
    requires name { blank.name ≡ L.name }
    requires parts { blank.parts ≡ L.parts }
    requires some { 0 < blank.parts }
{
    let mut tree = of_numbers::<L>(alloc)?;
    let mut steps = Steps::<L>::new(blank);
    gives_added(alloc, &mut tree, order, &mut steps)
}

/// Whether cursors both ways give many entries, added to this index by an order, as the sorted list of their rows.
fn gives_added<L: Ledger>(
    alloc: Global,
    tree: &mut BTree<L>,
    order: Order,
    steps: &mut Steps<L>,
) -> Result<[bool; 2], AllocError> {
    put_many(alloc, tree, order)?;
    Ok([
        gives_all(tree, MANY, false, steps),
        gives_all(tree, MANY, true, steps),
    ])
}

/// The place of the first order by which a cursor gives something else.
fn first_order(alloc: Global, orders: &[Order]) -> Option<usize> {
    for n in 0..orders.len() {
        if gives_many(alloc, orders[n]) != Ok([true, true]) {
            return Some(n);
        }
    }
    None
}

#[test]
fn cursors_go_over_leaves_both_ways(rt: HostRuntime) {
    let orders = [Order::Rising, Order::Falling, Order::Scattered];
    assert_eq!(rt; first_order(rt.alloc(), &orders), None);
}

/// Three slots, each alone.
fn three_slots(alloc: Global) -> Result<Links, AllocError>
    ensures { IfOk result (λ l. l ≡ (0 ∷ []) ∷ (1 ∷ []) ∷ (2 ∷ []) ∷ []) }
{
    let mut links = Links::new(alloc);
    links.add()?;
    links.add()?;
    links.add()?;
    Ok(links)
}

/// Whether three slots, each alone, are linked behind the first one and taken out again.
fn are_linked(links: &mut Links) -> bool
    requires { links.old ≡ (0 ∷ []) ∷ (1 ∷ []) ∷ (2 ∷ []) ∷ [] }
{
    links.insert_after(0, 1);
    links.insert_after(0, 2);
    let next = [links.next(0), links.next(2), links.next(1)] == [Some(2), Some(1), None];
    let prev = [links.prev(0), links.prev(2), links.prev(1)] == [None, Some(0), Some(2)];
    links.unlink(2);
    next && prev
        && [links.next(0), links.next(1), links.next(2)] == [Some(1), None, None]
        && [links.prev(0), links.prev(1), links.prev(2)] == [None, Some(0), None]
}

#[test]
fn slots_are_linked_both_ways(rt: HostRuntime) {
    let mut links = three_slots(rt.alloc()).expect(&rt, "ample memory");
    assert!(rt; are_linked(&mut links));
}
