//! Costs of worked plans, computed by hand.

ghost use Rattle.std.specs.Prelude.{◌≡◌, IsTrue};
ghost use Rattle.cost_rules.specs.work.Costs.{IsEstimate};

use cost_rules::{
    ENTRIES_PER_PAGE, HASH_DESCENT, MOST_COST, MOST_ESTIMATE, Pair, bitmap_scan, btree_descent,
    heap_pages, index_entries, index_scan, log_up, merge, nest, price, seq_scan, sort,
};

fn pair(startup: u64, total: u64) -> Pair
    ensures startup { result.startup ≡ startup }
    ensures total { result.total ≡ total }
{
    Pair { startup, total }
}

fn is_estimate(n: u64) -> bool
    ensures { IsTrue result → IsEstimate n }
{
    1 <= n && n <= MOST_ESTIMATE
}

/// A number worked by hand, as the last of those that a case has.
#[derive(Clone, Copy)]
enum Worked {
    /// A base, a number, and the least power of the base that reaches it.
    Log(u64, u64, u64),
    /// Rows, pages, and how many of the pages the rows stand on.
    Pages(u64, u64, u64),
    /// Entries, and the cost of the way down to one.
    Descent(u64, u64),
    /// Startup and total cost, the rows asked for and all of them, and the price.
    Price(u64, u64, u64, u64, u64),
}

const WORKED: [Worked; 19] = [
    Worked::Log(2, 1, 0),
    Worked::Log(2, 2, 1),
    Worked::Log(2, 3, 2),
    Worked::Log(2, 1000, 10),
    Worked::Log(200, 1, 0),
    Worked::Log(200, 201, 2),
    Worked::Pages(10, 10, 7),
    Worked::Pages(1, 1000, 1),
    Worked::Pages(1_000_000_000, 10, 10),
    Worked::Pages(20, 10, 10),
    Worked::Descent(1, 51),
    Worked::Descent(1000, 110),
    Worked::Descent(334, 109),
    Worked::Descent(100_000, 167),
    Worked::Price(0, 412, 2, 3, 275),
    Worked::Price(0, 9000, 1, 10, 900),
    Worked::Price(1740, 7110, 1, 10, 2277),
    Worked::Price(1740, 7110, 9, 10, 6573),
    Worked::Price(0, 412, 3, 3, 412),
];

fn is_log(base: u64, n: u64, power: u64) -> bool {
    2 <= base && base <= ENTRIES_PER_PAGE && is_estimate(n) && log_up(base, n) == power
}

fn are_pages(rows: u64, pages: u64, touched: u64) -> bool {
    is_estimate(rows) && is_estimate(pages) && heap_pages(rows, pages) == touched
}

fn is_price(cost: Pair, asked: u64, rows: u64, wanted: u64) -> bool {
    cost.startup <= cost.total
        && asked <= rows
        && is_estimate(rows)
        && price(cost, asked, rows) == wanted
}

fn is_worked(row: Worked) -> bool {
    match row {
        Worked::Log(base, n, power) => is_log(base, n, power),
        Worked::Pages(rows, pages, touched) => are_pages(rows, pages, touched),
        Worked::Descent(entries, descent) => {
            is_estimate(entries) && btree_descent(entries) == descent
        }
        Worked::Price(startup, total, asked, rows, wanted) => {
            is_price(pair(startup, total), asked, rows, wanted)
        }
    }
}

/// The place of the first row with another number.
fn first_other(rows: &[Worked]) -> Option<usize> {
    for n in 0..rows.len() {
        if !is_worked(rows[n]) {
            return Some(n);
        }
    }
    None
}

fn both(cost: Pair) -> (u64, u64) {
    (cost.startup, cost.total)
}

/// Costs of scans of a table, and of scans by an index, with the entries and without, run once and a hundred times.
fn scan_costs() -> [(u64, u64); 9] {
    [
        both(seq_scan(10, 1000, 1)),
        both(index_scan(1, 110, 1740, false, 10, 10, 0)),
        both(index_scan(1, 110, 1740, true, 10, 10, 0)),
        both(bitmap_scan(1, 1740, 10, 10, 1)),
        both(bitmap_scan(1, 3580, 20, 10, 2)),
        both(seq_scan(1, 1, u64::MAX)),
        both(index_scan(100, 167, 1626, false, 1, 1000, 0)),
        both(index_scan(100, 167, 1626, true, 1, 1000, 0)),
        both(bitmap_scan(100, 1787, 200, 200, 1)),
    ]
}

/// Costs of sorts, of nested loops both ways round and past the most, and of a merge.
fn join_costs() -> [(u64, u64); 6] {
    let (x, y) = (pair(28_000, 29_000), pair(13_000, 13_500));
    let big = pair(0, 8_000_000_000);
    [
        both(sort(pair(0, 8000), 1000)),
        both(sort(pair(0, 4000), 500)),
        both(nest(pair(0, 408), pair(0, 412), 2, 3, 0)),
        both(nest(pair(0, 412), pair(0, 408), 3, 2, 0)),
        both(merge(x, y, 1000, 500, 1, 500, 0)),
        both(nest(big, big, 1_000_000_000, 1_000_000_000, 0)),
    ]
}

#[test]
fn costs_by_hand(rt: HostRuntime) {
    assert_eq!(rt; first_other(&WORKED), None);
    assert!(rt; HASH_DESCENT == 50);
    let scans = [
        (0, 9000),
        (110, 12_980),
        (110, 1780),
        (1740, 7110),
        (3580, 7700),
        (0, MOST_COST),
        (167, 3166),
        (167, 1630),
        (1787, 4379),
    ];
    assert!(rt; scan_costs() == scans);
    let entries = [
        index_entries(1, 110, 10, 1000, 1),
        index_entries(1, 167, 100_000, 100_000, 0),
        index_entries(100, 167, 1, 100_000, 1),
        index_entries(100, 115, 200, 20_000, 1),
    ];
    assert!(rt; entries == [1740, 1_000_167, 1626, 1787]);
    let joins = [
        (28_000, 29_000),
        (13_000, 13_500),
        (0, 1256),
        (0, 1660),
        (41_000, 46_500),
        (0, MOST_COST),
    ];
    assert!(rt; join_costs() == joins);
}
