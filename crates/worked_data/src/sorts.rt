//! Keys compared, by hand.

use pg_base::{ColNo, RelNo};
use pg_expr::ColRef;
use pg_value::{Family, Value};
use sort_rows::{SortColumn, compare_keys};
use std::cmp::Ordering;

fn column(family: Family, descending: bool, nulls_first: bool) -> SortColumn {
    SortColumn {
        column: ColRef {
            rel: RelNo(0),
            col: ColNo(0),
        },
        place: 0,
        family,
        descending,
        nulls_first,
    }
}

/// Two rows of two keys, none for NULL, and how the first stands to the second.
type Compared = ([Option<i64>; 2], [Option<i64>; 2], Ordering);

const COMPARED: [Compared; 6] = [
    ([Some(1), Some(1)], [Some(2), Some(1)], Ordering::Less),
    ([Some(1), Some(-1)], [Some(1), Some(1)], Ordering::Equal),
    ([Some(1), Some(-3)], [Some(1), Some(2)], Ordering::Less),
    ([Some(1), None], [Some(1), Some(2)], Ordering::Less),
    ([None, Some(1)], [Some(1), Some(2)], Ordering::Greater),
    ([None, None], [None, None], Ordering::Equal),
];

fn value(n: Option<i64>) -> Value {
    match n {
        Some(n) => Value::Int(n),
        None => Value::Null,
    }
}

fn order(columns: &[SortColumn], left: [Option<i64>; 2], right: [Option<i64>; 2]) -> Ordering {
    let (a, b) = (value(left[0]), value(left[1]));
    let (c, d) = (value(right[0]), value(right[1]));
    compare_keys(columns, &[&a, &b], &[&c, &d])
}

/// The first pair of rows with another order.
fn first_other(columns: &[SortColumn], rows: &[Compared]) -> Option<Compared> {
    for row in rows {
        if order(columns, row.0, row.1) != row.2 {
            return Some(*row);
        }
    }
    None
}

/// Days, the later one first, and numbers with digits behind the point.
const DATED: [Compared; 4] = [
    ([Some(-1), Some(5)], [Some(0), Some(5)], Ordering::Greater),
    (
        [Some(8_825), Some(-5)],
        [Some(8_825), Some(3)],
        Ordering::Less,
    ),
    (
        [Some(8_825), Some(-5)],
        [Some(8_825), Some(5)],
        Ordering::Less,
    ),
    ([None, Some(5)], [Some(2_921_939), Some(-5)], Ordering::Less),
];

#[test]
fn keys_of_two_columns(rt: HostRuntime) {
    let columns = [
        column(Family::Integer, false, false),
        column(Family::IntAbs, true, true),
    ];
    assert_eq!(rt; first_other(&columns, &COMPARED), None);
    let dated = [
        column(Family::Date, true, true),
        column(Family::Numeric(2), false, false),
    ];
    assert_eq!(rt; first_other(&dated, &DATED), None);
}
