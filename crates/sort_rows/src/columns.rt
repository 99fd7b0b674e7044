//! The columns by which the tuples of a set of relations are sorted.

ghost use Rattle.std.specs.Prelude.{◌≡◌, ◌<◌, All, IfOk, length};
ghost use Rattle.pg_base.specs.Sets.{has};
ghost use Rattle.eq_classes.specs.Listing.{class_at};
ghost use Rattle.heap.specs.Tuples.{rank};
ghost use Rattle.sort_rows.specs.work.Columns.{column_in, sorting_columns};

use eq_classes::{ClassNo, Classes};
use pg_base::{Memory, RelNo, RelSet};
use pg_expr::ColRef;
use pg_value::Family;
use std::alloc::Global;

/// A column by which tuples of a set of relations are sorted: a class's first member inside the set, with the family,
/// the direction and the place of NULL of the class.
#[derive(Clone, Copy, Debug, PartialEq, Eq)]
pub struct SortColumn {
    /// The column.
    pub column: ColRef,
    /// How many relations of the set stand before the column's, in FROM order.
    pub place: usize,
    /// How its values compare.
    pub family: Family,
    /// From the greatest value to the least.
    pub descending: bool,
    /// NULL before all other values.
    pub nulls_first: bool,
}

/// The columns by which tuples of the set are sorted where the classes are the sort keys, in order. A class without a member
/// inside the set has none. The error means out of memory.
pub fn sort_columns(
    alloc: Global,
    classes: &Classes,
    set: RelSet,
    keys: &[ClassNo],
) -> Result<Vec<SortColumn>, Memory>
    requires { All (λ c. c.0 < length classes.now.classes) keys.now }
    ensures { IfOk result (λ cs. cs.items ≡ sorting_columns classes.now set keys.now) }
{
    let mut columns = Vec::new(alloc);
    for key in keys {
        if let Some(column) = sort_column(classes, set, *key) {
            columns.push(column)?;
        }
    }
    Ok(columns)
}

/// The column of one class.
fn sort_column(classes: &Classes, set: RelSet, c: ClassNo) -> Option<SortColumn>
    requires { c.0 < length classes.now.classes }
    ensures { result ≡ column_in (class_at classes.now.classes c.0) (has set.0) }
{
    let column = classes.member(c, set)?;
    let (descending, nulls_first) = classes.direction(c);
    Some(SortColumn {
        column,
        place: members_before(set, column.rel),
        family: classes.family(c),
        descending,
        nulls_first,
    })
}

/// How many relations of the set stand before one.
fn members_before(set: RelSet, r: RelNo) -> usize
    ensures { result ≡ rank (has set.0) r.0 }
{
    let mut members = 0;
    for k in 0..r.0 {
        if set.has(RelNo(k)) {
            members += 1;
        }
    }
    members
}
