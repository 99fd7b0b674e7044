//! Whether bitmaps may be made of all that a query's tables offer for them.

ghost use Rattle.std.specs.Prelude.{◌≡◌, ◌<◌, ◌≤◌, ℕ, IsTrue, length};
ghost use Rattle.eq_classes.specs.Listing.{clause_at};
ghost use Rattle.sql_query.specs.WellBound.{IsWellBound};
ghost use Rattle.plan_tree.specs.Bitmaps.{is_or};
ghost use Rattle.plan_laws.specs.work.Fewer.{HasRoom, or_clauses};

use catalog::Catalog;
use plan_tree::{MOST_ELEMENTS, classes_of, or_arms, range_of};
use sql_query::Prepared;

/// Whether the clause of a number is an OR.
fn is_or(q: &Prepared, n: u16) -> bool
    requires { n < length q.now.classes.clauses }
    ensures { result ≡ is_or (clause_at q.now.classes.clauses n).cond }
{
    or_arms(q, n).is_some()
}

/// How many clauses of a query are ORs.
fn ors_of(q: &Prepared) -> usize
    ensures count { result ≡ length (or_clauses q.now) }
    ensures few { result ≤ 512 }
{
    let mut ors = 0;
    for n in 0..classes_of(q).count() {
        if is_or(q, n as u16) {
            ors += 1;
        }
    }
    ors
}

/// Whether the indexes of each table of a query and the ORs among its clauses are together no more than a bitmap is made of.
pub(crate) fn has_room(cat: &Catalog, q: &Prepared) -> bool
    requires { IsWellBound cat.now q.now }
    ensures { IsTrue result → HasRoom cat.now q.now }
{
    let ors = ors_of(q);
    for rel in range_of(q).items() {
        if cat.indexes(rel.0).len() + ors > MOST_ELEMENTS {
            return false;
        }
    }
    true
}
