//! Which indexes may be used for a relation, and which of them hold its columns.

ghost use Rattle.std.specs.Prelude.{◌≡◌, ◌<◌, ◌≤◌, ◌↔◌, IsTrue, length, nat_eq, IfSome, Some, slice_get, drop, [], ◌++◌, ◌∷◌};
ghost use Rattle.std.specs.List.{list_any};
ghost use Rattle.pg_expr.specs.work.View.{cond};
ghost use Rattle.catalog.specs.Contents.{IsIndex, index_at};
ghost use Rattle.catalog.specs.work.Entries.{index_of};
ghost use Rattle.catalog.specs.Indexes.{columns_of};
ghost use Rattle.index_match.specs.Usable.{IsUsable, holds_columns};

use crate::slots::Chosen;
use catalog::{Catalog, IndexDef, RangeTable};
use eq_classes::Classes;
use pg_base::{ColNo, IndexNo, RelNo};
use pg_expr::ColRef;
use predicate_proof::implies;

/// Whether index `i` may be used for relation `r`: it has no predicate, or the clauses over `r` alone imply it. It takes
/// no memory.
pub fn usable(cat: &Catalog, range: &RangeTable, classes: &Classes, i: IndexNo, r: RelNo) -> bool
    requires index { IsIndex cat.now i }
    requires below { r.0 < 16 }
    ensures usable { IsTrue result ↔ IsUsable cat.now classes.now i r.0 }
{
    let def = cat.index(i);
    match &def.predicate {
        None => true,
        Some(predicate) => {
            let base = classes.base_clauses(r);
            let clauses = Chosen {
                classes,
                set: &base,
            };
            implies(&clauses, predicate, cat.columns(def.table))
        }
    }
}

/// Whether a column is a key column of the index.
fn is_key_column(def: &IndexDef, col: ColNo) -> bool
    ensures { result ≡ list_any (λ k. nat_eq col.0 k.col.0) def.now.keys.items }
{
    def.keys.iter().any(|key| col.0 == key.col.0)
}

/// Whether a column is one that the index includes beside its key.
fn is_included(def: &IndexDef, col: ColNo) -> bool
    ensures { result ≡ list_any (λ n. nat_eq col.0 n.0) def.now.include.items }
{
    def.include.iter().any(|n| col.0 == n.0)
}

/// Whether an index holds a column, as a key column or an included one.

fn holds(def: &IndexDef, col: ColNo) -> bool
    ensures { result ≡ list_any (λ n. nat_eq col.0 n.0) (columns_of (index_of def.now)) }
{
    is_key_column(def, col) || is_included(def, col)
}

/// Whether index `i` holds each column of relation `r` in the list, as a key column or an included one, so that a scan of
/// it needs no rows of the table. It takes no memory.
pub fn covers_columns(cat: &Catalog, i: IndexNo, r: RelNo, used: &[ColRef]) -> bool
    requires index { IsIndex cat.now i }
    ensures held { result ≡ holds_columns (index_at cat.now i) r.0 used.now }
{
    let def = cat.index(i);
    used.iter().all(|x| x.rel.0 != r.0 || holds(def, x.col))
}
