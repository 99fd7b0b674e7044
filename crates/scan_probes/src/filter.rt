//! Conditions that a scan tests at the rows of its relation, or at entries of an index, beside the rows that it is given.

ghost use Rattle.std.specs.Prelude.{◌≡◌};
ghost use Rattle.scan_probes.specs.work.Filters.{AreTestedAtEntry, AreTestedAtRow, is_met_at_entry, is_met_at_row};

use crate::bound::{Bound, Own};
use crate::conditions::all_true;
use crate::given::Given;
use btree_index::EntryRef;
use catalog::{Catalog, IndexDef};
use heap::Row;
use pg_base::RelNo;
use pg_expr::Expr;
use sql_query::RangeTable;

/// The relation of a scan in a query over a catalogue.
#[derive(Clone, Copy)]
pub struct Beside<'a> {
    /// The catalogue and the relations of the query.
    pub cat: &'a Catalog,
    pub range: &'a RangeTable,
    /// The relation.
    pub rel: RelNo,
}

/// Whether conditions are True at a row of the relation beside the rows given.
pub fn pass_row(beside: &Beside, given: &Given, conditions: &[&Expr], row: Row) -> bool
    requires { AreTestedAtRow beside.now given.now conditions.now row.now }
    ensures { result ≡ is_met_at_row beside.now given.now conditions.now row.now }
{
    let bound = Bound {
        cat: beside.cat,
        range: beside.range,
        rel: beside.rel,
        own: Own::Row(row),
        given,
    };
    all_true(&bound, conditions)
}

/// Whether conditions are True at an entry of an index on the relation beside the rows given.
pub fn pass_entry(
    beside: &Beside,
    given: &Given,
    conditions: &[&Expr],
    def: &IndexDef,
    entry: &EntryRef,
) -> bool
    requires { AreTestedAtEntry beside.now given.now conditions.now def.now entry.now }
    ensures { result ≡ is_met_at_entry beside.now given.now conditions.now def.now entry.now }
{
    let bound = Bound {
        cat: beside.cat,
        range: beside.range,
        rel: beside.rel,
        own: Own::Entry(def, entry),
        given,
    };
    all_true(&bound, conditions)
}
