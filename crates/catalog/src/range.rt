//! The relations of a query.

ghost use Rattle.std.specs.Prelude.{◌≡◌};

use opfamily::pg_value::Bytes;
use pg_base::TableNo;
use std::marker::Model;

/// The relations of a query in FROM order: the table and the alias of each, which is the table's name where none is
/// given. Contracts see the list.
#[derive(Debug)]
pub struct RangeTable {
    relations: Vec<(TableNo, Bytes)>,
}

impl Drop for RangeTable {
    fn drop(self) {
        let RangeTable { relations: _ } = self;
    }
}

impl Model for RangeTable {
    ghost use Rattle.catalog.specs.Range.{Range};

    ghost Value = { Range };

    ghost view = { λ r. r.relations.items };
}

impl RangeTable {
    /// The list of these relations.
    pub fn from_vec(v: Vec<(TableNo, Bytes)>) -> RangeTable
        ensures { result ≡ v.items }
    {
        RangeTable { relations: v }
    }

    /// The relations in FROM order, lent.
    pub fn items(&self) -> &[(TableNo, Bytes)]
        ensures { result.now ≡ self.now }
    {
        &self.relations
    }
}
