//! The columns that the condition of an index may name.

ghost use Rattle.std.specs.Prelude.{◌≡◌, Some, None};
ghost use Rattle.catalog.specs.Contents.{IsTable, IsLawfulTable, table_at};
ghost use Rattle.expr_reader.specs.Scope.{look_up};
ghost use Rattle.index_reader.specs.Visible.{visible_in};

use catalog::Catalog;
use expr_reader::{Found, Scope};
use pg_base::{RelNo, TableNo};
use pg_expr::ColRef;
use pg_value::SqlType;
use std::marker::Model;

/// The columns of a table of a catalogue, under a name, as those of relation 0. Contracts see what names are looked up in.
#[derive(Drop)]
pub struct TableScope<'a> {
    cat: &'a Catalog,
    table: TableNo,
    alias: &'a [u8],
}

impl<'a> Model for TableScope<'a> {
    ghost use Rattle.std.specs.Coded.{codes};
    ghost use Rattle.std.specs.Prelude.{◌≡◌};
    ghost use Rattle.pg_expr.specs.work.CondCode.{cond_code};
    ghost use Rattle.catalog.specs.Contents.{IsTable, IsLawfulTable, table_at};
    ghost use Rattle.index_reader.specs.Visible.{Sight};

    ghost Value = { Sight };

    ghost coded = { Prim.hlevel (codes, cond_code (Prim.hlevel codes)) };

    ghost view = { λ s. record { contents = s.cat.now; table = s.table; alias = s.alias.now } };

    ghost invariant = { λ s. IsTable s.cat.now s.table × IsLawfulTable (table_at s.cat.now s.table) };
}

impl<'a> Scope for TableScope<'a> {
    ghost use Rattle.index_reader.specs.Visible.{visible_in, sight_type};

    ghost visible = { λ s. visible_in s };

    ghost type_of = { λ s x. sight_type s x };

    fn column(&self, qualifier: Option<&[u8]>, name: &[u8]) -> Found {
        match qualifier {
            Some(alias) => self.named_under(alias, name),
            None => self.named(name),
        }
    }

    fn typed(&self, c: ColRef) -> SqlType {
        self.cat.columns(self.table).items()[c.col.0 as usize].typed
    }
}

impl<'a> TableScope<'a> {
    /// The table under this name.
    pub fn new(cat: &'a Catalog, table: TableNo, alias: &'a [u8]) -> TableScope<'a>
        requires table { IsTable cat.now table }
        requires lawful { IsLawfulTable (table_at cat.now table) }
        ensures { result ≡ record { contents = cat.now; table = table; alias = alias.now } }
    {
        TableScope { cat, table, alias }
    }

    /// What a name means without a qualifier.
    fn named(&self, name: &[u8]) -> Found
        ensures { result ≡ look_up (visible_in self.now) None name.now }
    {
        match self.cat.column(self.table, name) {
            Some(col) => Found::One(ColRef { rel: RelNo(0), col }),
            None => Found::NoColumn,
        }
    }

    /// What a name means under an alias.
    fn named_under(&self, alias: &[u8], name: &[u8]) -> Found
        ensures { result ≡ look_up (visible_in self.now) (Some alias.now) name.now }
    {
        if alias == self.alias {
            self.named(name)
        } else {
            Found::NoTable
        }
    }
}
