//! The relations of a query, in which names are looked up.

ghost use Rattle.std.specs.Prelude.{◌≡◌, ◌<◌, ℕ, List, [], length, All, Ok, MatchOption, None, Some};
ghost use Rattle.catalog.specs.Contents.{IsTable, IsLawfulTable, table_at};
ghost use Rattle.path_cost.specs.work.Columns.{is_column_in};
ghost use Rattle.expr_reader.specs.Scope.{Visible, columns_in_scope, look_up, of_name, the_one, under};
ghost use Rattle.query_reader.specs.work.Adds.{Adds};
ghost use Rattle.query_reader.specs.work.From.{AreRelations};
ghost use Rattle.query_reader.specs.Order.{shown_of_name};
ghost use Rattle.query_reader.specs.work.Order.{ordered_name};
ghost use Rattle.query_reader.specs.work.Scope.{also as also_meant, own_columns, visible_in, IsSeenColumn, IsRelationUnder, IsOnlyColumn, numbered_columns};
ghost use Rattle.query_reader.specs.work.Binding.{columns_under};

use catalog::Catalog;
use expr_reader::{ColumnPlaces, Found, Scope, Spelled};
use pg_base::{Code, ColNo, Refusal, RelNo, TableNo};
use pg_expr::{Binding, ColRef};
use pg_value::{Bytes, SqlType, Value};
use sql_grammar::fault_at;
use std::marker::Model;

/// Relations of a query over a catalogue, of which those from some number on are visible. Contracts see what names are looked
/// up in.
#[derive(Drop)]
pub struct Relations<'a> {
    cat: &'a Catalog,
    range: &'a [(TableNo, Bytes)],
    first: usize,
    null: Value,
}

impl<'a> Model for Relations<'a> {
    ghost use Rattle.std.specs.Coded.{codes};
    ghost use Rattle.std.specs.Prelude.{◌≡◌, ◌≤◌, length};
    ghost use Rattle.pg_expr.specs.work.CondCode.{cond_code};
    ghost use Rattle.pg_value.specs.declared.value.Value.TheVariants.{Null};
    ghost use Rattle.query_reader.specs.work.From.{AreRelations};
    ghost use Rattle.query_reader.specs.work.Scope.{Sight};

    ghost Value = { Sight };

    ghost coded = { Prim.hlevel (codes, cond_code (Prim.hlevel codes)) };

    ghost view = { λ r. record { contents = r.cat.now; range = r.range.now; first = r.first } };

    ghost invariant = { λ r. AreRelations r.cat.now r.range.now × (r.null ≡ Null) };
}

/// The names under which the visible columns are known.
impl<'a> Scope for Relations<'a> {
    ghost use Rattle.catalog.specs.Range.{type_in};
    ghost use Rattle.query_reader.specs.work.Scope.{visible_in};

    ghost visible = { λ r. visible_in r };

    ghost type_of = { λ r x. type_in r.contents r.range x };

    fn column(&self, qualifier: Option<&[u8]>, name: &[u8]) -> Found {
        match qualifier {
            Some(alias) => self.named_under(alias, name),
            None => self.named(name),
        }
    }

    fn typed(&self, c: ColRef) -> SqlType {
        let table = self.range[c.rel.0 as usize].0;
        self.cat.columns(table).items()[c.col.0 as usize].typed
    }
}

/// The types of their columns, which are all NULL.
impl<'a> Binding for Relations<'a> {
    ghost use Rattle.pg_value.specs.declared.value.Value.TheVariants.{Null};
    ghost use Rattle.catalog.specs.Range.{type_in};
    ghost use Rattle.path_cost.specs.work.Columns.{is_column_in};

    ghost binds = { λ r x. is_column_in r.contents r.range x };

    ghost value_at = { λ r x. Null };

    ghost type_of = { λ r x. type_in r.contents r.range x };

    fn value(&self, _c: ColRef) -> &Value {
        &self.null
    }

    fn typed(&self, c: ColRef) -> SqlType {
        let table = self.range[c.rel.0 as usize].0;
        self.cat.columns(table).items()[c.col.0 as usize].typed
    }
}

/// Adds every column of a table, the relation of this number.
fn add_columns(
    cat: &Catalog,
    table: TableNo,
    number: u8,
    all: &mut Vec<ColRef>,
) -> Result<(), Refusal>
    requires table { IsTable cat.now table }
    requires lawful { IsLawfulTable (table_at cat.now table) }
    ensures { (alias : List ℕ) →
        Adds (Ok (numbered_columns alias number (table_at cat.now table).names))
        all.old.items all.new.items result }
{
    let count = cat.columns(table).items().len() as u8;
    for col in 0..count {
        all.push(ColRef {
            rel: RelNo(number),
            col: ColNo(col),
        })?;
    }
    Ok(())
}

/// What a name means, where one more column has it.
fn also(found: Found, column: ColRef) -> Found
    ensures { result ≡ also_meant found column }
{
    match found {
        Found::NoColumn => Found::One(column),
        _ => Found::Many,
    }
}

impl<'a> Relations<'a> {
    /// The relations of a range, of which those from `first` on are visible.
    pub fn new(cat: &'a Catalog, range: &'a [(TableNo, Bytes)], first: usize) -> Relations<'a>
        requires { AreRelations cat.now range.now }
        ensures { result ≡ record { contents = cat.now; range = range.now; first = first } }
    {
        Relations {
            cat,
            range,
            first,
            null: Value::Null,
        }
    }

    /// Each visible column is one of the relations.
    pub fn see_their_columns(&self)
        ensures { All (λ (v : Visible). IsSeenColumn self.now v.column) (visible_in self.now) }
    {
        let _ = &self.cat;
    }

    /// The column of a relation that has a name.
    fn in_relation(&self, number: usize, name: &[u8]) -> Option<ColRef>
        requires { number < length self.now.range }
        ensures { IsOnlyColumn (of_name name.now (own_columns self.now number)) result }
    {
        let range = self.range;
        let col = self.cat.column(range[number].0, name)?;
        let rel = RelNo(number as u8);
        Some(ColRef { rel, col })
    }

    /// The column of a relation that has a name, where the list shows it.
    fn shown_in_relation(&self, number: usize, name: &[u8], select: &ColumnPlaces) -> Option<ColRef>
        requires { number < length self.now.range }
        ensures { IsOnlyColumn
            (shown_of_name (own_columns self.now number) select.now name.now) result }
    {
        let column = self.in_relation(number, name)?;
        if select.has(column) {
            Some(column)
        } else {
            None
        }
    }

    /// What a name means without a qualifier.
    fn named(&self, name: &[u8]) -> Found
        ensures { result ≡ look_up (visible_in self.now) None name.now }
    {
        let mut found = Found::NoColumn;
        for number in self.first..self.range.len() {
            if let Some(column) = self.in_relation(number, name) {
                found = also(found, column);
            }
        }
        found
    }

    /// What a name means among the visible columns that the list shows.
    fn shown(&self, name: &[u8], select: &ColumnPlaces) -> Found
        ensures { result ≡ the_one (shown_of_name (visible_in self.now) select.now name.now) }
    {
        let mut found = Found::NoColumn;
        for number in self.first..self.range.len() {
            if let Some(column) = self.shown_in_relation(number, name, select) {
                found = also(found, column);
            }
        }
        found
    }

    /// What a name alone means in ORDER BY: it is sought among the columns that the list shows first.
    pub fn ordering(&self, name: &[u8], select: &ColumnPlaces) -> Found
        ensures { result ≡ ordered_name (visible_in self.now) select.now name.now }
    {
        match self.shown(name, select) {
            Found::NoColumn => self.named(name),
            found => found,
        }
    }

    /// The number of the visible relation under an alias.
    fn place_of(&self, alias: &[u8]) -> Option<usize>
        ensures { MatchOption result (under alias.now (visible_in self.now) ≡ [])
            (λ k. IsRelationUnder alias.now self.now k) }
    {
        for number in self.first..self.range.len() {
            if alias == self.range[number].1.items() {
                return Some(number);
            }
        }
        None
    }

    /// What a name means under an alias.
    fn named_under(&self, alias: &[u8], name: &[u8]) -> Found
        ensures { result ≡ look_up (visible_in self.now) (Some alias.now) name.now }
    {
        let _ = &self.cat;
        let Some(number) = self.place_of(alias) else {
            return Found::NoTable;
        };
        match self.in_relation(number, name) {
            Some(column) => Found::One(column),
            None => Found::NoColumn,
        }
    }

    /// Adds every column of a relation.
    fn add_relation(&self, number: usize, all: &mut Vec<ColRef>) -> Result<(), Refusal>
        requires { number < length self.now.range }
        ensures { Adds (Ok (columns_in_scope (own_columns self.now number)))
            all.old.items all.new.items result }
    {
        add_columns(self.cat, self.range[number].0, number as u8, all)
    }

    /// Adds every visible column.
    pub fn add_all(&self, all: &mut Vec<ColRef>) -> Result<(), Refusal>
        ensures { Adds (Ok (columns_in_scope (visible_in self.now))) all.old.items all.new.items result }
    {
        for number in self.first..self.range.len() {
            self.add_relation(number, all)?;
        }
        Ok(())
    }

    /// Adds every column under this alias.
    pub fn add_under(&self, qualifier: &Spelled, all: &mut Vec<ColRef>) -> Result<(), Refusal>
        ensures { Adds (columns_under (visible_in self.now) qualifier.now)
            all.old.items all.new.items result }
    {
        let _ = &self.cat;
        match self.place_of(qualifier.bytes.items()) {
            Some(number) => self.add_relation(number, all),
            None => Err(Refusal::Fault(fault_at(Code::S2, qualifier.token))),
        }
    }
}
