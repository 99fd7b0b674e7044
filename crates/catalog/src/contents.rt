//! Tables in order of making, found by name and by number. Indexes share their namespace.

ghost use Rattle.std.specs.Prelude.{◌≡◌, ◌<◌, ◌+◌, ◌↔◌, ℕ, List, [], length, position, All, Contains, IfErr, IfOk, IsErrOf, IsTrue, OnErr, OnOk, MatchOption};
ghost use Rattle.std.specs.Str.{bytes_eq};
ghost use Rattle.catalog.specs.Contents.{IsColumn, IsLawful, IsLawfulTable, IsTable, all_names, indexes_of, name_at, new_table, nothing, table_at, table_names, with_table};
ghost use Rattle.catalog.specs.work.Contents.{IsLastTable, tables_before};
ghost use Rattle.catalog.specs.work.Entries.{table_def};
ghost use Rattle.pg_base.specs.Names.{IsName};
ghost use Rattle.catalog.specs.Tables.{IsAcceptable, IsRefusal, column_named, table_named};
ghost use Rattle.catalog.specs.work.Tables.{HasColumnName, HasTableName, IsFree, IsFreeColumn};

use crate::entries::put;
use crate::fault::CatalogFault;
use crate::index_def::IndexDef;
use crate::names::first_repeat;
use crate::table::Table;
use indexmap::IndexMap;
use opfamily::pg_value::{Bytes, Columns};
use pg_base::{ColNo, MOST_TABLES, TableNo};
use std::alloc::Global;
use std::marker::Model;

/// The accepted definitions, and the last accepted statistics. Contracts see `Contents`: tables and indexes, each in
/// order of making. Contents are lawful.
pub struct Catalog {
    pub(crate) alloc: Global,
    pub(crate) tables: IndexMap<Vec<u8>, Table>,
    pub(crate) indexes: IndexMap<Vec<u8>, IndexDef>,
}

impl Drop for Catalog {
    fn drop(self) {
        let Catalog {
            alloc: _,
            tables: _,
            indexes: _,
        } = self;
    }
}

impl Model for Catalog {
    ghost use Rattle.std.specs.Coded.{codes};
    ghost use Rattle.std.specs.Prelude.{map};
    ghost use Rattle.pg_expr.specs.work.CondCode.{cond_code};
    ghost use Rattle.catalog.specs.Contents.{Contents, IsLawful};
    ghost use Rattle.catalog.specs.work.Entries.{AreListed, contents_of, named_index};

    ghost Value = { Contents };

    ghost coded = { Prim.hlevel (codes, cond_code (Prim.hlevel codes)) };

    ghost view = { λ c. contents_of c.tables.entries c.indexes.entries };

    ghost invariant = { λ c. IsLawful (contents_of c.tables.entries c.indexes.entries) × AreListed (map named_index c.indexes.entries) 0 c.tables.entries };
}

impl Catalog {
    /// The catalogue without definitions.
    pub fn new(alloc: Global) -> Catalog
        ensures { result ≡ nothing }
    {
        Catalog {
            alloc,
            tables: IndexMap::new(alloc),
            indexes: IndexMap::new(alloc),
        }
    }

    /// The contents of a catalogue are lawful.
    pub fn lawful(&self)
        ensures { IsLawful self.now }
    {
        let _ = &self.tables;
    }

    /// Makes a table with these names for its columns, from the left, and no rows loaded, and gives its number, the next
    /// one. It is refused where a table or an index has its name, else where a column name repeats an earlier one, else
    /// where 64 tables are there. A refused table changes nothing.
    pub fn add_table(
        &mut self,
        name: Bytes,
        names: Vec<Bytes>,
        columns: Columns,
    ) -> Result<TableNo, CatalogFault>
        requires width { length names.items ≡ length columns }
        requires name { IsName name }
        requires names { All IsName names.items }
        ensures accepted { OnOk result (IsAcceptable self.old name names.items) }
        ensures number { IfOk result (λ t. t.0 ≡ length self.old.tables) }
        ensures added { OnOk result (self.new ≡ with_table self.old (new_table name names.items columns)) }
        ensures cause { IfErr result (IsRefusal self.old name names.items) }
        ensures unchanged { OnErr result (self.new ≡ self.old) }
    {
        self.judge_table(name.items(), &names, &columns)?;
        let number = TableNo(self.tables.len() as u8);
        let key = Vec::from_slice(self.alloc, name.items())?;
        let table = Table::new(self.alloc, &names, columns)?;
        put(&mut self.tables, key, table)?;
        Ok(number)
    }

    // Why a table of this name, with these names for its columns, is refused.
    fn judge_table(
        &self,
        name: &[u8],
        names: &[Bytes],
        columns: &Columns,
    ) -> Result<(), CatalogFault>
        requires { length names.now ≡ length columns.now }
        ensures accepted { OnOk result (IsAcceptable self.now name.now names.now) }
        ensures cause { IfErr result (IsRefusal self.now name.now names.now) }
        ensures memory { IsErrOf result CatalogFault.Memory → ⊥ }
    {
        if self.is_taken(name) {
            return Err(CatalogFault::NameTaken);
        }
        if let Some(place) = first_repeat(names, columns) {
            return Err(CatalogFault::ColumnTwice(place));
        }
        if self.tables.len() == MOST_TABLES {
            return Err(CatalogFault::TooMany);
        }
        Ok(())
    }

    // Whether a table or an index has this name.
    pub(crate) fn is_taken(&self, name: &[u8]) -> bool
        ensures { IsTrue result ↔ Contains (all_names self.now) name.now }
    {
        self.table(name).is_some() || self.index_named(name).is_some()
    }

    /// Takes out the last table, which has no index. All else stays.
    pub fn take_back_table(&mut self, t: TableNo)
        requires last { IsLastTable self.old t }
        requires bare { indexes_of self.old t ≡ [] }
        ensures { self.new ≡ tables_before self.old t }
    {
        let _ = self.tables.pop();
    }

    // The place of the table of a name.
    fn place(&self, name: &[u8]) -> Option<usize>
        ensures place { result ≡ position (bytes_eq name.now) (table_names self.now) }
        ensures lawful { IsLawful self.now }
    {
        self.tables.get_index_of(name)
    }

    // The name of a table, and what is kept beside it.
    pub(crate) fn entry(&self, t: TableNo) -> (&Vec<u8>, &Table)
        requires { IsTable self.now t }
        ensures entry { table_def (result.0.now, result.1.now) ≡ table_at self.now t }
        ensures listed { result.1.now.indexes.items ≡ indexes_of self.now t }
        ensures lawful { IsLawfulTable (table_at self.now t) }
    {
        self.tables.get_index(t.0 as usize).unwrap()
    }

    /// The table that has this name. None where none has it.
    pub fn table(&self, name: &[u8]) -> Option<TableNo>
        ensures named { result ≡ table_named self.now name.now }
        ensures meaning { MatchOption result (IsFree self.now name.now) (HasTableName self.now name.now) }
        ensures lawful { IsLawful self.now }
    {
        match self.place(name) {
            Some(place) => Some(TableNo(place as u8)),
            None => None,
        }
    }

    /// The column of a table that has this name. None where none has it.
    pub fn column(&self, t: TableNo, name: &[u8]) -> Option<ColNo>
        requires { IsTable self.now t }
        ensures named { result ≡ column_named self.now t name.now }
        ensures meaning { MatchOption result (IsFreeColumn self.now t name.now) (HasColumnName self.now t name.now) }
        ensures lawful { IsLawfulTable (table_at self.now t) }
    {
        let (_, table) = self.entry(t);
        match table.names.find(name) {
            Some(place) => Some(ColNo(place as u8)),
            None => None,
        }
    }

    /// The columns of a table.
    pub fn columns(&self, t: TableNo) -> &Columns
        requires { IsTable self.now t }
        ensures { result.now ≡ (table_at self.now t).columns }
    {
        let (_, table) = self.entry(t);
        &table.columns
    }

    /// The name of a table.
    pub fn table_name(&self, t: TableNo) -> &[u8]
        requires { IsTable self.now t }
        ensures value { result.now ≡ (table_at self.now t).name }
        ensures name { IsName result.now }
    {
        let (name, _) = self.entry(t);
        name
    }

    /// The name of a column of a table.
    pub fn column_name(&self, t: TableNo, c: ColNo) -> &[u8]
        requires table { IsTable self.now t }
        requires column { IsColumn self.now t c }
        ensures value { result.now ≡ name_at self.now t c }
        ensures name { IsName result.now }
    {
        let (_, table) = self.entry(t);
        table.names.get(c.0 as usize)
    }
}
