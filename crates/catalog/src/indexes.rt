//! Indexes in order of making, found by name and by number.

ghost use Rattle.std.specs.Prelude.{◌≡◌, ◌≤◌, length, position, IfErr, IfOk, IsErrOf, OnErr, OnOk, MatchOption};
ghost use Rattle.std.specs.Str.{bytes_eq};
ghost use Rattle.pg_base.specs.declared.limits.TheConstants.{MOST_INDEXES};
ghost use Rattle.pg_base.specs.Names.{IsName};
ghost use Rattle.catalog.specs.Contents.{IsIndex, IsLawful, IsTable, index_at, index_name_at, index_names, indexes_of, with_index};
ghost use Rattle.catalog.specs.work.Contents.{IsLastIndex, indexes_before};
ghost use Rattle.catalog.specs.work.Entries.{index_of};
ghost use Rattle.catalog.specs.Tables.{IsAcceptableIndex, IsIndexRefusal};
ghost use Rattle.catalog.specs.work.Tables.{Fits, HasIndexName, IsFreeIndex, index_named};

use crate::contents::Catalog;
use crate::entries::{put, take_last};
use crate::fault::CatalogFault;
use crate::index_def::{IndexDef, first_twice, is_of_form};
use opfamily::pg_value::Bytes;
use pg_base::{IndexNo, MOST_INDEXES, TableNo};

impl Catalog {
    /// Makes an index and gives its number, the next one. Its definition is of a table there, with a key, 1 to 32
    /// columns in all, each the table's, classes that accept the method and the column's type, and a predicate that is
    /// well typed over the table's columns and in pushed form. It is refused where a table or an index has its name,
    /// else where a key or INCLUDE column repeats an earlier one, at that place, else where its table has 8 indexes,
    /// else, at place 0, where it is a hash index with a second key, INCLUDE columns, or a key that is descending or
    /// has NULLs first. A refused index changes nothing.
    pub fn add_index(&mut self, name: Bytes, def: IndexDef) -> Result<IndexNo, CatalogFault>
        requires name { IsName name }
        requires fits { Fits self.old (index_of def) }
        ensures accepted { OnOk result (IsAcceptableIndex self.old name (index_of def)) }
        ensures number { IfOk result (λ i. i.0 ≡ length self.old.indexes) }
        ensures added { OnOk result (self.new ≡ with_index self.old name (index_of def)) }
        ensures cause { IfErr result (IsIndexRefusal self.old name (index_of def)) }
        ensures unchanged { OnErr result (self.new ≡ self.old) }
    {
        self.judge_index(name.items(), &def)?;
        let number = IndexNo(self.indexes.len() as u16);
        let table = def.table.0 as usize;
        let key = Vec::from_slice(self.alloc, name.items())?;
        put(&mut self.indexes, key, def)?;
        self.tables[table].indexes.push(number);
        Ok(number)
    }

    // Why an index of this name and definition is refused.
    fn judge_index(&self, name: &[u8], def: &IndexDef) -> Result<(), CatalogFault>
        requires { Fits self.now (index_of def.now) }
        ensures accepted { OnOk result (IsAcceptableIndex self.now name.now (index_of def.now)) }
        ensures cause { IfErr result (IsIndexRefusal self.now name.now (index_of def.now)) }
        ensures memory { IsErrOf result CatalogFault.Memory → ⊥ }
    {
        if self.is_taken(name) {
            return Err(CatalogFault::NameTaken);
        }
        if let Some(place) = first_twice(def) {
            return Err(CatalogFault::ColumnTwice(place));
        }
        if self.indexes(def.table).len() == MOST_INDEXES {
            return Err(CatalogFault::TooMany);
        }
        if !is_of_form(def) {
            return Err(CatalogFault::BadNumber(0));
        }
        Ok(())
    }

    /// Takes out the last index. All else stays.
    pub fn take_back_index(&mut self, i: IndexNo)
        requires { IsLastIndex self.old i }
        ensures { self.new ≡ indexes_before self.old i }
    {
        let table = take_last(&mut self.indexes);
        let _ = self.tables[table.0 as usize].indexes.pop();
    }

    // The name of an index, and its definition.
    fn named(&self, i: IndexNo) -> (&Vec<u8>, &IndexDef)
        requires { IsIndex self.now i }
        ensures name { result.0.now.items ≡ index_name_at self.now i }
        ensures index { index_of result.1.now ≡ index_at self.now i }
        ensures lawful { IsLawful self.now }
    {
        self.indexes.get_index(i.0 as usize).unwrap()
    }

    /// The definition of an index.
    pub fn index(&self, i: IndexNo) -> &IndexDef
        requires { IsIndex self.now i }
        ensures value { index_of result.now ≡ index_at self.now i }
        ensures lawful { IsLawful self.now }
    {
        let (_, def) = self.named(i);
        def
    }

    /// The name of an index.
    pub fn index_name(&self, i: IndexNo) -> &[u8]
        requires { IsIndex self.now i }
        ensures value { result.now ≡ index_name_at self.now i }
        ensures name { IsName result.now }
    {
        let (name, _) = self.named(i);
        name
    }

    // The place of the index of a name.
    fn index_place(&self, name: &[u8]) -> Option<usize>
        ensures place { result ≡ position (bytes_eq name.now) (index_names self.now) }
        ensures lawful { IsLawful self.now }
    {
        self.indexes.get_index_of(name)
    }

    /// The index that has this name. None where none has it.
    pub fn index_named(&self, name: &[u8]) -> Option<IndexNo>
        ensures named { result ≡ index_named self.now name.now }
        ensures meaning { MatchOption result (IsFreeIndex self.now name.now) (HasIndexName self.now name.now) }
    {
        match self.index_place(name) {
            Some(place) => Some(IndexNo(place as u16)),
            None => None,
        }
    }

    /// The numbers of a table's indexes, in order of making: at most 8 of them.
    pub fn indexes(&self, t: TableNo) -> &[IndexNo]
        requires { IsTable self.now t }
        ensures value { result.now ≡ indexes_of self.now t }
        ensures few { length result.now ≤ MOST_INDEXES }
    {
        let (_, table) = self.entry(t);
        table.indexes.as_slice()
    }
}
