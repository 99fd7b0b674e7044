//! Laws of stores.

ghost use Rattle.std.specs.Prelude.{◌≡◌, List, ℕ, Some, length, slice_get};
ghost use Rattle.pg_base.specs.declared.numbers.IndexNo.{IndexNo};
ghost use Rattle.pg_base.specs.declared.numbers.TableNo.{TableNo};
ghost use Rattle.pg_value.specs.declared.columns.Column.{Column};
ghost use Rattle.catalog.specs.Contents.{Contents, IsIndex, IsLawful, TableDef, new_table, nothing, table_at, with_definition, with_index, with_table};
ghost use Rattle.catalog.specs.work.Contents.{indexes_before};
ghost use Rattle.catalog.specs.Indexes.{Index};
ghost use Rattle.store.specs.work.Kept.{IsStoreOf, Kept, built_at, stored_without_rows, nothing_kept, with_heap};

/// A law: the store of no table is that of the catalogue without definitions; with the heap of a new table a store is that
/// of the catalogue with the table; it stays the catalogue's after other statistics; and the catalogue before its newest
/// index is the former one.
pub fn stores_follow_their_catalogues()
    ensures empty { IsStoreOf nothing nothing_kept }
    ensures table { (c : Contents) (k : Kept)
        (name : List ℕ) (names : List (List ℕ)) (columns : List Column) →
        IsLawful c → IsStoreOf c k →
        IsStoreOf (with_table c (new_table name names columns)) (with_heap k (stored_without_rows columns)) }
    ensures statistics { (c : Contents) (k : Kept) (t : TableNo) (d : TableDef) →
        d.columns ≡ (table_at c t).columns → d.loaded ≡ (table_at c t).loaded → IsStoreOf c k →
        IsStoreOf (with_definition c t d) k }
    ensures index { (c : Contents) (name : List ℕ) (x : Index) (i : IndexNo) →
        i.0 ≡ length c.indexes → indexes_before (with_index c name x) i ≡ c }
{}

/// A law: a store has of each index of its catalogue exactly the entries over the rows of the index's table.
pub fn each_index_has_its_entries()
    ensures { (c : Contents) (k : Kept) (i : IndexNo) → IsStoreOf c k → IsIndex c i →
        slice_get k.built i.0 ≡ Some (built_at c k i) }
{}
