//! Rows in order of loading.

ghost use Rattle.std.specs.Prelude.{◌≡◌, ◌+◌, ◌<◌, ◌≤◌, [], length, take, slice_get, Some, Ok, Err, IfOk, IfErr, OnErr};
ghost use Rattle.pg_base.specs.declared.limits.TheConstants.{MOST_COLUMNS, MOST_ROWS};
ghost use Rattle.heap.specs.Loading.{records_of, loaded};
ghost use Rattle.heap.specs.work.Loading.{NamesColumnOf, IsFaultOf};
ghost use Rattle.heap.specs.Stored.{IsLawfulData, IsRowOf};

use crate::counters::Counters;
use crate::fault::CopyFault;
use crate::load::read_rows;
use crate::runs::part;
use pg_base::{ColNo, MOST_ROWS, Steps, Tid};
use pg_value::{Columns, Value};
use std::alloc::Global;
use std::marker::{Model, PhantomData};

/// A row, lent: a value for each column, from the left.
pub type Row<'a> = &'a [Value];

/// The value of a column of a row.
pub fn value_in<'a>(row: Row<'a>, c: ColNo) -> &'a Value
    requires { c.0 < length row.now }
    ensures { slice_get row.now c.0 ≡ Some result.now }
{
    &row[c.0 as usize]
}

/// The rows of a table, read by `fetch` and `look` alone, each with its counter. Their values stand one after another in
/// one list. Contracts see a `Stored`.
pub struct Heap<C: Counters> {
    alloc: Global,
    columns: Columns,
    count: u32,
    values: Vec<Value>,
    counters: PhantomData<C>,
}

impl<C: Counters> Drop for Heap<C> {
    fn drop(self) {
        let Heap {
            alloc: _,
            columns: _,
            count: _,
            values: _,
            counters: _,
        } = self;
    }
}

impl<C: Counters> Model for Heap<C> {
    ghost use Rattle.heap.specs.Stored.{Stored, IsLawfulData};
    ghost use Rattle.heap.specs.work.Stored.{IsWhole, laid_out};

    ghost Value = { Stored };

    ghost view = { λ h. laid_out h.columns h.count h.values.items };

    ghost invariant = { λ h.
        IsLawfulData (laid_out h.columns h.count h.values.items) ×
        IsWhole h.columns h.count h.values.items };
}

impl<C: Counters> Heap<C> {
    /// A heap without rows.
    pub fn new(alloc: Global, columns: Columns) -> Heap<C>
        ensures { result ≡ record { columns = columns; rows = [] } }
    {
        Heap {
            alloc,
            columns,
            count: 0,
            values: Vec::new(alloc),
            counters: PhantomData,
        }
    }

    /// The number of rows.
    pub fn len(&self) -> u32
        ensures len { result ≡ length self.now.rows }
        ensures few { result ≤ MOST_ROWS }
    {
        self.count
    }

    /// The columns of the table.
    pub fn columns(&self) -> &Columns
        ensures columns { result.now ≡ self.now.columns }
        ensures lawful { IsLawfulData self.now }
    {
        &self.columns
    }

    /// Appends a row for each record of the block and says how many, or refuses with the first fault: that of the
    /// first record in error, by `TooMany`, `Arity`, then its fields from the left. Then the heap is as before. A
    /// column that the fault names is one of the heap's.
    pub fn load(&mut self, block: &[u8]) -> Result<u32, CopyFault>
        ensures rows { IfOk result (λ n. loaded self.old (records_of block.now) ≡ Ok self.new) }
        ensures columns { self.new.columns ≡ self.old.columns }
        ensures count { IfOk result (λ n. length self.new.rows ≡ length self.old.rows + n) }
        ensures fault { IfErr result (IsFaultOf (loaded self.old (records_of block.now))) }
        ensures field { IfErr result (NamesColumnOf self.old.columns) }
        ensures refused { OnErr result (self.new ≡ self.old) }
        ensures lawful { IsLawfulData self.new }
    {
        let room = MOST_ROWS - self.count as usize;
        let start = self.values.len();
        let columns = self.columns.items();
        match read_rows(self.alloc, columns, room, block, &mut self.values) {
            Ok(count) => {
                self.count += count;
                Ok(count)
            }
            Err(fault) => {
                self.values.truncate(start);
                Err(fault)
            }
        }
    }

    /// Keeps the first `len` rows.
    pub fn cut(&mut self, len: u32)
        requires { len ≤ length self.old.rows }
        ensures kept { self.new ≡ record { columns = self.old.columns; rows = take len self.old.rows } }
        ensures lawful { IsLawfulData self.new }
    {
        let width = self.width();
        self.values.truncate(len as usize * width);
        self.count = len;
    }

    /// The row of this number, fetched. It counts one heap fetch.
    pub fn fetch(&self, t: Tid, fetches: &mut Steps<C::Fetches>) -> Row<'_>
        requires { t.0 < length self.now.rows }
        ensures row { slice_get self.now.rows t.0 ≡ Some result.now }
        ensures width { length result.now ≡ length self.now.columns }
        ensures lawful { IsRowOf self.now.columns result.now }
        ensures cost { fetches.new ≡ fetches.old + 1 }
    {
        fetches.tick();
        self.row(t)
    }

    /// The row of this number, which was found before. It counts one look.
    pub fn look(&self, t: Tid, looks: &mut Steps<C::Looks>) -> Row<'_>
        requires { t.0 < length self.now.rows }
        ensures row { slice_get self.now.rows t.0 ≡ Some result.now }
        ensures width { length result.now ≡ length self.now.columns }
        ensures lawful { IsRowOf self.now.columns result.now }
        ensures cost { looks.new ≡ looks.old + 1 }
    {
        looks.tick();
        self.row(t)
    }

    fn row(&self, t: Tid) -> Row<'_>
        requires { t.0 < length self.now.rows }
        ensures row { slice_get self.now.rows t.0 ≡ Some result.now }
        ensures width { length result.now ≡ length self.now.columns }
        ensures lawful { IsRowOf self.now.columns result.now }
    {
        let width = self.width();
        part(&self.values, t.0 as usize * width, width)
    }

    /// How many columns each row has.
    fn width(&self) -> usize
        ensures width { result ≡ length self.now.columns }
        ensures few { result ≤ MOST_COLUMNS }
    {
        self.columns.items().len()
    }
}
