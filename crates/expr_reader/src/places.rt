//! Where the columns of a list stand.

ghost use Rattle.std.specs.Prelude.{◌≡◌, ◌<◌, ℕ, IfSome, None, get_or, length, true};
ghost use Rattle.std.specs.List.{list_any};
ghost use Rattle.expr_reader.specs.work.Places.{HasNoted, HasPut, IsNumbered, first_place, is_it, number_of};

use pg_base::{MOST_COLUMNS, MOST_RELATIONS};
use pg_expr::ColRef;
use std::marker::Model;

/// How many columns have a number: those of as many relations as a query may have.
const MOST_NUMBERED: usize = 320;

/// Where each column of a list stands first, found in one pass and kept in a fixed size. Contracts see the list.
pub struct ColumnPlaces<'a> {
    columns: &'a [ColRef],
    /// By the number of a column.
    first: [Option<usize>; MOST_NUMBERED],
}

impl<'a> Drop for ColumnPlaces<'a> {
    fn drop(self) {
        let ColumnPlaces {
            columns: _,
            first: _,
        } = self;
    }
}

impl<'a> Model for ColumnPlaces<'a> {
    ghost use Rattle.std.specs.Prelude.{List};
    ghost use Rattle.pg_expr.specs.declared.operand.ColRef.{ColRef};
    ghost use Rattle.expr_reader.specs.work.Places.{AreFirst};

    ghost Value = { List ColRef };

    ghost view = { λ p. p.columns.now };

    ghost invariant = { λ p. AreFirst p.columns.now p.first };
}

/// Whether a column has a number.
fn is_numbered(x: ColRef) -> bool
    ensures yes { result ≡ true → IsNumbered x }
    ensures no { IsNumbered x → result ≡ true }
{
    if x.rel.0 as usize >= MOST_RELATIONS {
        return false;
    }
    (x.col.0 as usize) < MOST_COLUMNS
}

/// Its number.
fn number(x: ColRef) -> usize
    requires { IsNumbered x }
    ensures is { result ≡ number_of x }
    ensures few { result < 320 }
{
    x.rel.0 as usize * MOST_COLUMNS + x.col.0 as usize
}

/// No place of any column.
fn nowhere() -> [Option<usize>; MOST_NUMBERED]
    ensures { (k : ℕ) → get_or result k None ≡ None }
{
    [None; MOST_NUMBERED]
}

/// Notes a place at a number, where none is noted before.
fn put(first: &mut [Option<usize>; MOST_NUMBERED], k: usize, n: usize)
    requires few { k < 320 }
    ensures { HasPut first.old first.new k n }
{
    if first[k].is_none() {
        first[k] = Some(n);
    }
}

/// Notes the place of a column, where it has a number and no place is noted before.
fn note(first: &mut [Option<usize>; MOST_NUMBERED], x: ColRef, n: usize)
    ensures { HasNoted first.old first.new x n }
{
    if is_numbered(x) {
        put(first, number(x), n);
    }
}

/// The first place of a column in a list.
fn found_place(columns: &[ColRef], x: ColRef) -> Option<usize>
    ensures { result ≡ first_place columns.now x }
{
    columns.iter().position(|y| x == *y)
}

impl<'a> ColumnPlaces<'a> {
    /// The places of the columns of a list.
    pub fn of(columns: &'a [ColRef]) -> ColumnPlaces<'a>
        ensures { result ≡ columns.now }
    {
        let mut first = nowhere();
        for n in 0..columns.len() {
            note(&mut first, columns[n], n);
        }
        ColumnPlaces { columns, first }
    }

    /// The place that is noted, of a column that has a number; else that which is found.
    fn noted(&self, x: ColRef) -> Option<usize>
        ensures { result ≡ first_place self.now x }
    {
        if is_numbered(x) {
            return self.first[number(x)];
        }
        found_place(self.columns, x)
    }

    /// The place at which a column stands first. None exactly where it does not stand in the list.
    pub fn place(&self, x: ColRef) -> Option<usize>
        ensures is { result ≡ first_place self.now x }
        ensures within { IfSome result (λ n. n < length self.now) }
    {
        self.noted(x)
    }

    /// Whether a column stands in the list.
    pub fn has(&self, x: ColRef) -> bool
        ensures { result ≡ list_any (is_it x) self.now }
    {
        self.place(x).is_some()
    }
}
