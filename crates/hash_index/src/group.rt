//! A value with its rows.

ghost use Rattle.std.specs.Prelude.{◌≡◌, ◌≤◌, [], filter, length, nat_lt, IfOk, OnErr};
ghost use Rattle.std.specs.List.{insert};
ghost use Rattle.hash_index.specs.work.Groups.{AreRising, below, with_tid, without_tid};

use pg_base::Tid;
use pg_value::Value;
use std::alloc::{AllocError, Global};
use std::marker::Model;

/// A value with the rows that have it, rising.
#[derive(Debug, Drop)]
pub(crate) struct Group {
    value: Value,
    tids: Vec<Tid>,
}

impl Model for Group {
    ghost use Rattle.hash_index.specs.work.Groups.{AreRising, RowsOf};

    ghost Value = { RowsOf };

    ghost view = { λ g. record { value = g.value; tids = g.tids.items } };

    ghost invariant = { λ g. AreRising g.tids.items };
}

impl Group {
    /// A value without rows.
    pub(crate) fn new(alloc: Global, value: Value) -> Group
        ensures { result ≡ record { value = value; tids = [] } }
    {
        Group {
            value,
            tids: Vec::new(alloc),
        }
    }

    /// The value.
    pub(crate) fn value(&self) -> &Value
        ensures { result.now ≡ self.now.value }
    {
        &self.value
    }

    /// The numbers of its rows.
    pub(crate) fn tids(&self) -> &[Tid]
        ensures tids { result.now ≡ self.now.tids }
        ensures rising { AreRising self.now.tids }
    {
        &self.tids
    }

    /// Puts a row's number among the others, and gives its place. If memory runs out, the numbers are as before.
    pub(crate) fn insert(&mut self, t: Tid) -> Result<usize, AllocError>
        ensures inserted { IfOk result (λ n. self.new ≡ with_tid n t self.old) }
        ensures within { IfOk result (λ n. n ≤ length self.old.tids) }
        ensures refused { OnErr result (self.new ≡ self.old) }
    {
        let place = place_of(&self.tids, t);
        self.tids.insert(place, t)?;
        Ok(place)
    }

    /// Takes out the number at a place, where there is one.
    pub(crate) fn remove(&mut self, place: usize)
        ensures { self.new ≡ without_tid place self.old }
    {
        if place < self.tids.len() {
            self.tids.remove(place);
        }
    }

    /// Keeps the row numbers below `rows`.
    pub(crate) fn cut(&mut self, rows: u32)
        ensures { self.new ≡ below rows self.old }
    {
        keep_below(&mut self.tids, rows);
    }
}

/// The place behind the numbers that do not stand after one.
fn place_of(tids: &[Tid], t: Tid) -> usize
    requires { AreRising tids.now }
    ensures within { result ≤ length tids.now }
    ensures rising { AreRising (insert tids.now result t) }
{
    tids.partition_point(|other| !other.cmp(&t).is_gt())
}

/// Keeps the row numbers below `rows`.
fn keep_below(tids: &mut Vec<Tid>, rows: u32)
    ensures { tids.new.items ≡ filter (λ t. nat_lt t.0 rows) tids.old.items }
{
    tids.retain(|t| t.0 < rows);
}
