//! Lists of names that are found by name and by number.

ghost use Rattle.std.specs.Prelude.{◌≡◌, ◌<◌, ◌≤◌, ℕ, List, length, position, Contains, IfOk, IfSome, IsTrue, MatchOption, Some, slice_get, ◌↔◌};
ghost use Rattle.std.specs.Str.{bytes_eq};
ghost use Rattle.pg_base.specs.declared.limits.TheConstants.{MOST_COLUMNS};
ghost use Rattle.pg_base.specs.Names.{AreDistinct, IsFirstRepeat};

use indexmap::IndexSet;
use opfamily::pg_value::{Bytes, Columns};
use pg_base::Memory;
use std::alloc::Global;
use std::marker::Model;

/// Different names in order. Contracts see the list.
pub struct Names {
    set: IndexSet<Vec<u8>>,
}

impl Drop for Names {
    fn drop(self) {
        let Names { set: _ } = self;
    }
}

impl Model for Names {
    ghost use Rattle.std.specs.Prelude.{List, ℕ};
    ghost use Rattle.catalog.specs.work.Keys.{key_names};

    ghost Value = { List (List ℕ) };

    ghost view = { λ n. key_names n.set.keys };
}

impl Names {
    /// The list of some names. The error means that memory ran out.
    pub fn copy_of(alloc: Global, names: &[Bytes]) -> Result<Names, Memory>
        requires { AreDistinct names.now }
        ensures { IfOk result (λ n. n ≡ names.now) }
    {
        let mut set = IndexSet::new(alloc);
        for name in names {
            set.insert(Vec::from_slice(alloc, name.items())?)?;
        }
        Ok(Names { set })
    }

    /// A copy of the names. The error means that memory ran out.
    pub fn copy(&self, alloc: Global) -> Result<Names, Memory>
        ensures { IfOk result (λ n. n ≡ self.now) }
    {
        let mut set = IndexSet::new(alloc);
        for n in 0..self.set.len() {
            set.insert(Vec::from_slice(alloc, self.get(n))?)?;
        }
        Ok(Names { set })
    }

    /// The place of a name, from 0. None where it is not in the list.
    pub fn find(&self, name: &[u8]) -> Option<usize>
        ensures place { result ≡ position (bytes_eq name.now) self.now }
        ensures within { IfSome result (λ n. n < length self.now) }
    {
        self.set.get_index_of(name)
    }

    /// The name at a place.
    pub fn get(&self, n: usize) -> &[u8]
        requires { n < length self.now }
        ensures { slice_get self.now n ≡ Some result.now }
    {
        &self.set.as_slice()[n]
    }
}

/// The place of the first of the columns' names that stands before already. None where the names differ.
pub fn first_repeat(names: &[Bytes], columns: &Columns) -> Option<u8>
    requires { length names.now ≡ length columns.now }
    ensures repeat { MatchOption result (AreDistinct names.now) (λ n. IsFirstRepeat names.now n) }
    ensures some { 0 < length columns.now }
    ensures few { length columns.now ≤ MOST_COLUMNS }
{
    for n in 0..columns.items().len() {
        if is_among(names[n].items(), &names[..n]) {
            return Some(n as u8);
        }
    }
    None
}

fn is_among(name: &[u8], names: &[Bytes]) -> bool
    ensures { IsTrue result ↔ Contains names.now name.now }
{
    names.iter().any(|other| other.items() == name)
}
