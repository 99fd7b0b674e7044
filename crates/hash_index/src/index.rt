//! The index itself.

ghost use Rattle.std.specs.Prelude.{◌≡◌, ◌∷◌, ◌++◌, [], ◌<◌, length, map, All, IfOk, OnOk, OnErr, is_some, true};
ghost use Rattle.pg_value.specs.declared.operators.Op.TheVariants.{Eq};
ghost use Rattle.pg_value.specs.work.Order.{IsOfFamily};
ghost use Rattle.pg_value.specs.Sorting.{in_order};
ghost use Rattle.opfamily.specs.declared.classes.Method.TheVariants.{Hash};
ghost use Rattle.opfamily.specs.Answers.{number_in};
ghost use Rattle.opfamily.specs.KeyOrder.{key_family};
ghost use Rattle.hash_index.specs.work.Chains.{IsChained, taken_back};
ghost use Rattle.hash_index.specs.work.Groups.{held_by};
ghost use Rattle.hash_index.specs.work.Held.{IsLawfulHash, held_order, held_below, with_held, rows_equal};

use crate::chains::{Chains, Place};
use crate::rows::{Row, is_known};
use opfamily::IndexKey;
use pg_base::Tid;
use pg_value::Value;
use std::alloc::{AllocError, Global};
use std::marker::Model;

/// The rows of each value of one key. Contracts see a `Table`.
pub struct HashIndex {
    alloc: Global,
    key: IndexKey,
    chains: Chains,
}

impl Drop for HashIndex {
    fn drop(self) {
        let HashIndex {
            alloc: _,
            key: _,
            chains: _,
        } = self;
    }
}

impl Model for HashIndex {
    ghost use Rattle.hash_index.specs.work.Held.{HashTable};
    ghost use Rattle.hash_index.specs.work.Groups.{held_in};
    ghost use Rattle.hash_index.specs.work.Chains.{IsChained};

    ghost Value = { HashTable };

    ghost view = { λ h. record { key = h.key; held = held_in h.key h.chains.groups.items } };

    ghost invariant = { λ h. IsChained h.key h.chains };
}

impl HashIndex {
    /// An index without rows. Its key's family has `=` for hash.
    pub fn build(alloc: Global, key: IndexKey) -> Result<HashIndex, AllocError>
        requires { is_some (number_in (key_family key) Hash Eq) ≡ true }
        ensures { IfOk result (λ h. h ≡ record { key = key; held = [] }) }
    {
        Ok(HashIndex {
            alloc,
            key,
            chains: Chains::new(alloc, key)?,
        })
    }

    /// Adds a row with its value, NULL or of the kind that the key's class hashes. If memory runs out, the index is as
    /// before.
    pub fn insert(&mut self, v: Value, t: Tid) -> Result<(), AllocError>
        requires { IsOfFamily (key_family self.old.key) v }
        ensures inserted { OnOk result (self.new ≡ with_held self.old (record { value = v; row = t.0 } ∷ [])) }
        ensures refused { OnErr result (self.new ≡ self.old) }
    {
        self.chains.put(self.key, v, t)?;
        Ok(())
    }

    /// Adds many rows at once, each with its value, NULL or of the kind that the key's class hashes. If memory runs out, the
    /// index is as before.
    pub fn insert_all(&mut self, added: Vec<Row>) -> Result<(), AllocError>
        requires { All (λ h. IsOfFamily (key_family self.old.key) h.value) added.items }
        ensures inserted { OnOk result (self.new ≡ with_held self.old added.items) }
        ensures refused { OnErr result (self.new ≡ self.old) }
    {
        let mut places = Vec::new(self.alloc);
        match put_all(self.key, &mut self.chains, &mut places, added) {
            Ok(()) => Ok(()),
            Err(refused) => {
                take_back(&mut self.chains, places);
                Err(refused)
            }
        }
    }

    /// Keeps the rows whose numbers are below `rows`. It takes no memory, so it undoes what was added for rows that a load
    /// had put behind the others.
    pub fn cut(&mut self, rows: u32)
        ensures { self.new ≡ held_below rows self.old }
    {
        self.chains.cut(self.key, rows);
    }

    /// The rows whose value equals this one, rising; none for NULL.
    pub fn matches(&self, v: &Value) -> &[Tid]
        requires { IsOfFamily (key_family self.now.key) v.now }
        ensures rows { map (λ t. t.0) result.now ≡ rows_equal v.now self.now.held }
        ensures lawful { IsLawfulHash self.now }
    {
        let key = self.key;
        if !is_known(v) {
            return &[];
        }
        match self.chains.slot_of(key, v) {
            Some(slot) => self.chains.groups[slot as usize].tids(),
            None => &[],
        }
    }

    /// How many buckets there are.
    pub fn buckets(&self) -> u32 {
        u32::try_from(self.chains.heads.len()).unwrap_or(u32::MAX)
    }
}

/// Puts each row among those of its value, and notes its place. If memory runs out, some are put there.
fn put_all(
    key: IndexKey,
    chains: &mut Chains,
    places: &mut Vec<Place>,
    added: Vec<Row>,
) -> Result<(), AllocError>
    requires chained { IsChained key chains.old }
    requires none { places.old.items ≡ [] }
    requires fits { All (λ h. IsOfFamily (key_family key) h.value) added.items }
    ensures chained { IsChained key chains.new }
    ensures within { All (λ p. p.slot < length chains.new.groups.items) places.new.items }
    ensures back { held_by (taken_back places.new.items chains.new.groups.items) ≡ held_by chains.old.groups.items }
    ensures put { OnOk result (in_order (held_order key) (held_by chains.new.groups.items) ≡ in_order (held_order key) (held_by chains.old.groups.items ++ added.items)) }
{
    for row in added {
        let (value, tid) = row.into_parts();
        let place = chains.put(key, value, tid)?;
        if places.push(place).is_err() {
            chains.take_out(place);
            return Err(AllocError);
        }
    }
    Ok(())
}

/// Takes out the rows at places, from the last place on.
fn take_back(chains: &mut Chains, mut places: Vec<Place>)
    requires { All (λ p. p.slot < length chains.old.groups.items) places.items }
    ensures groups { chains.new.groups.items ≡ taken_back places.items chains.old.groups.items }
    ensures heads { chains.new.heads ≡ chains.old.heads }
    ensures links { chains.new.links ≡ chains.old.links }
{
    while let Some(place) = places.pop() {
        chains.take_out(place);
    }
}
