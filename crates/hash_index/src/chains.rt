//! Chains of different values, one for each bucket.

ghost use Rattle.std.specs.Prelude.{◌≡◌, ◌≢◌, ℕ, ◌<◌, ◌≤◌, ◌+◌, ◌-◌, ◌^◌, ◌++◌, ◌∷◌, [], length, map, filter, nat_lt, IfOk, IfSome, IfNone, OnOk, OnErr, is_some, true};
ghost use Rattle.std.specs.Ordering.{is_eq};
ghost use Rattle.linked.specs.work.Lists.{AreLists, list_of};
ghost use Rattle.pg_value.specs.declared.operators.Op.TheVariants.{Eq};
ghost use Rattle.pg_value.specs.declared.value.Value.TheVariants.{Null};
ghost use Rattle.pg_value.specs.work.Order.{IsOfFamily};
ghost use Rattle.opfamily.specs.declared.classes.Method.TheVariants.{Hash};
ghost use Rattle.opfamily.specs.Answers.{number_in};
ghost use Rattle.opfamily.specs.KeyOrder.{key_family, key_order};
ghost use Rattle.hash_index.specs.work.Chains.{HasSlots, IsChained, IsWider, head_for, IsBehindHead, StaysBehind};
ghost use Rattle.hash_index.specs.work.Groups.{HasPut, below, held_by, value_at, without_at, HaveSameValues, no_rows_of};
ghost use Rattle.hash_index.specs.work.Held.{IsKnown};

use crate::group::Group;
use crate::hash::hash;
use crate::rows::is_known;
use linked::Links;
use opfamily::IndexKey;
use pg_base::Tid;
use pg_value::Value;
use std::alloc::{AllocError, Global};

/// How many buckets there are at first.
const BUCKETS: usize = 8;

/// Values with their rows. Each bucket has a slot, behind which the slots of its values stand; NULL has slot 0.
#[derive(Drop)]
pub(crate) struct Chains {
    alloc: Global,
    /// The slot of each bucket.
    pub(crate) heads: Vec<u32>,
    /// The values by their slots; a bucket's slot has NULL without rows.
    pub(crate) groups: Vec<Group>,
    pub(crate) links: Links,
}

/// A row among those of a value.
#[derive(Debug, Clone, Copy, Drop)]
pub(crate) struct Place {
    /// The value's slot.
    pub(crate) slot: u32,
    /// How many rows of the value stand before this one.
    pub(crate) at: usize,
}

impl Chains {
    /// Eight buckets, and no rows.
    pub(crate) fn new(alloc: Global, key: IndexKey) -> Result<Chains, AllocError>
        requires { is_some (number_in (key_family key) Hash Eq) ≡ true }
        ensures chained { IfOk result (λ c. IsChained key c) }
        ensures empty { IfOk result (λ c. held_by c.groups.items ≡ []) }
    {
        let mut chains = Chains {
            alloc,
            heads: Vec::new(alloc),
            groups: Vec::new(alloc),
            links: Links::new(alloc),
        };
        chains.add_slot(Value::Null)?;
        chains.add_heads(BUCKETS)?;
        Ok(chains)
    }

    /// The slot of a value, none exactly where it has none.
    pub(crate) fn slot_of(&self, key: IndexKey, v: &Value) -> Option<u32>
        requires chained { IsChained key self.now }
        requires known { IsKnown v.now }
        requires fits { IsOfFamily (key_family key) v.now }
        ensures found { IfSome result (λ s. value_at self.now.groups.items s ≡ v.now) }
        ensures within { IfSome result (λ s. s < length self.now.groups.items) }
        ensures none { IfNone result ((s : ℕ) → value_at self.now.groups.items s ≢ v.now) }
    {
        let head = self.head_of(v);
        let mut next = self.links.next(head);
        while let Some(slot) = next {
            if self.ties(key, slot, v) {
                return Some(slot);
            }
            next = self.links.next(slot);
        }
        None
    }

    /// The slot of the bucket of a value.
    fn head_of(&self, v: &Value) -> u32
        requires slots { HasSlots self.now }
        requires some { 0 < length self.now.heads.items }
        ensures head { result ≡ head_for self.now.heads.items v.now }
        ensures within { result < length self.now.groups.items }
        ensures null { value_at self.now.groups.items result ≡ Null }
    {
        self.heads[(hash(v) % self.heads.len() as u64) as usize]
    }

    /// The value at a slot.
    fn value_at(&self, slot: u32) -> &Value
        requires { slot < length self.now.groups.items }
        ensures { result.now ≡ value_at self.now.groups.items slot }
    {
        self.groups[slot as usize].value()
    }

    /// Whether the value at a slot ties with this one.
    fn ties(&self, key: IndexKey, slot: u32, v: &Value) -> bool
        requires { slot < length self.now.groups.items }
        ensures { result ≡ is_eq (key_order key (value_at self.now.groups.items slot) v.now) }
    {
        key.compare(self.value_at(slot), v).is_eq()
    }

    /// Puts the number of a row among those of its value. If memory runs out, the rows are as before.
    pub(crate) fn put(&mut self, key: IndexKey, v: Value, t: Tid) -> Result<Place, AllocError>
        requires chained { IsChained key self.old }
        requires fits { IsOfFamily (key_family key) v }
        ensures chained { IsChained key self.new }
        ensures within { IfOk result (λ p. p.slot < length self.new.groups.items) }
        ensures put { IfOk result (λ p. HasPut (record { value = v; row = t.0 }) (held_by self.old.groups.items) (held_by self.new.groups.items)) }
        ensures back { IfOk result (λ p. IsWider self.old.groups.items (without_at p.slot p.at self.new.groups.items)) }
        ensures refused { OnErr result (IsWider self.old.groups.items self.new.groups.items) }
    {
        let slot = self.slot_for(key, v)?;
        let at = self.groups[slot as usize].insert(t)?;
        Ok(Place { slot, at })
    }

    /// Takes out the row at a place.
    pub(crate) fn take_out(&mut self, place: Place)
        requires { place.slot < length self.old.groups.items }
        ensures groups { self.new.groups.items ≡ without_at place.slot place.at self.old.groups.items }
        ensures heads { self.new.heads ≡ self.old.heads }
        ensures links { self.new.links ≡ self.old.links }
    {
        self.groups[place.slot as usize].remove(place.at);
    }

    /// Keeps the rows whose numbers are below `rows`.
    pub(crate) fn cut(&mut self, key: IndexKey, rows: u32)
        requires { IsChained key self.old }
        ensures chained { IsChained key self.new }
        ensures kept { held_by self.new.groups.items ≡ filter (λ h. nat_lt h.row rows) (held_by self.old.groups.items) }
    {
        cut_each(&mut self.groups, rows);
    }

    /// The slot of a value, which is added without rows where it has none.
    fn slot_for(&mut self, key: IndexKey, v: Value) -> Result<u32, AllocError>
        requires chained { IsChained key self.old }
        requires fits { IsOfFamily (key_family key) v }
        ensures chained { IsChained key self.new }
        ensures within { IfOk result (λ s. s < length self.new.groups.items) }
        ensures found { IfOk result (λ s. value_at self.new.groups.items s ≡ v) }
        ensures wider { IsWider self.old.groups.items self.new.groups.items }
    {
        if !is_known(&v) {
            return Ok(0);
        }
        match self.slot_of(key, &v) {
            Some(slot) => Ok(slot),
            None => self.add_value(key, v),
        }
    }

    /// Adds a value without rows under its bucket.
    fn add_value(&mut self, key: IndexKey, v: Value) -> Result<u32, AllocError>
        requires chained { IsChained key self.old }
        requires known { IsKnown v }
        requires fits { IsOfFamily (key_family key) v }
        requires none { (s : ℕ) → value_at self.old.groups.items s ≢ v }
        ensures chained { IsChained key self.new }
        ensures within { IfOk result (λ s. s < length self.new.groups.items) }
        ensures found { IfOk result (λ s. value_at self.new.groups.items s ≡ v) }
        ensures wider { IsWider self.old.groups.items self.new.groups.items }
    {
        self.make_room(key)?;
        let slot = self.add_slot(v)?;
        self.put_under_bucket(slot);
        Ok(slot)
    }

    /// Makes twice as many buckets where with one more value there would be more than two values to each. If memory runs
    /// out, no value is moved.
    fn make_room(&mut self, key: IndexKey) -> Result<(), AllocError>
        requires { IsChained key self.old }
        ensures chained { IsChained key self.new }
        ensures wider { IsWider self.old.groups.items self.new.groups.items }
        ensures values { HaveSameValues self.new.groups.items self.old.groups.items }
    {
        if self.groups.len().saturating_sub(1) / 3 < self.heads.len() {
            return Ok(());
        }
        self.double(key)
    }

    /// Makes twice as many buckets, and then puts each value under its new one. If memory runs out, no value is moved.
    fn double(&mut self, key: IndexKey) -> Result<(), AllocError>
        requires { IsChained key self.old }
        ensures chained { IsChained key self.new }
        ensures twice { OnOk result (length self.new.heads.items ≡ length self.old.heads.items + length self.old.heads.items) }
        ensures wider { IsWider self.old.groups.items self.new.groups.items }
        ensures values { HaveSameValues self.new.groups.items self.old.groups.items }
    {
        let count = self.heads.len();
        self.add_heads(count)?;
        for slot in 0..self.groups.len() as u32 {
            self.put_under_bucket(slot);
        }
        Ok(())
    }

    /// Puts a value under its bucket, wherever it stood.
    fn put_under_bucket(&mut self, slot: u32)
        requires slots { HasSlots self.old }
        requires some { 0 < length self.old.heads.items }
        requires slot { slot < length self.old.groups.items }
        ensures slots { HasSlots self.new }
        ensures heads { self.new.heads ≡ self.old.heads }
        ensures groups { self.new.groups ≡ self.old.groups }
        ensures put { IsBehindHead self.new self.old.heads.items self.old.groups.items slot }
        ensures kept { StaysBehind self.new self.old slot }
    {
        let value = self.value_at(slot);
        if is_known(value) {
            let head = self.head_of(value);
            self.links.unlink(slot);
            self.links.insert_after(head, slot);
        }
    }

    /// Makes more buckets, all or none.
    fn add_heads(&mut self, count: usize) -> Result<(), AllocError>
        requires { HasSlots self.old }
        ensures slots { HasSlots self.new }
        ensures more { OnOk result (length self.new.heads.items ≡ length self.old.heads.items + count) }
        ensures refused { OnErr result (self.new.heads.items ≡ self.old.heads.items) }
        ensures wider { IsWider self.old.groups.items self.new.groups.items }
        ensures values { HaveSameValues self.new.groups.items self.old.groups.items }
        ensures lists { (s : ℕ) → s < length self.old.links → list_of self.new.links s ≡ list_of self.old.links s }
    {
        let mut heads = Vec::new(self.alloc);
        heads.reserve(count)?;
        for _ in 0..count {
            let head = self.add_slot(Value::Null)?;
            heads.push(head)?;
        }
        self.heads.append(&mut heads)?;
        Ok(())
    }

    /// Makes a new slot, alone, for a value or for a bucket.
    fn add_slot(&mut self, v: Value) -> Result<u32, AllocError>
        requires { length self.old.links ≡ length self.old.groups.items }
        ensures slot { IfOk result (λ s. s ≡ length self.old.groups.items) }
        ensures groups { OnOk result (self.new.groups.items ≡ self.old.groups.items ++ no_rows_of v ∷ []) }
        ensures links { OnOk result (self.new.links ≡ self.old.links ++ (length self.old.links ∷ []) ∷ []) }
        ensures few { OnOk result (length self.new.groups.items ≤ 2 ^ 32 - 1) }
        ensures lawful { OnOk result (AreLists self.new.links) }
        ensures heads { self.new.heads ≡ self.old.heads }
        ensures same_groups { OnErr result (self.new.groups.items ≡ self.old.groups.items) }
        ensures same_links { OnErr result (self.new.links ≡ self.old.links) }
    {
        if self.groups.len() >= u32::MAX as usize {
            return Err(AllocError);
        }
        self.groups.push(Group::new(self.alloc, v))?;
        match self.links.add() {
            Ok(slot) => Ok(slot),
            Err(refused) => {
                self.groups.pop();
                Err(refused)
            }
        }
    }
}

/// Keeps the rows of each value whose numbers are below `rows`.
fn cut_each(groups: &mut [Group], rows: u32)
    ensures { groups.new ≡ map (below rows) groups.old }
{
    for slot in 0..groups.len() {
        groups[slot].cut(rows);
    }
}
