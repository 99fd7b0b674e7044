//! Slots in chains, one chain for each bucket of hashes.

ghost use Rattle.std.specs.Prelude.{◌≡◌, ◌<◌, ◌≤◌, ◌+◌, ◌%◌, ◌++◌, ◌∷◌, [], length, IfOk, IfSome, IfNone, OnOk, OnErr};
ghost use Rattle.linked.specs.work.Lists.{list_of};
ghost use Rattle.group_values.specs.Groups.{same_keys};
ghost use Rattle.group_values.specs.work.Steps.{group_at};
ghost use Rattle.group_values.specs.work.Chains.{HasRoom, IsChained, IsChainedBelow, first_for};
ghost use Rattle.group_values.specs.work.Hash.{hash_of};
ghost use Rattle.group_values.specs.work.Places.{HasNoGroup, IsGroupOf, hashes_of};

use crate::hash::hash_keys;
use crate::{Kept, same_keys};
use linked::Links;
use pg_base::Memory;
use pg_value::Value;
use std::alloc::{AllocError, Global};

/// How many buckets there are at first.
const BUCKETS: usize = 8;

/// Slots by their hashes. Each bucket of hashes has a chain of slots.
#[derive(Drop)]
pub(crate) struct Chains {
    alloc: Global,
    /// The slot that stands first in the chain of each bucket.
    pub(crate) firsts: Vec<Option<u32>>,
    /// The hashes by their slots.
    pub(crate) hashes: Vec<u64>,
    pub(crate) links: Links,
}

impl Chains {
    /// Eight buckets, and no slots.
    pub(crate) fn new(alloc: Global) -> Result<Chains, Memory>
        ensures chained { IfOk result (λ c. IsChained c) }
        ensures empty { IfOk result (λ c. c.hashes.items ≡ []) }
    {
        Chains::with_buckets(alloc, BUCKETS)
    }

    /// Chains with this number of buckets, and no slots. The error means out of memory.
    fn with_buckets(alloc: Global, count: usize) -> Result<Chains, Memory>
        requires { 0 < count }
        ensures chained { IfOk result (λ c. IsChained c) }
        ensures empty { IfOk result (λ c. c.hashes.items ≡ []) }
        ensures buckets { IfOk result (λ c. length c.firsts.items ≡ count) }
    {
        let mut firsts = Vec::new(alloc);
        firsts.resize(count, None)?;
        Ok(Chains {
            alloc,
            firsts,
            hashes: Vec::new(alloc),
            links: Links::new(alloc),
        })
    }

    /// The slot of the group with these keys, none where no group has them.
    pub(crate) fn find(&self, groups: &[Kept], keys: &[Value]) -> Option<usize>
        requires chained { IsChained self.now }
        requires hashes { self.now.hashes.items ≡ hashes_of groups.now }
        ensures found { IfSome result (λ n. IsGroupOf groups.now keys.now n) }
        ensures none { IfNone result (HasNoGroup groups.now keys.now) }
    {
        let hash = hash_keys(keys);
        let mut next = self.first(hash);
        while let Some(slot) = next {
            if self.is_at(slot, hash, groups, keys) {
                return Some(slot as usize);
            }
            next = self.links.next(slot);
        }
        None
    }

    /// Whether the group at a slot has these keys, whose hash is this one.
    fn is_at(&self, slot: u32, hash: u64, groups: &[Kept], keys: &[Value]) -> bool
        requires slot { slot < length groups.now }
        requires hashes { self.now.hashes.items ≡ hashes_of groups.now }
        requires hash { hash ≡ hash_of keys.now }
        ensures { result ≡ same_keys (group_at groups.now slot).keys keys.now }
    {
        if self.hashes[slot as usize] != hash {
            return false;
        }
        same_keys(groups[slot as usize].keys(), keys)
    }

    /// The slot that stands first in the chain of a hash.
    fn first(&self, hash: u64) -> Option<u32>
        requires { 0 < length self.now.firsts.items }
        ensures { result ≡ first_for self.now.firsts.items hash }
    {
        self.firsts[self.bucket(hash)]
    }

    /// Makes a slot for a hash, the one behind the last. If memory runs out, no slot is made.
    pub(crate) fn add(&mut self, hash: u64) -> Result<(), Memory>
        requires { IsChained self.old }
        ensures chained { IsChained self.new }
        ensures added { OnOk result (self.new.hashes.items ≡ self.old.hashes.items ++ hash ∷ []) }
        ensures refused { OnErr result (self.new.hashes.items ≡ self.old.hashes.items) }
    {
        self.make_room()?;
        self.put(hash)
    }

    /// Makes twice as many buckets where there are two slots to each. If memory runs out, the chains are as before.
    fn make_room(&mut self) -> Result<(), Memory>
        requires { IsChained self.old }
        ensures chained { IsChained self.new }
        ensures room { OnOk result (HasRoom self.new) }
        ensures hashes { self.new.hashes.items ≡ self.old.hashes.items }
    {
        if self.hashes.len() / 2 < self.firsts.len() {
            return Ok(());
        }
        let wider = self.widened()?;
        *self = wider;
        Ok(())
    }

    /// The slots of these chains, in chains of twice as many buckets. The error means out of memory.
    fn widened(&self) -> Result<Chains, Memory>
        requires chained { IsChained self.now }
        requires full { length self.now.firsts.items + length self.now.firsts.items ≤ length self.now.hashes.items }
        ensures chained { IfOk result (λ c. IsChained c) }
        ensures room { IfOk result (λ c. HasRoom c) }
        ensures hashes { IfOk result (λ c. c.hashes.items ≡ self.now.hashes.items) }
    {
        let mut wider = Chains::with_buckets(self.alloc, 2 * self.firsts.len())?;
        for hash in &self.hashes {
            wider.put(*hash)?;
        }
        Ok(wider)
    }

    /// Puts a new slot into the chain of its hash. If memory runs out, no slot is made.
    fn put(&mut self, hash: u64) -> Result<(), Memory>
        requires chained { IsChained self.old }
        requires room { HasRoom self.old }
        ensures chained { IsChained self.new }
        ensures added { OnOk result (self.new.hashes.items ≡ self.old.hashes.items ++ hash ∷ []) }
        ensures refused { OnErr result (self.new.hashes.items ≡ self.old.hashes.items) }
        ensures buckets { length self.new.firsts.items ≡ length self.old.firsts.items }
    {
        let slot = self.add_slot(hash)?;
        self.link(slot);
        Ok(())
    }

    /// Makes a new slot, alone and in no bucket's chain yet. If memory runs out, no slot is made.
    fn add_slot(&mut self, hash: u64) -> Result<u32, Memory>
        requires chained { IsChained self.old }
        requires room { HasRoom self.old }
        ensures last { IfOk result (λ s. length self.new.hashes.items ≡ s + 1) }
        ensures others { IfOk result (λ s. IsChainedBelow s self.new) }
        ensures alone { IfOk result (λ s. list_of self.new.links s ≡ s ∷ []) }
        ensures added { OnOk result (self.new.hashes.items ≡ self.old.hashes.items ++ hash ∷ []) }
        ensures chained { OnErr result (IsChained self.new) }
        ensures refused { OnErr result (self.new.hashes.items ≡ self.old.hashes.items) }
        ensures firsts { self.new.firsts ≡ self.old.firsts }
    {
        if self.hashes.len() >= u32::MAX as usize {
            return Err(AllocError);
        }
        self.hashes.reserve(1)?;
        let slot = self.links.add()?;
        self.hashes.push(hash)?;
        Ok(slot)
    }

    /// Puts the last slot into its bucket's chain: behind the chain's first slot, or as its first.
    fn link(&mut self, slot: u32)
        requires last { length self.old.hashes.items ≡ slot + 1 }
        requires others { IsChainedBelow slot self.old }
        requires alone { list_of self.old.links slot ≡ slot ∷ [] }
        ensures chained { IsChained self.new }
        ensures hashes { self.new.hashes ≡ self.old.hashes }
        ensures buckets { length self.new.firsts.items ≡ length self.old.firsts.items }
    {
        let hash = self.hashes[slot as usize];
        match self.first(hash) {
            Some(first) => self.links.insert_after(first, slot),
            None => {
                let bucket = self.bucket(hash);
                self.firsts[bucket] = Some(slot);
            }
        }
    }

    /// The bucket of a hash.
    fn bucket(&self, hash: u64) -> usize
        requires { 0 < length self.now.firsts.items }
        ensures bucket { result ≡ hash % length self.now.firsts.items }
        ensures within { result < length self.now.firsts.items }
    {
        (hash % self.firsts.len() as u64) as usize
    }
}
