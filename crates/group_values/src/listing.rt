//! Groups in a list, and how one of them is found.

ghost use Rattle.std.specs.Prelude.{◌≡◌, ◌<◌, ◌++◌, ◌∷◌, [], length, slice_set, true, IfOk, IfSome, IfNone, OnOk, OnErr};
ghost use Rattle.group_values.specs.Shapes.{Summary};
ghost use Rattle.group_values.specs.work.Steps.{AreWhole, IsLastAlone, group_at, have_room, joined};
ghost use Rattle.group_values.specs.work.Listing.{HasNoted, IsListing, form_of};
ghost use Rattle.group_values.specs.work.Places.{HasNoGroup, IsGroupOf};
ghost use Rattle.group_values.specs.declared.form.Form.TheVariants.{Sorted};

use crate::chains::Chains;
use crate::form::Form;
use crate::hash::hash_keys;
use crate::{Call, Kept, Values, same_keys};
use pg_base::Memory;
use pg_value::Value;
use std::alloc::{AllocError, Global};

/// How a group is found.
#[derive(Drop)]
pub(crate) enum Finder {
    /// The group is the last one, or a new one.
    Last,
    /// By the hash of its keys; its slot is its place in the list.
    ByHash(Chains),
}

/// Groups in the order of their first tuples.
#[derive(Drop)]
pub(crate) struct Listing {
    pub(crate) finder: Finder,
    pub(crate) groups: Vec<Kept>,
}

impl Finder {
    /// A finder of a form, without groups. The error means out of memory.
    fn new(alloc: Global, form: Form) -> Result<Finder, Memory>
        ensures form { IfOk result (λ f. form_of f ≡ form) }
        ensures finds { IfOk result (λ f. HasNoted f []) }
    {
        match form {
            Form::Sorted => Ok(Finder::Last),
            Form::Hashed => {
                let chains = Chains::new(alloc)?;
                Ok(Finder::ByHash(chains))
            }
        }
    }

    /// Takes in the keys of one more group behind the others. If memory runs out, it finds the same groups as before.
    fn note(&mut self, groups: &[Kept], keys: &[Value]) -> Result<(), Memory>
        requires { HasNoted self.old groups.now }
        ensures form { form_of self.new ≡ form_of self.old }
        ensures noted { OnOk result ((g : Summary) → g.keys ≡ keys.now → HasNoted self.new (groups.now ++ g ∷ [])) }
        ensures refused { OnErr result (HasNoted self.new groups.now) }
    {
        match self {
            Finder::Last => Ok(()),
            Finder::ByHash(chains) => chains.add(hash_keys(keys)),
        }
    }
}

impl Listing {
    /// No groups.
    pub(crate) fn new(alloc: Global, form: Form) -> Result<Listing, Memory>
        ensures form { IfOk result (λ l. form_of l.finder ≡ form) }
        ensures finds { IfOk result (λ l. HasNoted l.finder l.groups.items) }
        ensures empty { IfOk result (λ l. l.groups.items ≡ []) }
    {
        let finder = Finder::new(alloc, form)?;
        Ok(Listing {
            finder,
            groups: Vec::new(alloc),
        })
    }

    /// The place of the group with these keys, none where no group has them.
    pub(crate) fn place_of(&self, keys: &[Value]) -> Option<usize>
        requires finds { HasNoted self.now.finder self.now.groups.items }
        requires together { form_of self.now.finder ≡ Sorted → IsLastAlone self.now.groups.items keys.now }
        ensures found { IfSome result (λ n. IsGroupOf self.now.groups.items keys.now n) }
        ensures none { IfNone result (HasNoGroup self.now.groups.items keys.now) }
    {
        match &self.finder {
            Finder::Last => last_with(&self.groups, keys),
            Finder::ByHash(chains) => chains.find(&self.groups, keys),
        }
    }

    /// Puts a group behind the others. If memory runs out, they are as before.
    pub(crate) fn add(&mut self, group: Kept) -> Result<(), Memory>
        requires { HasNoted self.old.finder self.old.groups.items }
        ensures form { form_of self.new.finder ≡ form_of self.old.finder }
        ensures finds { HasNoted self.new.finder self.new.groups.items }
        ensures added { OnOk result (self.new.groups.items ≡ self.old.groups.items ++ group ∷ []) }
        ensures refused { OnErr result (self.new.groups.items ≡ self.old.groups.items) }
    {
        self.groups.reserve(1)?;
        self.finder.note(&self.groups, group.keys())?;
        self.groups.push(group)?;
        Ok(())
    }

    /// Has one more tuple join the group at a place. Where a count would pass 2^63 - 1, memory is said to have run out, and the
    /// groups are as before.
    pub(crate) fn join(&mut self, place: usize, calls: &[Call], args: Values) -> Result<(), Memory>
        requires listing { IsListing calls.now self.old }
        requires place { place < length self.old.groups.items }
        requires args { length args ≡ length calls.now }
        ensures listing { IsListing calls.now self.new }
        ensures finder { self.new.finder ≡ self.old.finder }
        ensures room { OnOk result (have_room calls.now (group_at self.old.groups.items place).called ≡ true) }
        ensures joined { OnOk result (self.new.groups.items ≡ slice_set self.old.groups.items place (joined calls.now args (group_at self.old.groups.items place))) }
        ensures refused { OnErr result (self.new.groups.items ≡ self.old.groups.items) }
    {
        join_at(&mut self.groups, place, calls, args)
    }
}

/// The place of the last group, where it has these keys.
fn last_with(groups: &[Kept], keys: &[Value]) -> Option<usize>
    requires { IsLastAlone groups.now keys.now }
    ensures found { IfSome result (λ n. IsGroupOf groups.now keys.now n) }
    ensures none { IfNone result (HasNoGroup groups.now keys.now) }
{
    if groups.is_empty() {
        return None;
    }
    let last = groups.len() - 1;
    if !same_keys(groups[last].keys(), keys) {
        return None;
    }
    Some(last)
}

/// Has one more tuple join the group at a place, where its counts can rise.
fn join_at(groups: &mut [Kept], place: usize, calls: &[Call], args: Values) -> Result<(), Memory>
    requires place { place < length groups.old }
    requires whole { AreWhole calls.now groups.old }
    requires args { length args ≡ length calls.now }
    ensures room { OnOk result (have_room calls.now (group_at groups.old place).called ≡ true) }
    ensures joined { OnOk result (groups.new ≡ slice_set groups.old place (joined calls.now args (group_at groups.old place))) }
    ensures refused { OnErr result (groups.new ≡ groups.old) }
{
    if !groups[place].has_room(calls) {
        return Err(AllocError);
    }
    groups[place].join(calls, args);
    Ok(())
}
