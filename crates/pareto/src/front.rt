//! The front of the items offered so far: none of them is at most another one (own; in the manner of
//! PostgreSQL's `add_path`, which keeps the paths that no other path dominates).

ghost use Rattle.std.specs.Prelude.{◌≡◌, ◌≤◌, ◌∷◌, ◌++◌, [], not, false, IsTrue, IsOk, OnOk, IfErr, All, AllPairs, filter, vec_len, vec_capacity};
ghost use Rattle.pareto.specs.work.Front.{IsCovered, AreKeptOr, Unrelated};

use crate::ranked::Ranked;
use std::alloc::Global;
use std::marker::Model;

/// A list of items none of which is at most another one. Contracts see the list.
#[derive(Drop)]
pub struct Front<T: Ranked> {
    items: Vec<T>,
}

impl<T: Ranked> Model for Front<T> {
    ghost use Rattle.std.specs.Prelude.{List, AllPairs};
    ghost use Rattle.pareto.specs.work.Front.{Unrelated};

    ghost Value = { List T };

    ghost view = { λ f. f.items.items };

    ghost invariant = { λ f. AllPairs (Unrelated T.is_at_most) f.items.items };
}

impl<T: Ranked + Drop> Front<T> {
    /// The front without items. It takes no memory until an item is offered.
    pub fn new(alloc: Global) -> Front<T>
        ensures { result ≡ [] }
    {
        Front {
            items: Vec::new(alloc),
        }
    }

    /// The kept items, lent. None of them is at most another one.
    pub fn items(&self) -> &[T]
        ensures items { result.now ≡ self.now }
        ensures undominated { AllPairs (Unrelated T.is_at_most) self.now }
    {
        &self.items
    }

    /// Keeps an item unless a kept one is at most it, and lets go of the kept ones that it is at most. Where a kept one is at
    /// most it, an equal one too, it is let go of: the front is as before, and no memory is taken.
    /// `Err` hands the item back: memory ran out, and the front is as before.
    pub fn offer(&mut self, t: T) -> Result<(), T>
        ensures offered { OnOk result (IsCovered T.is_at_most self.new t) }
        ensures covered { OnOk result (All (IsCovered T.is_at_most self.new) self.old) }
        ensures kept { OnOk result (AreKeptOr self.old t self.new) }
        ensures undominated { OnOk result (AllPairs (Unrelated T.is_at_most) self.new) }
        ensures unchanged { IsCovered T.is_at_most self.old t → IsOk result × (self.new ≡ self.old) }
        ensures err { IfErr result (λ back. (back ≡ t) × (self.new ≡ self.old)) }
    {
        if is_covered(&self.items, &t) {
            return Ok(());
        }
        replace_covered(&mut self.items, t)
    }
}

/// Whether some item is at most this one.
fn is_covered<T: Ranked>(items: &[T], t: &T) -> bool
    ensures yes { IsTrue result → IsCovered T.is_at_most items.now t.now }
    ensures no { result ≡ false → All (λ k. T.is_at_most k t.now ≡ false) items.now }
{
    for item in items {
        if item.at_most(t) {
            return true;
        }
    }
    false
}

/// Lets go of the items that this one is at most.
fn keep_uncovered<T: Ranked + Drop>(items: &mut Vec<T>, t: &T)
    ensures kept { items.new.items ≡ filter (λ k. not (T.is_at_most t.now k)) items.old.items }
    ensures length { vec_len items.new ≤ vec_len items.old }
    ensures capacity { vec_capacity items.new ≡ vec_capacity items.old }
{
    items.retain(|item| !t.at_most(item));
}

/// Puts an item in the place of those that it is at most. `Err` hands it back, and changes nothing.
fn replace_covered<T: Ranked + Drop>(items: &mut Vec<T>, t: T) -> Result<(), T>
    ensures ok { OnOk result (items.new.items ≡ filter (λ k. not (T.is_at_most t k)) items.old.items ++ t ∷ []) }
    ensures err { IfErr result (λ back. (back ≡ t) × (items.new.items ≡ items.old.items)) }
{
    if items.reserve(1).is_err() {
        return Err(t);
    }
    keep_uncovered(items, &t);
    match items.push(t) {
        Ok(()) => Ok(()),
        Err(failed) => Err(failed.value),
    }
}
