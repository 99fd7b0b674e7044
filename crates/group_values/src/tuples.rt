//! The groups of tuples, which come one by one.

ghost use Rattle.std.specs.Prelude.{◌≡◌, ◌++◌, ◌∷◌, [], List, length, IfOk, OnOk, OnErr};
ghost use Rattle.group_values.specs.Groups.{Seen, lines};
ghost use Rattle.group_values.specs.work.Steps.{IsLastAlone, at_first};
ghost use Rattle.group_values.specs.work.Grouping.{AreOf, final_shape, with_groups};
ghost use Rattle.group_values.specs.work.Listing.{IsListing, form_of};
ghost use Rattle.group_values.specs.declared.form.Form.TheVariants.{Sorted};

use crate::finish::final_lines;
use crate::form::Form;
use crate::listing::Listing;
use crate::{Kept, Lines, Shape, Values};
use pg_base::Memory;
use std::alloc::Global;
use std::marker::Model;

/// The groups of the tuples so far, and what each call gives of them. Tuples are not kept. Contracts see a `Grouping`.
pub struct Groups {
    alloc: Global,
    shape: Shape,
    sort_after: bool,
    listing: Listing,
}

impl Drop for Groups {
    fn drop(self) {
        let Groups {
            alloc: _,
            shape: _,
            sort_after: _,
            listing: _,
        } = self;
    }
}

impl Model for Groups {
    ghost use Rattle.group_values.specs.work.Grouping.{Grouping};
    ghost use Rattle.group_values.specs.work.Listing.{IsListing, form_of};

    ghost Value = { Grouping };

    ghost view = { λ g. record { shape = g.shape; form = form_of g.listing.finder; sort_after = g.sort_after; groups = g.listing.groups.items } };

    ghost invariant = { λ g. IsListing g.shape.calls g.listing };
}

impl Groups {
    /// No tuples yet: no group, or where no column is grouped the one of no tuple. The error means out of memory.
    pub fn new(alloc: Global, shape: Shape, form: Form, sort_after: bool) -> Result<Groups, Memory>
        ensures is { IfOk result (λ g. g ≡ record { shape = shape; form = form; sort_after = sort_after; groups = at_first shape.width shape.calls }) }
        ensures none { IfOk result (AreOf []) }
    {
        let listing = first_groups(alloc, &shape, form)?;
        Ok(Groups {
            alloc,
            shape,
            sort_after,
            listing,
        })
    }

    /// Takes in one more tuple: the values of the GROUP BY columns, and that of each call's column, which of `count(*)` is not
    /// looked at. If memory runs out, and where a count would pass 2^63 - 1, the groups are as before.
    pub fn push(&mut self, keys: Values, args: Values) -> Result<(), Memory>
        requires keys { length keys ≡ self.old.shape.width }
        requires args { length args ≡ length self.old.shape.calls }
        requires together { self.old.form ≡ Sorted → IsLastAlone self.old.groups keys }
        ensures pushed { OnOk result ((ss : List Seen) → AreOf ss self.old → AreOf (ss ++ record { keys = keys; args = args } ∷ []) self.new) }
        ensures kept { self.new ≡ with_groups self.new.groups self.old }
        ensures refused { OnErr result (self.new ≡ self.old) }
    {
        let shape = &self.shape;
        match self.listing.place_of(keys.items()) {
            Some(place) => self.listing.join(place, &shape.calls, args),
            None => {
                let group = Kept::begin(self.alloc, &shape.calls, keys, args)?;
                self.listing.add(group)
            }
        }
    }

    /// The lines of all groups: in the order of their first tuples, or sorted by the items of ORDER BY, where those that tie
    /// stay in that order. The error means out of memory.
    pub fn finish(self) -> Result<Lines, Memory>
        ensures { (ss : List Seen) → AreOf ss self → IfOk result (λ l. l ≡ lines (final_shape self.sort_after self.shape) ss) }
    {
        let Groups {
            alloc,
            shape,
            sort_after,
            listing,
        } = self;
        final_lines(alloc, &shape, sort_after, listing.groups)
    }
}

/// The groups of no tuple.
fn first_groups(alloc: Global, shape: &Shape, form: Form) -> Result<Listing, Memory>
    ensures form { IfOk result (λ l. form_of l.finder ≡ form) }
    ensures groups { IfOk result (λ l. l.groups.items ≡ at_first shape.now.width shape.now.calls) }
    ensures listing { IfOk result (IsListing shape.now.calls) }
{
    let mut listing = Listing::new(alloc, form)?;
    if shape.width == 0 {
        let keys = Values::from_vec(Vec::new(alloc));
        listing.add(Kept::new(alloc, &shape.calls, keys)?)?;
    }
    Ok(listing)
}
