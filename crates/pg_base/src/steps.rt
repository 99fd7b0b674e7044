//! A counter that only its own calls raise, told apart by a ledger in its type.

ghost use Rattle.std.specs.Prelude.{◌≡◌, ◌+◌, ◌-◌, ◌^◌, ◌<◌, min};

use std::marker::Model;
use std::sync::ledger::{Blank, Book, Ledger, Share};

/// A counter of steps: row fetches, or entries that a cursor gives. Contracts see the count, which has no end.
/// A counter is never copied, and a step raises it by one.
#[derive(Drop)]
pub struct Steps<L: Ledger> {
    book: Book<L>,
    share: Share<L>,
    shown: u64,
}

impl<L: Ledger> Model for Steps<L> {
    ghost use Rattle.std.specs.Prelude.{◌≡◌, ◌-◌, ◌^◌, ◌<◌, ℕ, min};

    ghost Value = { ℕ };

    ghost view = { λ s. s.book.total };

    ghost invariant = { λ s. (0 < s.share.parts) × (s.shown ≡ min s.book.total (2 ^ 64 - 1)) };
}

impl<L: Ledger> Steps<L> {
    /// A counter of the ledger that this blank opens, at 0.
    pub fn new(blank: Blank) -> Steps<L>
        requires name { blank.name ≡ L.name }
        requires parts { blank.parts ≡ L.parts }
        requires some { 0 < blank.parts }
        ensures { result ≡ 0 }
    {
        let (book, share) = blank.open();
        Steps {
            book,
            share,
            shown: 0,
        }
    }

    /// One step.
    pub fn tick(&mut self)
        ensures { self.new ≡ self.old + 1 }
    {
        self.book.add(&mut self.share, 1);
        self.shown = self.shown.saturating_add(1);
    }

    /// The count, or 2^64 - 1 where it is more.
    pub fn shown(&self) -> u64
        ensures { result ≡ min self.now (2 ^ 64 - 1) }
    {
        self.shown
    }
}
