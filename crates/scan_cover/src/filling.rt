//! The indexes of arms, in an array.

ghost use Rattle.std.specs.Prelude.{◌∷◌, []};
ghost use Rattle.scan_cover.specs.work.Arms.{IsFilled, PutsIndexes};

use pg_base::{IndexNo, MOST_ATOMS};

/// Indexes of arms in order, and `IndexNo(0)` behind them. What finds no room is left out.
#[derive(Clone, Copy)]
pub(crate) struct Arms {
    /// The array.
    pub(crate) indexes: [IndexNo; MOST_ATOMS],
    /// How many were put in.
    pub(crate) count: usize,
}

impl Arms {
    /// None yet.
    pub(crate) fn empty() -> Arms
        ensures { IsFilled result [] }
    {
        Arms {
            indexes: [IndexNo(0); MOST_ATOMS],
            count: 0,
        }
    }

    /// One more.
    pub(crate) fn push(&mut self, i: IndexNo)
        ensures { PutsIndexes self.old self.new (i ∷ []) }
    {
        if self.count < MOST_ATOMS {
            self.indexes[self.count] = i;
            self.count += 1;
        }
    }
}
