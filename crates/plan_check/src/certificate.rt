//! Certificates: entries numbered from 1, and the best plan over them.

ghost use Rattle.std.specs.Prelude.{◌≡◌, ◌≤◌, IfOk, length};
ghost use Rattle.plan_check.specs.Limit.{MOST_ENTRIES};
ghost use Rattle.plan_check.specs.work.Ranking.{AreRanked};

use crate::entry::{Entry, Side};
use crate::ranking::ranked;
use pg_base::Memory;
use std::alloc::Global;
use std::marker::Model;

/// A list of at most 2^32 - 1 entries, which are numbered from 1. Contracts see the list.
pub struct Entries {
    listed: Vec<Entry>,
    /// The places of the entries, those of each set and parameterisation side by side, in order of cost.
    order: Vec<u32>,
}

impl Drop for Entries {
    fn drop(self) {
        let Entries {
            listed: _,
            order: _,
        } = self;
    }
}

impl Model for Entries {
    ghost use Rattle.std.specs.Prelude.{List, ◌≤◌, length};
    ghost use Rattle.std.specs.Coded.{codes};
    ghost use Rattle.plan_tree.specs.contracts.bits.BitTree as trees;
    ghost use Rattle.plan_check.specs.Limit.{MOST_ENTRIES};
    ghost use Rattle.plan_check.specs.work.Ranking.{AreRanked};
    ghost use Rattle.plan_check.specs.declared.entry.Entry.{Entry};

    ghost Value = { List Entry };

    ghost view = { λ e. e.listed.items };

    ghost coded = { Prim.hlevel (codes, trees.the_row.coded) };

    ghost invariant = { λ e. (length e.listed.items ≤ MOST_ENTRIES)
        × AreRanked e.order.items (length e.listed.items) };
}

impl Entries {
    /// The list of these entries. The condition is that there are at most 2^32 - 1. The error means out of memory.
    pub fn from_vec(alloc: Global, v: Vec<Entry>) -> Result<Entries, Memory>
        requires few { length v.items ≤ MOST_ENTRIES }
        ensures list { IfOk result (λ es. es ≡ v.items) }
    {
        let order = ranked(alloc, &v)?;
        Ok(Entries { listed: v, order })
    }

    /// The entries in order, lent.
    pub fn items(&self) -> &[Entry]
        ensures list { result.now ≡ self.now }
        ensures few { length result.now ≤ MOST_ENTRIES }
    {
        &self.listed
    }

    /// The places of the entries, from 0, each once: those of each set and parameterisation side by side, in order of cost.
    pub fn order(&self) -> &[u32]
        ensures { AreRanked result.now (length self.now) }
    {
        &self.order
    }
}

/// Entries, numbered from 1, and which of them is the best plan of a query, as it stands or sorted into the order asked
/// for.
pub struct Certificate {
    /// The entries in order.
    pub entries: Entries,
    /// The best plan.
    pub best: Side,
}

impl Drop for Certificate {
    fn drop(self) {
        let Certificate {
            entries: _,
            best: _,
        } = self;
    }
}
