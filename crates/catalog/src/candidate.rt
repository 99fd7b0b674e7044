//! Indexes that may be made.

ghost use Rattle.std.specs.Prelude.{◌≡◌};

use crate::IndexDef;
use pg_value::Bytes;
use std::marker::Model;

/// An index that may be made, by its definition, under a name. Contracts see a `NamedIndex`.
pub struct Candidate {
    /// Its name.
    pub name: Bytes,
    /// Its definition.
    pub def: IndexDef,
}

impl Drop for Candidate {
    fn drop(self) {
        let Candidate { name: _, def: _ } = self;
    }
}

impl Model for Candidate {
    ghost use Rattle.std.specs.Coded.{codes};
    ghost use Rattle.pg_expr.specs.work.CondCode.{cond_code};
    ghost use Rattle.catalog.specs.Contents.{NamedIndex};
    ghost use Rattle.catalog.specs.work.Entries.{index_of};

    ghost Value = { NamedIndex };

    ghost coded = { Prim.hlevel (codes, cond_code (Prim.hlevel codes)) };

    ghost view = { λ x. record { name = x.name; index = index_of x.def } };
}
