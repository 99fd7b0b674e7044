//! Sets of relations as contracts name them.

ghost use Rattle.std.specs.Prelude.{◌≡◌, ◌<◌, ℕ, ◌&&◌};
ghost use Rattle.opfamily.specs.pg_base_Sets.{has};
ghost use Rattle.eq_classes.specs.Clauses.{one};
ghost use Rattle.eq_classes.specs.Parts as parts;
ghost use Rattle.eq_classes.specs.work.Parts as parts_work;

use opfamily::pg_base::{RelNo, RelSet};

/// The set of one relation.
pub fn single(r: RelNo) -> RelSet
    requires { r.0 < 16 }
    ensures { has result.0 ≡ one r.0 }
{
    RelSet::one(r)
}

/// The relations of either set.
pub fn both(a: RelSet, b: RelSet) -> RelSet
    ensures { has result.0 ≡ parts.union (has a.0) (has b.0) }
{
    a.union(b)
}

/// The relations of both sets.
pub fn shared(a: RelSet, b: RelSet) -> RelSet
    ensures { (k : ℕ) → has result.0 k ≡ has a.0 k && has b.0 k }
{
    a.minus(a.minus(b))
}
