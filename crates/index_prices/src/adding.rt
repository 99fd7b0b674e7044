//! A copy of a catalogue with candidates added.

ghost use Rattle.std.specs.Prelude.{◌≡◌, ◌<◌, IfOk, OnOk};
ghost use Rattle.pg_base.specs.Sets.{has};
ghost use Rattle.pg_base.specs.Names.{IsName};
ghost use Rattle.catalog.specs.Contents.{with_index};
ghost use Rattle.catalog.specs.Tables.{IsAcceptableIndex};
ghost use Rattle.catalog.specs.work.Tables.{Fits};
ghost use Rattle.catalog.specs.work.Candidates.{AreCandidateIndexes};
ghost use Rattle.index_prices.specs.Candidates.{with_added};

use catalog::{Candidate, Catalog, CatalogFault};
use pg_base::{Memory, RelNo, RelSet};
use std::alloc::{AllocError, Global};

/// Whether a set has the candidate of a number.
pub(crate) fn has_number(set: u16, j: usize) -> bool
    requires { j < 16 }
    ensures { result ≡ has set j }
{
    RelSet(set).has(RelNo(j as u8))
}

/// Makes a candidate, which is acceptable. The error means out of memory.
fn add(alloc: Global, cat: &mut Catalog, x: &Candidate) -> Result<(), Memory>
    requires name { IsName x.now.name }
    requires fits { Fits cat.old x.now.index }
    requires acceptable { IsAcceptableIndex cat.old x.now.name x.now.index }
    ensures { OnOk result (cat.new ≡ with_index cat.old x.now.name x.now.index) }
{
    let name = x.name.copy(alloc)?;
    let def = x.def.copy(alloc)?;
    match cat.add_index(name, def) {
        Ok(_) => Ok(()),
        Err(CatalogFault::Memory) => Err(AllocError),
        Err(_) => unreachable!(),
    }
}

/// A catalogue of its own with the candidates of a set added, in list order. The error means out of memory.
pub(crate) fn with_added(
    alloc: Global,
    cat: &Catalog,
    candidates: &[Candidate],
    set: u16,
) -> Result<Catalog, Memory>
    requires { AreCandidateIndexes cat.now candidates.now }
    ensures { IfOk result (λ made. made ≡ with_added cat.now candidates.now (has set)) }
{
    let mut made = cat.copy(alloc)?;
    for j in 0..candidates.len() {
        if has_number(set, j) {
            add(alloc, &mut made, &candidates[j])?;
        }
    }
    Ok(made)
}
