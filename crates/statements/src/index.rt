//! CREATE INDEX, carried out.

ghost use Rattle.std.specs.Prelude.{◌≡◌, ◌≤◌, ℕ, IfErr, IfOk, OnErr, length, true};
ghost use Rattle.pg_base.specs.declared.limits.TheConstants.{MOST_SCRIPT_BYTES};
ghost use Rattle.sql_lex.specs.Words.{AreWords};
ghost use Rattle.sql_grammar.specs.Faults.{terminals};
ghost use Rattle.ddl_reader.specs.work.Statements.{begins_index};
ghost use Rattle.sql_query.specs.Worlds.{world};
ghost use Rattle.store.specs.work.Kept.{IsStoreOf};
ghost use Rattle.statements.specs.work.Steps.{IsDefined, Refuses};

use crate::end::End;
use crate::faults::refused_index;
use catalog::Catalog;
use heap::Counters;
use index_reader::{ReadIndex, read_index};
use pg_base::Steps;
use sql_lex::Tokens;
use std::alloc::Global;
use store::{Store, build};

/// Makes the index of these tokens, built over the rows of its table, and gives the offset after it. A refused one changes
/// nothing, and `reads` counts the rows that are looked at.
pub(crate) fn create_index<C: Counters>(
    alloc: Global,
    text: &[u8],
    tokens: &Tokens,
    catalog: &mut Catalog,
    store: &mut Store<C>,
    reads: &mut Steps<C::Looks>,
) -> Result<u32, End>
    requires short { length text.now ≤ MOST_SCRIPT_BYTES }
    requires words { (from : ℕ) × AreWords text.now from tokens.now }
    requires opens { begins_index (terminals text.now tokens.now) ≡ true }
    requires store { IsStoreOf catalog.old store.old }
    ensures defined { IfOk result (λ next.
        IsDefined (world catalog.old store.old.stored) (world catalog.new store.new.stored)
        text.now tokens.now next reads.old reads.new) }
    ensures refused { IfErr result (λ e.
        Refuses e (world catalog.old store.old.stored) text.now tokens.now reads.old reads.new) }
    ensures store { IsStoreOf catalog.new store.new }
    ensures unchanged { OnErr result ((catalog.new ≡ catalog.old) × (store.new ≡ store.old)) }
{
    let ReadIndex {
        name,
        def,
        at,
        method,
    } = read_index(alloc, catalog, text, tokens)?;
    match build(catalog, store, name, def, reads) {
        Ok(()) => Ok(tokens.end()),
        Err(refused) => Err(refused_index(refused, &at, method, tokens)),
    }
}
