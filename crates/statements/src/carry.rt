//! The statements that print nothing, carried out.

ghost use Rattle.std.specs.Prelude.{◌≡◌, ◌≤◌, ℕ, IfErr, IfOk, MatchOption, None, OnErr, length};
ghost use Rattle.pg_base.specs.declared.limits.TheConstants.{MOST_SCRIPT_BYTES};
ghost use Rattle.sql_lex.specs.Words.{AreWords};
ghost use Rattle.sql_query.specs.Worlds.{world};
ghost use Rattle.store.specs.work.Kept.{IsStoreOf};
ghost use Rattle.statements.specs.work.Steps.{AreNoDefinition, IsDefined, Refuses};

use crate::define::define;
use crate::end::End;
use crate::index::create_index;
use catalog::Catalog;
use ddl_reader::{is_ddl, is_index};
use heap::Counters;
use pg_base::Steps;
use sql_lex::Tokens;
use std::alloc::Global;
use store::Store;

/// Carries out the statement of these tokens where it is an empty one or a definition, and gives the offset after it. None, and
/// nothing changed, where it is neither. A refused one changes nothing.
pub fn carry_out<C: Counters>(
    alloc: Global,
    text: &[u8],
    tokens: &Tokens,
    catalog: &mut Catalog,
    store: &mut Store<C>,
    reads: &mut Steps<C::Looks>,
) -> Result<Option<u32>, End>
    requires short { length text.now ≤ MOST_SCRIPT_BYTES }
    requires words { (from : ℕ) × AreWords text.now from tokens.now }
    requires store { IsStoreOf catalog.old store.old }
    ensures carried { IfOk result (λ next.
        MatchOption next (AreNoDefinition text.now tokens.now) (λ next.
        IsDefined (world catalog.old store.old.stored) (world catalog.new store.new.stored)
        text.now tokens.now next reads.old reads.new)) }
    ensures still { IfOk result (λ next. next ≡ None →
        (catalog.new ≡ catalog.old) × (store.new ≡ store.old) × (reads.new ≡ reads.old)) }
    ensures refused { IfErr result (λ e.
        Refuses e (world catalog.old store.old.stored) text.now tokens.now reads.old reads.new) }
    ensures store { IsStoreOf catalog.new store.new }
    ensures unchanged { OnErr result ((catalog.new ≡ catalog.old) × (store.new ≡ store.old)) }
{
    if tokens.items().len() == 1 {
        return Ok(Some(tokens.end()));
    }
    if is_ddl(text, tokens) {
        return match define(alloc, text, tokens, catalog, store, reads) {
            Ok(next) => Ok(Some(next)),
            Err(end) => Err(end),
        };
    }
    if is_index(text, tokens) {
        return match create_index(alloc, text, tokens, catalog, store, reads) {
            Ok(next) => Ok(Some(next)),
            Err(end) => Err(end),
        };
    }
    Ok(None)
}
