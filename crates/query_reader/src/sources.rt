//! FROM: its relations and the conditions of its joins, read and bound from the left.

ghost use Rattle.std.specs.Prelude.{◌≡◌, ◌++◌, ◌∷◌, ◌⊎◌, true, false, length, map, nat_lt, All, MatchResult, IfOk, None, Some};
ghost use Rattle.pg_base.specs.declared.faults.Code.TheVariants.{S2, S15};
ghost use Rattle.pg_base.specs.declared.faults.Limit.TheVariants.{Relations as RelationsLimit};
ghost use Rattle.pg_expr.specs.work.View.{cond};
ghost use Rattle.path_cost.specs.work.Columns.{IsOver};
ghost use Rattle.catalog.specs.Range.{type_in};
ghost use Rattle.catalog.specs.Contents.{IsTable, IsLawfulTable, table_at};
ghost use Rattle.catalog.specs.Tables.{table_named};
ghost use Rattle.sql_grammar.specs.Faults.{fault_at as fault_at_token};
ghost use Rattle.sql_grammar.specs.FromParts.{groups_after};
ghost use Rattle.sql_grammar.specs.work.Unique.{ends_expr};
ghost use Rattle.sql_grammar.specs.Words.{words_of_expr, words_of_group, words_of_groups, words_of_joins, words_of_relation};
ghost use Rattle.expr_reader.specs.Conditions.{next};
ghost use Rattle.query_reader.specs.work.Conveys.{Conveys, ReadsInto};
ghost use Rattle.query_reader.specs.work.Ends.{ends_alias, ends_from, ends_group};
ghost use Rattle.query_reader.specs.From.{alias_or, is_taken as is_taken_in, nothing_joined, under_alias, with_condition, with_group, with_groups, with_join, with_joins, with_relation};
ghost use Rattle.query_reader.specs.Scope.{scope_after};
ghost use Rattle.query_reader.specs.Written.{source_of};
ghost use Rattle.expr_reader.specs.work.Reading.{StandsFirst, IfFirst, StandsListed, IfListed};
ghost use Rattle.query_reader.specs.work.Joins.{StandsJoin, IfJoin, StandsOn, IfOn};
ghost use Rattle.query_reader.specs.work.Reads.{ReadsConjuncts};

use crate::conditions::conjuncts_next;
use crate::read::{joining, source};
use crate::relations::Relations;
use crate::written::{Joining, Source};
use catalog::Catalog;
use expr_reader::{Cursor, Spelled};
use pg_base::{Code, Fault, Limit, MOST_RELATIONS, Refusal, TableNo};
use pg_expr::{Expr, Exprs};
use pg_value::Bytes;
use sql_grammar::{Symbol, Word, fault_at};
use std::alloc::Global;
use std::marker::Model;

/// The relations that FROM has named so far, over a catalogue, and the conjuncts of the conditions of its joins as written, in
/// the order of the text (PostgreSQL manual, chapter Queries, The FROM Clause). Contracts see these and the catalogue's
/// contents.
#[derive(Drop)]
pub struct Sources<'a> {
    /// The catalogue in which tables are sought.
    pub cat: &'a Catalog,
    /// The relations from the left: each one's table, and its alias in small letters.
    pub relations: Vec<(TableNo, Bytes)>,
    /// The conjuncts of the conditions of the joins.
    pub written: Vec<Expr>,
}

impl<'a> Model for Sources<'a> {
    ghost use Rattle.std.specs.Coded.{codes};
    ghost use Rattle.std.specs.Prelude.{map, All};
    ghost use Rattle.pg_expr.specs.work.CondCode.{cond_code};
    ghost use Rattle.pg_expr.specs.work.View.{cond};
    ghost use Rattle.path_cost.specs.work.Columns.{IsOver};
    ghost use Rattle.query_reader.specs.From.{Joined};
    ghost use Rattle.query_reader.specs.work.From.{AreRelations};

    ghost Value = { Joined };

    ghost coded = { Prim.hlevel (codes, cond_code (Prim.hlevel codes)) };

    ghost view = { λ s. record { contents = s.cat.now; range = s.relations.items; conjuncts = map cond s.written.items } };

    ghost invariant = { λ s. AreRelations s.cat.now s.relations.items × All (IsOver s.cat.now s.relations.items) (map cond s.written.items) };
}

fn bytes_of(name: Spelled) -> Bytes
    ensures { result ≡ name.bytes }
{
    name.bytes
}

/// The alias that is given, else the table's name.
fn alias_of(table: Spelled, alias: Option<Spelled>) -> Spelled
    ensures { result ≡ alias_or alias table }
{
    match alias {
        Some(alias) => alias,
        None => table,
    }
}

impl<'a> Sources<'a> {
    /// No relation yet.
    pub fn new(alloc: Global, cat: &'a Catalog) -> Sources<'a>
        ensures { result ≡ nothing_joined cat.now }
    {
        Sources {
            cat,
            relations: Vec::new(alloc),
            written: Vec::new(alloc),
        }
    }

    /// The table of one more relation, or its fault: there are too many relations, or there is no such table.
    fn table_of(&self, name: &Spelled) -> Result<TableNo, Fault>
        ensures room { MatchResult result
            (λ t. (nat_lt (length self.now.range) MOST_RELATIONS ≡ true) × (table_named self.now.contents name.now.bytes ≡ Some t))
            (λ f. ((nat_lt (length self.now.range) MOST_RELATIONS ≡ false) × (f ≡ fault_at_token (S15 RelationsLimit) name.now.token)) ⊎
            ((nat_lt (length self.now.range) MOST_RELATIONS ≡ true) × (table_named self.now.contents name.now.bytes ≡ None) × (f ≡ fault_at_token S2 name.now.token))) }
        ensures table { IfOk result (IsTable self.now.contents) }
        ensures lawful { IfOk result (λ t. IsLawfulTable (table_at self.now.contents t)) }
    {
        if self.relations.len() >= MOST_RELATIONS {
            return Err(fault_at(Code::S15(Limit::Relations), name.token));
        }
        match self.cat.table(name.bytes.items()) {
            Some(number) => Ok(number),
            None => Err(fault_at(Code::S2, name.token)),
        }
    }

    /// Whether a relation has this alias.
    fn is_taken(&self, alias: &[u8]) -> bool
        ensures { result ≡ is_taken_in self.now.range alias.now }
    {
        self.relations.iter().any(|r| alias == r.1.items())
    }

    /// One more relation, of this table.
    fn add_under(&mut self, table: TableNo, alias: Spelled) -> Result<(), Refusal>
        requires table { IsTable self.old.contents table }
        requires lawful { IsLawfulTable (table_at self.old.contents table) }
        requires room { nat_lt (length self.old.range) MOST_RELATIONS ≡ true }
        ensures { Conveys (λ j _. self.new ≡ j) (under_alias self.old table alias) result }
    {
        if self.is_taken(alias.bytes.items()) {
            return Err(Refusal::Fault(fault_at(Code::S7, alias.token)));
        }
        self.relations.push((table, bytes_of(alias)))?;
        Ok(())
    }

    /// One more relation, or its first fault.
    fn add(&mut self, source: Source) -> Result<(), Refusal>
        ensures { Conveys (λ j _. self.new ≡ j) (with_relation self.old source) result }
    {
        let Source { table, alias } = source;
        let number = self.table_of(&table)?;
        self.add_under(number, alias_of(table, alias))
    }

    /// The relation that is next.
    fn take_relation(&mut self, alloc: Global, from: &mut Cursor) -> Result<(), Refusal>
        requires { StandsFirst words_of_relation ends_alias from.old }
        ensures { IfFirst words_of_relation ends_alias from.old (λ r rest.
            ReadsInto self.new (with_relation self.old (source_of r)) rest result from.new) }
    {
        let source = source(alloc, from)?;
        self.add(source)
    }

    /// The conjuncts of the condition that is next, over the relations from `first` on.
    fn conjuncts(&self, alloc: Global, first: usize, from: &mut Cursor) -> Result<Exprs, Refusal>
        requires { StandsFirst words_of_expr ends_expr from.old }
        ensures read { ReadsConjuncts (scope_after self.now.contents first self.now.range)
            (type_in self.now.contents self.now.range) from.old result from.new }
        ensures over { IfOk result
            (λ es. All (IsOver self.now.contents self.now.range) (map cond es.items.items)) }
    {
        let relations = Relations::new(self.cat, &self.relations, first);
        conjuncts_next(alloc, &relations, from)
    }

    /// The condition that is next, over the relations from `first` on.
    fn take_condition(
        &mut self,
        alloc: Global,
        first: usize,
        from: &mut Cursor,
    ) -> Result<(), Refusal>
        requires { StandsFirst words_of_expr ends_expr from.old }
        ensures { IfFirst words_of_expr ends_expr from.old (λ e rest.
            ReadsInto self.new (with_condition first self.old e) rest result from.new) }
    {
        let mut more = self.conjuncts(alloc, first, from)?;
        self.written.append(&mut more.items)?;
        Ok(())
    }

    /// The relation that is next, then ON and its condition, over the relations from `first` on.
    fn take_on(&mut self, alloc: Global, first: usize, from: &mut Cursor) -> Result<(), Refusal>
        requires { StandsOn from.old }
        ensures { IfOn from.old (λ r e rest. ReadsInto self.new
            (next (with_relation self.old (source_of r)) (λ i. with_condition first i e))
            rest result from.new) }
    {
        self.take_relation(alloc, from)?;
        from.skip(1);
        self.take_condition(alloc, first, from)
    }

    /// The relation that is next, joined so.
    fn take_join(
        &mut self,
        alloc: Global,
        how: Joining,
        first: usize,
        from: &mut Cursor,
    ) -> Result<(), Refusal>
        requires { StandsJoin how from.old }
        ensures { IfJoin how from.old (λ x more rest.
            ReadsInto self.new (with_join first self.old x) (words_of_joins more ++ rest)
            result from.new) }
    {
        match how {
            Joining::On => self.take_on(alloc, first, from),
            Joining::Cross => self.take_relation(alloc, from),
        }
    }

    /// The joins that are next, of the group that begins with relation `first`.
    fn take_joins(&mut self, alloc: Global, first: usize, from: &mut Cursor) -> Result<(), Refusal>
        requires { StandsFirst words_of_joins ends_group from.old }
        ensures { IfFirst words_of_joins ends_group from.old (λ js rest.
            ReadsInto self.new (with_joins first self.old js) rest result from.new) }
    {
        'more: while let Some(how) = joining(from) {
            self.take_join(alloc, how, first, from)?;
        }
        Ok(())
    }

    /// The group that is next.
    fn take_group(&mut self, alloc: Global, from: &mut Cursor) -> Result<(), Refusal>
        requires { StandsFirst words_of_group ends_group from.old }
        ensures { IfFirst words_of_group ends_group from.old (λ g rest.
            ReadsInto self.new (with_group self.old g) rest result from.new) }
    {
        let first = self.relations.len();
        self.take_relation(alloc, from)?;
        self.take_joins(alloc, first, from)
    }

    /// The groups that are next, all of FROM, or its first fault (54000, 42P01, 42712, or that of a join's condition).
    pub fn take_groups(&mut self, alloc: Global, from: &mut Cursor) -> Result<(), Refusal>
        requires { StandsListed words_of_group words_of_groups ends_from from.old }
        ensures { IfListed words_of_group words_of_groups ends_from from.old (λ g gs rest.
            ReadsInto self.new (with_groups self.old (g ∷ groups_after gs)) rest result from.new) }
    {
        self.take_group(alloc, from)?;
        'more: while from.takes_mark(Symbol::Comma) {
            self.take_group(alloc, from)?;
        }
        Ok(())
    }
}
