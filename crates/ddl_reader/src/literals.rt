//! The literals of STATISTICS: the common values and the bounds of a histogram of a column.

ghost use Rattle.std.specs.Prelude.{◌≡◌, ◌≤◌, ◌<◌, List, ◌∷◌, ◌++◌, length, OnOk};
ghost use Rattle.sql_grammar.specs.Terminals.{Terminal};
ghost use Rattle.sql_grammar.specs.Syntax.{Lit, Share};
ghost use Rattle.sql_grammar.specs.Words.{words_of_lit, words_of_share, words_of_common, words_of_histogram};
ghost use Rattle.expr_reader.specs.declared.value.Placed.{Placed};
ghost use Rattle.ddl_reader.specs.declared.literals.CommonRead.{CommonRead};
ghost use Rattle.expr_reader.specs.Lists.{further_parts, bound_each};
ghost use Rattle.ddl_reader.specs.Statistics.{common_words, commons_of, bounds_of};
ghost use Rattle.ddl_reader.specs.work.AsMeant.{IsAsMeant, ends_common, ends_histogram, words_of_shares_left, words_of_bounds_left, placed, common_placed, AreAsMeant};
ghost use Rattle.expr_reader.specs.work.Reading.{StandsFirst, IfFirst, IfWords, StandsList, IfList, LeavesRest, LeavesWords, LeavesClose};

use crate::words::number;
use expr_reader::{Cursor, Number, Placed, read_literal};
use pg_base::Refusal;
use pg_value::SqlType;
use sql_grammar::{Free, Symbol};
use std::alloc::Global;

/// A common value and its share.
#[derive(Debug, Drop)]
pub struct CommonRead {
    /// The value.
    pub literal: Placed,
    /// The share.
    pub share: Number,
}

/// The next literal, for a column of type `t`.
fn bound(alloc: Global, t: SqlType, from: &mut Cursor) -> Result<Placed, Refusal>
    requires { (l : Lit) × (rest : List Terminal) × (from.old ≡ words_of_lit l ++ rest) }
    ensures read { IfWords words_of_lit from.old
        (λ l rest. IsAsMeant Placed Placed (λ x. x) result (placed t l)) }
    ensures left { OnOk result (LeavesWords words_of_lit from.old from.new) }
    ensures ahead { length from.new ≤ length from.old }
{
    read_literal(alloc, t, from)
}

/// The next common value and its share.
fn share(alloc: Global, t: SqlType, from: &mut Cursor) -> Result<CommonRead, Refusal>
    requires { (s : Share) × (rest : List Terminal) × (from.old ≡ words_of_share s ++ rest) }
    ensures read { IfWords words_of_share from.old
        (λ s rest. IsAsMeant CommonRead CommonRead (λ x. x) result (common_placed t (common_words s))) }
    ensures left { OnOk result (LeavesWords words_of_share from.old from.new) }
    ensures ahead { OnOk result (length from.new ≤ length from.old) }
{
    let literal = bound(alloc, t, from)?;
    let share = number(from);
    Ok(CommonRead { literal, share })
}

/// The bounds of a histogram up to `)`, which is left.
fn bounds(alloc: Global, t: SqlType, from: &mut Cursor) -> Result<Vec<Placed>, Refusal>
    requires { StandsList words_of_bounds_left from.old }
    ensures read { IfList words_of_bounds_left from.old (λ l ls m rest.
        AreAsMeant Placed result (bound_each (placed t) (l ∷ further_parts (λ x. x) ls))) }
    ensures left { OnOk result (LeavesClose words_of_bounds_left from.old from.new) }
{
    let mut all = Vec::new(alloc);
    let first = bound(alloc, t, from)?;
    all.push(first)?;
    'more: while from.takes_mark(Symbol::Comma) {
        let next = bound(alloc, t, from)?;
        all.push(next)?;
    }
    Ok(all)
}

/// Common values with their shares, up to `)`, which is left.
fn shares(alloc: Global, t: SqlType, from: &mut Cursor) -> Result<Vec<CommonRead>, Refusal>
    requires { StandsList words_of_shares_left from.old }
    ensures read { IfList words_of_shares_left from.old (λ s ss m rest. AreAsMeant CommonRead
        result (bound_each (common_placed t) (common_words s ∷ further_parts common_words ss))) }
    ensures left { OnOk result (LeavesClose words_of_shares_left from.old from.new) }
{
    let mut all = Vec::new(alloc);
    let first = share(alloc, t, from)?;
    all.push(first)?;
    'more: while from.takes_mark(Symbol::Comma) {
        let next = share(alloc, t, from)?;
        all.push(next)?;
    }
    Ok(all)
}

/// The common values of a column of type `t`, where COMMON stands next; else none.
pub fn common(alloc: Global, t: SqlType, from: &mut Cursor) -> Result<Vec<CommonRead>, Refusal>
    requires { StandsFirst words_of_common ends_common from.old }
    ensures read { IfFirst words_of_common ends_common from.old (λ c rest.
        AreAsMeant CommonRead result (bound_each (common_placed t) (commons_of c))) }
    ensures left { OnOk result (LeavesRest words_of_common ends_common from.old from.new) }
{
    if !from.takes_free(Free::Common) {
        return Ok(Vec::new(alloc));
    }
    from.skip(1);
    let all = shares(alloc, t, from)?;
    from.skip(1);
    Ok(all)
}

/// The bounds of the histogram of a column of type `t`, where HISTOGRAM stands next; else none.
pub fn histogram(alloc: Global, t: SqlType, from: &mut Cursor) -> Result<Vec<Placed>, Refusal>
    requires { StandsFirst words_of_histogram ends_histogram from.old }
    ensures { IfFirst words_of_histogram ends_histogram from.old (λ h rest.
        AreAsMeant Placed result (bound_each (placed t) (bounds_of h))) }
{
    if !from.takes_free(Free::Histogram) {
        return Ok(Vec::new(alloc));
    }
    from.skip(1);
    bounds(alloc, t, from)
}
