//! The sets that a line begins with, the keys that it ends with, and the line of the best plan.

ghost use Rattle.std.specs.Prelude.{◌≡◌, ◌↔◌, IfOk, IfSome, IsTrue, option_map};
ghost use Rattle.std.specs.Fmt.{decimal};
ghost use Rattle.pg_base.specs.Sets.{has};
ghost use Rattle.certificate_text.specs.explain_Texts.{keys_text};
ghost use Rattle.sql_query.specs.WellBound.{IsWellBound};
ghost use Rattle.certificate_text.specs.plan_check_Views.{side};
ghost use Rattle.certificate_text.specs.HasText.{HasKeysText, IsEntryNumber, IsSetOf};
ghost use Rattle.certificate_text.specs.Texts as texts;
ghost use Rattle.certificate_text.specs.work.Texts as texts_work;
ghost use Rattle.certificate_entries.specs.work.Parts.{HasSideText, Reads};
ghost use Rattle.certificate_text.specs.work.Words.{PassesOver};
ghost use Rattle.certificate_entries.specs.work.Sets.{ReadsSets};

use crate::certificate_text::best_line;
use crate::keys::read_key_list;
use crate::plan_check::Side;
use crate::{read_param, read_set, read_side};
use catalog::Catalog;
use certificate_text::LineCursor;
use pathkeys::Keys;
use pg_base::{Memory, RelSet};
use sql_query::Prepared;
use std::alloc::Global;

/// Passes over this number where it comes next.
pub fn eat_number(alloc: Global, at: &mut LineCursor, n: u64) -> Result<bool, Memory>
    ensures only { IfOk result (λ b. PassesOver (decimal n) at.old at.new b) }
{
    let digits = format!(in alloc; "{n}")?;
    Ok(at.eat(digits.as_bytes()))
}

/// A set, a parameterisation and the space behind them.
pub fn read_sets(at: &mut LineCursor, cat: &Catalog, q: &Prepared) -> Option<(RelSet, RelSet)>
    requires bound { IsWellBound cat.now q.now }
    ensures has { IfSome result (λ p. IsSetOf q.now (has p.0.0) × IsSetOf q.now (has p.1.0)) }
    ensures only { ReadsSets q.now at.old at.new result }
{
    let set = read_set(at, cat, q)?;
    let param = read_param(at, cat, q)?;
    if at.eat(b" ") {
        Some((set, param))
    } else {
        None
    }
}

/// The side that the line of a best plan names. None where no such line comes next.
pub fn read_best(at: &mut LineCursor) -> Option<Side>
    ensures has { IfSome result (λ s. IsEntryNumber s.entry) }
    ensures only { Reads HasSideText texts.best_line at.old at.new (option_map side result) }
{
    if at.eat(b"best ") {
        read_side(at)
    } else {
        None
    }
}

/// Whether this is the line of this best plan. The error means out of memory.
pub fn is_best_line(alloc: Global, line: &[u8], s: Side) -> Result<bool, Memory>
    ensures { IfOk result (λ b. IsTrue b ↔ (line.now ≡ texts.best_line (side s))) }
{
    let text = best_line(alloc, s)?;
    Ok(line == text.items())
}
