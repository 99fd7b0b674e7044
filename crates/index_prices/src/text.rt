//! An advice as lines.

ghost use Rattle.std.specs.Prelude.{◌≡◌, ◌≤◌, ◌++◌, length, IfOk, OnOk};
ghost use Rattle.pg_base.specs.Sets.{has};
ghost use Rattle.plan_laws.specs.Moved.{added_from};
ghost use Rattle.index_prices.specs.Replies.{advice_text, use_line, use_lines};

use crate::adding::has_number;
use advisor::Advice;
use catalog::Candidate;
use pg_base::{MOST_CANDIDATES, Memory};
use std::alloc::Global;

/// Appends the line of a candidate that is to be made.
fn put_use(text: &mut Vec<u8>, x: &Candidate) -> Result<(), Memory>
    ensures { OnOk result (text.new.items ≡ text.old.items ++ use_line x.now) }
{
    text.extend_from_slice(b"use ")?;
    text.extend_from_slice(x.name.items())?;
    text.push(b'\n')?;
    Ok(())
}

/// The lines of the candidates of a set, in list order.
fn use_lines(alloc: Global, candidates: &[Candidate], set: u16) -> Result<Vec<u8>, Memory>
    requires { length candidates.now ≤ MOST_CANDIDATES }
    ensures { IfOk result (λ text. text.items ≡ use_lines (added_from 0 (has set) candidates.now)) }
{
    let mut text = Vec::new(alloc);
    for j in 0..candidates.len() {
        if has_number(set, j) {
            put_use(&mut text, &candidates[j])?;
        }
    }
    Ok(text)
}

/// The lines of an advice, each ended by LF: `use NAME` for each member, in list order, and `cost=SUM`. The error means out of
/// memory.
pub(crate) fn advice_text(
    alloc: Global,
    candidates: &[Candidate],
    advice: Advice,
) -> Result<Vec<u8>, Memory>
    requires { length candidates.now ≤ MOST_CANDIDATES }
    ensures { IfOk result (λ text. text.items ≡ advice_text candidates.now advice.set advice.sum) }
{
    let mut text = use_lines(alloc, candidates, advice.set)?;
    let sum = advice.sum;
    let line = format!(in alloc; "cost={sum}\n")?;
    text.extend_from_slice(line.as_bytes())?;
    Ok(text)
}
