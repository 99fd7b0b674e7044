//! The lines of plans that are not run.

ghost use Rattle.std.specs.Prelude.{◌≡◌, IfOk, MatchOption};
ghost use Rattle.plan_reply.specs.Told as texts;
ghost use Rattle.plan_reply.specs.work.Told as texts_work;
ghost use Rattle.plan_reply.specs.work.Told.{IsReasonOf};

use cost_rules::MOST_COST;
use pg_base::Memory;
use plan_space::Judged;
use std::alloc::Global;

/// The text that a plan is none of the plan space, with the line of the wrong node.
fn outside_text(alloc: Global, line: u32) -> Result<Vec<u8>, Memory>
    ensures { IfOk result (λ text. text.items ≡ texts.reason_text (Judged.Outside line)) }
{
    let text = format!(in alloc; "P2 line {line}")?;
    Ok(text.into_bytes())
}

/// The text that a plan costs as much as the limit or more, with the limit.
fn limit_text(alloc: Global) -> Result<Vec<u8>, Memory>
    ensures { IfOk result (λ text. text.items ≡ texts.reason_text Judged.Limit) }
{
    let text = format!(in alloc; "P4 cost {}", MOST_COST)?;
    Ok(text.into_bytes())
}

/// The text that a number of a node is not its own: its line, whether it is the cost, the number written and the node's own.
fn number_text(
    alloc: Global,
    line: u32,
    is_cost: bool,
    printed: u64,
    own: u64,
) -> Result<Vec<u8>, Memory>
    ensures { IfOk result (λ text.
        text.items ≡ texts.reason_text (Judged.Number line is_cost printed own)) }
{
    let text = if is_cost {
        format!(in alloc; "P3 line {line} cost {printed} is {own}")?
    } else {
        format!(in alloc; "P3 line {line} rows {printed} is {own}")?
    };
    Ok(text.into_bytes())
}

/// Why a plan is not run. None of a good one.
pub(crate) fn reason_text(alloc: Global, judged: Judged) -> Result<Option<Vec<u8>>, Memory>
    ensures { IfOk result (λ o.
        MatchOption o (judged ≡ Judged.Good) (λ text. IsReasonOf judged text.items)) }
{
    let text = match judged {
        Judged::Good => return Ok(None),
        Judged::Outside { line } => outside_text(alloc, line)?,
        Judged::Limit => limit_text(alloc)?,
        Judged::Number {
            line,
            is_cost,
            printed,
            own,
        } => number_text(alloc, line, is_cost, printed, own)?,
    };
    Ok(Some(text))
}
