//! The statements of a script, worked one after another.

ghost use Rattle.std.specs.Prelude.{◌≡◌, ◌≤◌, ◌^◌, IfErr, OnOk, length};
ghost use Rattle.pg_base.specs.declared.limits.TheConstants.{MOST_SCRIPT_BYTES};
ghost use Rattle.sql_query.specs.Worlds.{empty_world};
ghost use Rattle.statements.specs.reply_Putting.{HasWriteCause};
ghost use Rattle.pgplan.specs.Runs.{IsAnswered};
ghost use Rattle.pgplan.specs.work.Runs.{Ends};

use crate::machine::Machine;
use heap::Counters;
use pg_base::{Sink, Steps};
use statements::End;

/// Works all statements of the text, from its first byte on, by a machine without tables. Each reply is written before the
/// next statement is read.
pub(crate) fn work<C: Counters, K: Sink>(
    machine: &mut Machine<C>,
    text: &[u8],
    out: &mut K,
    fetches: &mut Steps<C::Fetches>,
    reads: &mut Steps<C::Looks>,
) -> Result<(), End>
    requires new { machine.old ≡ empty_world }
    requires short { length text.now ≤ MOST_SCRIPT_BYTES }
    ensures done { OnOk result (IsAnswered text.now (K.held out.old) (K.held out.new)) }
    ensures ended { IfErr result (λ e.
        Ends e text.now machine.new (K.held out.old) (K.held out.new)) }
    ensures cause { HasWriteCause End.Write (K.faults out.old) (K.faults out.new) result }
{
    let mut at: u32 = 0;
    'statements: while (at as usize) < text.len() {
        at = machine.step(text, at, out, fetches, reads)?;
    }
    Ok(())
}
